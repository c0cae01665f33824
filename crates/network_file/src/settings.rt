//! The numbers at the top of the file.
ghost use Rattle.std.specs.Prelude.{◌≡◌, ◌≢◌, ◌≤◌, ◌^◌, IfOk, IfSome};
ghost use Rattle.toml.specs.View.{table_view};
ghost use Rattle.network_specs.specs.Settings as spec;
ghost use Rattle.network_file.specs.Answers.{Gives};

use crate::error::NetworkFileError;
use crate::parts::Settings;
use document_reading::{at, number_at, number_of};
use network_specs::NetworkField;
use toml::Table;

/// The numbers at the top.
#[tactic(auto, unfolding(network_specs::specs::Settings::settings_of))]
pub(crate) fn read_settings(table: &Table) -> Result<Settings, NetworkFileError>
    ensures gives { Gives (λ s. s) result (spec.settings_of (table_view table.now)) }
    ensures low { IfOk result (λ s. 1 ≤ s.resolution) }
    ensures high { IfOk result (λ s. s.resolution ≤ 10 ^ 12) }

    // It takes no memory, so a refusal names its field.
    ensures named { result ≢ Err NetworkFileError.Memory }
{
    let Some(resolution) = number_at(table, "resolution", 1, 1_000_000_000_000) else {
        return Err(NetworkFileError::Field(NetworkField::Resolution, 0));
    };
    let Some(stop) = number_at(table, "stop", 0, 4_611_686_018_427_387_904) else {
        return Err(NetworkFileError::Field(NetworkField::Stop, 0));
    };
    let Some(events) = number_or(table, "events", 1_000_000, 1, 100_000_000) else {
        return Err(NetworkFileError::Field(NetworkField::Events, 0));
    };
    let Some(fuel) = number_or(table, "fuel", 1_000_000, 1, 1_000_000_000) else {
        return Err(NetworkFileError::Field(NetworkField::Fuel, 0));
    };
    Ok(Settings {
        resolution,
        stop,
        events,
        fuel,
    })
}

/// The integer from `low` to `high` at a key, or `otherwise` where nothing stands there.
pub(crate) fn number_or(
    table: &Table,
    key: &str,
    otherwise: u64,
    low: u64,
    high: u64,
) -> Option<u64>
    ensures { result ≡ spec.number_or otherwise low high key.now (table_view table.now) }
{
    match at(table, key) {
        Some(value) => number_of(value, low, high),
        None => Some(otherwise),
    }
}
