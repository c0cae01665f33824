//! A whole network file.
ghost use Rattle.std.specs.Prelude.{◌≡◌, ℕ, Ok, Err, IfOk};
ghost use Rattle.toml.specs.View.{table_view};
ghost use Rattle.network_specs.specs.NetworkFiles as spec;
ghost use Rattle.network_specs.specs.Settings.{refusal};
ghost use Rattle.network_file.specs.Answers.{Gives};

use crate::buses::read_buses;
use crate::error::NetworkFileError;
use crate::nodes::read_nodes;
use crate::parts::NetworkFile;
use crate::script::read_script;
use crate::settings::read_settings;
use document_reading::{DocumentError, read_document};
use network_specs::NetworkField;
use std::alloc::Global;
use toml::Table;

/// What these bytes say, or the first check that fails.
pub fn read_network_file(alloc: Global, bytes: &[u8]) -> Result<NetworkFile, NetworkFileError>
    ensures found { IfOk result (λ f. spec.network_file_of bytes.now ≡ Ok f) }
    ensures refused { (f : NetworkField) (place : ℕ) → result ≡ Err (NetworkFileError.Field f place) → spec.network_file_of bytes.now ≡ Err (refusal f place) }
{
    read_file(alloc, bytes)
}

#[tactic(auto, unfolding(network_specs::specs::NetworkFiles::network_file_of))]
fn read_file(alloc: Global, bytes: &[u8]) -> Result<NetworkFile, NetworkFileError>
    ensures { Gives (λ f. f) result (spec.network_file_of bytes.now) }
{
    if 1_048_576 < bytes.len() {
        return Err(NetworkFileError::Field(NetworkField::Size, 1_048_576));
    }
    match read_document(alloc, bytes) {
        Ok(table) => read_table(alloc, &table),
        Err(DocumentError::Broken) => Err(NetworkFileError::Field(NetworkField::Toml, 0)),
        Err(DocumentError::Memory) => Err(NetworkFileError::Memory),
    }
}

#[tactic(auto, unfolding(network_specs::specs::NetworkFiles::network_file_in))]
fn read_table(alloc: Global, table: &Table) -> Result<NetworkFile, NetworkFileError>
    ensures { Gives (λ f. f) result (spec.network_file_in (table_view table.now)) }
{
    let settings = read_settings(table)?;
    let buses = read_buses(alloc, settings.resolution, table)?;
    let nodes = read_nodes(alloc, &buses, table)?;
    let script = read_script(alloc, &buses, &nodes, table)?;
    Ok(NetworkFile {
        settings,
        buses,
        nodes,
        script,
    })
}
