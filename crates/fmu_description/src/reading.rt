//! A whole description.
ghost use Rattle.std.specs.Prelude.{◌≡◌, ◌<◌, ℕ, Ok, Err, IfOk, length};
ghost use Rattle.toml.specs.View.{table_view};
ghost use Rattle.description_specs.specs.Descriptions as spec;
ghost use Rattle.description_specs.specs.Variables.{refusal};
ghost use Rattle.fmu_description.specs.Answers.{Gives};

use crate::binaries::read_binaries;
use crate::clocks::{countdown_references, read_clocks};
use crate::description::Description;
use crate::error::DescError;
use crate::head::read_head;
use crate::terminals::read_terminals;
use can_frame::Numbers;
use description_specs::Field;
use document_reading::{DocumentError, read_document};
use std::alloc::Global;
use toml::Table;

/// The description that these bytes are, or the first check that fails.
pub fn read_description(alloc: Global, bytes: &[u8]) -> Result<Description, DescError>
    ensures found { IfOk result (λ d. spec.description_of bytes.now ≡ Ok d) }
    ensures refused { (f : Field) (place : ℕ) → result ≡ Err (DescError.Field f place) → spec.description_of bytes.now ≡ Err (refusal f place) }

    // A text over the limit is refused as such, whatever memory there is.
    ensures sized { spec.most_bytes < length bytes.now → result ≡ Err (DescError.Field Field.Size spec.most_bytes) }
{
    read_file(alloc, bytes)
}

#[tactic(auto, unfolding(description_specs::specs::Descriptions::description_of))]
fn read_file(alloc: Global, bytes: &[u8]) -> Result<Description, DescError>
    ensures gives { Gives (λ d. d) result (spec.description_of bytes.now) }
    ensures sized { spec.most_bytes < length bytes.now → result ≡ Err (DescError.Field Field.Size spec.most_bytes) }
{
    if 1_048_576 < bytes.len() {
        return Err(DescError::Field(Field::Size, 1_048_576));
    }
    match read_document(alloc, bytes) {
        Ok(table) => read_table(alloc, &table),
        Err(DocumentError::Broken) => Err(DescError::Field(Field::Toml, 0)),
        Err(DocumentError::Memory) => Err(DescError::Memory),
    }
}

#[tactic(auto, unfolding(description_specs::specs::Descriptions::description_in))]
fn read_table(alloc: Global, table: &Table) -> Result<Description, DescError>
    ensures { Gives (λ d. d) result (spec.description_in (table_view table.now)) }
{
    let identifier = read_head(alloc, table)?;
    let clocks = read_clocks(alloc, table)?;
    let binaries = read_binaries(alloc, &clocks, table)?;
    let terminals = read_terminals(alloc, &binaries, table)?;
    let countdown = countdown_references(alloc, &clocks)?;
    Ok(Description {
        identifier,
        countdown: Numbers::of(countdown),
        terminals,
    })
}
