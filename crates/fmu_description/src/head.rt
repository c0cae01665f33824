//! What stands before the arrays.
ghost use Rattle.std.specs.Prelude.{◌≡◌, ◌≢◌, true, option_map, IfOk};
ghost use Rattle.document_specs.specs.Documents.{is_identifier};
ghost use Rattle.toml.specs.View.{table_view};
ghost use Rattle.description_specs.specs.Descriptions as spec;
ghost use Rattle.fmu_description.specs.Answers.{Gives};

use crate::error::DescError;
use crate::names::name_of;
use can_frame::Name;
use description_specs::Field;
use document_reading::{flag_at, identifier_at, table_at, text_at};
use std::alloc::Global;
use toml::Table;

/// The identifier, behind what stands before the arrays.
pub(crate) fn read_head(alloc: Global, table: &Table) -> Result<Name, DescError>
    ensures { Gives (λ n. n) result (spec.head_of (table_view table.now)) }
{
    match identifier(table) {
        Ok(text) => Ok(name_of(alloc, text)?),
        Err(refusal) => Err(refusal),
    }
}

#[tactic(auto, unfolding(description_specs::specs::Descriptions::head_of))]
fn identifier<'a>(table: &'a Table) -> Result<&'a str, DescError>
    ensures text { Gives (λ s. s.now) result (spec.head_of (table_view table.now)) }
    ensures fits { IfOk result (λ s. is_identifier s.now ≡ true) }

    // It takes no memory, so a refusal names its field.
    ensures named { result ≢ Err DescError.Memory }
{
    let Some(_version) = version_at(table, "fmiVersion") else {
        return Err(DescError::Field(Field::FmiVersion, 0));
    };
    let Some(_model) = text_at(table, "modelName") else {
        return Err(DescError::Field(Field::ModelName, 0));
    };
    let Some(_token) = text_at(table, "instantiationToken") else {
        return Err(DescError::Field(Field::InstantiationToken, 0));
    };
    let Some(unit) = table_at(table, "CoSimulation") else {
        return Err(DescError::Field(Field::CoSimulation, 0));
    };
    let Some(name) = identifier_at(unit, "modelIdentifier") else {
        return Err(DescError::Field(Field::ModelIdentifier, 0));
    };
    let Some(true) = flag_at(unit, "hasEventMode") else {
        return Err(DescError::Field(Field::HasEventMode, 0));
    };
    Ok(name)
}

fn version_at<'a>(table: &'a Table, key: &str) -> Option<&'a str>
    ensures { option_map (λ s. s.now) result ≡ spec.version key.now (table_view table.now) }
{
    match text_at(table, key) {
        Some(text) => {
            if is_version(text.as_bytes()) {
                Some(text)
            } else {
                None
            }
        }
        None => None,
    }
}

fn is_version(text: &[u8]) -> bool
    ensures { result ≡ spec.is_version text.now }
{
    text.starts_with(b"3.0")
}
