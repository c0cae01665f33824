//! The binary variables of a description.
ghost use Rattle.std.specs.Prelude.{◌≡◌, ◌≢◌, [], true};
ghost use Rattle.toml.specs.View.{table_view, array_view, items_view};
ghost use Rattle.std.specs.List.{list_any};
ghost use Rattle.document_specs.specs.Checks.{each};
ghost use Rattle.document_specs.specs.Documents.{are_tables, tables_of};
ghost use Rattle.description_specs.specs.Binaries as spec;
ghost use Rattle.fmu_description.specs.Answers.{Gives};

use crate::error::DescError;
use crate::words::{
    causality_at, has_binary, has_clock, is_countdown, reference_at, same_causality,
};
use description_specs::{BinaryVariable, Causality, ClockVariable, Field};
use document_reading::{at, number_at, number_of, only, optional_tables, row, text_at};
use std::alloc::Global;
use toml::{Table, Value};

/// The binaries of a description.
#[tactic(auto, unfolding(description_specs::specs::Binaries::binaries_of))]
pub(crate) fn read_binaries(
    alloc: Global,
    clocks: &[ClockVariable],
    table: &Table,
) -> Result<Vec<BinaryVariable>, DescError>
    ensures { Gives (λ v. v.items) result (spec.binaries_of clocks.now (table_view table.now)) }
{
    let Some(rows) = optional_tables(table, "Binary", 64) else {
        return Err(DescError::Field(Field::Binary, 0));
    };
    binaries_in(alloc, clocks, rows)
}

#[tactic(auto, using(document_reading::proofs::NextRow::next_is_table, document_reading::proofs::NextRow::each_next))]
fn binaries_in(
    alloc: Global,
    clocks: &[ClockVariable],
    rows: &[Value],
) -> Result<Vec<BinaryVariable>, DescError>
    requires { are_tables (items_view rows.now) ≡ true }
    ensures { Gives (λ v. v.items) result (each (spec.binary_of clocks.now) [] (tables_of (items_view rows.now))) }
{
    let mut binaries = Vec::new(alloc);
    for value in rows {
        let binary = read_binary(clocks, &binaries, row(value))?;
        binaries.push(binary)?;
    }
    Ok(binaries)
}

#[tactic(auto, unfolding(description_specs::specs::Binaries::binary_at))]
fn read_binary(
    clocks: &[ClockVariable],
    before: &[BinaryVariable],
    table: &Table,
) -> Result<BinaryVariable, DescError>
    ensures gives { Gives (λ b. b) result (spec.binary_of clocks.now before.now (table_view table.now)) }

    // It takes no memory, so a refusal names its field.
    ensures named { result ≢ Err DescError.Memory }
{
    let place = before.len() as u64;
    let Some(_name) = text_at(table, "name") else {
        return Err(DescError::Field(Field::BinaryName, place));
    };
    let Some(reference) = new_reference(clocks, before, table) else {
        return Err(DescError::Field(Field::BinaryValueReference, place));
    };
    let Some(causality) = causality_at(table) else {
        return Err(DescError::Field(Field::BinaryCausality, place));
    };
    let Some(clock) = trigger(clocks, causality, table) else {
        return Err(DescError::Field(Field::BinaryClocks, place));
    };
    let Some(most) = number_at(table, "maxSize", 256, 65536) else {
        return Err(DescError::Field(Field::BinaryMaxSize, place));
    };
    Ok(BinaryVariable {
        reference,
        causality,
        clock,
        max_size: most as u32,
    })
}

fn new_reference(clocks: &[ClockVariable], before: &[BinaryVariable], table: &Table) -> Option<u32>
    ensures { result ≡ spec.new_reference clocks.now before.now (table_view table.now) }
{
    match reference_at(table, "valueReference") {
        Some(reference) => {
            if has_clock(clocks, reference) || has_binary(before, reference) {
                None
            } else {
                Some(reference)
            }
        }
        None => None,
    }
}

/// The one clock of a binary: triggered, and of its causality.
fn trigger(clocks: &[ClockVariable], causality: Causality, table: &Table) -> Option<u32>
    ensures { result ≡ spec.trigger clocks.now causality (table_view table.now) }
{
    match at(table, "clocks") {
        Some(value) => match value.as_array() {
            Some(array) => clock_in(clocks, causality, array),
            None => None,
        },
        None => None,
    }
}

fn clock_in(clocks: &[ClockVariable], causality: Causality, array: &Vec<Value>) -> Option<u32>
    ensures { result ≡ spec.clock_in clocks.now causality (array_view array.now) }
{
    match only(array) {
        Some(value) => match number_of(value, 0, 4_294_967_295) {
            Some(reference) => {
                let reference = reference as u32;
                if ticks_with(clocks, causality, reference) {
                    Some(reference)
                } else {
                    None
                }
            }
            None => None,
        },
        None => None,
    }
}

fn ticks_with(clocks: &[ClockVariable], causality: Causality, reference: u32) -> bool
    ensures { result ≡ list_any (spec.ticks_with causality reference) clocks.now }
{
    clocks.iter().any(|c| {
        c.reference == reference
            && !is_countdown(c.interval)
            && same_causality(causality, c.causality)
    })
}
