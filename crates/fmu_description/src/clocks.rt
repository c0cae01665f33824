//! The clocks of a description.
ghost use Rattle.std.specs.Prelude.{◌≡◌, ◌≢◌, [], true, IfOk};
ghost use Rattle.toml.specs.View.{table_view, items_view};
ghost use Rattle.document_specs.specs.Checks.{each};
ghost use Rattle.document_specs.specs.Documents.{are_tables, tables_of};
ghost use Rattle.description_specs.specs.Clocks as spec;
ghost use Rattle.fmu_description.specs.Answers.{Gives};

use crate::error::DescError;
use crate::words::{causality_at, has_clock, interval_of, is_countdown, is_input, reference_at};
use description_specs::{Causality, ClockVariable, Field, IntervalVariability};
use document_reading::{optional_tables, row, text_at};
use std::alloc::{AllocError, Global};
use toml::{Table, Value};

/// The clocks of a description.
#[tactic(auto, unfolding(description_specs::specs::Clocks::clocks_of))]
pub(crate) fn read_clocks(alloc: Global, table: &Table) -> Result<Vec<ClockVariable>, DescError>
    ensures { Gives (λ v. v.items) result (spec.clocks_of (table_view table.now)) }
{
    let Some(rows) = optional_tables(table, "Clock", 64) else {
        return Err(DescError::Field(Field::Clock, 0));
    };
    clocks_in(alloc, rows)
}

#[tactic(auto, using(document_reading::proofs::NextRow::next_is_table, document_reading::proofs::NextRow::each_next))]
fn clocks_in(alloc: Global, rows: &[Value]) -> Result<Vec<ClockVariable>, DescError>
    requires { are_tables (items_view rows.now) ≡ true }
    ensures { Gives (λ v. v.items) result (each spec.clock_of [] (tables_of (items_view rows.now))) }
{
    let mut clocks = Vec::new(alloc);
    for value in rows {
        let clock = read_clock(&clocks, row(value))?;
        clocks.push(clock)?;
    }
    Ok(clocks)
}

#[tactic(auto, unfolding(description_specs::specs::Clocks::clock_at))]
fn read_clock(before: &[ClockVariable], table: &Table) -> Result<ClockVariable, DescError>
    ensures gives { Gives (λ c. c) result (spec.clock_of before.now (table_view table.now)) }

    // It takes no memory, so a refusal names its field.
    ensures named { result ≢ Err DescError.Memory }
{
    let place = before.len() as u64;
    let Some(_name) = text_at(table, "name") else {
        return Err(DescError::Field(Field::ClockName, place));
    };
    let Some(reference) = new_reference(before, table) else {
        return Err(DescError::Field(Field::ClockValueReference, place));
    };
    let Some(causality) = causality_at(table) else {
        return Err(DescError::Field(Field::ClockCausality, place));
    };
    let Some(interval) = interval_at(causality, before, table) else {
        return Err(DescError::Field(Field::ClockIntervalVariability, place));
    };
    Ok(ClockVariable {
        reference,
        causality,
        interval,
    })
}

fn new_reference(before: &[ClockVariable], table: &Table) -> Option<u32>
    ensures { result ≡ spec.new_among_clocks before.now (table_view table.now) }
{
    match reference_at(table, "valueReference") {
        Some(reference) => {
            if has_clock(before, reference) {
                None
            } else {
                Some(reference)
            }
        }
        None => None,
    }
}

fn interval_at(
    causality: Causality,
    before: &[ClockVariable],
    table: &Table,
) -> Option<IntervalVariability>
    ensures { result ≡ spec.interval causality before.now (table_view table.now) }
{
    match text_at(table, "intervalVariability") {
        Some(text) => match interval_of(text) {
            Some(interval) => {
                if may_tick(causality, before, interval) {
                    Some(interval)
                } else {
                    None
                }
            }
            None => None,
        },
        None => None,
    }
}

fn may_tick(causality: Causality, before: &[ClockVariable], interval: IntervalVariability) -> bool
    ensures { result ≡ spec.may_tick causality before.now interval }
{
    match interval {
        IntervalVariability::Triggered => true,
        IntervalVariability::Countdown => is_input(causality) && countdowns(before) < 8,
    }
}

fn countdowns(clocks: &[ClockVariable]) -> usize
    ensures { result ≡ spec.countdowns clocks.now }
{
    clocks.iter().filter(|c| is_countdown(c.interval)).count()
}

/// The value references of the countdown clocks.
pub(crate) fn countdown_references(
    alloc: Global,
    clocks: &[ClockVariable],
) -> Result<Vec<u32>, AllocError>
    ensures { IfOk result (λ v. v.items ≡ spec.countdown_references clocks.now) }
{
    clocks
        .iter()
        .filter(|c| is_countdown(c.interval))
        .map(|c| c.reference)
        .collect(alloc)
}
