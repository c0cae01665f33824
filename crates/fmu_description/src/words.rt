//! Value references and words of a variable.
ghost use Rattle.std.specs.Prelude.{◌≡◌};
ghost use Rattle.toml.specs.View.{table_view};
ghost use Rattle.description_specs.specs.Variables as spec;

use description_specs::{BinaryVariable, Causality, ClockVariable, IntervalVariability};
use document_reading::{number_at, text_at};
use toml::Table;

/// The value reference at a key.
pub(crate) fn reference_at(table: &Table, key: &str) -> Option<u32>
    ensures { result ≡ spec.reference key.now (table_view table.now) }
{
    match number_at(table, key, 0, 4_294_967_295) {
        Some(n) => Some(n as u32),
        None => None,
    }
}

/// The causality of a variable.
pub(crate) fn causality_at(table: &Table) -> Option<Causality>
    ensures { result ≡ spec.causality (table_view table.now) }
{
    match text_at(table, "causality") {
        Some(text) => causality_of(text),
        None => None,
    }
}

fn causality_of(text: &str) -> Option<Causality>
    ensures { result ≡ spec.causality_of text.now }
{
    match text {
        "input" => Some(Causality::Input),
        "output" => Some(Causality::Output),
        _ => None,
    }
}

/// The interval that a text names.
pub(crate) fn interval_of(text: &str) -> Option<IntervalVariability>
    ensures { result ≡ spec.interval_of text.now }
{
    match text {
        "triggered" => Some(IntervalVariability::Triggered),
        "countdown" => Some(IntervalVariability::Countdown),
        _ => None,
    }
}

pub(crate) fn is_input(causality: Causality) -> bool
    ensures { result ≡ spec.is_input causality }
{
    matches!(causality, Causality::Input)
}

pub(crate) fn is_countdown(interval: IntervalVariability) -> bool
    ensures { result ≡ spec.is_countdown interval }
{
    matches!(interval, IntervalVariability::Countdown)
}

/// Whether a clock has this value reference.
pub(crate) fn has_clock(clocks: &[ClockVariable], reference: u32) -> bool
    ensures { result ≡ spec.has_clock clocks.now reference }
{
    clocks.iter().any(|c| c.reference == reference)
}

/// Whether a binary has this value reference.
pub(crate) fn has_binary(binaries: &[BinaryVariable], reference: u32) -> bool
    ensures { result ≡ spec.has_binary binaries.now reference }
{
    binaries.iter().any(|b| b.reference == reference)
}

pub(crate) fn same_causality(one: Causality, other: Causality) -> bool
    ensures { result ≡ spec.same_causality one other }
{
    is_input(one) == is_input(other)
}
