//! The terminals of a description.
ghost use Rattle.std.specs.Prelude.{◌≡◌, [], true, option_map, IfSome};
ghost use Rattle.std.specs.List.{find as list_find, list_any};
ghost use Rattle.toml.specs.View.{table_view, items_view};
ghost use Rattle.document_specs.specs.Checks.{each};
ghost use Rattle.document_specs.specs.Documents.{are_tables, tables_of, is_identifier};
ghost use Rattle.description_specs.specs.Terminals as spec;
ghost use Rattle.fmu_description.specs.Answers.{Gives};

use crate::description::Terminal;
use crate::error::DescError;
use crate::names::name_of;
use crate::words::{reference_at, same_causality};
use description_specs::{BinaryVariable, Causality, Field};
use document_reading::{identifier_at, row, tables};
use std::alloc::Global;
use toml::{Table, Value};

impl Terminal {
    fn is_named(&self, name: &[u8]) -> bool
        ensures { result ≡ spec.is_named name.now self.now }
    {
        self.name.as_slice() == name
    }

    fn has_variable(&self, reference: u32) -> bool
        ensures { result ≡ spec.stands_in reference self.now }
    {
        reference == self.rx_data
            || reference == self.tx_data
            || reference == self.rx_clock
            || reference == self.tx_clock
    }
}

/// The terminals of a description.
#[tactic(auto, unfolding(description_specs::specs::Terminals::terminals_of))]
pub(crate) fn read_terminals(
    alloc: Global,
    binaries: &[BinaryVariable],
    table: &Table,
) -> Result<Vec<Terminal>, DescError>
    ensures { Gives (λ v. v.items) result (spec.terminals_of binaries.now (table_view table.now)) }
{
    let Some(rows) = tables(table, "Terminal", 1, 4) else {
        return Err(DescError::Field(Field::Terminal, 0));
    };
    terminals_in(alloc, binaries, rows)
}

#[tactic(auto, using(document_reading::proofs::NextRow::next_is_table, document_reading::proofs::NextRow::each_next))]
fn terminals_in(
    alloc: Global,
    binaries: &[BinaryVariable],
    rows: &[Value],
) -> Result<Vec<Terminal>, DescError>
    requires { are_tables (items_view rows.now) ≡ true }
    ensures { Gives (λ v. v.items) result (each (spec.terminal_of binaries.now) [] (tables_of (items_view rows.now))) }
{
    let mut terminals = Vec::new(alloc);
    for value in rows {
        let terminal = read_terminal(alloc, binaries, &terminals, row(value))?;
        terminals.push(terminal)?;
    }
    Ok(terminals)
}

#[tactic(auto, unfolding(description_specs::specs::Terminals::terminal_at))]
fn read_terminal(
    alloc: Global,
    binaries: &[BinaryVariable],
    before: &[Terminal],
    table: &Table,
) -> Result<Terminal, DescError>
    ensures { Gives (λ t. t) result (spec.terminal_of binaries.now before.now (table_view table.now)) }
{
    let place = before.len() as u64;
    let Some(name) = new_name(before, table) else {
        return Err(DescError::Field(Field::TerminalName, place));
    };
    let Some(rx) = data_at(Causality::Input, binaries, before, table, "Rx_Data") else {
        return Err(DescError::Field(Field::TerminalRxData, place));
    };
    let Some(rx_clock) = its_clock(rx, before, table, "Rx_Clock") else {
        return Err(DescError::Field(Field::TerminalRxClock, place));
    };
    let Some(tx) = data_at(Causality::Output, binaries, before, table, "Tx_Data") else {
        return Err(DescError::Field(Field::TerminalTxData, place));
    };
    let Some(tx_clock) = its_clock(tx, before, table, "Tx_Clock") else {
        return Err(DescError::Field(Field::TerminalTxClock, place));
    };
    Ok(Terminal {
        name: name_of(alloc, name)?,
        rx_data: rx.reference,
        tx_data: tx.reference,
        rx_clock,
        tx_clock,
        rx_max: rx.max_size,
        tx_max: tx.max_size,
    })
}

fn new_name<'a>(before: &[Terminal], table: &'a Table) -> Option<&'a str>
    ensures text { option_map (λ s. s.now) result ≡ spec.new_name before.now (table_view table.now) }
    ensures fits { IfSome result (λ s. is_identifier s.now ≡ true) }
{
    match identifier_at(table, "name") {
        Some(name) => {
            if has_name(before, name.as_bytes()) {
                None
            } else {
                Some(name)
            }
        }
        None => None,
    }
}

fn has_name(before: &[Terminal], name: &[u8]) -> bool
    ensures { result ≡ spec.has_name before.now name.now }
{
    before.iter().any(|t| t.is_named(name))
}

fn is_free(before: &[Terminal], reference: u32) -> bool
    ensures { result ≡ spec.is_free before.now reference }
{
    !is_taken(before, reference)
}

fn is_taken(before: &[Terminal], reference: u32) -> bool
    ensures { result ≡ list_any (spec.stands_in reference) before.now }
{
    before.iter().any(|t| t.has_variable(reference))
}

/// The binary of this causality that a value reference names, if it stands in no earlier terminal.
fn data_at(
    causality: Causality,
    binaries: &[BinaryVariable],
    before: &[Terminal],
    table: &Table,
    key: &str,
) -> Option<BinaryVariable>
    ensures { result ≡ spec.data_at causality binaries.now before.now key.now (table_view table.now) }
{
    match reference_at(table, key) {
        Some(reference) => {
            if is_free(before, reference) {
                find(binaries, causality, reference)
            } else {
                None
            }
        }
        None => None,
    }
}

fn find(binaries: &[BinaryVariable], causality: Causality, reference: u32) -> Option<BinaryVariable>
    ensures { result ≡ list_find (spec.is_binary causality reference) binaries.now }
{
    binaries.iter().copied().find(|b| b.reference == reference
        && same_causality(causality, b.causality))
}

/// The clock of a binary, if it stands in no earlier terminal.
fn its_clock(binary: BinaryVariable, before: &[Terminal], table: &Table, key: &str) -> Option<u32>
    ensures { result ≡ spec.its_clock binary before.now key.now (table_view table.now) }
{
    match reference_at(table, key) {
        Some(reference) => {
            if reference == binary.clock && is_free(before, reference) {
                Some(reference)
            } else {
                None
            }
        }
        None => None,
    }
}
