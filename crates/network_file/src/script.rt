//! The errors that are to happen.
ghost use Rattle.std.specs.Prelude.{◌≡◌, ◌≢◌, ◌≤◌, [], true, codes, length, option_and_then, position};
ghost use Rattle.toml.specs.View.{table_view, items_view};
ghost use Rattle.document_specs.specs.Checks.{each};
ghost use Rattle.document_specs.specs.Documents.{are_tables, tables_of};
ghost use Rattle.toml.specs.Data.{get_member};
ghost use Rattle.network_specs.specs.Nodes.{bus_named as named_bus};
ghost use Rattle.network_specs.specs.Scripts as spec;
ghost use Rattle.network_file.specs.Answers.{Gives};

use crate::attachments::{bus_named, stands_on};
use crate::error::NetworkFileError;
use crate::nodes::is_sender;
use crate::parts::{Bus, Node, ScriptEntry};
use crate::settings::number_or;
use document_reading::{at, number_at, optional_tables, row, text_at};
use error_script::ErrorEntry;
use network_specs::NetworkField;
use std::alloc::Global;
use toml::{Table, Value};

impl Node {
    fn is_on(&self, bus: u32, name: &[u8]) -> bool
        ensures { result ≡ spec.is_node_on bus name.now self.now }
    {
        self.is_named(name) && stands_on(&self.attachments, bus)
    }
}

/// The errors of a network with these buses and nodes.
#[tactic(auto, unfolding(network_specs::specs::Scripts::script_of))]
pub(crate) fn read_script(
    alloc: Global,
    buses: &[Bus],
    nodes: &[Node],
    table: &Table,
) -> Result<Vec<ScriptEntry>, NetworkFileError>
    requires few_buses { length buses.now ≤ 4 }
    requires few_nodes { length nodes.now ≤ 32 }
    ensures { Gives (λ v. v.items) result (spec.script_of buses.now nodes.now (table_view table.now)) }
{
    let Some(rows) = optional_tables(table, "error", 1024) else {
        return Err(NetworkFileError::Field(NetworkField::Error, 0));
    };
    script_in(alloc, buses, nodes, rows)
}

#[tactic(auto, using(document_reading::proofs::NextRow::next_is_table, document_reading::proofs::NextRow::each_next))]
fn script_in(
    alloc: Global,
    buses: &[Bus],
    nodes: &[Node],
    rows: &[Value],
) -> Result<Vec<ScriptEntry>, NetworkFileError>
    requires few_buses { length buses.now ≤ 4 }
    requires few_nodes { length nodes.now ≤ 32 }
    requires tables { are_tables (items_view rows.now) ≡ true }
    ensures { Gives (λ v. v.items) result (each (spec.entry_of buses.now nodes.now) [] (tables_of (items_view rows.now))) }
{
    let mut script = Vec::new(alloc);
    for value in rows {
        let entry = read_entry(script.len() as u64, buses, nodes, row(value))?;
        script.push(entry)?;
    }
    Ok(script)
}

#[tactic(auto, unfolding(network_specs::specs::Scripts::entry_at))]
fn read_entry(
    place: u64,
    buses: &[Bus],
    nodes: &[Node],
    table: &Table,
) -> Result<ScriptEntry, NetworkFileError>
    requires few_buses { length buses.now ≤ 4 }
    requires few_nodes { length nodes.now ≤ 32 }
    ensures gives { Gives (λ e. e) result (spec.entry_at place buses.now nodes.now (table_view table.now)) }

    // It takes no memory, so a refusal names its field.
    ensures named { result ≢ Err NetworkFileError.Memory }
{
    let Some(bus) = bus_at(buses, table) else {
        return Err(NetworkFileError::Field(NetworkField::ErrorBus, place));
    };
    let Some(first) = number_at(table, "attempt", 1, 4_294_967_296) else {
        return Err(NetworkFileError::Field(NetworkField::ErrorAttempt, place));
    };
    let Some(count) = number_or(table, "count", 1, 1, 4_294_967_296) else {
        return Err(NetworkFileError::Field(NetworkField::ErrorCount, place));
    };
    let Some(kind) = number_at(table, "kind", 1, 4) else {
        return Err(NetworkFileError::Field(NetworkField::ErrorKind, place));
    };
    let Some(by) = detector(nodes, bus, table) else {
        return Err(NetworkFileError::Field(NetworkField::ErrorBy, place));
    };
    let Some(bit) = number_at(table, "bit", 0, 1023) else {
        return Err(NetworkFileError::Field(NetworkField::ErrorBit, place));
    };
    let entry = ErrorEntry {
        first,
        count,
        kind: kind as u8,
        by,
        bit: bit as u32,
    };
    Ok(ScriptEntry { bus, entry })
}

fn bus_at(buses: &[Bus], table: &Table) -> Option<u32>
    requires { length buses.now ≤ 4 }
    ensures { result ≡ option_and_then (named_bus buses.now) (get_member (codes "bus") (table_view table.now)) }
{
    match at(table, "bus") {
        Some(value) => bus_named(buses, value),
        None => None,
    }
}

/// Who detects the error: `Some(None)` for the sender.
fn detector(nodes: &[Node], bus: u32, table: &Table) -> Option<Option<u32>>
    requires { length nodes.now ≤ 32 }
    ensures { result ≡ spec.detector nodes.now bus (table_view table.now) }
{
    match text_at(table, "by") {
        Some(name) => detector_of(nodes, bus, name.as_bytes()),
        None => None,
    }
}

fn detector_of(nodes: &[Node], bus: u32, name: &[u8]) -> Option<Option<u32>>
    requires { length nodes.now ≤ 32 }
    ensures { result ≡ spec.detector_of nodes.now bus name.now }
{
    if is_sender(name) {
        return Some(None);
    }
    match node_position(nodes, bus, name) {
        Some(place) => Some(Some(place as u32)),
        None => None,
    }
}

fn node_position(nodes: &[Node], bus: u32, name: &[u8]) -> Option<usize>
    ensures { result ≡ position (spec.is_node_on bus name.now) nodes.now }
{
    nodes.iter().position(|n| n.is_on(bus, name))
}
