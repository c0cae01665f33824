//! The bus of each terminal of a node.
ghost use Rattle.std.specs.Prelude.{◌≡◌, ◌≤◌, [], length, nat_lt, position};
ghost use Rattle.toml.specs.View.{view, table_view};
ghost use Rattle.document_specs.specs.Checks.{each};
ghost use Rattle.network_specs.specs.Buses.{is_bus};
ghost use Rattle.network_specs.specs.Nodes as spec;
ghost use Rattle.network_file.specs.Answers.{Gives};

use crate::error::NetworkFileError;
use crate::parts::{Attachment, Bus};
use can_frame::Bytes;
use document_reading::table_at;
use network_specs::NetworkField;
use std::alloc::Global;
use toml::{Table, Value};

/// The terminals of the node at a place, each with the bus that its entry names.
#[tactic(auto, unfolding(network_specs::specs::Nodes::attachments_of))]
pub(crate) fn read_attachments(
    alloc: Global,
    place: u64,
    buses: &[Bus],
    table: &Table,
) -> Result<Vec<Attachment>, NetworkFileError>
    requires { length buses.now ≤ 4 }
    ensures { Gives (λ v. v.items) result (spec.attachments_of place buses.now (table_view table.now)) }
{
    let Some(entries) = table_at(table, "bus") else {
        return Err(NetworkFileError::Field(NetworkField::NodeBus, place));
    };
    if !has_entries(entries) {
        return Err(NetworkFileError::Field(NetworkField::NodeBus, place));
    }
    attachments_in(alloc, place, buses, entries)
}

#[tactic(auto, using(crate::proofs::Counts::entry_count))]
fn has_entries(table: &Table) -> bool
    ensures { result ≡ nat_lt 0 (length (spec.entries_of (table_view table.now))) }
{
    0 < table.len()
}

fn attachments_in(
    alloc: Global,
    place: u64,
    buses: &[Bus],
    entries: &Table,
) -> Result<Vec<Attachment>, NetworkFileError>
    requires { length buses.now ≤ 4 }
    ensures { Gives (λ v. v.items) result (each (spec.attachment_at place buses.now) [] (spec.entries_of (table_view entries.now))) }
{
    let mut attachments = Vec::new(alloc);
    for (key, value) in entries.iter() {
        let attachment = attachment(alloc, place, buses, &attachments, key.as_str(), value)?;
        attachments.push(attachment)?;
    }
    Ok(attachments)
}

#[tactic(auto, unfolding(network_specs::specs::Nodes::attachment_at))]
fn attachment(
    alloc: Global,
    place: u64,
    buses: &[Bus],
    before: &[Attachment],
    key: &str,
    value: &Value,
) -> Result<Attachment, NetworkFileError>
    requires { length buses.now ≤ 4 }
    ensures { Gives (λ a. a) result (spec.attachment_at place buses.now before.now (key.now, view value.now)) }
{
    let Some(bus) = new_bus(buses, before, value) else {
        return Err(NetworkFileError::Field(NetworkField::NodeBus, place));
    };
    let terminal = Vec::from_slice(alloc, key.as_bytes())?;
    Ok(Attachment {
        terminal: Bytes::of(terminal),
        bus,
    })
}

fn new_bus(buses: &[Bus], before: &[Attachment], value: &Value) -> Option<u32>
    requires { length buses.now ≤ 4 }
    ensures { result ≡ spec.new_bus buses.now before.now (view value.now) }
{
    match bus_named(buses, value) {
        Some(bus) => {
            if stands_on(before, bus) {
                None
            } else {
                Some(bus)
            }
        }
        None => None,
    }
}

/// Where the bus stands that a value names.
pub(crate) fn bus_named(buses: &[Bus], value: &Value) -> Option<u32>
    requires { length buses.now ≤ 4 }
    ensures { result ≡ spec.bus_named buses.now (view value.now) }
{
    match value.as_str() {
        Some(name) => place_of_bus(buses, name.as_bytes()),
        None => None,
    }
}

fn place_of_bus(buses: &[Bus], name: &[u8]) -> Option<u32>
    requires { length buses.now ≤ 4 }
    ensures { result ≡ spec.place_of_bus buses.now name.now }
{
    match bus_position(buses, name) {
        Some(place) => Some(place as u32),
        None => None,
    }
}

fn bus_position(buses: &[Bus], name: &[u8]) -> Option<usize>
    ensures { result ≡ position (is_bus name.now) buses.now }
{
    buses.iter().position(|b| b.is_named(name))
}

/// Whether one of the terminals stands on the bus.
pub(crate) fn stands_on(attachments: &[Attachment], bus: u32) -> bool
    ensures { result ≡ spec.stands_on attachments.now bus }
{
    attachments.iter().any(|a| a.bus == bus)
}
