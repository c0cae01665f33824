//! The nodes.
ghost use Rattle.std.specs.Prelude.{◌≡◌, ◌≤◌, [], true, option_map, IfSome, IfOk, length};
ghost use Rattle.toml.specs.View.{table_view, items_view};
ghost use Rattle.document_specs.specs.Checks.{each};
ghost use Rattle.document_specs.specs.Documents.{are_tables, tables_of};
ghost use Rattle.network_specs.specs.Buses.{is_name};
ghost use Rattle.network_specs.specs.Nodes as spec;
ghost use Rattle.network_file.specs.Answers.{Gives};

use crate::attachments::read_attachments;
use crate::error::NetworkFileError;
use crate::names::{name_at, name_of};
use crate::parts::{Bus, Node};
use crate::rows::few_tables;
use document_reading::{identifier_at, row};
use network_specs::NetworkField;
use std::alloc::Global;
use toml::{Table, Value};

impl Node {
    pub(crate) fn is_named(&self, name: &[u8]) -> bool
        ensures { result ≡ spec.is_node name.now self.now }
    {
        self.name.as_slice() == name
    }
}

/// The nodes of a network with these buses.
#[tactic(auto, unfolding(network_specs::specs::Nodes::nodes_of))]
pub(crate) fn read_nodes(
    alloc: Global,
    buses: &[Bus],
    table: &Table,
) -> Result<Vec<Node>, NetworkFileError>
    requires { length buses.now ≤ 4 }
    ensures gives { Gives (λ v. v.items) result (spec.nodes_of buses.now (table_view table.now)) }
    ensures few { IfOk result (λ v. length v.items ≤ 32) }
{
    let Some(rows) = few_tables(table, "node", 1, 32) else {
        return Err(NetworkFileError::Field(NetworkField::Node, 0));
    };
    nodes_in(alloc, buses, rows)
}

#[tactic(auto, using(document_reading::proofs::NextRow::next_is_table, document_reading::proofs::NextRow::each_next))]
fn nodes_in(alloc: Global, buses: &[Bus], rows: &[Value]) -> Result<Vec<Node>, NetworkFileError>
    requires few { length buses.now ≤ 4 }
    requires tables { are_tables (items_view rows.now) ≡ true }
    ensures gives { Gives (λ v. v.items) result (each (spec.node_of buses.now) [] (tables_of (items_view rows.now))) }
    ensures count { IfOk result (λ v. length v.items ≡ length rows.now) }
{
    let mut nodes = Vec::new(alloc);
    for value in rows {
        let node = read_node(alloc, buses, &nodes, row(value))?;
        nodes.push(node)?;
    }
    Ok(nodes)
}

#[tactic(auto, unfolding(network_specs::specs::Nodes::node_at), using(crate::proofs::Ascii::name_is_ascii, fmu_description::proofs::Ascii::identifier_is_ascii))]
fn read_node(
    alloc: Global,
    buses: &[Bus],
    before: &[Node],
    table: &Table,
) -> Result<Node, NetworkFileError>
    requires { length buses.now ≤ 4 }
    ensures { Gives (λ n. n) result (spec.node_of buses.now before.now (table_view table.now)) }
{
    let place = before.len() as u64;
    let Some(name) = new_name(before, table) else {
        return Err(NetworkFileError::Field(NetworkField::NodeName, place));
    };
    let Some(fmu) = identifier_at(table, "fmu") else {
        return Err(NetworkFileError::Field(NetworkField::NodeFmu, place));
    };
    let attachments = read_attachments(alloc, place, buses, table)?;
    Ok(Node {
        name: name_of(alloc, name)?,
        fmu: name_of(alloc, fmu)?,
        attachments,
    })
}

fn new_name<'a>(before: &[Node], table: &'a Table) -> Option<&'a str>
    ensures text { option_map (λ s. s.now) result ≡ spec.new_node_name before.now (table_view table.now) }
    ensures fits { IfSome result (λ s. is_name s.now ≡ true) }
{
    match name_at(table) {
        Some(name) => {
            if has_node(before, name.as_bytes()) || is_sender(name.as_bytes()) {
                None
            } else {
                Some(name)
            }
        }
        None => None,
    }
}

fn has_node(nodes: &[Node], name: &[u8]) -> bool
    ensures { result ≡ spec.has_node nodes.now name.now }
{
    nodes.iter().any(|n| n.is_named(name))
}

/// Whether this is the word for the sender of an attempt.
pub(crate) fn is_sender(name: &[u8]) -> bool
    ensures { result ≡ spec.is_sender name.now }
{
    name == b"sender".as_slice()
}
