//! Network files: what they say, or the first check that fails.
use crate::texts::{self, told};
use case_words::{Unanswered, short};
use network_file::{
    Attachment, NetworkFile, NetworkFileError, Node, ScriptEntry, read_network_file,
};
use std::alloc::Global;

fn push_number(
    alloc: Global,
    text: &mut String,
    name: &str,
    number: u64,
) -> Result<(), Unanswered> {
    let part = format!(in alloc; "{name} {number}")?;
    if !text.is_empty() {
        text.push_str(" ")?;
    }
    text.push_str(&part)?;
    Ok(())
}

/// Its budgets, and how many buses, nodes and errors there are.
fn told_file(alloc: Global, file: &NetworkFile) -> Result<String, Unanswered> {
    let mut text = String::new(alloc);
    push_number(alloc, &mut text, "events", file.settings.events)?;
    push_number(alloc, &mut text, "fuel", file.settings.fuel)?;
    push_number(alloc, &mut text, "buses", file.buses.len() as u64)?;
    push_number(alloc, &mut text, "nodes", file.nodes.len() as u64)?;
    push_number(alloc, &mut text, "errors", file.script.len() as u64)?;
    Ok(text)
}

fn answer(alloc: Global, text: &str) -> Result<String, Unanswered> {
    match read_network_file(alloc, text.as_bytes()) {
        Ok(file) => told_file(alloc, &file),
        Err(NetworkFileError::Field(field, place)) => {
            let name = field.name();
            Ok(format!(in alloc; "{name} {place}")?)
        }
        Err(NetworkFileError::Memory) => Err(Unanswered::Memory),
    }
}

/// The network file that a question is about.
pub fn network(alloc: Global, kept: &str, rest: &str) -> Result<String, Unanswered> {
    let text = texts::asked(alloc, kept, rest)?;
    answer(alloc, &text)
}

/// The kept text, which is a network file.
fn read(alloc: Global, kept: &str) -> Result<NetworkFile, Unanswered> {
    match read_network_file(alloc, kept.as_bytes()) {
        Ok(file) => Ok(file),
        Err(NetworkFileError::Field(_, _)) => Err(Unanswered::Unknown),
        Err(NetworkFileError::Memory) => Err(Unanswered::Memory),
    }
}

fn push_attachment(
    alloc: Global,
    text: &mut String,
    attachment: &Attachment,
) -> Result<(), Unanswered> {
    let terminal = told(alloc, attachment.terminal.as_slice())?;
    let bus = attachment.bus;
    let part = format!(in alloc; " {terminal}:{bus}")?;
    text.push_str(&part)?;
    Ok(())
}

fn told_node(alloc: Global, node: &Node) -> Result<String, Unanswered> {
    let mut text = told(alloc, node.name.as_slice())?;
    for attachment in &node.attachments {
        push_attachment(alloc, &mut text, attachment)?;
    }
    Ok(text)
}

/// The name of the node at a place, and its terminals with the places of their buses.
pub fn node(alloc: Global, kept: &str, rest: &str) -> Result<String, Unanswered> {
    let place = short(rest)? as usize;
    let file = read(alloc, kept)?;
    match file.nodes.get(place) {
        Some(node) => told_node(alloc, node),
        None => Err(Unanswered::Unknown),
    }
}

fn push_detector(alloc: Global, text: &mut String, by: Option<u32>) -> Result<(), Unanswered> {
    match by {
        Some(by) => push_number(alloc, text, "by", by as u64),
        None => Ok(text.push_str(" by sender")?),
    }
}

fn told_error(alloc: Global, error: &ScriptEntry) -> Result<String, Unanswered> {
    let mut text = String::new(alloc);
    push_number(alloc, &mut text, "bus", error.bus as u64)?;
    push_number(alloc, &mut text, "attempt", error.entry.first)?;
    push_number(alloc, &mut text, "count", error.entry.count)?;
    push_number(alloc, &mut text, "kind", error.entry.kind as u64)?;
    push_detector(alloc, &mut text, error.entry.by)?;
    push_number(alloc, &mut text, "bit", error.entry.bit as u64)?;
    Ok(text)
}

/// The error at a place: its bus, the first attempt and how many, its kind, who detects it and at which bit.
pub fn error(alloc: Global, kept: &str, rest: &str) -> Result<String, Unanswered> {
    let place = short(rest)? as usize;
    let file = read(alloc, kept)?;
    match file.script.get(place) {
        Some(error) => told_error(alloc, error),
        None => Err(Unanswered::Unknown),
    }
}
