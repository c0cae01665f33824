//! A document, and what stands at a key of it.
use crate::texts::word;
use case_words::{Unanswered, cut, long, short};
use document_reading::{
    DocumentError, flag_at, identifier_at, number_at, optional_tables, read_document, table_at,
    tables, text_at,
};
use std::alloc::Global;
use toml::Table;

/// Whether the kept text is a document.
pub fn document(alloc: Global, kept: &str) -> Result<String, Unanswered> {
    match read_document(alloc, kept.as_bytes()) {
        Ok(_) => word(alloc, "read"),
        Err(DocumentError::Broken) => word(alloc, "Broken"),
        Err(DocumentError::Memory) => Err(Unanswered::Memory),
    }
}

fn read(alloc: Global, kept: &str) -> Result<Table, Unanswered> {
    match read_document(alloc, kept.as_bytes()) {
        Ok(table) => Ok(table),
        Err(DocumentError::Broken) => Err(Unanswered::Unknown),
        Err(DocumentError::Memory) => Err(Unanswered::Memory),
    }
}

fn counted(alloc: Global, count: Option<usize>) -> Result<String, Unanswered> {
    match count {
        Some(count) => Ok(format!(in alloc; "{count}")?),
        None => word(alloc, "none"),
    }
}

fn flag(alloc: Global, document: &Table, key: &str) -> Result<String, Unanswered> {
    match flag_at(document, key) {
        Some(true) => word(alloc, "true"),
        Some(false) => word(alloc, "false"),
        None => word(alloc, "none"),
    }
}

/// The number, if it lies between two: `KEY LOW HIGH`.
fn number(alloc: Global, document: &Table, rest: &str) -> Result<String, Unanswered> {
    let (key, range) = cut(rest);
    let (low, high) = cut(range);
    match number_at(document, key, long(low)?, long(high)?) {
        Some(number) => Ok(format!(in alloc; "{number}")?),
        None => word(alloc, "none"),
    }
}

/// How many tables the array has, if they are so many: `KEY LOW HIGH`.
fn some_tables(alloc: Global, document: &Table, rest: &str) -> Result<String, Unanswered> {
    let (key, range) = cut(rest);
    let (low, high) = cut(range);
    let rows = tables(document, key, short(low)? as usize, short(high)? as usize);
    counted(alloc, rows.map(|rows| rows.len()))
}

/// The same, where an array that is absent has none: `KEY HIGH`.
fn few_tables(alloc: Global, document: &Table, rest: &str) -> Result<String, Unanswered> {
    let (key, high) = cut(rest);
    let rows = optional_tables(document, key, short(high)? as usize);
    counted(alloc, rows.map(|rows| rows.len()))
}

fn found(alloc: Global, document: &Table, kind: &str, rest: &str) -> Result<String, Unanswered> {
    match kind {
        "text" => word(alloc, text_at(document, rest).unwrap_or("none")),
        "identifier" => word(alloc, identifier_at(document, rest).unwrap_or("none")),
        "flag" => flag(alloc, document, rest),
        "number" => number(alloc, document, rest),
        "table" => counted(alloc, table_at(document, rest).map(|table| table.len())),
        "tables" => some_tables(alloc, document, rest),
        "optional_tables" => few_tables(alloc, document, rest),
        _ => Err(Unanswered::Unknown),
    }
}

/// What stands at a key: `KIND KEY`. Of an array it is how many tables it has, of a table how many entries.
pub fn at(alloc: Global, kept: &str, rest: &str) -> Result<String, Unanswered> {
    let (kind, rest) = cut(rest);
    let document = read(alloc, kept)?;
    found(alloc, &document, kind, rest)
}
