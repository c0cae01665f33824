//! Integers of a document.
ghost use Rattle.std.specs.Prelude.{◌≡◌, ◌≤◌, IfSome};
ghost use Rattle.toml.specs.View.{view, table_view};
ghost use Rattle.document_specs.specs.Documents as spec;

use crate::texts::at;
use toml::{Table, Value};

/// The integer from `low` to `high`, both included.
pub fn number_of(value: &Value, low: u64, high: u64) -> Option<u64>
    ensures number { result ≡ spec.number_of low high (view value.now) }
    ensures range { IfSome result (λ n. (low ≤ n) × (n ≤ high)) }
{
    match value.as_integer() {
        Some(integer) => match natural(integer) {
            Some(n) => { if low <= n && n <= high { Some(n) } else { None } }
            None => None,
        },
        None => None,
    }
}

fn natural(integer: i64) -> Option<u64>
    ensures { result ≡ spec.natural integer }
{
    if integer < 0 {
        None
    } else {
        Some(integer as u64)
    }
}

/// The integer from `low` to `high` at a key.
pub fn number_at(table: &Table, key: &str, low: u64, high: u64) -> Option<u64>
    ensures number { result ≡ spec.number low high key.now (table_view table.now) }
    ensures range { IfSome result (λ n. (low ≤ n) × (n ≤ high)) }
{
    match at(table, key) {
        Some(value) => number_of(value, low, high),
        None => None,
    }
}
