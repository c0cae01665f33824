//! Tables, arrays of tables, and the item of an array of one.
ghost use Rattle.std.specs.Prelude.{◌≡◌, true, Some, IfSome, is_some, option_map, unwrap_or};
ghost use Rattle.toml.specs.Data.{as_table, no_members};
ghost use Rattle.toml.specs.View.{view, items_view, array_view, table_view};
ghost use Rattle.document_specs.specs.Documents as spec;

use crate::texts::at;
use toml::{Table, Value};

/// The table at a key.
pub fn table_at<'a>(table: &'a Table, key: &str) -> Option<&'a Table>
    ensures { option_map (λ t. table_view t.now) result ≡ spec.table_at key.now (table_view table.now) }
{
    match at(table, key) {
        Some(value) => value.as_table(),
        None => None,
    }
}

/// The items of the array at a key, which are from `low` to `high` many tables.
pub fn tables<'a>(table: &'a Table, key: &str, low: usize, high: usize) -> Option<&'a [Value]>
    ensures tables { option_map (λ v. spec.tables_of (items_view v.now)) result ≡ spec.tables low high key.now (table_view table.now) }
    ensures each { IfSome result (λ v. spec.are_tables (items_view v.now) ≡ true) }
{
    match at(table, key) {
        Some(value) => some_tables(value, low, high),
        None => None,
    }
}

/// The items of the array at a key, which are at most so many tables; an array that is absent is an empty one.
pub fn optional_tables<'a>(table: &'a Table, key: &str, high: usize) -> Option<&'a [Value]>
    ensures tables { option_map (λ v. spec.tables_of (items_view v.now)) result ≡ spec.optional_tables high key.now (table_view table.now) }
    ensures each { IfSome result (λ v. spec.are_tables (items_view v.now) ≡ true) }
{
    match at(table, key) {
        Some(value) => some_tables(value, 0, high),
        None => Some(&[]),
    }
}

fn some_tables(value: &Value, low: usize, high: usize) -> Option<&[Value]>
    ensures tables { option_map (λ v. spec.tables_of (items_view v.now)) result ≡ spec.tables_in low high (view value.now) }
    ensures each { IfSome result (λ v. spec.are_tables (items_view v.now) ≡ true) }
{
    match value.as_array() {
        Some(array) => {
            let items = array.as_slice();
            if are_some_tables(items, low, high) {
                Some(items)
            } else {
                None
            }
        }
        None => None,
    }
}

#[tactic(auto, using(crate::proofs::Left::tables_count))]
fn are_some_tables(items: &[Value], low: usize, high: usize) -> bool
    ensures { result ≡ spec.are_some_tables low high (items_view items.now) }
{
    are_tables(items) && low <= items.len() && items.len() <= high
}

#[tactic(auto, using(crate::proofs::Left::items_left))]
fn are_tables(items: &[Value]) -> bool
    ensures { result ≡ spec.are_tables (items_view items.now) }
{
    for item in items {
        if !item.is_table() {
            return false;
        }
    }
    true
}

/// The table that a value is.
pub fn row(value: &Value) -> &Table
    requires { is_some (as_table (view value.now)) ≡ true }
    ensures { table_view result.now ≡ unwrap_or (as_table (view value.now)) no_members }
{
    value.as_table().unwrap()
}

/// The item of an array of one; None for every other array.
#[tactic(auto, using(crate::proofs::Single::only_one, crate::proofs::Single::only_none))]
pub fn only(array: &[Value]) -> Option<&Value>
    ensures { option_map (λ v. view v.now) result ≡ spec.only (items_view array.now) }
{
    if array.len() == 1 {
        Some(&array[0])
    } else {
        None
    }
}
