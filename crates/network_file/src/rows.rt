//! The rows of an array, and how many they are.
ghost use Rattle.std.specs.Prelude.{◌≡◌, ◌≤◌, true, option_map, IfSome, length};
ghost use Rattle.toml.specs.View.{table_view, items_view};
ghost use Rattle.document_specs.specs.Documents as spec;

use document_reading::tables;
use toml::{Table, Value};

/// The items of the array at a key, which are from `low` to `high` many tables.
#[tactic(auto, using(crate::proofs::Counts::few_rows))]
pub(crate) fn few_tables<'a>(
    table: &'a Table,
    key: &str,
    low: usize,
    high: usize,
) -> Option<&'a [Value]>
    ensures tables { option_map (λ v. spec.tables_of (items_view v.now)) result ≡ spec.tables low high key.now (table_view table.now) }
    ensures each { IfSome result (λ v. spec.are_tables (items_view v.now) ≡ true) }
    ensures few { IfSome result (λ v. length v.now ≤ high) }
{
    tables(table, key, low, high)
}
