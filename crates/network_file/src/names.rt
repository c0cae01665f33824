//! Names of buses, nodes and units.
ghost use Rattle.std.specs.Prelude.{◌≡◌, ◌<◌, All, true, option_map, IfSome, IfOk};
ghost use Rattle.std.specs.List.{list_all};
ghost use Rattle.toml.specs.View.{table_view};
ghost use Rattle.network_specs.specs.Buses as spec;

use can_frame::Name;
use document_reading::text_at;
use std::alloc::{AllocError, Global};
use toml::Table;

/// The name of a bus or a node.
pub(crate) fn name_at<'a>(table: &'a Table) -> Option<&'a str>
    ensures text { option_map (λ s. s.now) result ≡ spec.name (table_view table.now) }
    ensures fits { IfSome result (λ s. spec.is_name s.now ≡ true) }
{
    match text_at(table, "name") {
        Some(text) => {
            if is_name(text.as_bytes()) {
                Some(text)
            } else {
                None
            }
        }
        None => None,
    }
}

fn is_name(text: &[u8]) -> bool
    ensures { result ≡ spec.is_name text.now }
{
    1 <= text.len() && text.len() <= 32 && are_name_bytes(text)
}

fn are_name_bytes(text: &[u8]) -> bool
    ensures { result ≡ list_all spec.is_name_byte text.now }
{
    text.iter().all(|b| is_name_byte(*b))
}

fn is_name_byte(b: u8) -> bool
    ensures { result ≡ spec.is_name_byte b }
{
    (97 <= b && b <= 122) || (48 <= b && b <= 57) || b == 95
}

/// A copy of a text of ASCII.
pub(crate) fn name_of(alloc: Global, text: &str) -> Result<Name, AllocError>
    requires { All (λ b. b < 128) text.now }
    ensures { IfOk result (λ n. n ≡ text.now) }
{
    let bytes = Vec::from_slice(alloc, text.as_bytes())?;
    Ok(Name::of(bytes).unwrap())
}
