//! The value at a key of a table, its text and its flag.
ghost use Rattle.std.specs.Prelude.{◌≡◌, true, IfSome, option_map};
ghost use Rattle.std.specs.List.{list_all};
ghost use Rattle.toml.specs.Data.{get_member};
ghost use Rattle.toml.specs.View.{view, table_view};
ghost use Rattle.document_specs.specs.Documents as spec;

use toml::{Table, Value};

/// The value at a key.
pub fn at<'a>(table: &'a Table, key: &str) -> Option<&'a Value>
    ensures { option_map (λ v. view v.now) result ≡ get_member key.now (table_view table.now) }
{
    table.get(key)
}

/// The text at a key; None where there is no value or another one.
pub fn text_at<'a>(table: &'a Table, key: &str) -> Option<&'a str>
    ensures { option_map (λ s. s.now) result ≡ spec.text key.now (table_view table.now) }
{
    match at(table, key) {
        Some(value) => value.as_str(),
        None => None,
    }
}

/// The flag at a key; None where there is no value or another one.
pub fn flag_at(table: &Table, key: &str) -> Option<bool>
    ensures { result ≡ spec.flag key.now (table_view table.now) }
{
    match at(table, key) {
        Some(value) => value.as_bool(),
        None => None,
    }
}

/// The text of 1 to 64 letters, digits and underscores at a key.
pub fn identifier_at<'a>(table: &'a Table, key: &str) -> Option<&'a str>
    ensures text { option_map (λ s. s.now) result ≡ spec.identifier key.now (table_view table.now) }
    ensures fits { IfSome result (λ s. spec.is_identifier s.now ≡ true) }
{
    match text_at(table, key) {
        Some(text) => {
            if is_identifier(text.as_bytes()) {
                Some(text)
            } else {
                None
            }
        }
        None => None,
    }
}

fn is_identifier(text: &[u8]) -> bool
    ensures { result ≡ spec.is_identifier text.now }
{
    1 <= text.len() && text.len() <= 64 && are_word_bytes(text)
}

fn are_word_bytes(text: &[u8]) -> bool
    ensures { result ≡ list_all spec.is_word_byte text.now }
{
    text.iter().all(|b| is_word_byte(*b))
}

fn is_word_byte(b: u8) -> bool
    ensures { result ≡ spec.is_word_byte b }
{
    (48 <= b && b <= 57) || (65 <= b && b <= 90) || (97 <= b && b <= 122) || b == 95
}
