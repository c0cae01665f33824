//! Items of one kind, vectors and sections of them, whatever the items are.
ghost use Rattle.std.specs.Prelude.{◌≡◌, ◌+◌, ◌<◌, ◌≤◌, ◌^◌, ◌++◌, ℕ, List, length, All, OnOk};
ghost use Rattle.module_specs.specs.ModuleSpelling.{id_byte};
ghost use Rattle.leb_bytes.specs.Writing.{unsigned_text};
ghost use Rattle.wasm_writer.specs.Texts.{each_text, vector_text};
ghost use Rattle.wasm_writer.specs.ModuleTexts.{items_text};

use crate::numbers::{number_len, write_number};
use module_specs::SectionKind;
use std::alloc::{AllocError, Global};

/// How items of one kind are spelled.
pub trait Shape {
    /// The items.
    type Item;

    /// The shortest spelling of an item.
    ghost text: { Self.Item → List ℕ };

    /// What else has to hold of an item that is written.
    ghost fits: { Self.Item → Type 0 };

    /// The bytes of an item.
    fn len(item: &Self::Item) -> usize
        requires { length (text item.now) < 2 ^ 32 }
        ensures { result ≡ length (text item.now) };

    /// Appends an item.
    fn write(alloc: Global, out: &mut Vec<u8>, item: &Self::Item) -> Result<(), AllocError>
        requires small { length (text item.now) < 2 ^ 32 }
        requires fits { fits item.now }
        ensures { OnOk result (out.new.items ≡ out.old.items ++ text item.now) };

    // No item is spelled in no bytes.
    ghost takes_bytes: { (x : Self.Item) → 0 < length (text x) };
}

/// The bytes of items, one behind another.
pub fn items_len<S: Shape>(items: &[S::Item]) -> usize
    requires { length (each_text S.text items.now) < 2 ^ 32 }
    ensures { result ≡ length (each_text S.text items.now) }
{
    let mut sum = 0;
    for item in items {
        sum += S::len(item);
    }
    sum
}

/// Appends items, one behind another.
pub fn write_items<S: Shape>(
    alloc: Global,
    out: &mut Vec<u8>,
    items: &[S::Item],
) -> Result<(), AllocError>
    requires small { length (each_text S.text items.now) < 2 ^ 32 }
    requires fit { All S.fits items.now }
    ensures { OnOk result (out.new.items ≡ out.old.items ++ each_text S.text items.now) }
{
    for item in items {
        S::write(alloc, out, item)?;
    }
    Ok(())
}

/// The bytes of a vector.
pub fn vector_len<S: Shape>(items: &[S::Item]) -> usize
    requires { length (vector_text S.text items.now) < 2 ^ 32 }
    ensures { result ≡ length (vector_text S.text items.now) }
{
    number_len(items.len()) + items_len::<S>(items)
}

/// Appends a vector.
pub fn write_vector<S: Shape>(
    alloc: Global,
    out: &mut Vec<u8>,
    items: &[S::Item],
) -> Result<(), AllocError>
    requires small { length (vector_text S.text items.now) < 2 ^ 32 }
    requires fit { All S.fits items.now }
    ensures { OnOk result (out.new.items ≡ out.old.items ++ vector_text S.text items.now) }
{
    write_number(alloc, out, items.len())?;
    write_items::<S>(alloc, out, items)
}

/// The bytes of a section of items, which isn't written where there are none.
pub fn section_len<S: Shape>(kind: SectionKind, items: &[S::Item]) -> usize
    requires { length (items_text kind S.text items.now) < 2 ^ 32 }
    ensures { result ≡ length (items_text kind S.text items.now) }
{
    if items.is_empty() {
        return 0;
    }
    let size = vector_len::<S>(items);
    1 + number_len(size) + size
}

/// Appends a section of items.
pub fn write_section<S: Shape>(
    alloc: Global,
    out: &mut Vec<u8>,
    kind: SectionKind,
    items: &[S::Item],
) -> Result<(), AllocError>
    requires small { length (items_text kind S.text items.now) < 2 ^ 32 }
    requires fit { All S.fits items.now }
    ensures { OnOk result (out.new.items ≡ out.old.items ++ items_text kind S.text items.now) }
{
    if items.is_empty() {
        return Ok(());
    }
    out.push(id_byte(kind))?;
    write_number(alloc, out, vector_len::<S>(items))?;
    write_vector::<S>(alloc, out, items)
}

/// The id of a section.
pub fn id_byte(kind: SectionKind) -> u8
    ensures { result ≡ id_byte kind }
{
    match kind {
        SectionKind::Custom => 0,
        SectionKind::Type => 1,
        SectionKind::Import => 2,
        SectionKind::Function => 3,
        SectionKind::Table => 4,
        SectionKind::Memory => 5,
        SectionKind::Global => 6,
        SectionKind::Export => 7,
        SectionKind::Start => 8,
        SectionKind::Element => 9,
        SectionKind::Code => 10,
        SectionKind::Data => 11,
    }
}
