//! How modules are spelled (WebAssembly Core 1.0, section 5), as definitions that other crates cite: the table of
//! opcodes, the grammar, and what is read from bytes or the first fault. The only code is the table.
#![tactic(auto)]

mod fault;
mod laws;
mod opcodes;
mod section;
mod token;

pub use fault::Fault;
pub use laws::{
    constants_spell_what_fits, spelled_parts_are_spellable, the_table_spells_what_is_spellable,
};
pub use opcodes::{Group, Indexed, Kind, Operands, Row, Simple, Types, row_of};
pub use section::SectionKind;
pub use token::Token;
