//! The refusals of modules.
ghost use Rattle.std.specs.Prelude.{◌≡◌};
ghost use Rattle.refusal_names.specs.Modules.{refusal, refusal_at, refusal_of_error, why_of_rule, refusal_of_invalid, refusal_of_misfit, refusal_of_unbound};

use bench_outside::{FileId, Refusal, Why};
use binding_specs::BindError;
use code_specs::{Misfit, Rule};
use wasm_reader::ReadError;

/// The refusal of a file that is read as no module; None for want of memory.
pub fn read_refusal(file: FileId, error: ReadError) -> Option<Refusal>
    ensures { result ≡ refusal_of_error file error }
{
    let (why, place) = match error {
        ReadError::Short(at) => (Why::Short, at),
        ReadError::Size(at) => (Why::Size, at),
        ReadError::Magic(at) => (Why::Magic, at),
        ReadError::Version(at) => (Why::Version, at),
        ReadError::Section(at) => (Why::Section, at),
        ReadError::Order(at) => (Why::Order, at),
        ReadError::Number(at) => (Why::Number, at),
        ReadError::Import(at) => (Why::Import, at),
        ReadError::Float(at) => (Why::Float, at),
        ReadError::Form(at) => (Why::Form, at),
        ReadError::Utf8(at) => (Why::Utf8, at),
        ReadError::Opcode(at) => (Why::Opcode, at),
        ReadError::Nesting(at) => (Why::Nesting, at),
        ReadError::Count(at) => (Why::Count, at),
        ReadError::Limit(at) => (Why::Limit, at),
        ReadError::Memory => return None,
    };
    Some(Refusal {
        file,
        why,
        place: place as u64,
        at: 0,
    })
}

/// The refusal of a module that isn't valid: the first rule that fails, at its place and there at this instruction.
pub fn rule_refusal(file: FileId, rule: Rule, place: u64, at: u64) -> Refusal
    ensures { result ≡ refusal_of_invalid file (record { rule = rule; place = place; at = at }) }
{
    Refusal {
        file,
        why: rule_why(rule),
        place,
        at,
    }
}

fn rule_why(rule: Rule) -> Why
    ensures { result ≡ why_of_rule rule }
{
    match rule {
        Rule::TypeResult => Why::TypeResult,
        Rule::FuncType => Why::FuncType,
        Rule::Limits => Why::Limits,
        Rule::Global => Why::Global,
        Rule::Export => Why::Export,
        Rule::Start => Why::Start,
        Rule::Element => Why::Element,
        Rule::Data => Why::Data,
        Rule::Index => Why::Index,
        Rule::Align => Why::Align,
        Rule::Operand => Why::Operand,
        Rule::Slots => Why::Slots,
    }
}

/// The refusal of a module with a segment that doesn't fit.
pub fn misfit_refusal(file: FileId, misfit: Misfit) -> Refusal
    ensures { result ≡ refusal_of_misfit file misfit }
{
    let (place, at) = match misfit {
        Misfit::Element(place) => (place, 0),
        Misfit::Data(place) => (place, 1),
    };
    Refusal {
        file,
        why: Why::Segment,
        place: place as u64,
        at,
    }
}

/// The refusal of a module that isn't that of a unit.
pub fn unbound_refusal(file: FileId, error: BindError) -> Refusal
    ensures { result ≡ refusal_of_unbound file error }
{
    let (why, row) = match error {
        BindError::Missing(row) => (Why::Missing, row),
        BindError::Signature(row) => (Why::Signature, row),
    };
    Refusal {
        file,
        why,
        place: row as u64,
        at: 0,
    }
}
