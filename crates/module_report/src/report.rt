//! The report on a file: the line on the valid module that it spells, or why there is none.
ghost use Rattle.std.specs.Prelude.{◌≡◌, ◌⊎◌, ℕ, Ok, Err, IfOk};
ghost use Rattle.wasm_types.specs.Modules.{NestedModule, flat_module};
ghost use Rattle.module_specs.specs.declared.fault.Fault.{Fault};
ghost use Rattle.module_specs.specs.ModuleSpelling.{SpellsModule};
ghost use Rattle.module_specs.specs.ModuleReading.{module_read};
ghost use Rattle.code_specs.specs.declared.rule.Rule.{Rule};
ghost use Rattle.code_specs.specs.Validity.{IsValid, validity};
ghost use Rattle.wasm_reader.specs.Outcome.{error_of};
ghost use Rattle.module_report.specs.Line.{module_line};

use crate::line::line_of;
use std::alloc::Global;
use wasm_reader::{ReadError, read_module};
use wasm_validate::{Checked, Invalid, validate};

/// Why there is no line.
#[derive(Clone, Copy, PartialEq, Eq, Debug)]
pub enum ReportError {
    /// The bytes spell no module; or memory ran out.
    Read(ReadError),
    /// The module that they spell isn't valid; or memory ran out.
    Invalid(Invalid),
}

/// The valid module that the bytes spell; else their first fault, or the first rule that fails, as `module_report` has it.
pub fn read_checked(alloc: Global, bytes: &[u8]) -> Result<Checked, ReportError>
    ensures found { IfOk result (λ checked.
        (m : NestedModule) × (checked ≡ flat_module m) × SpellsModule m bytes.now × IsValid m) }
    ensures fault { (error : ReadError) → result ≡ Err (ReportError.Read error)
        → (error ≡ ReadError.Memory) ⊎ ((fault : Fault) × (error ≡ error_of fault) × (module_read bytes.now ≡ Err fault)) }
    ensures invalid { (rule : Rule) (place at : ℕ) → result ≡ Err (ReportError.Invalid (Invalid.Rule rule place at))
        → (m : NestedModule) × (module_read bytes.now ≡ Ok m) × (validity m ≡ Err (record { rule = rule; place = place; at = at })) }
{
    let module = match read_module(alloc, bytes) {
        Ok(module) => module,
        Err(error) => return Err(ReportError::Read(error)),
    };
    match validate(alloc, module) {
        Ok(checked) => Ok(checked),
        Err(invalid) => Err(ReportError::Invalid(invalid)),
    }
}

/// The line on the module that the bytes of a file spell, if it is valid; else their first fault, as `wasm_reader` reads
/// them, or the first rule that fails, as `wasm_validate` has it.
pub fn module_report(alloc: Global, bytes: &[u8]) -> Result<Vec<u8>, ReportError>
    // The line is that of the module which the bytes spell, and the module is valid.
    ensures line { IfOk result (λ line.
        (m : NestedModule) × (line.items ≡ module_line m) × (module_read bytes.now ≡ Ok m) × IsValid m) }
    // The error names the first fault, unless memory ran out.
    ensures fault { (error : ReadError) → result ≡ Err (ReportError.Read error)
        → (error ≡ ReadError.Memory) ⊎ ((fault : Fault) × (error ≡ error_of fault) × (module_read bytes.now ≡ Err fault)) }
    // Or the first rule that fails.
    ensures invalid { (rule : Rule) (place at : ℕ) → result ≡ Err (ReportError.Invalid (Invalid.Rule rule place at))
        → (m : NestedModule) × (module_read bytes.now ≡ Ok m) × (validity m ≡ Err (record { rule = rule; place = place; at = at })) }
{
    let checked = read_checked(alloc, bytes)?;
    match line_of(alloc, checked.module()) {
        Ok(line) => Ok(line),
        Err(_) => Err(ReportError::Read(ReadError::Memory)),
    }
}
