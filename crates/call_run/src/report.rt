//! The line on a call, and why there is none.
ghost use Rattle.std.specs.Prelude.{◌≡◌, ◌⊎◌, ℕ, Ok, Err, IfOk};
ghost use Rattle.wasm_types.specs.Modules.{NestedModule};
ghost use Rattle.module_specs.specs.declared.fault.Fault.{Fault};
ghost use Rattle.module_specs.specs.ModuleReading.{module_read};
ghost use Rattle.code_specs.specs.declared.rule.Rule.{Rule};
ghost use Rattle.code_specs.specs.Validity.{IsValid, validity};
ghost use Rattle.wasm_reader.specs.Outcome.{error_of};
ghost use Rattle.call_specs.specs.declared.fault.CallFault.{CallFault};
ghost use Rattle.call_specs.specs.Called.{called};
ghost use Rattle.call_specs.specs.CallLine.{call_line};

use crate::finding::find_called;
use crate::running::line_of;
use call_specs::CallFault;
use module_report::{ReportError, read_checked};
use std::alloc::Global;
use wasm_reader::ReadError;
use wasm_validate::Invalid;

/// Why there is no line.
#[derive(Clone, Copy, PartialEq, Eq, Debug)]
pub enum CallError {
    /// The bytes spell no valid module; or memory ran out.
    Module(ReportError),
    /// No function of the module is called.
    Call(CallFault),
    /// Memory ran out.
    Memory,
}

/// Calls the function that the module of these bytes exports under a name, with so much fuel, and gives the line on how
/// that ended.
pub fn call_report(
    alloc: Global,
    bytes: &[u8],
    name: &[u8],
    fuel: u64,
    arguments: &[u64],
) -> Result<Vec<u8>, CallError>
    // The line is that on the call of the function, in the valid module that the bytes spell.
    ensures line { IfOk result (λ line. (m : NestedModule) × (index : ℕ) × (module_read bytes.now ≡ Ok m) × IsValid m
        × (called m name.now arguments.now ≡ Ok index) × (line.items ≡ call_line m index arguments.now fuel)) }
    // The error names the first fault of the bytes, unless memory ran out.
    ensures fault { (error : ReadError) → result ≡ Err (CallError.Module (ReportError.Read error))
        → (error ≡ ReadError.Memory) ⊎ ((fault : Fault) × (error ≡ error_of fault) × (module_read bytes.now ≡ Err fault)) }
    // Or the first rule of validity that fails.
    ensures invalid { (rule : Rule) (place at : ℕ)
        → result ≡ Err (CallError.Module (ReportError.Invalid (Invalid.Rule rule place at)))
        → (m : NestedModule) × (module_read bytes.now ≡ Ok m) × (validity m ≡ Err (record { rule = rule; place = place; at = at })) }
    // Or why no function of the valid module is called.
    ensures refused { (fault : CallFault) → result ≡ Err (CallError.Call fault)
        → (m : NestedModule) × (module_read bytes.now ≡ Ok m) × IsValid m × (called m name.now arguments.now ≡ Err fault) }
{
    let code = match read_checked(alloc, bytes) {
        Ok(code) => code,
        Err(error) => return Err(CallError::Module(error)),
    };
    let index = match find_called(&code, name, arguments) {
        Ok(index) => index,
        Err(fault) => return Err(CallError::Call(fault)),
    };
    match line_of(alloc, &code, index, arguments, fuel) {
        Ok(line) => Ok(line),
        Err(_) => Err(CallError::Memory),
    }
}
