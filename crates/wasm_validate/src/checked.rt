//! Modules that are valid.
ghost use Rattle.std.specs.Prelude.{◌≡◌, ◌≢◌, ℕ, IfOk, Err};
ghost use Rattle.wasm_types.specs.Back.{nested_module};
ghost use Rattle.code_specs.specs.declared.rule.Rule.{Rule};
ghost use Rattle.code_specs.specs.Validity.{IsValid, validity};
ghost use Rattle.wasm_validate.specs.Found.{Finds, kinds_verdict, uses_verdict};
ghost use Rattle.module_specs.specs.Spelled.{IsSpelled};
ghost use Rattle.wasm_validate.specs.Valid.{IsChecked};

use crate::bodies::check_bodies;
use crate::exports::failing_export;
use crate::invalid::{Invalid, none_fails};
use crate::parts::{
    failing_data, failing_element, failing_func, failing_global, failing_memory, failing_start,
    failing_table, failing_type,
};
use code_specs::Rule;
use std::alloc::Global;
use std::marker::Model;
use wasm_types::Module;

/// A valid module. Contracts see the module.
#[derive(Drop)]
pub struct Checked {
    parts: Module,
}

impl Model for Checked {
    ghost use Rattle.wasm_types.specs.declared.module.Module.{Module};
    ghost use Rattle.wasm_validate.specs.Valid.{IsChecked};

    ghost Value = { Module };

    ghost view = { λ c. c.parts };

    ghost invariant = { λ c. IsChecked c.parts };
}

impl Checked {
    /// The module.
    pub fn module(&self) -> &Module
        ensures same { result.now ≡ self.now }
        ensures checked { IsChecked self.now }
    {
        &self.parts
    }
}

/// The rules of types, functions, tables, memories and globals. Takes no memory.
fn check_kinds(parts: &Module) -> Result<(), Invalid>
    ensures finds { Finds result (kinds_verdict (nested_module parts.now)) }
    ensures sure { result ≢ Err Invalid.Memory }
{
    none_fails(Rule::TypeResult, failing_type(parts))?;
    none_fails(Rule::FuncType, failing_func(parts))?;
    none_fails(Rule::Limits, failing_table(parts))?;
    none_fails(Rule::Limits, failing_memory(parts))?;
    none_fails(Rule::Global, failing_global(parts))
}

/// The rules of exports, of the function that runs first, and of segments.
fn check_uses(alloc: Global, parts: &Module) -> Result<(), Invalid>
    ensures { Finds result (uses_verdict (nested_module parts.now)) }
{
    let Ok(export) = failing_export(alloc, parts) else {
        return Err(Invalid::Memory);
    };
    none_fails(Rule::Export, export)?;
    none_fails(Rule::Start, failing_start(parts))?;
    none_fails(Rule::Element, failing_element(parts))?;
    none_fails(Rule::Data, failing_data(parts))
}

fn check(alloc: Global, parts: &Module) -> Result<(), Invalid>
    requires { IsSpelled parts.now }
    ensures finds { Finds result (validity (nested_module parts.now)) }
    ensures kinds { (rule : Rule) (place at : ℕ) → kinds_verdict (nested_module parts.now) ≡ Err (record { rule = rule; place = place; at = at })
        → result ≡ Err (Invalid.Rule rule place at) }
{
    check_kinds(parts)?;
    check_uses(alloc, parts)?;
    check_bodies(alloc, parts)
}

/// Looks at the rules of validity in their order (WebAssembly Core 1.0, section 3): the module, if none fails, else the
/// first that fails.
pub fn validate(alloc: Global, parts: Module) -> Result<Checked, Invalid>
    // The module is as `wasm_reader` reads it from bytes.
    requires { IsSpelled parts }
    // It comes back unchanged, and no rule fails.
    ensures valid { IfOk result (λ checked. (checked ≡ parts) × IsValid (nested_module parts)) }
    // Else the first rule that fails, with its place and its instruction.
    ensures refused { (rule : Rule) (place at : ℕ) → result ≡ Err (Invalid.Rule rule place at)
        → validity (nested_module parts) ≡ Err (record { rule = rule; place = place; at = at }) }
    // Types, functions, tables, memories and globals are looked at without memory: where a rule of theirs fails, it is named.
    ensures kinds { (rule : Rule) (place at : ℕ) → kinds_verdict (nested_module parts) ≡ Err (record { rule = rule; place = place; at = at })
        → result ≡ Err (Invalid.Rule rule place at) }
{
    match check(alloc, &parts) {
        Ok(()) => Ok(Checked { parts }),
        Err(invalid) => Err(invalid),
    }
}
