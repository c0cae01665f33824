//! Laws of modules that are those of units.
ghost use Rattle.std.specs.Prelude.{◌≡◌, ℕ, List, None, Some, reverse};
ghost use Rattle.wasm_types.specs.Modules.{NestedModule};
ghost use Rattle.code_specs.specs.Stores.{Store};
ghost use Rattle.code_specs.specs.Execution.{answer_of};
ghost use Rattle.code_specs.specs.Validity.{IsValid};
ghost use Rattle.code_laws.specs.Answers.{Fit, AnswersWith};
ghost use Rattle.binding_specs.specs.declared.function.Function.{Function};
ghost use Rattle.binding_specs.specs.declared.error.BindError.{BindError};
ghost use Rattle.binding_specs.specs.Exports.{type_of, binding_fault};
ghost use Rattle.binding_laws.specs.Words.{IsThere, Faults};

/// A fault is that of the first row that the module doesn't have: it has all rows before.
pub fn a_binding_fault_is_the_first()
    ensures { (m : NestedModule) (fault : BindError) → binding_fault m ≡ Some fault → Faults m fault }
{}

/// The module of a unit has each of the functions, with its type, under the index by which it is called.
pub fn modules_of_units_have_all_functions()
    ensures { (m : NestedModule) → binding_fault m ≡ None → (f : Function) → IsThere m f }
{}

/// On arguments that fit, a function of a unit returns what its type says, or traps, or is spent. It is never stuck, in
/// whatever store. What it returns is one number of 32 bits, and nothing where the unit is freed.
pub fn functions_of_a_unit_are_never_stuck()
    ensures { (m : NestedModule) → IsValid m → (f : Function) (there : IsThere m f) (arguments : List ℕ) (s : Store)
        (fuel : ℕ) → Fit (type_of f).params arguments
        → AnswersWith (reverse (type_of f).results) (answer_of m there.index arguments s fuel) }
{}
