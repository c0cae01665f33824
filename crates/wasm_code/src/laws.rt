//! What holds of the grammar and of the first fault of bodies: laws, with nothing to run.
ghost use Rattle.std.specs.Prelude.{◌≡◌, ◌≤◌, ℕ, List, Err, length};
ghost use Rattle.wasm_types.specs.Modules.{NestedFunc};
ghost use Rattle.module_specs.specs.declared.fault.Fault.{Fault};
ghost use Rattle.module_specs.specs.CodeSpelling.{SpellsBody};
ghost use Rattle.module_specs.specs.CodeReading.{body_at};
ghost use Rattle.wasm_code.specs.Faults.{InBody};

/// A body spells one function of a type.
pub fn a_body_spells_one_function()
    ensures { (one two : NestedFunc) (text : List ℕ) → one.ty ≡ two.ty
        → SpellsBody one text → SpellsBody two text → one ≡ two }
{}

/// The first fault of a body is one of code, and its place lies in the section or at the section's end, also where the
/// body's size leads past it.
pub fn faults_lie_in_their_section()
    ensures { (ty at : ℕ) (section : List ℕ) (fault : Fault) → at ≤ length section
        → body_at ty section at ≡ Err fault → InBody (length section) fault }
{}
