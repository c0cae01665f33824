//! What calls keep of a guest.

ghost use Rattle.std.specs.Prelude.{◌≡◌, ℕ, IsTrue, List, None, map, slice_get, true};
ghost use Rattle.fmi_states.specs.declared.call.Call.{Call};
ghost use Rattle.fmi_states.specs.Phase.{is_permitted};
ghost use Rattle.wasm_types.specs.declared.module.GlobalVar.{GlobalVar};
ghost use Rattle.wasm_types.specs.Modules.{NestedModule};
ghost use Rattle.module_specs.specs.ModuleSpelling.{SpellsModule};
ghost use Rattle.code_specs.specs.Instances.{least, first_misfit};
ghost use Rattle.code_specs.specs.Validity.{IsValid};
ghost use Rattle.wasm_machine.specs.Making.{pages_suit, globals_suit};
ghost use Rattle.unit_specs.specs.Description.{Description};
ghost use Rattle.binding_specs.specs.Guests.{Guest};
ghost use Rattle.binding_specs.specs.Answers.{answer, fresh_guest};
ghost use Rattle.guest_laws.specs.Words.{Begins, HasStore, IsPlaced};

/// Whatever a guest's code does in a call, its memory stays of whole pages, as many as its module allows, each global has
/// a number of its type, and one that code may not set has its constant.
pub fn calls_keep_stores()
    ensures store { (g : Guest) (c : Call) → HasStore g → HasStore (answer g c).1 }
{}

/// A guest has its area in its memory from its instantiation on, whichever calls its phases permit.
pub fn calls_keep_areas()
    ensures area { (g : Guest) (c : Call) → IsTrue (is_permitted g.phase c) → IsPlaced g.phase g
        → let h = (answer g c).1 in IsPlaced h.phase h }
{}

/// A module's guest before its first call has such a store, where the segments of the module fit, its memory begins with
/// pages that it may have, and its constants are of their types.
pub fn fresh_guests_begin()
    ensures begins { (m : NestedModule) (d : Description) (budget : ℕ) → first_misfit m ≡ None
        → pages_suit m (least (slice_get m.memories 0)) ≡ true
        → globals_suit m.globals (map (λ (g : GlobalVar). g.init.value) m.globals) ≡ true → Begins (fresh_guest m d budget) }

    // So it is of a module that a file spells and that is valid.
    ensures module { (m : NestedModule) (bytes : List ℕ) (d : Description) (budget : ℕ) → SpellsModule m bytes → IsValid m
        → first_misfit m ≡ None → Begins (fresh_guest m d budget) }
{}
