//! What holds of all guests: laws, with nothing to run.
ghost use Rattle.std.specs.Prelude.{◌≡◌, ◌≤◌, ℕ, List, length, Ok, None};
ghost use Rattle.module_specs.specs.ModuleReading.{module_read};
ghost use Rattle.code_specs.specs.Validity.{IsValid};
ghost use Rattle.binding_specs.specs.Exports.{binding_fault};
ghost use Rattle.wasm_writer.specs.ModuleTexts.{module_text};
ghost use Rattle.guest_kit.specs.declared.manner.Manner.{Manner};
ghost use Rattle.guest_kit.specs.Guests.{guest_module};

/// A guest's bytes are read back as its module.
pub fn guests_are_read_back()
    ensures { (m : Manner) (answer opening : List ℕ) → length answer ≤ 128 → length opening ≤ 4800
        → module_read (module_text (guest_module m answer opening)) ≡ Ok (guest_module m answer opening) }
{}

/// A guest's module is valid, and exports what is asked of a unit.
pub fn guests_are_units()
    ensures valid { (m : Manner) (answer opening : List ℕ) → IsValid (guest_module m answer opening) }
    ensures bound { (m : Manner) (answer opening : List ℕ) → binding_fault (guest_module m answer opening) ≡ None }
{}
