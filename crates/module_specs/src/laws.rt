//! Which instructions, constants and modules have a spelling: laws, with nothing to run.
ghost use Rattle.std.specs.Prelude.{ℕ, List};
ghost use Rattle.wasm_types.specs.declared.instr.Instr.{Instr};
ghost use Rattle.wasm_types.specs.declared.module.Constant.{Constant};
ghost use Rattle.wasm_types.specs.Nested.{Code};
ghost use Rattle.wasm_types.specs.Modules.{NestedModule};
ghost use Rattle.wasm_types.specs.Spellable.{IsSpellable, HasSpellableLeaves, FitsType, HasSpellableParts};
ghost use Rattle.module_specs.specs.CodeSpelling.{SpellsInstr, SpellsCode};
ghost use Rattle.module_specs.specs.ModuleSpelling.{SpellsConstant, SpellsModule};

/// The table of opcodes spells each instruction that is spellable, and no other.
pub fn the_table_spells_what_is_spellable()
    ensures no_other { (i : Instr) (text : List ℕ) → SpellsInstr i text → IsSpellable i }
    ensures each { (i : Instr) → IsSpellable i → (text : List ℕ) × SpellsInstr i text }
{}

/// Constant expressions spell each constant that fits its type, and no other.
pub fn constants_spell_what_fits()
    ensures no_other { (c : Constant) (text : List ℕ) → SpellsConstant c text → FitsType c }
    ensures each { (c : Constant) → FitsType c → (text : List ℕ) × SpellsConstant c text }
{}

/// Code and modules that are spelled have spellable leaves, and constants that fit.
pub fn spelled_parts_are_spellable()
    ensures code { (room : ℕ) (c : Code) (text : List ℕ) → SpellsCode room c text → HasSpellableLeaves c }
    ensures module { (m : NestedModule) (bytes : List ℕ) → SpellsModule m bytes → HasSpellableParts m }
{}
