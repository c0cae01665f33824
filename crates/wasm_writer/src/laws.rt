//! What holds of the shortest spelling: laws, with nothing to run.
ghost use Rattle.std.specs.Prelude.{◌≡◌, ℕ, List, Ok};
ghost use Rattle.wasm_types.specs.declared.instr.Instr.{Instr};
ghost use Rattle.wasm_types.specs.Modules.{NestedFunc, NestedModule};
ghost use Rattle.module_specs.specs.CodeSpelling.{SpellsInstr, SpellsBody};
ghost use Rattle.module_specs.specs.ModuleSpelling.{SpellsModule};
ghost use Rattle.module_specs.specs.ModuleReading.{module_read};
ghost use Rattle.wasm_writer.specs.CodeTexts.{instr_text, body_text};
ghost use Rattle.wasm_writer.specs.ModuleTexts.{module_text};
ghost use Rattle.wasm_writer.specs.Shortest.{IsShortest};

/// The shortest spelling of each module that some bytes spell is a spelling of it, and none is shorter; so is that of
/// each of its bodies and instructions.
pub fn no_spelling_is_shorter()
    ensures instr { (i : Instr) (text : List ℕ) → SpellsInstr i text → IsShortest (SpellsInstr i) (instr_text i) }
    ensures body { (f : NestedFunc) (text : List ℕ) → SpellsBody f text → IsShortest (SpellsBody f) (body_text f) }
    ensures whole { (m : NestedModule) (bytes : List ℕ) → SpellsModule m bytes → IsShortest (SpellsModule m) (module_text m) }
{}

/// What is written is read back as the same module.
pub fn written_modules_are_read_back()
    ensures { (m : NestedModule) (bytes : List ℕ) → SpellsModule m bytes → module_read (module_text m) ≡ Ok m }
{}
