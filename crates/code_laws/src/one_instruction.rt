//! A law of single instructions.
ghost use Rattle.std.specs.Prelude.{◌≡◌, ◌≢◌, List};
ghost use Rattle.wasm_types.specs.declared.instr.Instr.{Instr};
ghost use Rattle.wasm_types.specs.Modules.{NestedModule};
ghost use Rattle.code_specs.specs.Values.{Value, all_bits};
ghost use Rattle.code_specs.specs.Stores.{Store};
ghost use Rattle.code_specs.specs.Effects.{Stuck, typed, bare, effect_of};
ghost use Rattle.code_laws.specs.Bare.{bits_of_effect};

/// What an instruction does over bare numbers is what it does over values, wherever that isn't stuck. So who knows that
/// no operand is missing or of another type needs no types.
pub fn numbers_alone_are_enough()
    ensures { (m : NestedModule) (i : Instr) (operands : List Value) (s : Store) → effect_of typed m i operands s ≢ Stuck
        → effect_of bare m i (all_bits operands) s ≡ bits_of_effect (effect_of typed m i operands s) }
{}
