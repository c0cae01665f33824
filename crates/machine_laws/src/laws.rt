//! Runs of valid modules.
ghost use Rattle.std.specs.Prelude.{◌≡◌, ◌+◌, ◌*◌, ℕ, List, Some};
ghost use Rattle.wasm_types.specs.Modules.{NestedModule, flat_module};
ghost use Rattle.module_specs.specs.ModuleSpelling.{SpellsModule};
ghost use Rattle.code_specs.specs.Stores.{Store};
ghost use Rattle.code_specs.specs.Signatures.{Function, function_at};
ghost use Rattle.code_specs.specs.Execution.{answer_of};
ghost use Rattle.code_specs.specs.Validity.{IsValid};
ghost use Rattle.code_laws.specs.Answers.{Fit};
ghost use Rattle.machine_steps.specs.Steps.{Stop};
ghost use Rattle.machine_steps.specs.Answers.{bits_of_answer};
ghost use Rattle.machine_laws.specs.Runs.{beginning, after_steps, IsRoomy};

/// The steps over the flat form of a valid module, from where a call begins, end after twice the fuel and one at most,
/// with the answer, the store and the fuel that the nested code means.
#[tactic(auto, using(crate::proofs::Running::ends))]
pub fn runs_give_what_code_means()
    ensures { (m : NestedModule) (bytes : List ℕ) → SpellsModule m bytes → IsValid m
        → (index : ℕ) (f : Function) (arguments : List ℕ) (s : Store) (fuel : ℕ)
        → function_at m index ≡ Some f → Fit f.ty.params arguments
        → after_steps m (flat_module m) (2 * fuel + 1) (beginning index f arguments s fuel) ≡ Stop (bits_of_answer (answer_of m index arguments s fuel)) }
{}

/// After each step there is room for the next: 4,096 values and 1,024 open lists for each of 256 frames.
#[tactic(auto, using(crate::proofs::Running::has_room))]
pub fn runs_have_room()
    ensures { (m : NestedModule) (bytes : List ℕ) → SpellsModule m bytes → IsValid m
        → (index : ℕ) (f : Function) (arguments : List ℕ) (s : Store) (fuel : ℕ)
        → function_at m index ≡ Some f → Fit f.ty.params arguments
        → (count : ℕ) → IsRoomy (after_steps m (flat_module m) count (beginning index f arguments s fuel)) }
{}
