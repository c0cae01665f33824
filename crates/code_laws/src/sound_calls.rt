//! Laws of what calls of valid modules do.
ghost use Rattle.std.specs.Prelude.{◌≡◌, ◌≢◌, ℕ, List, Some, length, reverse};
ghost use Rattle.wasm_types.specs.Modules.{NestedModule};
ghost use Rattle.code_specs.specs.Stores.{Store};
ghost use Rattle.code_specs.specs.Signatures.{Function, function_at};
ghost use Rattle.code_specs.specs.Execution.{Stuck, answer_of};
ghost use Rattle.code_specs.specs.Validity.{IsValid};
ghost use Rattle.code_laws.specs.Answers.{Fit, AnswersWith};
ghost use Rattle.code_laws.specs.Kept.{GlobalsFit, LeavesGlobals, LeavesBytes};

/// A call of a valid module's function, on arguments that fit it, never meets an operand that is missing or of another
/// type, nor a local, label or function that isn't there, and no frame of it takes more than 4,096 slots. This holds in
/// every store.
pub fn valid_calls_are_never_stuck()
    ensures { (m : NestedModule) → IsValid m → (index : ℕ) (f : Function) (arguments : List ℕ) (s : Store) (fuel : ℕ)
        → function_at m index ≡ Some f → Fit f.ty.params arguments → answer_of m index arguments s fuel ≢ Stuck }
{}

/// Such a call returns values of the function's result types, or traps, or runs out of fuel. A value of type i32 is
/// below 2^32, and one of type i64 below 2^64.
pub fn calls_return_values_of_their_types()
    ensures { (m : NestedModule) → IsValid m → (index : ℕ) (f : Function) (arguments : List ℕ) (s : Store) (fuel : ℕ)
        → function_at m index ≡ Some f → Fit f.ty.params arguments
        → AnswersWith (reverse f.ty.results) (answer_of m index arguments s fuel) }
{}

/// Where the store has a number for each global of the module, in the range of its type, it has so when a call is over,
/// however the call ends. This holds of modules that aren't valid, too.
pub fn globals_stay_in_range()
    ensures { (m : NestedModule) (index : ℕ) (arguments : List ℕ) (s : Store) (fuel : ℕ)
        → GlobalsFit m s → LeavesGlobals m (answer_of m index arguments s fuel) }
{}

/// A call leaves no fewer bytes of memory than there were, however it ends.
pub fn memories_never_become_smaller()
    ensures { (m : NestedModule) (index : ℕ) (arguments : List ℕ) (s : Store) (fuel : ℕ)
        → LeavesBytes (length s.bytes) (answer_of m index arguments s fuel) }
{}
