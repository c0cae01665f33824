//! Laws of fuel.
ghost use Rattle.std.specs.Prelude.{◌≡◌, ◌≤◌, ◌<◌, ℕ, List, []};
ghost use Rattle.wasm_types.specs.Nested.{Code};
ghost use Rattle.wasm_types.specs.Modules.{NestedModule};
ghost use Rattle.code_specs.specs.Values.{Value};
ghost use Rattle.code_specs.specs.Stores.{Store};
ghost use Rattle.code_specs.specs.Execution.{after_iteration, loop_outcome, exec, invoke, answer_of, fuel_left};
ghost use Rattle.code_laws.specs.Fuel.{Ends, Uses};

/// A call never leaves more fuel than it had.
pub fn fuel_never_rises()
    ensures { (m : NestedModule) (index : ℕ) (arguments : List ℕ) (s : Store) (fuel : ℕ)
        → fuel_left (answer_of m index arguments s fuel) ≤ fuel }
{}

/// A call that returns or traps uses so much fuel. With any fuel that is as much or more it gives the same values, or
/// the same trap, and the same store, and what is left is all but that. With less it doesn't come to its end.
pub fn calls_that_end_use_the_same_fuel()
    ensures same { (m : NestedModule) (index : ℕ) (arguments : List ℕ) (s : Store) (fuel : ℕ)
        → Ends (answer_of m index arguments s fuel) → Uses (answer_of m index arguments s) fuel }
    ensures less { (m : NestedModule) (index : ℕ) (arguments : List ℕ) (s : Store) (fuel less : ℕ)
        → (u : Uses (answer_of m index arguments s) fuel) → less < u.used → ¬ Ends (answer_of m index arguments s less) }
{}

/// A loop is its list, and the loop again at each branch to its label: the number of its iterations has no other bound
/// than the fuel.
pub fn loops_begin_again()
    ensures { (m : NestedModule) (frames held : ℕ) (code : Code) (locals : List Value) (s : Store) (fuel : ℕ)
        → loop_outcome (exec m (invoke m frames) held code) locals s fuel
        ≡ after_iteration (loop_outcome (exec m (invoke m frames) held code)) (exec m (invoke m frames) held code locals [] s fuel) }
{}
