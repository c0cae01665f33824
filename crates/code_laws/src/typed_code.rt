//! Laws of typing.
ghost use Rattle.std.specs.Prelude.{◌≡◌, ℕ, ◌++◌, List, [], Some, Ok, length, reverse};
ghost use Rattle.wasm_types.specs.Nested.{Code};
ghost use Rattle.wasm_types.specs.Modules.{NestedModule};
ghost use Rattle.code_specs.specs.Values.{Value};
ghost use Rattle.code_specs.specs.Stores.{Store};
ghost use Rattle.code_specs.specs.Signatures.{Function, function_at};
ghost use Rattle.code_specs.specs.Execution.{Next, exec, invoke};
ghost use Rattle.code_specs.specs.Typing.{OperandTypes, Left, Context, with_operands, no_operands, type_of, type_of_func};
ghost use Rattle.code_specs.specs.Validity.{IsValid};
ghost use Rattle.code_laws.specs.Codes.{then_code, type_in_parts, HasItsLabels};
ghost use Rattle.code_laws.specs.Answers.{AreValues};

/// A list in two parts is typed as the first part, and then as the second from where the first leaves off. So where the
/// first part fails, the list fails with it, whatever comes behind.
pub fn typing_goes_from_left_to_right()
    ensures { (c : Context) (held position : ℕ) (front rest : Code) (s : OperandTypes)
        → type_of c held position (then_code front rest) s
        ≡ type_in_parts c held position front rest s }
{}

/// In typed code each branch leads to a label that is there; in a body that of the body is one.
pub fn branches_lead_to_labels_that_are_there()
    ensures list { (c : Context) (held position : ℕ) (code : Code) (s : OperandTypes) (left : Left)
        → type_of c held position code s ≡ Ok left → HasItsLabels (length c.labels) code }
    ensures body { (m : NestedModule) (f : Function) (s : OperandTypes)
        → type_of_func m f ≡ Ok s → HasItsLabels 1 f.code }
{}

/// A typed body leaves exactly its results: so says its type, and so it is where the end of the body is come to.
pub fn typed_bodies_leave_exactly_their_results()
    ensures types { (m : NestedModule) (f : Function) (s : OperandTypes)
        → type_of_func m f ≡ Ok s → with_operands (reverse f.ty.results) no_operands ≡ s }
    ensures values { (m : NestedModule) → IsValid m → (index : ℕ) (f : Function) → function_at m index ≡ Some f
        → (frames : ℕ) (locals : List Value) (s : Store) (fuel : ℕ) → AreValues (f.ty.params ++ f.locals) locals
        → (after operands : List Value) (left : Store) (fuel_left : ℕ)
        → exec m (invoke m frames) (length locals) f.code locals [] s fuel ≡ Next after operands left fuel_left
        → AreValues (reverse f.ty.results) operands }
{}
