//! The types that the functions of a unit have.
ghost use Rattle.std.specs.Prelude.{◌≡◌, [], ◌∷◌, option_map};
ghost use Rattle.wasm_types.specs.declared.instr.ValType.TheVariants.{I32, I64};
ghost use Rattle.code_specs.specs.Signatures.{is_same_list};
ghost use Rattle.binding_specs.specs.Exports.{type_of, is_type};

use binding_specs::Function;
use wasm_types::{FuncType, ValType};

fn are_none(types: &[ValType]) -> bool
    ensures { result ≡ is_same_list [] types.now }
{
    types.is_empty()
}

fn is_number(types: &[ValType]) -> bool
    ensures { result ≡ is_same_list (I32 ∷ []) types.now }
{
    matches!(types, [ValType::I32])
}

fn are_numbers(types: &[ValType]) -> bool
    ensures { result ≡ is_same_list (I32 ∷ I32 ∷ []) types.now }
{
    matches!(types, [ValType::I32, ValType::I32])
}

fn are_moments(types: &[ValType]) -> bool
    ensures { result ≡ is_same_list (I64 ∷ I64 ∷ []) types.now }
{
    matches!(types, [ValType::I64, ValType::I64])
}

fn are_parameters(function: Function, types: &[ValType]) -> bool
    ensures { result ≡ is_same_list (type_of function).params types.now }
{
    match function {
        Function::Area | Function::GetClock | Function::GetBinary | Function::GetInterval => {
            is_number(types)
        }
        Function::SetClock | Function::SetBinary => are_numbers(types),
        Function::DoStep => are_moments(types),
        Function::Instantiate
        | Function::EnterInit
        | Function::ExitInit
        | Function::EnterEvent
        | Function::EnterStep
        | Function::Update
        | Function::Terminate
        | Function::Free => are_none(types),
    }
}

fn are_results(function: Function, types: &[ValType]) -> bool
    ensures { result ≡ is_same_list (type_of function).results types.now }
{
    match function {
        Function::Free => are_none(types),
        _ => is_number(types),
    }
}

/// Whether a function of this type may be that function of a unit.
pub(crate) fn is_type(function: Function, ty: Option<&FuncType>) -> bool
    ensures { result ≡ is_type (type_of function) (option_map (λ t. t.now) ty.entry) }
{
    match ty {
        None => false,
        Some(ty) => {
            are_parameters(function, ty.params.as_slice())
                && are_results(function, ty.results.as_slice())
        }
    }
}
