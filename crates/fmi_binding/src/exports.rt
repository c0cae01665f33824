//! Exports by their names.
ghost use Rattle.std.specs.Prelude.{◌≡◌, option_map};
ghost use Rattle.wasm_types.specs.Back.{nested_module};
ghost use Rattle.code_specs.specs.Signatures.{type_of_function};
ghost use Rattle.binding_specs.specs.Exports.{name_of, export_named, exported_type};

use binding_specs::Function;
use wasm_types::{Export, FuncType, Module};

const FUNCTION: u8 = 0;

/// The name under which a function is exported.
pub(crate) fn name_of(function: Function) -> &'static [u8]
    ensures { result.now ≡ name_of function }
{
    match function {
        Function::Area => b"bench_area",
        Function::Instantiate => b"fmi3InstantiateCoSimulation",
        Function::EnterInit => b"fmi3EnterInitializationMode",
        Function::ExitInit => b"fmi3ExitInitializationMode",
        Function::EnterEvent => b"fmi3EnterEventMode",
        Function::EnterStep => b"fmi3EnterStepMode",
        Function::SetClock => b"fmi3SetClock",
        Function::SetBinary => b"fmi3SetBinary",
        Function::GetClock => b"fmi3GetClock",
        Function::GetBinary => b"fmi3GetBinary",
        Function::Update => b"fmi3UpdateDiscreteStates",
        Function::GetInterval => b"fmi3GetIntervalFraction",
        Function::DoStep => b"fmi3DoStep",
        Function::Terminate => b"fmi3Terminate",
        Function::Free => b"fmi3FreeInstance",
    }
}

/// The first export with a name.
pub(crate) fn export_named<'a>(name: &[u8], exports: &'a [Export]) -> Option<&'a Export>
    ensures { option_map (λ e. e.now) result ≡ export_named name.now exports.now }
{
    let mut left = exports;
    while let [export, others @ ..] = left {
        if export.name.as_slice() == name {
            return Some(export);
        }
        left = others;
    }
    None
}

/// The type of a function.
fn type_at(code: &Module, index: u32) -> Option<&FuncType>
    ensures { option_map (λ t. t.now) result ≡ type_of_function (nested_module code.now) index }
{
    match code.funcs.as_slice().get(index as usize) {
        None => None,
        Some(func) => code.types.as_slice().get(func.ty as usize),
    }
}

/// The type of an exported function; None where the export is no function.
pub(crate) fn exported_type<'a>(code: &'a Module, export: &Export) -> Option<&'a FuncType>
    ensures { option_map (λ t. t.now) result ≡ exported_type (nested_module code.now) export.now }
{
    if export.kind == FUNCTION {
        type_at(code, export.index)
    } else {
        None
    }
}
