//! What the bytes of a file are read as.
ghost use Rattle.std.specs.Prelude.{◌≡◌};
ghost use Rattle.wasm_types.specs.Back.{nested_module};
ghost use Rattle.refusal_names.specs.Modules.{refusal};
ghost use Rattle.network_folder.specs.Outcomes.{refused_if};
ghost use Rattle.network_folder.specs.Parts.{Answers, file_said, description_said, module_said};

use crate::error::NetError;
use bench_outside::{FileId, Refusal, Why};
use fmi_binding::check;
use fmu_description::{DescError, Description, read_description};
use network_file::{NetworkFile, NetworkFileError, read_network_file};
use refusal_names::{
    description_why, misfit_refusal, network_why, read_refusal, rule_refusal, unbound_refusal,
};
use std::alloc::Global;
use wasm_machine::fits;
use wasm_reader::read_module;
use wasm_validate::{Checked, Invalid, validate};

/// A file breaks this rule at this place.
pub(crate) fn refused(file: FileId, why: Why, place: u64) -> NetError
    ensures { result ≡ NetError.Refused (refusal file why place) }
{
    NetError::Refused(Refusal {
        file,
        why,
        place,
        at: 0,
    })
}

/// What the bytes of the network file say.
pub(crate) fn network_file_of(alloc: Global, bytes: &[u8]) -> Result<NetworkFile, NetError>
    ensures { Answers (λ f. f) result (file_said bytes.now) }
{
    match read_network_file(alloc, bytes) {
        Ok(file) => Ok(file),
        Err(NetworkFileError::Field(field, place)) => {
            Err(refused(FileId::Main, network_why(field), place))
        }
        Err(NetworkFileError::Memory) => Err(NetError::Memory),
    }
}

/// What the bytes of the description of a node's unit say.
pub(crate) fn description_of(
    alloc: Global,
    node: u32,
    bytes: &[u8],
) -> Result<Description, NetError>
    ensures { Answers (λ d. d) result (description_said node bytes.now) }
{
    match read_description(alloc, bytes) {
        Ok(description) => Ok(description),
        Err(DescError::Field(field, place)) => Err(refused(
            FileId::Description(node),
            description_why(field),
            place,
        )),
        Err(DescError::Memory) => Err(NetError::Memory),
    }
}

/// The module of a node's unit, by the bytes of its file: it is read, then it is valid, then its segments fit, then it
/// exports what a unit has to.
pub(crate) fn module_of(
    alloc: Global,
    node: u32,
    description: &Description,
    bytes: &[u8],
) -> Result<Checked, NetError>
    ensures { Answers nested_module result (module_said node description.now bytes.now) }
{
    let file = FileId::Module(node);
    let module = match read_module(alloc, bytes) {
        Ok(module) => module,
        Err(error) => return Err(refused_if(read_refusal(file, error))),
    };
    let code = match validate(alloc, module) {
        Ok(code) => code,
        Err(Invalid::Rule { rule, place, at }) => {
            return Err(NetError::Refused(rule_refusal(file, rule, place, at)));
        }
        Err(Invalid::Memory) => return Err(NetError::Memory),
    };
    if let Err(misfit) = fits(&code) {
        return Err(NetError::Refused(misfit_refusal(file, misfit)));
    }
    if let Err(error) = check(&code, description) {
        return Err(NetError::Refused(unbound_refusal(file, error)));
    }
    Ok(code)
}

fn refused_if(refusal: Option<Refusal>) -> NetError
    ensures { result ≡ refused_if refusal }
{
    match refusal {
        Some(refusal) => NetError::Refused(refusal),
        None => NetError::Memory,
    }
}
