//! The names of a network's files.
ghost use Rattle.std.specs.Prelude.{◌≡◌, IfOk, string_bytes};
ghost use Rattle.network_specs.specs.Networks as spec;

use can_frame::Name;
use std::alloc::{AllocError, Global};
use std::str;

/// The name of the network file.
pub(crate) fn network_file_name(alloc: Global, net: &str) -> Result<String, AllocError>
    ensures { IfOk result (λ s. string_bytes s ≡ spec.network_file_name net.now) }
{
    let mut name = String::from_str(alloc, net)?;
    name.push_str("/net.toml")?;
    Ok(name)
}

/// The name of the description of a unit, by the unit's folder.
pub(crate) fn description_name(alloc: Global, net: &str, fmu: &Name) -> Result<String, AllocError>
    ensures { IfOk result (λ s. string_bytes s ≡ spec.description_name net.now fmu.now) }
{
    let mut name = String::from_str(alloc, net)?;
    name.push_str("/")?;
    name.push_str(text_of(fmu))?;
    name.push_str("/modelDescription.toml")?;
    Ok(name)
}

/// The name of the module of a unit, by the unit's folder and what its description calls it.
pub(crate) fn module_name(
    alloc: Global,
    net: &str,
    fmu: &Name,
    identifier: &Name,
) -> Result<String, AllocError>
    ensures { IfOk result (λ s. string_bytes s ≡ spec.module_name net.now fmu.now identifier.now) }
{
    let mut name = String::from_str(alloc, net)?;
    name.push_str("/")?;
    name.push_str(text_of(fmu))?;
    name.push_str("/binaries/")?;
    name.push_str(text_of(identifier))?;
    name.push_str(".wasm")?;
    Ok(name)
}

/// The text of a name.
fn text_of(name: &Name) -> &str
    ensures { result.now ≡ name.now }
{
    str::from_utf8(name.as_slice()).unwrap()
}
