//! A module runs as a unit, from its bytes on.
ghost use Rattle.std.specs.Prelude.{◌≤◌, IfOk};
ghost use Rattle.binding_specs.specs.Guests.{greatest_size};
ghost use Rattle.fmi_binding.specs.Ecus.{IsIn};

use crate::modules::changed;
use call_words::{call_of, told_reply};
use can_frame::{Name, Numbers};
use case_words::{Unanswered, bytes_of, cut, long, short};
use fmi_binding::{Guests, WasmEcu, check};
use fmi_states::{Ecu, permitted};
use fmu_description::{Description, Terminal};
use std::alloc::{AllocError, Global};
use wasm_machine::{Instance, fits};
use wasm_memory::Pool;
use wasm_reader::read_module;
use wasm_validate::{Checked, validate};

fn name(alloc: Global, text: &[u8]) -> Result<Name, AllocError> {
    match Name::of(Vec::from_slice(alloc, text)?) {
        Some(name) => Ok(name),
        None => Err(AllocError),
    }
}

/// Two terminals whose binaries have at most so many bytes, and a countdown clock.
fn description(alloc: Global, most: u32) -> Result<Description, AllocError>
    requires { most ≤ 65536 }
    ensures { IfOk result (λ d. greatest_size d.terminals ≤ 65536) }
{
    let mut terminals = Vec::new(alloc);
    terminals.push(Terminal {
        name: name(alloc, b"CAN0")?,
        rx_data: 1,
        tx_data: 3,
        rx_clock: 0,
        tx_clock: 2,
        rx_max: most,
        tx_max: most,
    })?;
    terminals.push(Terminal {
        name: name(alloc, b"CAN1")?,
        rx_data: 5,
        tx_data: 7,
        rx_clock: 4,
        tx_clock: 6,
        rx_max: most,
        tx_max: most,
    })?;
    Ok(Description {
        identifier: name(alloc, b"guest")?,
        countdown: Numbers::of(Vec::from_slice(alloc, &[100])?),
        terminals,
    })
}

/// The module that these bytes spell, which has to be valid.
fn code(alloc: Global, bytes: &[u8]) -> Result<Checked, Unanswered> {
    let module = match read_module(alloc, bytes) {
        Ok(module) => module,
        Err(_) => return Err(Unanswered::Unknown),
    };
    validate(alloc, module).ok().ok_or(Unanswered::Unknown)
}

/// The unit of a module that is read, valid, and exports what is asked of a unit.
fn unit(
    alloc: Global,
    shared: &mut Guests,
    bytes: &[u8],
    most: u32,
    fuel: u64,
) -> Result<WasmEcu, Unanswered>
    ensures { IfOk result (λ e. IsIn e shared.new) }
{
    if most > 65_536 {
        return Err(Unanswered::Unknown);
    }
    let code = code(alloc, bytes)?;
    let description = description(alloc, most)?;
    match (fits(&code), check(&code, &description)) {
        (Ok(()), Ok(())) => Ok(WasmEcu::new(alloc, shared, code, &description, fuel)?),
        _ => Err(Unanswered::Unknown),
    }
}

/// Makes a call that has to be permitted: its reply.
fn called(
    alloc: Global,
    shared: &mut Guests,
    unit: &mut WasmEcu,
    words: &str,
) -> Result<String, Unanswered>
    requires { IsIn unit.old shared.old }
    ensures { IfOk result (λ _. IsIn unit.new shared.new) }
{
    let call = call_of(alloc, words)?;
    if !permitted(unit.phase(), &call) {
        return Err(Unanswered::Unknown);
    }
    let reply = unit.call(alloc, shared, &call)?;
    told_reply(alloc, &reply)
}

/// The reply to the last of some calls of the module: `MOST FUEL CHANGE: CALL; ..`, with the greatest size of its
/// binaries, the fuel of each function, and the change, if there is one.
pub fn calls(alloc: Global, module: &[u8], rest: &str) -> Result<String, Unanswered> {
    let (head, calls) = rest.split_once(": ").ok_or(Unanswered::Unknown)?;
    let (most, rest) = cut(head);
    let (fuel, change) = cut(rest);
    let bytes = changed(alloc, module, change)?;
    let mut shared = Guests::new(alloc)?;
    let mut unit = unit(alloc, &mut shared, &bytes, short(most)?, long(fuel)?)?;
    let mut last = String::new(alloc);
    for words in calls.split("; ") {
        last = called(alloc, &mut shared, &mut unit, words)?;
    }
    Ok(last)
}

/// How many pages an instance of the module has that is made from so many pages with these bytes: `PAGES BYTES`.
pub fn pages(alloc: Global, module: &[u8], rest: &str) -> Result<String, Unanswered> {
    let (pages, runs) = cut(rest);
    let memory = bytes_of(alloc, runs)?;
    let pages = short(pages)?;
    let code = code(alloc, module)?;
    let mut pool = Pool::new(alloc)?;
    if fits(&code).is_err() {
        return Err(Unanswered::Unknown);
    }
    let made = Instance::from_state(alloc, &mut pool, &code, pages, &memory, &[])?;
    match made.map(|instance| instance.pages()) {
        Some(pages) => Ok(format!(in alloc; "{pages}")?),
        None => Ok(String::from_str(alloc, "none")?),
    }
}
