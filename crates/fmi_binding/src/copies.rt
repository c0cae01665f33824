//! Copies of descriptions.
ghost use Rattle.std.specs.Prelude.{◌≡◌, IfOk};

use can_frame::{Name, Numbers};
use fmu_description::{Description, Terminal};
use std::alloc::{AllocError, Global};

fn copy_name(alloc: Global, name: &Name) -> Result<Name, AllocError>
    ensures { IfOk result (λ copy. copy ≡ name.now) }
{
    let bytes = name.as_slice().to_vec(alloc)?;
    match Name::of(bytes) {
        Some(copy) => Ok(copy),
        // A name has no other bytes.
        None => unreachable!(),
    }
}

fn copy_terminal(alloc: Global, terminal: &Terminal) -> Result<Terminal, AllocError>
    ensures { IfOk result (λ copy. copy ≡ terminal.now) }
{
    Ok(Terminal {
        name: copy_name(alloc, &terminal.name)?,
        rx_data: terminal.rx_data,
        tx_data: terminal.tx_data,
        rx_clock: terminal.rx_clock,
        tx_clock: terminal.tx_clock,
        rx_max: terminal.rx_max,
        tx_max: terminal.tx_max,
    })
}

fn copy_terminals(alloc: Global, terminals: &[Terminal]) -> Result<Vec<Terminal>, AllocError>
    ensures { IfOk result (λ copies. copies.items ≡ terminals.now) }
{
    let mut copies = Vec::new(alloc);
    let mut left = terminals;
    while let [terminal, others @ ..] = left {
        copies.push(copy_terminal(alloc, terminal)?)?;
        left = others;
    }
    Ok(copies)
}

/// A copy of a description.
pub(crate) fn copy_description(
    alloc: Global,
    description: &Description,
) -> Result<Description, AllocError>
    ensures { IfOk result (λ copy. copy ≡ description.now) }
{
    let identifier = copy_name(alloc, &description.identifier)?;
    let countdown = description.countdown.as_slice().to_vec(alloc)?;
    let terminals = copy_terminals(alloc, &description.terminals)?;
    Ok(Description {
        identifier,
        countdown: Numbers::of(countdown),
        terminals,
    })
}
