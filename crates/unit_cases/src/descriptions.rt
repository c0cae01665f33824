//! Two units, and what their sessions are given.
ghost use Rattle.std.specs.Prelude.{◌≡◌, [], ◌∷◌, IfOk, length};

use can_frame::{Bytes, Name, Numbers};
use ecu_session::{Inbox, SessionIn};
use fmu_description::{Description, Terminal};
use std::alloc::{AllocError, Global};

fn name(alloc: Global, text: &[u8]) -> Result<Name, AllocError> {
    match Name::of(text.to_vec(alloc)?) {
        Some(name) => Ok(name),
        None => Err(AllocError),
    }
}

/// A terminal whose value references begin with this one.
fn terminal(alloc: Global, text: &[u8], first: u8) -> Result<Terminal, AllocError> {
    let first = u32::from(first);
    Ok(Terminal {
        name: name(alloc, text)?,
        rx_clock: first,
        rx_data: first + 1,
        tx_clock: first + 2,
        tx_data: first + 3,
        rx_max: 4096,
        tx_max: 4096,
    })
}

/// A unit with a terminal and a countdown clock.
pub fn engine(alloc: Global) -> Result<Description, AllocError>
    ensures terminals { IfOk result (λ d. length d.terminals ≡ 1) }
{
    Ok(Description {
        identifier: name(alloc, b"engine")?,
        countdown: Numbers::of(vec![in alloc; 100]?),
        terminals: vec![in alloc; terminal(alloc, b"A", 0)?]?,
    })
}

/// A unit with two terminals and three countdown clocks.
pub fn gateway(alloc: Global) -> Result<Description, AllocError>
    ensures terminals { IfOk result (λ d. length d.terminals ≡ 2) }
    ensures countdown { IfOk result (λ d. d.countdown ≡ 100 ∷ 101 ∷ 102 ∷ []) }
{
    Ok(Description {
        identifier: name(alloc, b"gateway")?,
        countdown: Numbers::of(vec![in alloc; 100, 101, 102]?),
        terminals: vec![in alloc; terminal(alloc, b"A", 0)?, terminal(alloc, b"B", 10)?]?,
    })
}

/// The opening of the engine.
pub fn at_once(alloc: Global) -> Result<SessionIn, AllocError>
    ensures moment { IfOk result (λ input. input.moment ≡ 0) }
    ensures last { IfOk result (λ input. input.last ≡ 0) }
    ensures ticked { IfOk result (λ input. input.ticked ≡ []) }
    ensures inbox { IfOk result (λ input. input.inbox ≡ [] ∷ []) }
{
    let inbox = vec![in alloc; Bytes::of(Vec::new(alloc))]?;
    Ok(SessionIn {
        moment: 0,
        last: 0,
        resolution: 1_000_000,
        ticked: Numbers::of(Vec::new(alloc)),
        inbox: Inbox::of(inbox),
    })
}

/// The opening of the gateway.
pub fn at_first(alloc: Global) -> Result<SessionIn, AllocError>
    ensures moment { IfOk result (λ input. input.moment ≡ 100) }
    ensures last { IfOk result (λ input. input.last ≡ 0) }
    ensures ticked { IfOk result (λ input. input.ticked ≡ []) }
    ensures inbox { IfOk result (λ input. input.inbox ≡ [] ∷ [] ∷ []) }
{
    let inbox = vec![in alloc; Bytes::of(Vec::new(alloc)), Bytes::of(Vec::new(alloc))]?;
    Ok(SessionIn {
        moment: 100,
        last: 0,
        resolution: 1_000_000,
        ticked: Numbers::of(Vec::new(alloc)),
        inbox: Inbox::of(inbox),
    })
}

/// Two clocks of the gateway tick, and a byte came in by its second terminal.
pub fn behind_it(alloc: Global) -> Result<SessionIn, AllocError>
    ensures moment { IfOk result (λ input. input.moment ≡ 500) }
    ensures last { IfOk result (λ input. input.last ≡ 100) }
    ensures ticked { IfOk result (λ input. input.ticked ≡ 100 ∷ 102 ∷ []) }
    ensures inbox { IfOk result (λ input. input.inbox ≡ [] ∷ (7 ∷ []) ∷ []) }
{
    let came = Bytes::of(vec![in alloc; 7]?);
    let inbox = vec![in alloc; Bytes::of(Vec::new(alloc)), came]?;
    Ok(SessionIn {
        moment: 500,
        last: 100,
        resolution: 1_000_000,
        ticked: Numbers::of(vec![in alloc; 100, 102]?),
        inbox: Inbox::of(inbox),
    })
}
