//! Guests of stated behaviour.
ghost use Rattle.std.specs.Prelude.{◌≡◌, ◌≤◌, [], IfOk, length};
ghost use Rattle.operation_specs.specs.Operation.{Sleep};
ghost use Rattle.operation_specs.specs.Spelling.{spell};
ghost use Rattle.wasm_writer.specs.ModuleTexts.{module_text};
ghost use Rattle.guest_kit.specs.Guests.{guest_module, flood, echoes, passes_on, wakes};
ghost use Rattle.guest_kit.specs.Guests as spec;

use crate::manner::{Manner, listens, ticks};
use crate::program::program;
use std::alloc::{AllocError, Global};
use wasm_writer::write_module;

// The Tx_Clock of terminal 1.
const SECOND: u32 = 6;

// A CAN transmit of the base identifier 0x7FF without data: its code, its 16 bytes, the identifier, IDE, RTR, no data.
const TRANSMIT: [u8; 16] = [0x10, 0, 0, 0, 16, 0, 0, 0, 0xFF, 0x07, 0, 0, 0, 0, 0, 0];

// Sleep: its code, and its 8 bytes.
const SLEEP: [u8; 8] = [0xF0, 0, 0, 0, 8, 0, 0, 0];

// The module of a guest, with what it answers, and what it emits in its first session.
fn guest(
    alloc: Global,
    manner: Manner,
    answer: &[u8],
    opening: &[u8],
) -> Result<Vec<u8>, AllocError>
    requires answer { length answer.now ≤ 128 }
    requires opening { length opening.now ≤ 4800 }
    ensures bytes { IfOk result (λ bytes. bytes.items ≡ module_text (guest_module manner answer.now opening.now)) }
{
    let numbers = manner.numbers(alloc, answer, opening)?;
    let mut builder = program(alloc)?;
    builder.segment(alloc, 0, numbers.as_slice())?;
    builder.segment(alloc, 32768, opening)?;
    let module = builder.finish();
    let bytes = write_module(alloc, &module)?;
    Ok(bytes)
}

/// A guest that sets its interval in its first session, in counts of a resolution in a second, and emits these bytes at
/// terminal 0 each time that it is over, and sets it again: at most 128 bytes.
pub fn sender(
    alloc: Global,
    op: &[u8],
    counter: u64,
    resolution: u64,
) -> Result<Vec<u8>, AllocError>
    requires { length op.now ≤ 128 }
    ensures bytes { IfOk result (λ bytes. bytes.items ≡ module_text (guest_module (spec.ticks counter resolution) op.now [])) }
{
    guest(alloc, ticks(counter, resolution), op, &[])
}

/// A guest that takes and emits nothing.
pub fn listener(alloc: Global) -> Result<Vec<u8>, AllocError>
    ensures bytes { IfOk result (λ bytes. bytes.items ≡ module_text (guest_module spec.listens [] [])) }
{
    guest(alloc, listens(), &[], &[])
}

/// A guest that emits at terminal 0 each CAN or CAN FD transmit that it receives there.
pub fn echo(alloc: Global) -> Result<Vec<u8>, AllocError>
    ensures bytes { IfOk result (λ bytes. bytes.items ≡ module_text (guest_module echoes [] [])) }
{
    let manner = Manner {
        forwards: true,
        ..listens()
    };
    guest(alloc, manner, &[], &[])
}

/// A guest that emits at terminal 1 each CAN or CAN FD transmit that it receives at terminal 0.
pub fn gateway(alloc: Global) -> Result<Vec<u8>, AllocError>
    ensures bytes { IfOk result (λ bytes. bytes.items ≡ module_text (guest_module passes_on [] [])) }
{
    let manner = Manner {
        forwards: true,
        clock: SECOND,
        ..listens()
    };
    guest(alloc, manner, &[], &[])
}

/// A guest that emits 300 CAN transmits of the base identifier 0x7FF, without data, in its first session.
pub fn flooder(alloc: Global) -> Result<Vec<u8>, AllocError>
    ensures bytes { IfOk result (λ bytes. bytes.items ≡ module_text (guest_module spec.listens [] flood)) }
{
    let opening = TRANSMIT.repeat(alloc, 300)?;
    guest(alloc, listens(), &[], opening.as_slice())
}

/// A guest that emits Sleep in its first session, and these bytes each time that it receives a wakeup: at most 128 bytes.
pub fn sleeper(alloc: Global, op: &[u8]) -> Result<Vec<u8>, AllocError>
    requires { length op.now ≤ 128 }
    ensures bytes { IfOk result (λ bytes. bytes.items ≡ module_text (guest_module wakes op.now (spell Sleep))) }
{
    let manner = Manner {
        wakes: true,
        ..listens()
    };
    guest(alloc, manner, op, &SLEEP)
}
