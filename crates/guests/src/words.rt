//! The modules and descriptions that words ask for.
ghost use Rattle.std.specs.Prelude.{◌≤◌, IfOk, IfSome, length};

use bus_ops::{Op, write_op};
use can_frame::{Frame, Kind};
use guest_kit::{description_of, echo, flooder, gateway, listener, sender, sleeper};
use plain_text::number_in;
use std::alloc::{AllocError, Global};

// The identifier in each description.
const IDENTIFIER: &str = "guest";

// The most bytes that a guest emits at once: a frame takes 81 at most.
const MOST: usize = 128;

/// The bytes of the operation that transmits the frame of this text; None where it is none of a frame.
fn operation_in(alloc: Global, text: &[u8]) -> Result<Option<Vec<u8>>, AllocError>
    ensures short { IfOk result (λ o. IfSome o (λ v. length v.items ≤ 128)) }
{
    let Some(frame) = Frame::read(alloc, text)? else {
        return Ok(None);
    };
    let op = match frame.kind() {
        Kind::Fd { .. } => Op::FdTransmit(frame),
        _ => Op::Transmit(frame),
    };
    let mut bytes = Vec::new(alloc);
    write_op(alloc, &mut bytes, &op)?;
    if bytes.len() > MOST {
        return Ok(None);
    }
    Ok(Some(bytes))
}

fn long_in(word: &str) -> Option<u64> {
    number_in(0, u64::MAX, word.as_bytes())
}

/// FRAME COUNTER RESOLUTION
fn sender_in(alloc: Global, words: &[String]) -> Result<Option<Vec<u8>>, AllocError> {
    let [frame, counter, resolution] = words else {
        return Ok(None);
    };
    let Some(op) = operation_in(alloc, frame.as_bytes())? else {
        return Ok(None);
    };
    match (long_in(counter.as_str()), long_in(resolution.as_str())) {
        (Some(counter), Some(resolution)) => {
            Ok(Some(sender(alloc, op.as_slice(), counter, resolution)?))
        }
        _ => Ok(None),
    }
}

/// FRAME
fn sleeper_in(alloc: Global, words: &[String]) -> Result<Option<Vec<u8>>, AllocError> {
    let [frame] = words else {
        return Ok(None);
    };
    let Some(op) = operation_in(alloc, frame.as_bytes())? else {
        return Ok(None);
    };
    Ok(Some(sleeper(alloc, op.as_slice())?))
}

/// TERMINALS, or TERMINALS timer
fn description_in(alloc: Global, words: &[String]) -> Result<Option<Vec<u8>>, AllocError> {
    let (terminals, timer) = match words {
        [terminals] => (terminals, false),
        [terminals, word] if word.as_str() == "timer" => (terminals, true),
        _ => return Ok(None),
    };
    let terminals = if terminals.as_str() == "1" {
        1
    } else if terminals.as_str() == "2" {
        2
    } else {
        return Ok(None);
    };
    Ok(Some(description_of(alloc, IDENTIFIER, terminals, timer)?))
}

/// A guest of which nothing more is said.
fn plain_in(alloc: Global, name: &str) -> Result<Option<Vec<u8>>, AllocError> {
    let module = if name == "listener" {
        listener(alloc)?
    } else if name == "echo" {
        echo(alloc)?
    } else if name == "gateway" {
        gateway(alloc)?
    } else if name == "flooder" {
        flooder(alloc)?
    } else {
        return Ok(None);
    };
    Ok(Some(module))
}

/// The bytes of the module or of the description that the words ask for; None where they ask for neither.
pub fn file_of(alloc: Global, words: &[String]) -> Result<Option<Vec<u8>>, AllocError> {
    let [name, others @ ..] = words else {
        return Ok(None);
    };
    let name = name.as_str();
    if name == "sender" {
        sender_in(alloc, others)
    } else if name == "sleeper" {
        sleeper_in(alloc, others)
    } else if name == "description" {
        description_in(alloc, others)
    } else if others.is_empty() {
        plain_in(alloc, name)
    } else {
        Ok(None)
    }
}
