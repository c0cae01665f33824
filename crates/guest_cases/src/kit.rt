//! The guests of the kit, and their descriptions.
use case_words::{Unanswered, bytes_of, cut, long};
use guest_kit::{description_of, echo, flooder, gateway, listener, sender, sleeper};
use std::alloc::Global;

/// What a guest emits: at most 128 bytes.
const MOST: usize = 128;

/// `OPERATION COUNTER RESOLUTION`
fn sender_of(alloc: Global, rest: &str) -> Result<Vec<u8>, Unanswered> {
    let (op, rest) = cut(rest);
    let (counter, resolution) = cut(rest);
    let op = bytes_of(alloc, op)?;
    if op.len() > MOST {
        return Err(Unanswered::Unknown);
    }
    Ok(sender(alloc, &op, long(counter)?, long(resolution)?)?)
}

/// `OPERATION`
fn sleeper_of(alloc: Global, rest: &str) -> Result<Vec<u8>, Unanswered> {
    let op = bytes_of(alloc, rest)?;
    if op.len() > MOST {
        return Err(Unanswered::Unknown);
    }
    Ok(sleeper(alloc, &op)?)
}

fn guest_of(alloc: Global, name: &str, rest: &str) -> Result<Vec<u8>, Unanswered> {
    match name {
        "sender" => sender_of(alloc, rest),
        "sleeper" => sleeper_of(alloc, rest),
        "listener" => Ok(listener(alloc)?),
        "echo" => Ok(echo(alloc)?),
        "gateway" => Ok(gateway(alloc)?),
        "flooder" => Ok(flooder(alloc)?),
        _ => Err(Unanswered::Unknown),
    }
}

/// Keeps the module of a guest.
pub fn keep(alloc: Global, module: &mut Vec<u8>, rest: &str) -> Result<String, Unanswered> {
    let (name, rest) = cut(rest);
    *module = guest_of(alloc, name, rest)?;
    Ok(String::from_str(alloc, "kept")?)
}

/// How many bytes the description of the guest `engine` has: its terminals, and `timer` where it has a countdown clock.
pub fn described(alloc: Global, rest: &str) -> Result<String, Unanswered> {
    let text = match rest {
        "1" => description_of(alloc, "engine", 1, false)?,
        "2" => description_of(alloc, "engine", 2, false)?,
        "1 timer" => description_of(alloc, "engine", 1, true)?,
        "2 timer" => description_of(alloc, "engine", 2, true)?,
        _ => return Err(Unanswered::Unknown),
    };
    let len = text.len();
    Ok(format!(in alloc; "{len} bytes")?)
}
