//! Calls as words: `EnterInit`, `SetClock 100`, `SetBinary 11 07`, `DoStep 0 10`.
use can_frame::Bytes;
use case_words::{Unanswered, bytes_of, cut, long, short, told_bytes};
use fmi_states::Call;
use std::alloc::Global;

/// A call of a name alone.
fn plain(name: &str) -> Result<Call, Unanswered> {
    match name {
        "Instantiate" => Ok(Call::Instantiate),
        "EnterInit" => Ok(Call::EnterInit),
        "ExitInit" => Ok(Call::ExitInit),
        "EnterEvent" => Ok(Call::EnterEvent),
        "EnterStep" => Ok(Call::EnterStep),
        "Update" => Ok(Call::Update),
        "Terminate" => Ok(Call::Terminate),
        "Free" => Ok(Call::Free),
        _ => Err(Unanswered::Unknown),
    }
}

/// A call with a value reference and nothing more.
fn referring(name: &str, reference: u32) -> Result<Call, Unanswered> {
    match name {
        "SetClock" => Ok(Call::SetClock(reference)),
        "GetClock" => Ok(Call::GetClock(reference)),
        "GetBinary" => Ok(Call::GetBinary(reference)),
        "GetInterval" => Ok(Call::GetInterval(reference)),
        _ => Err(Unanswered::Unknown),
    }
}

/// The call of these words.
pub fn call_of(alloc: Global, text: &str) -> Result<Call, Unanswered> {
    let (name, rest) = cut(text);
    if rest.is_empty() {
        return plain(name);
    }
    let (first, others) = cut(rest);
    match name {
        "SetBinary" => Ok(Call::SetBinary(short(first)?, Bytes::of(bytes_of(alloc, others)?))),
        "DoStep" => Ok(Call::DoStep {
            from: long(first)?,
            size: long(others)?,
        }),
        _ => referring(name, short(rest)?),
    }
}

fn name_of(call: &Call) -> &'static str {
    match call {
        Call::Instantiate => "Instantiate",
        Call::EnterInit => "EnterInit",
        Call::ExitInit => "ExitInit",
        Call::EnterEvent => "EnterEvent",
        Call::EnterStep => "EnterStep",
        Call::SetClock(_) => "SetClock",
        Call::SetBinary(_, _) => "SetBinary",
        Call::GetClock(_) => "GetClock",
        Call::GetBinary(_) => "GetBinary",
        Call::Update => "Update",
        Call::GetInterval(_) => "GetInterval",
        Call::DoStep { .. } => "DoStep",
        Call::Terminate => "Terminate",
        Call::Free => "Free",
    }
}

/// The words of a call.
pub fn told_call(alloc: Global, call: &Call) -> Result<String, Unanswered> {
    let name = name_of(call);
    match call {
        Call::SetClock(reference)
        | Call::GetClock(reference)
        | Call::GetBinary(reference)
        | Call::GetInterval(reference) => Ok(format!(in alloc; "{name} {reference}")?),
        Call::SetBinary(reference, bytes) => {
            let bytes = told_bytes(alloc, bytes.as_slice())?;
            Ok(format!(in alloc; "{name} {reference} {bytes}")?)
        }
        Call::DoStep { from, size } => Ok(format!(in alloc; "{name} {from} {size}")?),
        _ => Ok(String::from_str(alloc, name)?),
    }
}
