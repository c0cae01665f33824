//! Plays that are read from their files.
ghost use Rattle.std.specs.Prelude.{◌<◌, ◌^◌, IfOk, length};

use crate::texts::{or_dash, push_part, text_of, word};
use can_frame::{Frame, Kind};
use case_words::{Unanswered, told_bytes};
use error_script::ErrorEntry;
use play_file::{Action, Play, PlayError, Verb, read_play};
use std::alloc::Global;

/// The play of a file, which is refused as a question where it is too long for the call.
pub fn play_of(alloc: Global, text: &str) -> Result<Result<Play, u64>, Unanswered>
    ensures { IfOk result (λ answer. IfOk answer (λ p. length p.actions < 2 ^ 63)) }
{
    if text.len() >= 0x1_0000_0000 {
        return Err(Unanswered::Unknown);
    }
    match read_play(alloc, text.as_bytes()) {
        Ok(play) => Ok(Ok(play)),
        Err(PlayError::Line { number }) => Ok(Err(number)),
        Err(PlayError::Memory) => Err(Unanswered::Memory),
    }
}

/// The bus of a play, and how many errors and actions it has.
fn told_head(alloc: Global, play: &Play) -> Result<String, Unanswered> {
    let (resolution, rate) = (play.resolution(), play.rate());
    let fd_rate = or_dash(alloc, play.fd_rate().map(u64::from))?;
    let nominal = play.nominal().ticks();
    let fast = or_dash(alloc, play.data().map(|time| time.ticks()))?;
    let (nodes, stop) = (play.nodes(), play.stop());
    let rates = format!(in alloc;
        "{resolution} ticks, rates {rate} {fd_rate}, bits {nominal} {fast}"
    )?;
    let (errors, actions) = (play.errors().len(), play.actions().len());
    Ok(format!(in alloc;
        "{rates}, {nodes} nodes, stop {stop}, {errors} errors, {actions} actions"
    )?)
}

fn told_entry(alloc: Global, entry: &ErrorEntry) -> Result<String, Unanswered> {
    let (first, count, kind, bit) = (entry.first, entry.count, entry.kind, entry.bit);
    match entry.by {
        Some(node) => Ok(format!(in alloc; "{first} {count} {kind} {node} {bit}")?),
        None => Ok(format!(in alloc; "{first} {count} {kind} sender {bit}")?),
    }
}

fn kind_of(kind: Kind) -> &'static str {
    match kind {
        Kind::Data => "data",
        Kind::Remote => "remote",
        Kind::Fd {
            brs: false,
            esi: false,
        } => "fd",
        Kind::Fd {
            brs: true,
            esi: false,
        } => "fd brs",
        Kind::Fd {
            brs: false,
            esi: true,
        } => "fd esi",
        Kind::Fd {
            brs: true,
            esi: true,
        } => "fd brs esi",
    }
}

/// The identifier in hexadecimal, the format and the kind of a frame, and its bytes.
fn told_frame(alloc: Global, frame: &Frame) -> Result<String, Unanswered> {
    let id = frame.id();
    let format = if frame.ext() { "extended" } else { "base" };
    let kind = kind_of(frame.kind());
    let bytes = told_bytes(alloc, frame.bytes().as_slice())?;
    Ok(format!(in alloc; "send {id:x} {format} {kind} {bytes}")?)
}

fn told_verb(alloc: Global, verb: &Verb) -> Result<String, Unanswered> {
    match verb {
        Verb::Send(frame) => told_frame(alloc, frame),
        Verb::Wake => word(alloc, "wake"),
        Verb::Sleep => word(alloc, "sleep"),
        Verb::Keep => word(alloc, "keep"),
        Verb::Discard => word(alloc, "discard"),
    }
}

fn told_action(alloc: Global, action: Action) -> Result<String, Unanswered> {
    let (moment, node) = (action.moment(), action.node());
    let verb = told_verb(alloc, &action.into_verb())?;
    Ok(format!(in alloc; "{moment} {node} {verb}")?)
}

/// A play: its bus, each error and each action.
fn told_play(alloc: Global, play: Play) -> Result<String, Unanswered> {
    let mut text = told_head(alloc, &play)?;
    let (errors, actions) = play.into_lists();
    for entry in errors.into_vec() {
        push_part(&mut text, &told_entry(alloc, &entry)?)?;
    }
    for action in actions {
        push_part(&mut text, &told_action(alloc, action)?)?;
    }
    Ok(text)
}

/// The line of a file that is refused.
pub fn told_refusal(alloc: Global, number: u64) -> Result<String, Unanswered> {
    Ok(format!(in alloc; "line {number}")?)
}

/// The play whose text this is, or the first line that breaks a rule.
pub fn read(alloc: Global, rest: &str) -> Result<String, Unanswered> {
    let text = text_of(alloc, rest)?;
    match play_of(alloc, &text)? {
        Ok(play) => told_play(alloc, play),
        Err(number) => told_refusal(alloc, number),
    }
}
