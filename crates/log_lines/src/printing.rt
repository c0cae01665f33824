//! Printing a line.
ghost use Rattle.std.specs.Prelude.{◌≡◌, ◌++◌, ◌∷◌, [], IfOk, OnOk, flat_map, decimal, codes};
ghost use Rattle.frame_specs.specs.FrameText.{frame_text, hex};
ghost use Rattle.log_specs.specs.Line.{line_text, bytes_text, numbers_text, level_text as text_of_level, cause_text as text_of_cause};
ghost use Rattle.log_lines.specs.Lines.{line_of, declared_of, cause_of};
ghost use Rattle.log_lines.specs.Parts.{head_of, rest_of, number_or_dash, spaced};
ghost use Rattle.log_lines.specs.Commas.{behind_comma};

use crate::{Cause, Level, Line};
use can_frame::{Bytes, Frame, Numbers};
use itoa::Buffer;
use std::alloc::{AllocError, Global};

/// The text of a line, with its line feed: its words, separated by single spaces.
pub fn print_line(alloc: Global, line: &Line) -> Result<Vec<u8>, AllocError>
    ensures { IfOk result (λ v. v.items ≡ line_text (line_of line.now)) }
{
    let mut text = Vec::new(alloc);
    push_head(&mut text, line)?;
    push_rest(alloc, &mut text, line)?;
    text.push(b'\n')?;
    Ok(text)
}

/// Adds the words up to the node, or the word end.
#[tactic(auto, using(crate::proofs::Texts::head_of_node, crate::proofs::Texts::head_of_end, crate::proofs::Texts::head_of_none))]
fn push_head(text: &mut Vec<u8>, line: &Line) -> Result<(), AllocError>
    ensures { OnOk result (text.new.items ≡ text.old.items ++ head_of (line_of line.now)) }
{
    let Some(moment) = line.moment() else {
        return text.extend_from_slice(line.verb().as_bytes());
    };
    let Some(node) = line.node() else {
        return text.extend_from_slice(line.verb().as_bytes());
    };
    extend_number(text, moment)?;
    push_bus(text, line.bus())?;
    push_word(text, line.verb().as_bytes())?;
    push_number(text, u64::from(node))
}

/// Adds the number of a bus, a dash for none.
fn push_bus(text: &mut Vec<u8>, bus: Option<u32>) -> Result<(), AllocError>
    ensures { OnOk result (text.new.items ≡ text.old.items ++ 32 ∷ number_or_dash bus) }
{
    match bus {
        Some(bus) => push_number(text, u64::from(bus)),
        None => push_word(text, b"-"),
    }
}

/// Adds the words behind the node.
fn push_rest(alloc: Global, text: &mut Vec<u8>, line: &Line) -> Result<(), AllocError>
    ensures { OnOk result (text.new.items ≡ text.old.items ++ spaced (rest_of (line_of line.now))) }
{
    match line {
        Line::Req { frame, .. }
        | Line::Full { frame, .. }
        | Line::Drop { frame, .. }
        | Line::Start { frame, .. } => push_frame(alloc, text, frame),
        Line::LostKept { frame, .. } => push_lost(alloc, text, frame, b"keep"),
        Line::LostGone { frame, .. } => push_lost(alloc, text, frame, b"gone"),
        Line::Rate { value, .. } | Line::FdRate { value, .. } => push_number(
            text,
            u64::from(*value),
        ),
        Line::Status { level, .. } | Line::State { level, .. } => push_word(
            text,
            level_text(*level),
        ),
        Line::FormatError { bytes, .. } | Line::Bad { bytes, .. } => push_bytes(alloc, text, bytes),
        Line::ToldLost { id, .. } => push_told_lost(alloc, text, *id),
        Line::ToldFormat { bytes, .. } => push_told_format(alloc, text, bytes),
        Line::ToldWake { .. } => push_word(text, b"wake"),
        Line::Done {
            frame,
            receivers,
            ..
        } => push_done(alloc, text, frame, receivers),
        Line::Fail {
            frame,
            kind,
            by,
            ..
        } => push_fail(alloc, text, frame, *kind, *by),
        Line::Hurt { kind, .. } => push_number(text, u64::from(*kind)),
        Line::Down { cause, .. } => push_word(text, cause_text(*cause)),
        Line::End { status, events } => push_end(text, *status, *events),
        Line::Keep { .. }
        | Line::Discard { .. }
        | Line::Wake { .. }
        | Line::Sleep { .. }
        | Line::Back { .. }
        | Line::Over { .. } => Ok(()),
    }
}

fn push_lost(
    alloc: Global,
    text: &mut Vec<u8>,
    frame: &Frame,
    word: &[u8],
) -> Result<(), AllocError>
    ensures { OnOk result (text.new.items ≡ text.old.items ++ spaced (frame_text frame.now ∷ word.now ∷ [])) }
{
    push_frame(alloc, text, frame)?;
    push_word(text, word)
}

fn push_told_lost(alloc: Global, text: &mut Vec<u8>, id: u32) -> Result<(), AllocError>
    ensures { OnOk result (text.new.items ≡ text.old.items ++ spaced (codes "lost" ∷ hex 8 id ∷ [])) }
{
    push_word(text, b"lost")?;
    push_word(text, &id_text(alloc, id)?)
}

/// An identifier in eight hexadecimal digits.
fn id_text(alloc: Global, id: u32) -> Result<Vec<u8>, AllocError>
    ensures { IfOk result (λ v. v.items ≡ hex 8 id) }
{
    let bytes = [
        (id >> 24) as u8,
        (id >> 16 & 0xff) as u8,
        (id >> 8 & 0xff) as u8,
        (id & 0xff) as u8,
    ];
    Bytes::of(bytes.to_vec(alloc)?).print(alloc)
}

fn push_told_format(alloc: Global, text: &mut Vec<u8>, bytes: &Bytes) -> Result<(), AllocError>
    ensures { OnOk result (text.new.items ≡ text.old.items ++ spaced (codes "format" ∷ bytes_text bytes.now ∷ [])) }
{
    push_word(text, b"format")?;
    push_bytes(alloc, text, bytes)
}

fn push_done(
    alloc: Global,
    text: &mut Vec<u8>,
    frame: &Frame,
    receivers: &Numbers,
) -> Result<(), AllocError>
    ensures { OnOk result (text.new.items ≡ text.old.items ++ spaced (frame_text frame.now ∷ codes "to" ∷ numbers_text receivers.now ∷ [])) }
{
    push_frame(alloc, text, frame)?;
    push_word(text, b"to")?;
    push_numbers(text, receivers.as_slice())
}

fn push_fail(
    alloc: Global,
    text: &mut Vec<u8>,
    frame: &Frame,
    kind: u8,
    by: u32,
) -> Result<(), AllocError>
    ensures { OnOk result (text.new.items ≡ text.old.items ++ spaced (frame_text frame.now ∷ decimal kind ∷ decimal by ∷ [])) }
{
    push_frame(alloc, text, frame)?;
    push_number(text, u64::from(kind))?;
    push_number(text, u64::from(by))
}

fn push_end(text: &mut Vec<u8>, status: u8, events: u64) -> Result<(), AllocError>
    ensures { OnOk result (text.new.items ≡ text.old.items ++ spaced (decimal status ∷ decimal events ∷ [])) }
{
    push_number(text, u64::from(status))?;
    push_number(text, events)
}

/// The word of a fault confinement state.
pub fn level_text(level: Level) -> &'static [u8]
    ensures { result.now ≡ text_of_level (declared_of level) }
{
    match level {
        Level::Active => b"active",
        Level::Passive => b"passive",
        Level::Off => b"off",
    }
}

/// The word that says why a node is down.
pub fn cause_text(cause: Cause) -> &'static [u8]
    ensures { result.now ≡ text_of_cause (cause_of cause) }
{
    match cause {
        Cause::Trap => b"Trap",
        Cause::Spent => b"Spent",
        Cause::Status2 => b"Status2",
        Cause::Status3 => b"Status3",
        Cause::Status4 => b"Status4",
        Cause::BadReply => b"BadReply",
        Cause::BadBuffer => b"BadBuffer",
        Cause::Loop => b"Loop",
        Cause::BadInterval => b"BadInterval",
    }
}

fn push_frame(alloc: Global, text: &mut Vec<u8>, frame: &Frame) -> Result<(), AllocError>
    ensures { OnOk result (text.new.items ≡ text.old.items ++ 32 ∷ frame_text frame.now) }
{
    push_word(text, &frame.print(alloc)?)
}

/// Adds bytes in hexadecimal, a dash for none.
fn push_bytes(alloc: Global, text: &mut Vec<u8>, bytes: &Bytes) -> Result<(), AllocError>
    ensures { OnOk result (text.new.items ≡ text.old.items ++ 32 ∷ bytes_text bytes.now) }
{
    if bytes.as_slice().is_empty() {
        return push_word(text, b"-");
    }
    push_word(text, &bytes.print(alloc)?)
}

/// Adds numbers joined by commas, a dash for none.
fn push_numbers(text: &mut Vec<u8>, numbers: &[u32]) -> Result<(), AllocError>
    ensures { OnOk result (text.new.items ≡ text.old.items ++ 32 ∷ numbers_text numbers.now) }
{
    let Some((first, rest)) = numbers.split_first() else {
        return push_word(text, b"-");
    };
    push_number(text, u64::from(*first))?;
    push_others(text, rest)?;
    Ok(())
}

/// Adds numbers, each behind a comma.
fn push_others(text: &mut Vec<u8>, numbers: &[u32]) -> Result<(), AllocError>
    ensures { OnOk result (text.new.items ≡ text.old.items ++ flat_map behind_comma numbers.now) }
{
    for number in numbers {
        text.push(b',')?;
        extend_number(text, u64::from(*number))?;
    }
    Ok(())
}

fn push_number(text: &mut Vec<u8>, number: u64) -> Result<(), AllocError>
    ensures { OnOk result (text.new.items ≡ text.old.items ++ 32 ∷ decimal number) }
{
    text.push(b' ')?;
    extend_number(text, number)
}

fn push_word(text: &mut Vec<u8>, word: &[u8]) -> Result<(), AllocError>
    ensures { OnOk result (text.new.items ≡ text.old.items ++ 32 ∷ word.now) }
{
    text.push(b' ')?;
    text.extend_from_slice(word)
}

fn extend_number(text: &mut Vec<u8>, number: u64) -> Result<(), AllocError>
    ensures { OnOk result (text.new.items ≡ text.old.items ++ decimal number) }
{
    let mut buffer = Buffer::new();
    text.extend_from_slice(buffer.format(number).as_bytes())
}
