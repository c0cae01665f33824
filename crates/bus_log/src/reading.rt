//! Reading a line.
ghost use Rattle.std.specs.Prelude.{◌≡◌, ◌∷◌, [], IfOk, IfSome, Some, option_map, map};
ghost use Rattle.log_specs.specs.Line as log;
ghost use Rattle.log_lines.specs.Lines.{line_of};
ghost use Rattle.bus_log.specs.Spelling.{Spells};
ghost use Rattle.bus_log.specs.Reading.{one, bare, line_of_text, line_in, end_in, node_line_in, unit_line_in as unit_of, bus_line_in, cause_named as cause_of_word};

use crate::Line;
use crate::numbers::{byte_in, word32_in, word64_in};
use crate::told::{Place, told_line};
use crate::verb::{cause_named, is_word, verb_named};
use plain_text::{find, parts};
use std::alloc::{AllocError, Global};

/// The line whose text these bytes are, with its line feed; None exactly where they are the text of none.
/// Such a line has up to 64 bytes, a kind of error from 1 to 5 (a listener's: from 1 to 4), receivers
/// that rise, and the status 0 or 8.
pub fn read_line(alloc: Global, bytes: &[u8]) -> Result<Option<Line>, AllocError>
    // The bytes are the text of what is read.
    ensures found { IfOk result (λ o. IfSome o (λ line. Spells bytes.now (line_of line))) }

    // Each line with this text is read, unless memory runs out.
    ensures only { (line : log.Line) → Spells bytes.now line → IfOk result (λ o. option_map line_of o ≡ Some line) }
{
    line_in_text(alloc, bytes)
}

/// The line that a text spells, word by word.
#[tactic(auto, unfolding(crate::specs::Reading::line_of_text))]
fn line_in_text(alloc: Global, bytes: &[u8]) -> Result<Option<Line>, AllocError>
    ensures { IfOk result (λ o. option_map line_of o ≡ line_of_text bytes.now) }
{
    let Some((line, [])) = find(b'\n', bytes) else {
        return Ok(None);
    };
    let words = parts(alloc, b' ', line)?;
    line_of_words(alloc, &words)
}

fn line_of_words(alloc: Global, words: &[&[u8]]) -> Result<Option<Line>, AllocError>
    ensures { IfOk result (λ o. option_map line_of o ≡ line_in (map (λ w. w.now) words.now)) }
{
    match words {
        [word, status, events] => Ok(end_line(word, status, events)),
        [moment, bus, word, node, rest @ ..] => node_line(alloc, moment, bus, word, node, rest),
        _ => Ok(None),
    }
}

/// The last line of a log.
fn end_line(word: &[u8], status: &[u8], events: &[u8]) -> Option<Line>
    ensures { option_map line_of result ≡ end_in word.now status.now events.now }
{
    if !is_word(word, b"end") {
        return None;
    }
    let status = byte_in(0, 8, status)?;
    if status != 0 && status != 8 {
        return None;
    }
    let events = word64_in(events)?;
    Some(Line::End { status, events })
}

/// A line that tells of a node.
fn node_line(
    alloc: Global,
    moment: &[u8],
    bus: &[u8],
    word: &[u8],
    node: &[u8],
    rest: &[&[u8]],
) -> Result<Option<Line>, AllocError>
    ensures { IfOk result (λ o. option_map line_of o ≡ node_line_in moment.now bus.now word.now node.now (map (λ w. w.now) rest.now)) }
{
    let Some(moment) = word64_in(moment) else {
        return Ok(None);
    };
    let Some(node) = word32_in(node) else {
        return Ok(None);
    };
    if is_word(bus, b"-") {
        return Ok(unit_line(moment, word, node, rest));
    }
    bus_line(alloc, moment, bus, word, node, rest)
}

/// A line that tells of a node on a bus.
fn bus_line(
    alloc: Global,
    moment: u64,
    bus: &[u8],
    word: &[u8],
    node: u32,
    rest: &[&[u8]],
) -> Result<Option<Line>, AllocError>
    ensures { IfOk result (λ o. option_map line_of o ≡ bus_line_in moment bus.now word.now node (map (λ w. w.now) rest.now)) }
{
    let Some(bus) = word32_in(bus) else {
        return Ok(None);
    };
    match verb_named(word) {
        Some(verb) => told_line(alloc, Place { moment, bus, node }, verb, rest),
        None => Ok(None),
    }
}

/// A line that tells of a node and no bus.
fn unit_line(moment: u64, word: &[u8], node: u32, rest: &[&[u8]]) -> Option<Line>
    ensures { option_map line_of result ≡ unit_of moment word.now node (map (λ w. w.now) rest.now) }
{
    if is_word(word, b"down") {
        down_line(moment, node, rest)
    } else if is_word(word, b"over") {
        match rest {
            [] => Some(Line::Over { moment, node }),
            _ => None,
        }
    } else {
        None
    }
}

/// The line of a node that is down.
fn down_line(moment: u64, node: u32, rest: &[&[u8]]) -> Option<Line>
    ensures { option_map line_of result ≡ option_map (log.Down moment node) (one cause_of_word (map (λ w. w.now) rest.now)) }
{
    let [text] = rest else {
        return None;
    };
    match cause_named(text) {
        Some(cause) => Some(Line::Down {
            moment,
            node,
            cause,
        }),
        None => None,
    }
}
