//! Reading what a line tells of a node on a bus.
ghost use Rattle.std.specs.Prelude.{◌≡◌, IfOk, option_map, option_and_then, map, length};
ghost use Rattle.frame_specs.specs.FrameReading.{frame_of};
ghost use Rattle.log_specs.specs.Line as log;
ghost use Rattle.log_lines.specs.Lines.{line_of, declared_of};
ghost use Rattle.bus_log.specs.Groups.{with_frame, with_nothing, with_value, with_level, with_bytes};
ghost use Rattle.bus_log.specs.Reading.{one, bare, told_by, bytes_in as bytes_of_text, id_in as id_of_text, counted as counted_of, four as four_of, word32, level_named as level_of, notice_in, wake_in, text_in, lost_in, done_in, fail_in};
ghost use Rattle.plain_text.specs.Decimal.{number_in};

use crate::numbers::{byte_in, numbers_in, word32_in};
use crate::verb::{Verb, is_word, level_named};
use crate::{Level, Line};
use can_frame::{Bytes, Frame};
use std::alloc::{AllocError, Global};

/// When and where something is told.
#[derive(Clone, Copy)]
pub(crate) struct Place {
    pub(crate) moment: u64,
    pub(crate) bus: u32,
    pub(crate) node: u32,
}

/// The line of a place with this verb and these words behind it.
pub(crate) fn told_line(
    alloc: Global,
    place: Place,
    verb: Verb,
    rest: &[&[u8]],
) -> Result<Option<Line>, AllocError>
    ensures { IfOk result (λ o. option_map line_of o ≡ option_map (log.On place.moment place.bus place.node) (told_by verb (map (λ w. w.now) rest.now))) }
{
    match verb {
        Verb::Req => framed_line(alloc, place, Verb::Req, rest),
        Verb::Full => framed_line(alloc, place, Verb::Full, rest),
        Verb::Drop => framed_line(alloc, place, Verb::Drop, rest),
        Verb::Start => framed_line(alloc, place, Verb::Start, rest),
        Verb::Keep | Verb::Discard | Verb::Wake | Verb::Sleep | Verb::Back => {
            Ok(bare_line(place, verb, rest))
        }
        Verb::Rate => Ok(value_line(place, Verb::Rate, rest)),
        Verb::FdRate => Ok(value_line(place, Verb::FdRate, rest)),
        Verb::Status => Ok(level_line(place, Verb::Status, rest)),
        Verb::State => Ok(level_line(place, Verb::State, rest)),
        Verb::FormatError => bytes_line(alloc, place, Verb::FormatError, 0, rest),
        Verb::Bad => bytes_line(alloc, place, Verb::Bad, 1, rest),
        Verb::Told => notice_line(alloc, place, rest),
        Verb::Lost => lost_line(alloc, place, rest),
        Verb::Done => done_line(alloc, place, rest),
        Verb::Fail => fail_line(alloc, place, rest),
        Verb::Hurt => Ok(hurt_line(place, rest)),
    }
}

/// The line of a verb with a frame.
fn framed_line(
    alloc: Global,
    place: Place,
    verb: Verb,
    rest: &[&[u8]],
) -> Result<Option<Line>, AllocError>
    ensures { IfOk result (λ o. option_map line_of o ≡ option_map (log.On place.moment place.bus place.node) (option_map (with_frame verb) (one frame_of (map (λ w. w.now) rest.now)))) }
{
    let [text] = rest else {
        return Ok(None);
    };
    match Frame::read(alloc, text)? {
        Some(frame) => Ok(Some(frame_line(place, verb, frame))),
        None => Ok(None),
    }
}

fn frame_line(place: Place, verb: Verb, frame: Frame) -> Line
    ensures { line_of result ≡ log.On place.moment place.bus place.node (with_frame verb frame) }
{
    let Place { moment, bus, node } = place;
    match verb {
        Verb::Full => Line::Full {
            moment,
            bus,
            node,
            frame,
        },
        Verb::Drop => Line::Drop {
            moment,
            bus,
            node,
            frame,
        },
        Verb::Start => Line::Start {
            moment,
            bus,
            node,
            frame,
        },
        _ => Line::Req {
            moment,
            bus,
            node,
            frame,
        },
    }
}

/// The line of a verb with nothing behind it.
fn bare_line(place: Place, verb: Verb, rest: &[&[u8]]) -> Option<Line>
    ensures { option_map line_of result ≡ option_map (log.On place.moment place.bus place.node) (bare (with_nothing verb) (map (λ w. w.now) rest.now)) }
{
    let Place { moment, bus, node } = place;
    let [] = rest else {
        return None;
    };
    let line = match verb {
        Verb::Discard => Line::Discard { moment, bus, node },
        Verb::Wake => Line::Wake { moment, bus, node },
        Verb::Sleep => Line::Sleep { moment, bus, node },
        Verb::Back => Line::Back { moment, bus, node },
        _ => Line::Keep { moment, bus, node },
    };
    Some(line)
}

/// The line of a verb with a rate.
fn value_line(place: Place, verb: Verb, rest: &[&[u8]]) -> Option<Line>
    ensures { option_map line_of result ≡ option_map (log.On place.moment place.bus place.node) (option_map (with_value verb) (one (number_in 0 word32) (map (λ w. w.now) rest.now))) }
{
    let Place { moment, bus, node } = place;
    let [text] = rest else {
        return None;
    };
    let value = word32_in(text)?;
    match verb {
        Verb::FdRate => Some(Line::FdRate {
            moment,
            bus,
            node,
            value,
        }),
        _ => Some(Line::Rate {
            moment,
            bus,
            node,
            value,
        }),
    }
}

/// The line of a verb with a fault confinement state.
fn level_line(place: Place, verb: Verb, rest: &[&[u8]]) -> Option<Line>
    ensures { option_map line_of result ≡ option_map (log.On place.moment place.bus place.node) (option_map (with_level verb) (one level_of (map (λ w. w.now) rest.now))) }
{
    let [text] = rest else {
        return None;
    };
    match level_named(text) {
        Some(level) => Some(state_line(place, verb, level)),
        None => None,
    }
}

fn state_line(place: Place, verb: Verb, level: Level) -> Line
    ensures { line_of result ≡ log.On place.moment place.bus place.node (with_level verb (declared_of level)) }
{
    let Place { moment, bus, node } = place;
    match verb {
        Verb::State => Line::State {
            moment,
            bus,
            node,
            level,
        },
        _ => Line::Status {
            moment,
            bus,
            node,
            level,
        },
    }
}

/// The line of a verb with bytes, so many at least.
fn bytes_line(
    alloc: Global,
    place: Place,
    verb: Verb,
    least: usize,
    rest: &[&[u8]],
) -> Result<Option<Line>, AllocError>
    ensures { IfOk result (λ o. option_map line_of o ≡ option_map (log.On place.moment place.bus place.node) (option_map (with_bytes verb) (one (bytes_of_text least) (map (λ w. w.now) rest.now)))) }
{
    let Place { moment, bus, node } = place;
    let [text] = rest else {
        return Ok(None);
    };
    let Some(bytes) = bytes_in(alloc, least, text)? else {
        return Ok(None);
    };
    match verb {
        Verb::Bad => Ok(Some(Line::Bad {
            moment,
            bus,
            node,
            bytes,
        })),
        _ => Ok(Some(Line::FormatError {
            moment,
            bus,
            node,
            bytes,
        })),
    }
}

/// The line of a notice that a node takes.
fn notice_line(alloc: Global, place: Place, rest: &[&[u8]]) -> Result<Option<Line>, AllocError>
    ensures { IfOk result (λ o. option_map line_of o ≡ option_map (log.On place.moment place.bus place.node) (notice_in (map (λ w. w.now) rest.now))) }
{
    match rest {
        [word] => Ok(wake_line(place, word)),
        [word, text] => text_line(alloc, place, word, text),
        _ => Ok(None),
    }
}

fn wake_line(place: Place, word: &[u8]) -> Option<Line>
    ensures { option_map line_of result ≡ option_map (log.On place.moment place.bus place.node) (wake_in word.now) }
{
    let Place { moment, bus, node } = place;
    if is_word(word, b"wake") {
        Some(Line::ToldWake { moment, bus, node })
    } else {
        None
    }
}

/// The line of a notice with a text.
fn text_line(
    alloc: Global,
    place: Place,
    word: &[u8],
    text: &[u8],
) -> Result<Option<Line>, AllocError>
    ensures { IfOk result (λ o. option_map line_of o ≡ option_map (log.On place.moment place.bus place.node) (text_in word.now text.now)) }
{
    let Place { moment, bus, node } = place;
    if is_word(word, b"lost") {
        match id_in(alloc, text)? {
            Some(id) => Ok(Some(Line::ToldLost {
                moment,
                bus,
                node,
                id,
            })),
            None => Ok(None),
        }
    } else if is_word(word, b"format") {
        match bytes_in(alloc, 1, text)? {
            Some(bytes) => Ok(Some(Line::ToldFormat {
                moment,
                bus,
                node,
                bytes,
            })),
            None => Ok(None),
        }
    } else {
        Ok(None)
    }
}

/// The line of a node that lost arbitration.
fn lost_line(alloc: Global, place: Place, rest: &[&[u8]]) -> Result<Option<Line>, AllocError>
    ensures { IfOk result (λ o. option_map line_of o ≡ option_map (log.On place.moment place.bus place.node) (lost_in (map (λ w. w.now) rest.now))) }
{
    let Place { moment, bus, node } = place;
    let [text, word] = rest else {
        return Ok(None);
    };
    let Some(frame) = Frame::read(alloc, text)? else {
        return Ok(None);
    };
    if is_word(word, b"keep") {
        Ok(Some(Line::LostKept {
            moment,
            bus,
            node,
            frame,
        }))
    } else if is_word(word, b"gone") {
        Ok(Some(Line::LostGone {
            moment,
            bus,
            node,
            frame,
        }))
    } else {
        Ok(None)
    }
}

/// The line of a frame that is delivered.
fn done_line(alloc: Global, place: Place, rest: &[&[u8]]) -> Result<Option<Line>, AllocError>
    ensures { IfOk result (λ o. option_map line_of o ≡ option_map (log.On place.moment place.bus place.node) (done_in (map (λ w. w.now) rest.now))) }
{
    let Place { moment, bus, node } = place;
    let [text, word, numbers] = rest else {
        return Ok(None);
    };
    if !is_word(word, b"to") {
        return Ok(None);
    }
    let Some(frame) = Frame::read(alloc, text)? else {
        return Ok(None);
    };
    match numbers_in(alloc, numbers)? {
        Some(receivers) => Ok(Some(Line::Done {
            moment,
            bus,
            node,
            frame,
            receivers,
        })),
        None => Ok(None),
    }
}

/// The line of an attempt that fails.
fn fail_line(alloc: Global, place: Place, rest: &[&[u8]]) -> Result<Option<Line>, AllocError>
    ensures { IfOk result (λ o. option_map line_of o ≡ option_map (log.On place.moment place.bus place.node) (fail_in (map (λ w. w.now) rest.now))) }
{
    let Place { moment, bus, node } = place;
    let [text, kind, by] = rest else {
        return Ok(None);
    };
    let Some(frame) = Frame::read(alloc, text)? else {
        return Ok(None);
    };
    let Some(kind) = byte_in(1, 5, kind) else {
        return Ok(None);
    };
    match word32_in(by) {
        Some(by) => Ok(Some(Line::Fail {
            moment,
            bus,
            node,
            frame,
            kind,
            by,
        })),
        None => Ok(None),
    }
}

/// The line of a listener's own error.
fn hurt_line(place: Place, rest: &[&[u8]]) -> Option<Line>
    ensures { option_map line_of result ≡ option_map (log.On place.moment place.bus place.node) (option_map log.Hurt (one (number_in 1 4) (map (λ w. w.now) rest.now))) }
{
    let Place { moment, bus, node } = place;
    let [text] = rest else {
        return None;
    };
    let kind = byte_in(1, 4, text)?;
    Some(Line::Hurt {
        moment,
        bus,
        node,
        kind,
    })
}

/// Bytes in hexadecimal, so many at least and 64 at most; a dash is none.
#[tactic(auto, unfolding(crate::specs::Reading::bytes_in))]
fn bytes_in(alloc: Global, least: usize, text: &[u8]) -> Result<Option<Bytes>, AllocError>
    ensures { IfOk result (λ o. o ≡ bytes_of_text least text.now) }
{
    if is_word(text, b"-") {
        return Ok(counted(least, Bytes::of(Vec::new(alloc))));
    }
    match Bytes::read(alloc, text)? {
        Some(bytes) => Ok(counted(1, bytes)),
        None => Ok(None),
    }
}

fn counted(least: usize, bytes: Bytes) -> Option<Bytes>
    ensures { result ≡ counted_of least bytes }
{
    let count = bytes.as_slice().len();
    if least <= count && count <= 64 {
        Some(bytes)
    } else {
        None
    }
}

/// An identifier in eight hexadecimal digits.
#[tactic(auto, unfolding(crate::specs::Reading::id_in))]
fn id_in(alloc: Global, text: &[u8]) -> Result<Option<u32>, AllocError>
    ensures { IfOk result (λ o. o ≡ id_of_text text.now) }
{
    match Bytes::read(alloc, text)? {
        Some(bytes) => Ok(number_of(bytes.as_slice())),
        None => Ok(None),
    }
}

/// The number of four bytes, the highest first.
fn number_of(bytes: &[u8]) -> Option<u32>
    ensures { result ≡ four_of bytes.now }
{
    match bytes {
        [a, b, c, d] => Some(
            0x100_0000 * u32::from(*a)
                + 0x1_0000 * u32::from(*b)
                + 0x100 * u32::from(*c)
                + u32::from(*d),
        ),
        _ => None,
    }
}
