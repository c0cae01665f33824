//! The header of a play file.
ghost use Rattle.std.specs.Prelude.{◌≡◌, ◌≤◌, ◌^◌, ◌/◌, ◌==◌, Some, None, if◌then◌else◌};
ghost use Rattle.plain_text.specs.Parts.{words_of};
ghost use Rattle.play_file.specs.Walk.{header_of, header_in as header_in_of};

use crate::draft::{Draft, LATEST};
use crate::text::{Words, is_word, words_in};
use plain_text::number_in;
use std::alloc::Global;
use tick_time::BitTime;

/// The most ticks that a second may have.
const MOST_TICKS: u64 = 1_000_000_000_000;

/// The most nodes that a bus may have.
const MOST_NODES: u64 = 32;

/// The header that a line spells; None where it spells none.
pub(crate) fn read_header(alloc: Global, line: &[u8]) -> Option<Draft>
    ensures { result ≡ header_of (words_of line.now) }
{
    let Words::Six(word, resolution, rate, fd_rate, nodes, stop) = words_in(line) else {
        return None;
    };
    if !is_word(word, b"play") {
        return None;
    }
    header_in(alloc, resolution, rate, fd_rate, nodes, stop)
}

#[tactic(auto, unfolding(crate::specs::Walk::header_in))]
fn header_in(
    alloc: Global,
    resolution: &[u8],
    rate: &[u8],
    fd_rate: &[u8],
    nodes: &[u8],
    stop: &[u8],
) -> Option<Draft>
    ensures { result ≡ header_in_of resolution.now rate.now fd_rate.now nodes.now stop.now }
{
    let resolution = number_in(1, MOST_TICKS, resolution)?;
    let rate = number_in(1, u64::from(u32::MAX), rate)? as u32;
    let fd_rate = number_in(0, u64::from(u32::MAX), fd_rate)? as u32;
    let nodes = number_in(1, MOST_NODES, nodes)? as u32;
    let stop = number_in(0, LATEST, stop)?;
    let nominal = BitTime::of_rate(rate, resolution)?;
    let fast = if fd_rate == 0 {
        None
    } else {
        Some(BitTime::of_rate(fd_rate, resolution)?)
    };
    let fd_rate = if fd_rate == 0 { None } else { Some(fd_rate) };
    Some(Draft {
        resolution,
        rate,
        fd_rate,
        nominal,
        fast,
        nodes,
        stop,
        errors: Vec::new(alloc),
        actions: Vec::new(alloc),
        last: 0,
    })
}
