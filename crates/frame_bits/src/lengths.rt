//! How many bits a frame takes on the wire.
ghost use Rattle.std.specs.Prelude.{◌≡◌, ◌≤◌, ◌+◌, length};
ghost use Rattle.frame_specs.specs.Wire.{head as head_of, stuffed as stuffed_bits, stuff_open, field_bits, body_bits, wire_bits, ack_place};
ghost use Rattle.can_frame.specs.Kinds.{kind_of};

use crate::counter::Counter;
use crate::layout::{control_bits, head_bits};
use can_frame::{Frame, Kind};

/// The bits of the tail: CRC delimiter, ACK slot, ACK delimiter and end of frame.
pub const TAIL: u32 = 10;

/// Where parts of a frame end on the wire, stuff bits included.
#[derive(Clone, Copy)]
pub struct Ends {
    /// Behind the last reserved bit, or BRS; a stuff bit that is due there isn't counted.
    pub head: u32,
    /// Behind the last bit that is stuffed.
    pub stuffed: u32,
    /// Before the tail.
    pub body: u32,
}

/// How many bits stand from SOF to the last CRC bit, or of an FD frame to the last data bit (the last
/// bit of its data length code without data), stuff bits included.
pub fn stuffed_len(f: &Frame) -> u32
    ensures exact { result ≡ length (stuffed_bits f.now) }
    ensures bound { result ≤ 691 }
{
    find_ends(f).stuffed
}

/// How many bits the frame takes on the wire, from SOF to the last bit of end of frame.
pub fn wire_len(f: &Frame) -> u32
    ensures exact { result ≡ wire_bits f.now }
    ensures bound { result ≤ 733 }
{
    find_ends(f).body + TAIL
}

/// The place of the ACK slot among the wire bits, which are numbered from 0.
pub fn ack_bit(f: &Frame) -> u32
    ensures exact { result ≡ ack_place f.now }
    ensures tail { result + 9 ≡ wire_bits f.now }
    ensures bound { result ≤ 724 }
{
    find_ends(f).body + 1
}

/// Counts the bits of a frame, in one pass.
pub fn find_ends(f: &Frame) -> Ends
    ensures head { result.head ≡ length (stuff_open (head_of f.now)) }
    ensures stuffed { result.stuffed ≡ length (stuffed_bits f.now) }
    ensures body { result.body ≡ body_bits f.now }
    ensures order { result.head ≤ result.body }
    ensures stuffed_bound { result.stuffed ≤ 691 }
    ensures bound { result.body ≤ 723 }
{
    let kind = f.kind();
    let bytes = f.bytes().as_slice();
    let mut counter = Counter::new();
    counter.packed(&head_bits(f));
    let head = counter.count();
    counter.packed(&control_bits(f));
    counter.bytes(bytes);
    let stuffed = counter.close(kind);
    Ends {
        head,
        stuffed,
        body: stuffed + crc_field(kind, bytes.len()),
    }
}

/// The bits of an FD frame's CRC field: stuff count, 17 or 21 CRC bits and fixed stuff bits.
/// The CRC of a classical frame is in what is stuffed.
fn crc_field(kind: Kind, size: usize) -> u32
    ensures exact { result ≡ field_bits (kind_of kind) size }
    ensures bound { result ≤ 32 }
{
    match kind {
        Kind::Fd { .. } if size <= 16 => 27,
        Kind::Fd { .. } => 32,
        _ => 0,
    }
}
