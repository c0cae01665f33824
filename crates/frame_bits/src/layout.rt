//! The bits of a frame before its data, with no stuff bits.
ghost use Rattle.std.specs.Prelude.{true, false, IfSome, ◌<◌, ◌≡◌, ◌≤◌, ◌+◌, ◌++◌, ◌==◌, length, position, unwrap_or};
ghost use Rattle.frame_specs.specs.Bits.{number_bits};
ghost use Rattle.frame_specs.specs.Frame.{lengths};
ghost use Rattle.frame_specs.specs.Wire.{remote_bit as remote_of, arbitration_bits, arbitration_field, format_bits, error_state, dlc, head};
ghost use Rattle.can_frame.specs.Kinds.{kind_of};

use crate::packed::Packed;
use can_frame::{Frame, Kind};

const DOMINANT: bool = false;

const RECESSIVE: bool = true;

/// The numbers of bytes that the data length codes 0 to 15 state.
const LENGTHS: [usize; 16] = [0, 1, 2, 3, 4, 5, 6, 7, 8, 12, 16, 20, 24, 32, 48, 64];

/// The bits from SOF to the last reserved bit, of an FD frame to its BRS.
pub fn head_bits(f: &Frame) -> Packed
    ensures value { result ≡ head f.now }
    ensures few { length result ≤ 36 }
{
    let mut bits = Packed::new();
    bits.flag(DOMINANT);
    push_arbitration(&mut bits, f);
    push_format(&mut bits, f.kind(), f.ext());
    bits
}

/// The identifier and the bits that arbitrate with it.
fn push_arbitration(bits: &mut Packed, f: &Frame)
    requires { length bits.old ≤ 16 }
    ensures value { bits.new ≡ bits.old ++ arbitration_bits f.now }
    ensures few { length bits.new ≤ length bits.old + 32 }
{
    let remote = remote_bit(f.kind());
    if f.ext() {
        push_extended(bits, f.id(), remote);
    } else {
        push_base(bits, f.id(), remote);
    }
}

/// The identifier, RTR and IDE.
fn push_base(bits: &mut Packed, id: u32, remote: bool)
    requires { length bits.old ≤ 16 }
    ensures value { bits.new ≡ bits.old ++ arbitration_field false id remote }
    ensures few { length bits.new ≤ length bits.old + 32 }
{
    bits.number(11, id);
    bits.flag(remote);
    bits.flag(DOMINANT);
}

/// The high identifier bits, SRR, IDE, the low identifier bits and RTR.
fn push_extended(bits: &mut Packed, id: u32, remote: bool)
    requires { length bits.old ≤ 16 }
    ensures value { bits.new ≡ bits.old ++ arbitration_field true id remote }
    ensures few { length bits.new ≤ length bits.old + 32 }
{
    bits.number(11, id >> 18);
    bits.flag(RECESSIVE);
    bits.flag(RECESSIVE);
    bits.number(18, id);
    bits.flag(remote);
}

/// RTR, and RRS in its place in an FD frame.
fn remote_bit(kind: Kind) -> bool
    ensures { result ≡ remote_of (kind_of kind) }
{
    match kind {
        Kind::Remote => RECESSIVE,
        _ => DOMINANT,
    }
}

/// The reserved bits of a classical frame; FDF, res and BRS of an FD frame.
fn push_format(bits: &mut Packed, kind: Kind, ext: bool)
    requires { length bits.old ≤ 40 }
    ensures value { bits.new ≡ bits.old ++ format_bits (kind_of kind) ext }
    ensures few { length bits.new ≤ length bits.old + 3 }
{
    match kind {
        Kind::Fd { brs, .. } => {
            bits.flag(RECESSIVE);
            bits.flag(DOMINANT);
            bits.flag(brs);
        }
        _ => {
            bits.flag(DOMINANT);
            if ext {
                bits.flag(DOMINANT);
            }
        }
    }
}

/// ESI of an FD frame, and the data length code.
pub fn control_bits(f: &Frame) -> Packed
    ensures value { result ≡ error_state f.now.kind ++ number_bits 4 (dlc f.now) }
    ensures few { length result ≤ 5 }
{
    let mut bits = Packed::new();
    if let Kind::Fd { esi, .. } = f.kind() {
        bits.flag(esi);
    }
    bits.number(4, length_code(f.bytes().as_slice().len()));
    bits
}

/// The data length code of a frame with so many bytes.
fn length_code(size: usize) -> u32
    ensures { result ≡ unwrap_or (position (λ l. l == size) lengths) 0 }
{
    place_of(&LENGTHS, size).unwrap_or(0) as u32
}

/// The place of a length in a list.
fn place_of(lengths: &[usize], size: usize) -> Option<usize>
    ensures place { result ≡ position (λ l. l == size) lengths.now }
    ensures within { IfSome result (λ place. place < length lengths.now) }
{
    lengths.iter().position(|l| *l == size)
}

/// The data, of at most 64 bytes.
pub fn data_bytes(f: &Frame) -> &[u8]
    ensures value { result.now ≡ f.now.bytes }
    ensures few { length result.now ≤ 64 }
{
    f.bytes().as_slice()
}
