//! The key of a frame (ISO 11898-1, bitwise arbitration).
ghost use Rattle.std.specs.Prelude.{◌≡◌, ◌<◌, ◌^◌, ◌↔◌, nat_lt};
ghost use Rattle.frame_specs.specs.Dominance.{beats};
ghost use Rattle.frame_specs.specs.Frame.{Frame as frame};
ghost use Rattle.frame_specs.specs.Wire.{arbitration_bits, remote_bit};
ghost use Rattle.can_frame.specs.Kinds.{kind_of};
ghost use Rattle.arbitration.specs.Key.{key_of, base_number, extended_number};

use can_frame::{Frame, Kind};

/// The arbitration bits of a frame as a number of 32 bits: the identifier, RTR and IDE in base format;
/// the high identifier bits, SRR, IDE, the low identifier bits and RTR in extended format. RRS stands
/// in the place of RTR in an FD frame, and a base frame has zeros behind its IDE.
pub fn key(f: &Frame) -> u64
    ensures { result ≡ key_of f.now }
{
    let id = u64::from(f.id());
    let remote = is_remote(f.kind());
    if f.ext() {
        extended_key(id, remote)
    } else {
        base_key(id, remote)
    }
}

fn is_remote(kind: Kind) -> bool
    ensures { result ≡ remote_bit (kind_of kind) }
{
    matches!(kind, Kind::Remote)
}

fn base_key(id: u64, remote: bool) -> u64
    requires { id < 2 ^ 11 }
    ensures { result ≡ base_number id remote }
{
    (id << 21) + (u64::from(remote) << 20)
}

fn extended_key(id: u64, remote: bool) -> u64
    requires { id < 2 ^ 29 }
    ensures { result ≡ extended_number id remote }
{
    let high = id >> 18;
    let low = id & 0x3_ffff;
    (high << 21) + (3 << 19) + (low << 1) + u64::from(remote)
}

/// The order of keys: a frame beats another exactly where its key is smaller.
pub fn smaller_key_wins()
    ensures { (f g : frame) → beats f g ≡ nat_lt (key_of f) (key_of g) }
{}

/// Equal keys: two frames have one key exactly where their arbitration bits are the same.
pub fn equal_keys_arbitrate_alike()
    ensures { (f g : frame) → (key_of f ≡ key_of g) ↔ (arbitration_bits f ≡ arbitration_bits g) }
{}
