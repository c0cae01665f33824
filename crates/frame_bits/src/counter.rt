//! Bits that are stuffed and counted: runs of equal bits are kept, and no list of bits is made.
ghost use Rattle.std.specs.Prelude.{◌≡◌, ◌≤◌, ◌<◌, ◌+◌, ◌*◌, ◌^◌};
ghost use Rattle.frame_specs.specs.Wire.{crc_step};

use crate::packed::Packed;
use can_frame::Kind;

/// The bits written so far: how many, how many equal ones at the end, and the last of them.
/// The CRC of the bits before stuffing is kept beside them.
#[derive(Drop)]
pub struct Counter {
    crc: u16,
    count: u32,
    run: u32,
    last: bool,
    ghost remainder: { crc < 2 ^ 15 },
    ghost short: { run ≤ 5 },
}

impl Counter {
    ghost use Rattle.std.specs.Prelude.{[], ◌∷◌, ◌++◌, List, Bool, length, fold, option_to_list};
    ghost use Rattle.frame_specs.specs.Bits.{number_bits, bytes_bits};
    ghost use Rattle.frame_specs.specs.Wire.{crc, settle, put, stuff, stuff_open, stuffed_as};
    ghost use Rattle.frame_bits.specs.Counting.{Counts, Took, Grew, stuffed_crc_bits};
    ghost use Rattle.can_frame.specs.Kinds.{kind_of};

    /// No bits.
    pub fn new() -> Counter
        ensures took { Took result [] }
        ensures run { result.run ≡ 0 }
    {
        Counter {
            crc: 0,
            count: 0,
            run: 0,
            last: true,
        }
    }

    /// Writes the stuff bit that is due, if one is.
    fn settle(&mut self)
        requires { self.old.count < 2 ^ 31 }
        ensures counts { (written : List Bool) → Counts self.old written → Counts self.new (settle written) }
        ensures crc { self.new.crc ≡ self.old.crc }
        ensures short { self.new.run ≤ 4 }
        ensures bound { 4 * self.new.count + self.new.run ≡ 4 * self.old.count + self.old.run }
        ensures grows { self.old.count ≤ self.new.count }
    {
        if self.run == 5 {
            self.count += 1;
            self.run = 1;
            self.last = !self.last;
        }
    }

    /// Writes one bit.
    fn append(&mut self, bit: bool)
        requires room { self.old.count < 2 ^ 31 }
        requires short { self.old.run ≤ 4 }
        ensures counts { (written : List Bool) → Counts self.old written → Counts self.new (bit ∷ written) }
        ensures crc { self.new.crc ≡ self.old.crc }
        ensures bound { 4 * self.new.count + self.new.run ≤ 4 * self.old.count + self.old.run + 5 }
        ensures grows { self.old.count ≤ self.new.count }
    {
        self.count += 1;
        if self.last == bit {
            self.run += 1;
        } else {
            self.run = 1;
        }
        self.last = bit;
    }

    /// Takes one bit: writes it behind the stuff bit that is due.
    pub fn bit(&mut self, bit: bool)
        requires { self.old.count < 2 ^ 30 }
        ensures took { (bits : List Bool) → Took self.old bits → Took self.new (bits ++ bit ∷ []) }
        ensures grew { Grew self.old self.new 1 }
    {
        self.settle();
        self.append(bit);
        self.crc = crc_next(self.crc, bit);
    }

    /// Takes the low bits of a number, the highest first.
    fn number(&mut self, width: u32, value: u64)
        requires width { width ≤ 48 }
        requires room { self.old.count < 2 ^ 20 }
        ensures took { (bits : List Bool) → Took self.old bits → Took self.new (bits ++ number_bits width value) }
        ensures grew { Grew self.old self.new width }
    {
        let mut left = width;
        while left > 0 {
            left -= 1;
            self.bit((value >> left) % 2 == 1);
        }
    }

    /// Takes some bits.
    pub fn packed(&mut self, packed: &Packed)
        requires { self.old.count < 2 ^ 20 }
        ensures took { (bits : List Bool) → Took self.old bits → Took self.new (bits ++ packed.now) }
        ensures grew { Grew self.old self.new (length packed.now) }
    {
        let (width, value) = packed.parts();
        self.number(width, value);
    }

    /// Takes each byte, its highest bit first.
    pub fn bytes(&mut self, bytes: &[u8])
        requires few { length bytes.now ≤ 64 }
        requires room { self.old.count < 2 ^ 10 }
        ensures took { (bits : List Bool) → Took self.old bits → Took self.new (bits ++ bytes_bits bytes.now) }
        ensures grew { Grew self.old self.new (8 * length bytes.now) }
    {
        for byte in bytes {
            self.number(8, u64::from(*byte));
        }
    }

    /// Takes the CRC of the bits so far, and writes the stuff bit that is due behind it.
    fn checksum(&mut self)
        requires { self.old.count < 2 ^ 10 }
        ensures count { (bits : List Bool) → Took self.old bits → self.new.count ≡ length (stuff (bits ++ number_bits 15 (crc bits))) }
        ensures grew { Grew self.old self.new 15 }
    {
        let crc = self.crc;
        self.number(15, u64::from(crc));
        self.settle();
    }

    /// How many bits are written of a frame of this kind: with the CRC and the stuff bit that is due
    /// behind it, but in an FD frame, whose CRC isn't stuffed.
    pub fn close(mut self, kind: Kind) -> u32
        requires { self.count < 2 ^ 10 }
        ensures count { (bits : List Bool) → Took self bits → result ≡ length (stuffed_as (kind_of kind) bits) }
        ensures bound { 4 * result ≤ 4 * self.count + self.run + 5 * stuffed_crc_bits (kind_of kind) }
        ensures grows { self.count ≤ result }
    {
        match kind {
            Kind::Fd { .. } => {}
            _ => self.checksum(),
        }
        self.count
    }

    /// The stuff bit that is due behind what is written, if one is.
    pub fn due(&self) -> Option<bool>
        ensures { (written : List Bool) → Counts self.now written → settle written ≡ option_to_list result ++ written }
    {
        if self.run == 5 {
            return Some(!self.last);
        }
        None
    }

    /// The CRC of the bits so far.
    pub fn crc(&self) -> u16
        ensures { result ≡ self.now.crc }
    {
        self.crc
    }

    /// How many bits are written, but for a stuff bit that is due behind the last.
    pub fn count(&self) -> u32
        ensures count { result ≡ self.now.count }
        ensures written { (bits : List Bool) → Took self.now bits → result ≡ length (stuff_open bits) }
    {
        self.count
    }
}

/// The remainder with one more bit.
fn crc_next(crc: u16, bit: bool) -> u16
    requires { crc < 2 ^ 15 }
    ensures next { result ≡ crc_step crc bit }
    ensures bound { result < 2 ^ 15 }
{
    let shifted = (2 * crc) % 0x8000;
    if ((crc >> 14) % 2 == 1) == bit {
        shifted
    } else {
        shifted ^ 0x4599
    }
}
