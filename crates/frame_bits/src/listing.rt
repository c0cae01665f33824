//! The bits of a frame on the wire, as a list.
ghost use Rattle.std.specs.Prelude.{[], ◌∷◌, ◌≡◌, ◌≤◌, ◌<◌, ◌*◌, ◌^◌, ◌++◌, List, Bool, IfOk, OnOk, length, option_to_list};
ghost use Rattle.frame_specs.specs.Bits.{number_bits, bytes_bits};
ghost use Rattle.frame_specs.specs.Wire.{crc, stuff, stuffed, stuffed_as};
ghost use Rattle.can_frame.specs.Kinds.{kind_of};
ghost use Rattle.frame_bits.specs.Counting.{Grew};
ghost use Rattle.frame_bits.specs.Listing.{Lists};

use crate::counter::Counter;
use crate::layout::{control_bits, data_bytes, head_bits};
use crate::packed::Packed;
use can_frame::{Frame, Kind};
use std::alloc::{AllocError, Global};

/// Bits that are stuffed, counted and listed.
#[derive(Drop)]
struct Lister {
    counter: Counter,
    list: Vec<bool>,
}

/// The bits from SOF to the last CRC bit, or of an FD frame to the last data bit (the last bit of its
/// data length code without data), with their stuff bits. `true` is recessive.
pub fn bits(alloc: Global, f: &Frame) -> Result<Vec<bool>, AllocError>
    ensures { IfOk result (λ list. list.items ≡ stuffed f.now) }
{
    let mut lister = Lister::new(alloc);
    lister.packed(&head_bits(f))?;
    lister.packed(&control_bits(f))?;
    lister.bytes(data_bytes(f))?;
    lister.close(f.kind())
}

impl Lister {
    /// No bits.
    fn new(alloc: Global) -> Lister
        ensures lists { Lists result [] }
        ensures none { result.counter.count ≡ 0 }
        ensures run { result.counter.run ≡ 0 }
    {
        Lister {
            counter: Counter::new(),
            list: Vec::new(alloc),
        }
    }

    /// Takes one bit: lists it behind the stuff bit that is due.
    fn bit(&mut self, bit: bool) -> Result<(), AllocError>
        requires { self.old.counter.count < 2 ^ 30 }
        ensures lists { (bits : List Bool) → Lists self.old bits → OnOk result (Lists self.new (bits ++ bit ∷ [])) }
        ensures grew { OnOk result (Grew self.old.counter self.new.counter 1) }
    {
        push_due(&mut self.list, self.counter.due())?;
        self.list.push(bit)?;
        self.counter.bit(bit);
        Ok(())
    }

    /// Takes the low bits of a number, the highest first.
    fn number(&mut self, width: u32, value: u64) -> Result<(), AllocError>
        requires width { width ≤ 48 }
        requires room { self.old.counter.count < 2 ^ 20 }
        ensures lists { (bits : List Bool) → Lists self.old bits → OnOk result (Lists self.new (bits ++ number_bits width value)) }
        ensures grew { OnOk result (Grew self.old.counter self.new.counter width) }
    {
        let mut left = width;
        while left > 0 {
            left -= 1;
            self.bit((value >> left) % 2 == 1)?;
        }
        Ok(())
    }

    /// Takes some bits.
    fn packed(&mut self, packed: &Packed) -> Result<(), AllocError>
        requires { self.old.counter.count < 2 ^ 20 }
        ensures lists { (bits : List Bool) → Lists self.old bits → OnOk result (Lists self.new (bits ++ packed.now)) }
        ensures grew { OnOk result (Grew self.old.counter self.new.counter (length packed.now)) }
    {
        let (width, value) = packed.parts();
        self.number(width, value)
    }

    /// Takes each byte, its highest bit first.
    fn bytes(&mut self, bytes: &[u8]) -> Result<(), AllocError>
        requires few { length bytes.now ≤ 64 }
        requires room { self.old.counter.count < 2 ^ 10 }
        ensures lists { (bits : List Bool) → Lists self.old bits → OnOk result (Lists self.new (bits ++ bytes_bits bytes.now)) }
        ensures grew { OnOk result (Grew self.old.counter self.new.counter (8 * length bytes.now)) }
    {
        for byte in bytes {
            self.number(8, u64::from(*byte))?;
        }
        Ok(())
    }

    /// The list of what is stuffed of a frame of this kind: with the CRC and the stuff bit that is due
    /// behind it, but in an FD frame, whose CRC isn't stuffed.
    fn close(mut self, kind: Kind) -> Result<Vec<bool>, AllocError>
        requires { self.counter.count < 2 ^ 10 }
        ensures { (bits : List Bool) → Lists self bits → IfOk result (λ list. list.items ≡ stuffed_as (kind_of kind) bits) }
    {
        match kind {
            Kind::Fd { .. } => {}
            _ => self.checksum()?,
        }
        Ok(self.list)
    }

    /// Takes the CRC of the bits so far, and lists the stuff bit that is due behind it.
    fn checksum(&mut self) -> Result<(), AllocError>
        requires { self.old.counter.count < 2 ^ 10 }
        ensures { (bits : List Bool) → Lists self.old bits → OnOk result (self.new.list.items ≡ stuff (bits ++ number_bits 15 (crc bits))) }
    {
        let crc = self.counter.crc();
        self.number(15, u64::from(crc))?;
        push_due(&mut self.list, self.counter.due())?;
        Ok(())
    }
}

/// Appends a stuff bit, if one is due.
fn push_due(list: &mut Vec<bool>, due: Option<bool>) -> Result<(), AllocError>
    ensures { OnOk result (list.new.items ≡ list.old.items ++ option_to_list due) }
{
    if let Some(bit) = due {
        list.push(bit)?;
    }
    Ok(())
}
