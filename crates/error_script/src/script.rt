//! Entries of an error script, and lists of them.
ghost use Rattle.std.specs.Prelude.{◌≡◌};

use std::marker::Model;

/// One entry: attempts that fail, and how.
#[derive(Clone, Copy, Debug, PartialEq, Eq, Drop)]
pub struct ErrorEntry {
    /// The number of the first attempt that it covers. Attempts are counted from 1.
    pub first: u64,
    /// How many attempts it covers.
    pub count: u64,
    /// The kind of the error (ISO 11898-1, error detection): 1 bit, 2 stuffing, 3 form, 4 CRC.
    pub kind: u8,
    /// The node that detects the error; None for the sender of the attempt.
    pub by: Option<u32>,
    /// The wire bit of the frame at which the error is detected, counted from 0.
    pub bit: u32,
}

impl Model for ErrorEntry {
    ghost use Rattle.bus_specs.specs.Bus.{ErrorEntry as entry};

    ghost Value = { entry };

    ghost view = { λ e. record { first = e.first; count = e.count; kind = e.kind; by = e.by; bit = e.bit } };

    ghost inverse = { λ e. record { first = e.first; count = e.count; kind = e.kind; by = e.by; bit = e.bit } };
}

/// The entries of an error script, in their order. The first that covers an attempt counts.
#[derive(Drop)]
pub struct ErrorList {
    items: Vec<ErrorEntry>,
}

impl Model for ErrorList {
    ghost use Rattle.std.specs.Prelude.{List};
    ghost use Rattle.bus_specs.specs.Bus.{ErrorEntry as entry};

    ghost Value = { List entry };

    ghost view = { λ l. l.items.items };
}

impl ErrorList {
    /// The entries of a vector.
    pub fn of(items: Vec<ErrorEntry>) -> ErrorList
        ensures { result ≡ items.items }
    {
        ErrorList { items }
    }

    /// The entries as a slice.
    pub fn as_slice(&self) -> &[ErrorEntry]
        ensures { result.now ≡ self.now }
    {
        &self.items
    }

    /// The entries as a vector.
    pub fn into_vec(self) -> Vec<ErrorEntry>
        ensures { result.items ≡ self }
    {
        self.items
    }
}
