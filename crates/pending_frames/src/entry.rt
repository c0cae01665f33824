//! A frame that waits, as the lists hold it.
ghost use Rattle.std.specs.Prelude.{◌≡◌};

use arbitration::key;
use can_frame::Frame;
use std::marker::Model;

/// A frame that waits to be sent, with its key for arbitration.
#[derive(Drop)]
pub(crate) struct Entry {
    node: u32,
    number: u64,
    frame: Frame,
    key: u64,
}

impl Model for Entry {
    ghost use Rattle.std.specs.Prelude.{◌≡◌};
    ghost use Rattle.bus_specs.specs.Bus.{Request as request};
    ghost use Rattle.arbitration.specs.Key.{key_of};

    ghost Value = { request };

    ghost view = { λ e. record { node = e.node; number = e.number; frame = e.frame } };

    ghost invariant = { λ e. e.key ≡ key_of e.frame };
}

impl Entry {
    /// The request of a node, with its number.
    pub(crate) fn new(node: u32, number: u64, frame: Frame) -> Entry
        ensures { result ≡ record { node = node; number = number; frame = frame } }
    {
        let key = key(&frame);
        Entry {
            node,
            number,
            frame,
            key,
        }
    }

    /// Its number.
    pub(crate) fn number(&self) -> u64
        ensures { result ≡ self.now.number }
    {
        self.number
    }

    /// Its frame.
    pub(crate) fn frame(&self) -> &Frame
        ensures { result.now ≡ self.now.frame }
    {
        &self.frame
    }

    /// Its frame, taken out.
    pub(crate) fn into_frame(self) -> Frame
        ensures { result ≡ self.frame }
    {
        self.frame
    }
}
