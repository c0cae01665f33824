//! Frames that wait to be sent.
ghost use Rattle.std.specs.Prelude.{◌≡◌, ◌==◌, ◌&&◌};
ghost use Rattle.frame_specs.specs.Dominance.{beats};

use arbitration::key;
use can_frame::Frame;
use std::marker::Model;

/// A frame that waits to be sent, with its key for arbitration.
#[derive(Drop)]
pub(crate) struct Request {
    pub(crate) node: u32,
    pub(crate) number: u64,
    pub(crate) frame: Frame,
    key: u64,
}

impl Model for Request {
    ghost use Rattle.std.specs.Prelude.{◌≡◌};
    ghost use Rattle.bus_specs.specs.Bus.{Request as request};
    ghost use Rattle.arbitration.specs.Key.{key_of};

    ghost Value = { request };

    ghost view = { λ r. record { node = r.node; number = r.number; frame = r.frame } };

    ghost invariant = { λ r. r.key ≡ key_of r.frame };
}

impl Request {
    /// A request of a node, with its number.
    pub(crate) fn new(node: u32, number: u64, frame: Frame) -> Request
        ensures { result ≡ record { node = node; number = number; frame = frame } }
    {
        let key = key(&frame);
        Request {
            node,
            number,
            frame,
            key,
        }
    }

    /// Whether it is of this node.
    pub(crate) fn is_of(&self, node: u32) -> bool
        ensures { result ≡ (self.now.node == node) }
    {
        self.node == node
    }

    /// Whether it is the one of this node with this number.
    pub(crate) fn is(&self, node: u32, number: u64) -> bool
        ensures { result ≡ ((self.now.node == node) && (self.now.number == number)) }
    {
        self.node == node && self.number == number
    }

    /// Whether its frame has the dominant bit where the two first differ.
    pub(crate) fn beats(&self, other: &Request) -> bool
        ensures { result ≡ beats self.now.frame other.now.frame }
    {
        self.key < other.key
    }
}
