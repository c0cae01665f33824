//! The frame on the wire.
use can_frame::{Frame, Numbers};
use std::marker::Model;

/// Why an attempt fails: the kind of error, and the node that detects it.
#[derive(Clone, Copy, Debug, PartialEq, Eq)]
pub struct Fault {
    /// 1 bit, 2 stuffing, 3 form, 4 CRC, 5 acknowledgement.
    pub kind: u8,
    /// The node that detects it.
    pub by: u32,
}

impl Model for Fault {
    ghost use Rattle.bus_specs.specs.Bus.{Fault as fault};

    ghost Value = { fault };

    ghost view = { λ f. record { kind = f.kind; by = f.by } };

    ghost inverse = { λ f. record { kind = f.kind; by = f.by } };
}

/// A passive listener with an error of its own, and the kind of that.
#[derive(Clone, Copy, Debug, PartialEq, Eq)]
pub struct Hurt {
    /// The listener.
    pub node: u32,
    /// 1 bit, 2 stuffing, 3 form, 4 CRC.
    pub kind: u8,
}

impl Model for Hurt {
    ghost use Rattle.bus_specs.specs.Bus.{Hurt as hurt};

    ghost Value = { hurt };

    ghost view = { λ h. record { node = h.node; kind = h.kind } };

    ghost inverse = { λ h. record { node = h.node; kind = h.kind } };
}

/// The frame on the wire, with its end in ticks. With no fault it will be delivered.
#[derive(Drop)]
pub struct Running {
    /// The node that sends it.
    pub sender: u32,
    /// The number of its request.
    pub number: u64,
    /// The frame.
    pub frame: Frame,
    /// When it ends, in ticks.
    pub end: u64,
    /// Why the attempt fails; none where it doesn't.
    pub fault: Option<Fault>,
    /// The listener with an error of its own.
    pub hurt: Option<Hurt>,
    /// The other nodes that hear it, rising.
    pub listeners: Numbers,
}

impl Model for Running {
    ghost use Rattle.bus_specs.specs.Bus.{Running as running};

    ghost Value = { running };

    ghost view = { λ r. record {
      sender = r.sender;
      number = r.number;
      frame = r.frame;
      end = r.end;
      fault = r.fault;
      hurt = r.hurt;
      listeners = r.listeners;
    } };
}
