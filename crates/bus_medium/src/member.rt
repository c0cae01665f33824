//! The nodes of a bus, and the notices that wait for them.
ghost use Rattle.std.specs.Prelude.{◌≡◌, ◌==◌, ◌&&◌};
ghost use Rattle.bus_specs.specs.Bus as model;

use crate::mail::Mail;
use can_frame::Bytes;
use error_counters::Counters;
use std::marker::Model;

/// The notice that arbitration was lost, due at a moment in ticks.
#[derive(Clone, Copy, Debug, PartialEq, Eq)]
pub struct LostNotice {
    /// When it is due, in ticks.
    pub due: u64,
    /// The identifier of the frame that lost.
    pub id: u32,
}

impl Model for LostNotice {
    ghost use Rattle.bus_specs.specs.Bus.{LostNotice as notice};

    ghost Value = { notice };

    ghost view = { λ n. record { due = n.due; id = n.id } };

    ghost inverse = { λ n. record { due = n.due; id = n.id } };
}

/// The notice that an operation was bad, due at a moment in ticks, with its first bytes.
#[derive(Drop)]
pub struct FormatNotice {
    /// When it is due, in ticks.
    pub due: u64,
    /// The first bytes of the operation.
    pub bytes: Bytes,
}

impl Model for FormatNotice {
    ghost use Rattle.bus_specs.specs.Bus.{FormatNotice as notice};

    ghost Value = { notice };

    ghost view = { λ n. record { due = n.due; bytes = n.bytes } };
}

/// A node of the bus.
#[derive(Drop)]
pub(crate) struct Member {
    pub(crate) node: u32,
    pub(crate) live: bool,
    pub(crate) awake: bool,
    /// Whether a frame of it that loses arbitration is discarded.
    pub(crate) discards: bool,
    pub(crate) counters: Counters,
    /// The occurrences of 11 recessive bits that it has seen, while it is off.
    pub(crate) occurrences: Option<u64>,
    pub(crate) lost: Option<LostNotice>,
    pub(crate) format: Option<FormatNotice>,
    /// When it is told that the bus was woken up, in ticks.
    pub(crate) wake: Option<u64>,
    pub(crate) mail: Option<Mail>,
}

impl Model for Member {
    ghost use Rattle.std.specs.Prelude.{option_map};
    ghost use Rattle.bus_specs.specs.Bus.{Member as member};
    ghost use Rattle.bus_medium.specs.Mails.{mail_of};

    ghost Value = { member };

    ghost view = { λ m. record {
      node = m.node;
      live = m.live;
      awake = m.awake;
      discards = m.discards;
      counters = m.counters;
      occurrences = m.occurrences;
      lost = m.lost;
      format = m.format;
      wake = m.wake;
      mail = option_map mail_of m.mail;
    } };
}

impl Member {
    /// A node that isn't live, on which nothing has happened.
    pub(crate) fn new(node: u32) -> Member
        ensures { result ≡ model.new_member node }
    {
        Member {
            node,
            live: false,
            awake: true,
            discards: false,
            counters: Counters { tec: 0, rec: 0 },
            occurrences: None,
            lost: None,
            format: None,
            wake: None,
            mail: None,
        }
    }

    /// Whether it is this node.
    pub(crate) fn is_node(&self, node: u32) -> bool
        ensures { result ≡ (self.now.node == node) }
    {
        self.node == node
    }

    /// Whether it is off.
    pub(crate) fn is_off(&self) -> bool
        ensures { result ≡ model.off self.now }
    {
        self.counters.tec > 255
    }

    /// Whether it is error passive.
    pub(crate) fn is_passive(&self) -> bool
        ensures { result ≡ model.passive self.now }
    {
        let Counters { tec, rec } = self.counters;
        tec <= 255 && (tec > 127 || rec > 127)
    }

    /// Whether it may send and receive: live, awake and not off.
    pub(crate) fn takes_part(&self) -> bool
        ensures { result ≡ model.takes_part self.now }
    {
        self.live && self.awake && !self.is_off()
    }
}
