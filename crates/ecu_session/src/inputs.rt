//! What a session is given.
ghost use Rattle.std.specs.Prelude.{◌≡◌};

use can_frame::{Bytes, Numbers};
use std::marker::Model;

/// The bytes that came in for each terminal of a unit, none where nothing came.
#[derive(Drop)]
pub struct Inbox {
    items: Vec<Bytes>,
}

impl Model for Inbox {
    ghost use Rattle.std.specs.Prelude.{List, ℕ};

    ghost Value = { List (List ℕ) };

    ghost view = { λ i. i.items.items };
}

impl Inbox {
    /// The inbox of a vector, which has one element for each terminal.
    pub fn of(items: Vec<Bytes>) -> Inbox
        ensures { result ≡ items.items }
    {
        Inbox { items }
    }

    /// The bytes for each terminal as a slice.
    pub fn as_slice(&self) -> &[Bytes]
        ensures { result.now ≡ self.now }
    {
        &self.items
    }
}

/// What a session is given. Moments are in ticks.
#[derive(Drop)]
pub struct SessionIn {
    /// The moment of the session.
    pub moment: u64,
    /// The moment of the unit's last session. A new unit has had none, and it isn't looked at.
    pub last: u64,
    /// How many ticks a second has.
    pub resolution: u64,
    /// The value references of the countdown clocks that tick.
    pub ticked: Numbers,
    /// The bytes that came in.
    pub inbox: Inbox,
}

impl Model for SessionIn {
    ghost use Rattle.session_specs.specs.Outcome.{SessionIn as input};

    ghost Value = { input };

    ghost view = { λ i. record {
      moment = i.moment;
      last = i.last;
      resolution = i.resolution;
      ticked = i.ticked;
      inbox = i.inbox;
    } };
}
