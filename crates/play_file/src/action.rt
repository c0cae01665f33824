//! One action of a play.
ghost use Rattle.std.specs.Prelude.{◌≡◌};
ghost use Rattle.play_file.specs.Verbs.{verb_of};

use can_frame::Frame;
use std::marker::Model;

/// What a node does.
#[derive(Drop)]
pub enum Verb {
    /// It sends a frame.
    Send(Frame),
    /// It wakes up.
    Wake,
    /// It goes to sleep.
    Sleep,
    /// From now on a frame of it that loses arbitration waits on.
    Keep,
    /// From now on a frame of it that loses arbitration is discarded.
    Discard,
}

/// What a node does at a moment.
#[derive(Drop)]
pub struct Action {
    moment: u64,
    node: u32,
    verb: Verb,
}

impl Model for Action {
    ghost use Rattle.play_specs.specs.Play.{PlayAction};
    ghost use Rattle.play_file.specs.Verbs.{verb_of};

    ghost Value = { PlayAction };

    ghost view = { λ a. record { moment = a.moment; node = a.node; verb = verb_of a.verb } };
}

impl Action {
    pub(crate) fn new(moment: u64, node: u32, verb: Verb) -> Action
        ensures { result ≡ record { moment = moment; node = node; verb = verb_of verb } }
    {
        Action { moment, node, verb }
    }

    /// The moment, in ticks.
    pub fn moment(&self) -> u64
        ensures { result ≡ self.now.moment }
    {
        self.moment
    }

    /// The number of the node.
    pub fn node(&self) -> u32
        ensures { result ≡ self.now.node }
    {
        self.node
    }

    /// What the node does.
    pub fn verb(&self) -> &Verb
        ensures { verb_of result.now ≡ self.now.verb }
    {
        &self.verb
    }

    /// What the node does, alone.
    pub fn into_verb(self) -> Verb
        ensures { verb_of result ≡ self.verb }
    {
        self.verb
    }
}
