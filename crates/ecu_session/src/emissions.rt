//! What a unit transmits in a session.
ghost use Rattle.std.specs.Prelude.{◌≡◌, [], ◌∷◌, ◌++◌, OnOk, OnErr};

use can_frame::Bytes;
use std::alloc::{AllocError, Global};
use std::marker::Model;

/// Bytes that a unit transmits at one of its terminals.
#[derive(Drop)]
pub struct Emission {
    /// The place of the terminal in the unit's description, from 0.
    pub terminal: usize,
    /// The bytes.
    pub bytes: Bytes,
}

impl Model for Emission {
    ghost use Rattle.session_specs.specs.Outcome.{Emission as emission};

    ghost Value = { emission };

    ghost view = { λ e. record { terminal = e.terminal; bytes = e.bytes } };
}

/// What a unit transmits in a session, in its order.
#[derive(Drop)]
pub struct Emissions {
    items: Vec<Emission>,
}

impl Model for Emissions {
    ghost use Rattle.std.specs.Prelude.{List};
    ghost use Rattle.session_specs.specs.Outcome.{Emission as emission};

    ghost Value = { List emission };

    ghost view = { λ e. e.items.items };
}

impl Emissions {
    /// Nothing yet.
    pub(crate) fn new(alloc: Global) -> Emissions
        ensures { result ≡ [] }
    {
        Emissions {
            items: Vec::new(alloc),
        }
    }

    /// Adds a further emission. After want of memory nothing is added.
    pub(crate) fn push(&mut self, emission: Emission) -> Result<(), AllocError>
        ensures ok { OnOk result (self.new ≡ self.old ++ emission ∷ []) }
        ensures err { OnErr result (self.new ≡ self.old) }
    {
        self.items.push(emission)?;
        Ok(())
    }

    /// The emissions as a slice.
    pub fn as_slice(&self) -> &[Emission]
        ensures { result.now ≡ self.now }
    {
        &self.items
    }

    /// The emissions as a vector.
    pub fn into_vec(self) -> Vec<Emission>
        ensures { result.items ≡ self }
    {
        self.items
    }
}
