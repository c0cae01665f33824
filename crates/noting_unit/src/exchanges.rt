//! Calls with their replies.
ghost use Rattle.std.specs.Prelude.{◌≡◌, [], ◌∷◌, ◌++◌, OnOk, OnErr};

use fmi_states::{Call, Reply};
use std::alloc::{AllocError, Global};
use std::marker::Model;

/// A call with its reply.
#[derive(Drop)]
pub struct Exchange {
    /// The call.
    pub call: Call,
    /// The reply.
    pub reply: Reply,
}

impl Model for Exchange {
    ghost use Rattle.session_specs.specs.Exchanges.{Exchange as exchange};

    ghost Value = { exchange };

    ghost view = { λ e. record { call = e.call; reply = e.reply } };
}

/// Calls with their replies, in order.
#[derive(Drop)]
pub struct Exchanges {
    items: Vec<Exchange>,
}

impl Model for Exchanges {
    ghost use Rattle.std.specs.Prelude.{List};
    ghost use Rattle.session_specs.specs.Exchanges.{Exchange as exchange};

    ghost Value = { List exchange };

    ghost view = { λ e. e.items.items };
}

impl Exchanges {
    /// No calls yet.
    pub fn new(alloc: Global) -> Exchanges
        ensures { result ≡ [] }
    {
        Exchanges {
            items: Vec::new(alloc),
        }
    }

    /// Adds a call with its reply. After want of memory nothing is added.
    pub(crate) fn push(&mut self, exchange: Exchange) -> Result<(), AllocError>
        ensures ok { OnOk result (self.new ≡ self.old ++ exchange ∷ []) }
        ensures err { OnErr result (self.new ≡ self.old) }
    {
        self.items.push(exchange)?;
        Ok(())
    }

    /// The calls with their replies as a slice.
    pub fn as_slice(&self) -> &[Exchange]
        ensures { result.now ≡ self.now }
    {
        &self.items
    }
}
