//! What becomes of the moments at which countdown clocks are due.
ghost use Rattle.std.specs.Prelude.{◌≡◌, [], ◌∷◌, ◌++◌, OnOk, OnErr, IfOk, map, length};
ghost use Rattle.ecu_session.specs.Words.{due_change_of};
ghost use Rattle.session_specs.specs.Session.{all_kept};

use std::alloc::{AllocError, Global};
use std::marker::Model;

/// What becomes of the moment at which a countdown clock is due.
#[derive(Clone, Copy, Debug, PartialEq, Eq)]
pub enum DueChange {
    /// It stays.
    Keep,
    /// There is none any more.
    Clear,
    /// It is this one, in ticks.
    At(u64),
}

/// One change for each countdown clock, in the order of the description.
#[derive(Drop)]
pub struct Dues {
    items: Vec<DueChange>,
}

impl Model for Dues {
    ghost use Rattle.std.specs.Prelude.{List, map};
    ghost use Rattle.session_specs.specs.Outcome.{DueChange as change};
    ghost use Rattle.ecu_session.specs.Words.{due_change_of};

    ghost Value = { List change };

    ghost view = { λ d. map due_change_of d.items.items };
}

impl Dues {
    /// No changes yet.
    pub(crate) fn new(alloc: Global) -> Dues
        ensures { result ≡ [] }
    {
        Dues {
            items: Vec::new(alloc),
        }
    }

    /// Adds the change of a further clock. After want of memory nothing is added.
    pub(crate) fn push(&mut self, change: DueChange) -> Result<(), AllocError>
        ensures ok { OnOk result (self.new ≡ self.old ++ due_change_of change ∷ []) }
        ensures err { OnErr result (self.new ≡ self.old) }
    {
        self.items.push(change)?;
        Ok(())
    }

    /// Each clock's due moment stays.
    #[tactic(auto, using(crate::proofs::Kept::kept_of))]
    pub(crate) fn all_kept(alloc: Global, clocks: &[u32]) -> Result<Dues, AllocError>
        ensures { IfOk result (λ dues. dues ≡ all_kept clocks.now) }
    {
        let items = vec![in alloc; DueChange::Keep; clocks.len()]?;
        Ok(Dues { items })
    }

    /// The changes as a slice.
    pub fn as_slice(&self) -> &[DueChange]
        ensures { map due_change_of result.now ≡ self.now }
    {
        &self.items
    }
}
