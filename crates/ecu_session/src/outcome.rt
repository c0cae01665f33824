//! What comes of a session.
use crate::dues::Dues;
use crate::emissions::Emissions;
use crate::ends::End;
use std::marker::Model;

/// What comes of a session.
#[derive(Drop)]
pub struct SessionOut {
    /// What the unit transmitted.
    pub emitted: Emissions,
    /// One change for each countdown clock.
    pub dues: Dues,
    /// How the session ends.
    pub end: End,
}

impl Model for SessionOut {
    ghost use Rattle.session_specs.specs.Outcome.{SessionOut as outcome};
    ghost use Rattle.ecu_session.specs.Words.{end_of};

    ghost Value = { outcome };

    ghost view = { λ o. record { emitted = o.emitted; dues = o.dues; end = end_of o.end } };
}
