//! The two counters, and what becomes of them.
ghost use Rattle.std.specs.Prelude.{◌≡◌, ◌≤◌};
ghost use Rattle.bus_specs.specs.Counters as model;
ghost use Rattle.error_counters.specs.States.{declared_of, role_of};

use crate::State;
use std::marker::Model;

/// What a node is in an attempt that fails.
#[derive(Clone, Copy, Debug, PartialEq, Eq)]
pub enum Role {
    /// The sender, of whatever error but a missing acknowledgement.
    Sender,
    /// The sender that nobody acknowledges.
    LoneSender,
    /// The receiver that detects the error.
    Primary,
    /// Another listener.
    Secondary,
}

/// The transmit error counter and the receive error counter.
#[derive(Clone, Copy, Debug, PartialEq, Eq)]
pub struct Counters {
    /// The transmit error counter, TEC.
    pub tec: u16,
    /// The receive error counter, REC.
    pub rec: u16,
}

impl Model for Counters {
    ghost use Rattle.bus_specs.specs.Counters.{Counters as counters};

    ghost Value = { counters };

    ghost view = { λ c. record { tec = c.tec; rec = c.rec } };

    ghost inverse = { λ c. record { tec = c.tec; rec = c.rec } };
}

impl Counters {
    /// The state that the counters stand for.
    pub fn state(self) -> State
        ensures { declared_of result ≡ model.level self }
    {
        if self.tec > 255 {
            State::Off
        } else if self.tec <= 127 && self.rec <= 127 {
            State::Active
        } else {
            State::Passive
        }
    }

    /// The counters behind a frame of the node that was delivered.
    pub fn sent(self) -> Counters
        requires tec { self.tec ≤ 263 }
        requires rec { self.rec ≤ 255 }
        ensures { result ≡ model.count self model.Sent }
    {
        Counters {
            tec: self.tec.saturating_sub(1),
            rec: self.rec,
        }
    }

    /// The counters behind a frame that the node received.
    pub fn received(self) -> Counters
        requires tec { self.tec ≤ 263 }
        requires rec { self.rec ≤ 255 }
        ensures { result ≡ model.count self model.Received }
    {
        let rec = if self.rec > 127 {
            119
        } else {
            self.rec.saturating_sub(1)
        };
        Counters { tec: self.tec, rec }
    }

    /// The counters behind a failed attempt in which the node had this role.
    pub fn failed(self, role: Role) -> Counters
        requires tec { self.tec ≤ 263 }
        requires rec { self.rec ≤ 255 }
        ensures { result ≡ model.failed self (role_of role) }
    {
        match role {
            Role::Sender => Counters {
                tec: self.tec + 8,
                rec: self.rec,
            },
            Role::LoneSender => {
                let active = self.tec <= 127 && self.rec <= 127;
                Counters {
                    tec: if active { self.tec + 8 } else { self.tec },
                    rec: self.rec,
                }
            }
            Role::Primary => Counters {
                tec: self.tec,
                rec: (self.rec + 8).min(255),
            },
            Role::Secondary => Counters {
                tec: self.tec,
                rec: (self.rec + 1).min(255),
            },
        }
    }
}
