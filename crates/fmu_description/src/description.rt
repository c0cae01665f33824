//! What the bench knows of a unit.
use can_frame::{Name, Numbers};
use std::marker::Model;

/// A pair of binary variables by which a unit stands on a bus, with their clocks (FMI 3.0, section 2.4.9).
#[derive(Drop)]
pub struct Terminal {
    /// The terminal's name.
    pub name: Name,
    /// The value reference of the binary input, by which the unit receives.
    pub rx_data: u32,
    /// The value reference of the binary output, by which it transmits.
    pub tx_data: u32,
    /// The value reference of the input's clock.
    pub rx_clock: u32,
    /// The value reference of the output's clock.
    pub tx_clock: u32,
    /// The greatest length of the input, in bytes.
    pub rx_max: u32,
    /// The greatest length of the output, in bytes.
    pub tx_max: u32,
}

impl Model for Terminal {
    ghost use Rattle.unit_specs.specs.Description.{Terminal as terminal};

    ghost Value = { terminal };

    ghost view = { λ t. record {
      name = t.name;
      rx_data = t.rx_data;
      tx_data = t.tx_data;
      rx_clock = t.rx_clock;
      tx_clock = t.tx_clock;
      rx_max = t.rx_max;
      tx_max = t.tx_max;
    } };
}

/// A description: by what the unit's module is named, its countdown clocks and its terminals,
/// each in the order of the file.
#[derive(Drop)]
pub struct Description {
    /// The name of the unit's module.
    pub identifier: Name,
    /// The value references of the countdown clocks.
    pub countdown: Numbers,
    /// The terminals.
    pub terminals: Vec<Terminal>,
}

impl Model for Description {
    ghost use Rattle.unit_specs.specs.Description.{Description as description};

    ghost Value = { description };

    ghost view = { λ d. record { identifier = d.identifier; countdown = d.countdown; terminals = d.terminals.items } };
}
