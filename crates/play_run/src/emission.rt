//! What a node of a play emits at a moment.
ghost use Rattle.std.specs.Prelude.{◌≡◌};
ghost use Rattle.bus_ops.specs.Views.{item_of};

use bus_ops::Item;
use std::marker::Model;

/// An item that a node emits at a moment.
#[derive(Drop)]
pub struct Emission {
    moment: u64,
    node: u32,
    item: Item,
}

impl Model for Emission {
    ghost use Rattle.play_specs.specs.Scenario.{Action as action};
    ghost use Rattle.bus_ops.specs.Views.{item_of};

    ghost Value = { action };

    ghost view = { λ a. record { moment = a.moment; node = a.node; item = item_of a.item } };
}

impl Emission {
    /// An item that a node emits at a moment, in ticks.
    pub fn new(moment: u64, node: u32, item: Item) -> Emission
        ensures { result ≡ record { moment = moment; node = node; item = item_of item } }
    {
        Emission { moment, node, item }
    }

    /// The moment, in ticks.
    pub fn moment(&self) -> u64
        ensures { result ≡ self.now.moment }
    {
        self.moment
    }

    /// The node.
    pub fn node(&self) -> u32
        ensures { result ≡ self.now.node }
    {
        self.node
    }

    /// The item.
    pub fn into_item(self) -> Item
        ensures { item_of result ≡ self.item }
    {
        self.item
    }
}
