//! A list of items, which contracts see as the list of what its items mean.
ghost use Rattle.std.specs.Prelude.{◌≡◌};

use crate::Item;
use std::marker::Model;

/// A list of items.
#[derive(Drop)]
pub struct Items {
    list: Vec<Item>,
}

impl Model for Items {
    ghost use Rattle.std.specs.Prelude.{List};
    ghost use Rattle.operation_specs.specs.Reading.{Item as item};
    ghost use Rattle.bus_ops.specs.Views.{items_of};

    ghost Value = { List item };

    ghost view = { λ i. items_of i.list.items };
}

impl Items {
    ghost use Rattle.bus_ops.specs.Views.{items_of};

    /// The items of a vector.
    pub fn of(list: Vec<Item>) -> Items
        ensures { result ≡ items_of list.items }
    {
        Items { list }
    }

    /// The items as a slice.
    pub fn as_slice(&self) -> &[Item]
        ensures { items_of result.now ≡ self.now }
    {
        &self.list
    }

    /// The items as a vector.
    pub fn into_vec(self) -> Vec<Item>
        ensures { items_of result.items ≡ self }
    {
        self.list
    }
}
