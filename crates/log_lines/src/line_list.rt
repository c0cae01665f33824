//! A list of lines, which contracts see as the list of what they stand for.
ghost use Rattle.std.specs.Prelude.{◌≡◌, map};
ghost use Rattle.log_lines.specs.Lines.{line_of};

use crate::Line;
use std::marker::Model;

/// Lines of a log, in their order.
#[derive(Drop)]
pub struct LineList {
    items: Vec<Line>,
}

impl Model for LineList {
    ghost use Rattle.std.specs.Prelude.{List, map};
    ghost use Rattle.log_specs.specs.Line.{Line as line};
    ghost use Rattle.log_lines.specs.Lines.{line_of};

    ghost Value = { List line };

    ghost view = { λ l. map line_of l.items.items };
}

impl LineList {
    /// The lines of a vector.
    pub fn of(items: Vec<Line>) -> LineList
        ensures { result ≡ map line_of items.items }
    {
        LineList { items }
    }

    /// The lines as a slice.
    pub fn as_slice(&self) -> &[Line]
        ensures { map line_of result.now ≡ self.now }
    {
        &self.items
    }

    /// The lines as a vector.
    pub fn into_vec(self) -> Vec<Line>
        ensures { map line_of result.items ≡ self }
    {
        self.items
    }
}
