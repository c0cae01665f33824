//! The parts that lines have in common.
ghost use Rattle.std.specs.Prelude.{◌≡◌};
ghost use Rattle.log_lines.specs.Lines.{line_of};
ghost use Rattle.log_lines.specs.Parts.{moment_of, bus_of, node_of, verb_of};

use crate::Line;

impl Line {
    /// The moment, in ticks; None for the last line.
    pub fn moment(&self) -> Option<u64>
        ensures { result ≡ moment_of (line_of self.now) }
    {
        match self {
            Line::Req { moment, .. }
            | Line::Full { moment, .. }
            | Line::Drop { moment, .. }
            | Line::Keep { moment, .. }
            | Line::Discard { moment, .. }
            | Line::Wake { moment, .. }
            | Line::Sleep { moment, .. }
            | Line::Rate { moment, .. }
            | Line::FdRate { moment, .. }
            | Line::Status { moment, .. }
            | Line::State { moment, .. }
            | Line::FormatError { moment, .. }
            | Line::Bad { moment, .. }
            | Line::ToldLost { moment, .. }
            | Line::ToldFormat { moment, .. }
            | Line::ToldWake { moment, .. }
            | Line::Back { moment, .. }
            | Line::Start { moment, .. }
            | Line::LostKept { moment, .. }
            | Line::LostGone { moment, .. }
            | Line::Done { moment, .. }
            | Line::Fail { moment, .. }
            | Line::Hurt { moment, .. }
            | Line::Down { moment, .. }
            | Line::Over { moment, .. } => Some(*moment),
            Line::End { .. } => None,
        }
    }

    /// The bus, for a line of one.
    pub fn bus(&self) -> Option<u32>
        ensures { result ≡ bus_of (line_of self.now) }
    {
        match self {
            Line::Req { bus, .. }
            | Line::Full { bus, .. }
            | Line::Drop { bus, .. }
            | Line::Keep { bus, .. }
            | Line::Discard { bus, .. }
            | Line::Wake { bus, .. }
            | Line::Sleep { bus, .. }
            | Line::Rate { bus, .. }
            | Line::FdRate { bus, .. }
            | Line::Status { bus, .. }
            | Line::State { bus, .. }
            | Line::FormatError { bus, .. }
            | Line::Bad { bus, .. }
            | Line::ToldLost { bus, .. }
            | Line::ToldFormat { bus, .. }
            | Line::ToldWake { bus, .. }
            | Line::Back { bus, .. }
            | Line::Start { bus, .. }
            | Line::LostKept { bus, .. }
            | Line::LostGone { bus, .. }
            | Line::Done { bus, .. }
            | Line::Fail { bus, .. }
            | Line::Hurt { bus, .. } => Some(*bus),
            Line::Down { .. } | Line::Over { .. } | Line::End { .. } => None,
        }
    }

    /// The node; None for the last line.
    pub fn node(&self) -> Option<u32>
        ensures { result ≡ node_of (line_of self.now) }
    {
        match self {
            Line::Req { node, .. }
            | Line::Full { node, .. }
            | Line::Drop { node, .. }
            | Line::Keep { node, .. }
            | Line::Discard { node, .. }
            | Line::Wake { node, .. }
            | Line::Sleep { node, .. }
            | Line::Rate { node, .. }
            | Line::FdRate { node, .. }
            | Line::Status { node, .. }
            | Line::State { node, .. }
            | Line::FormatError { node, .. }
            | Line::Bad { node, .. }
            | Line::ToldLost { node, .. }
            | Line::ToldFormat { node, .. }
            | Line::ToldWake { node, .. }
            | Line::Back { node, .. }
            | Line::Start { node, .. }
            | Line::LostKept { node, .. }
            | Line::LostGone { node, .. }
            | Line::Done { node, .. }
            | Line::Fail { node, .. }
            | Line::Hurt { node, .. }
            | Line::Down { node, .. }
            | Line::Over { node, .. } => Some(*node),
            Line::End { .. } => None,
        }
    }

    /// The word that says what the line tells.
    pub(crate) fn verb(&self) -> &'static str
        ensures { result.now ≡ verb_of (line_of self.now) }
    {
        match self {
            Line::Req { .. } => "req",
            Line::Full { .. } => "full",
            Line::Drop { .. } => "drop",
            Line::Keep { .. } => "keep",
            Line::Discard { .. } => "discard",
            Line::Wake { .. } => "wake",
            Line::Sleep { .. } => "sleep",
            Line::Rate { .. } => "rate",
            Line::FdRate { .. } => "fdrate",
            Line::Status { .. } => "status",
            Line::State { .. } => "state",
            Line::FormatError { .. } => "ferr",
            Line::Bad { .. } => "bad",
            Line::ToldLost { .. } | Line::ToldFormat { .. } | Line::ToldWake { .. } => "told",
            Line::Back { .. } => "back",
            Line::Start { .. } => "start",
            Line::LostKept { .. } | Line::LostGone { .. } => "lost",
            Line::Done { .. } => "done",
            Line::Fail { .. } => "fail",
            Line::Hurt { .. } => "hurt",
            Line::Down { .. } => "down",
            Line::Over { .. } => "over",
            Line::End { .. } => "end",
        }
    }
}
