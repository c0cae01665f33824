//! The words of a line that are one of several names.

/// A fault confinement state (ISO 11898-1, fault confinement).
#[derive(Clone, Copy, Debug, PartialEq, Eq)]
pub enum Level {
    /// Error active.
    Active,
    /// Error passive.
    Passive,
    /// Bus off.
    Off,
}

/// Why a node is down.
#[derive(Clone, Copy, Debug, PartialEq, Eq)]
pub enum Cause {
    /// Its code trapped.
    Trap,
    /// A call's budget was used.
    Spent,
    /// It answered Discard.
    Status2,
    /// It answered Error.
    Status3,
    /// It answered Fatal.
    Status4,
    /// It answered what no reply is.
    BadReply,
    /// It named bytes outside its memory, or too many.
    BadBuffer,
    /// It asked for another update after the last iteration.
    Loop,
    /// An interval of its clocks is no whole number of ticks, or out of range.
    BadInterval,
}
