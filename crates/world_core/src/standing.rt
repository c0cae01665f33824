//! How far a node is.

/// How far a node is.
#[derive(Clone, Copy, Debug, PartialEq, Eq)]
pub(crate) enum Standing {
    /// Its unit wasn't called yet.
    New,
    /// It is live.
    Live {
        /// The moment of its last session, in ticks.
        last: u64,
    },
    /// Its unit failed.
    Down,
    /// Its unit ended.
    Over,
}
