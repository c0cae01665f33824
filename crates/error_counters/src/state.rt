//! The fault confinement state.

/// The fault confinement state of a node.
#[derive(Clone, Copy, Debug, PartialEq, Eq)]
pub enum State {
    /// Error active: neither counter is over 127.
    Active,
    /// Error passive: a counter is over 127, and the transmit error counter isn't over 255.
    Passive,
    /// Bus off: the transmit error counter is over 255.
    Off,
}
