//! How a session ends.
use log_lines::Cause;

/// How a session ends.
#[derive(Clone, Copy, Debug, PartialEq, Eq)]
pub enum End {
    /// The unit goes on.
    Live,
    /// It ended the simulation by its own wish, or was live at the end.
    Over,
    /// It is down.
    Down(Cause),
}
