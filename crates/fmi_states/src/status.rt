//! How a unit says that a call went.

/// The status that a unit returns (FMI 3.0, section 2.2.3).
#[derive(Clone, Copy, Debug, PartialEq, Eq)]
pub enum FmiStatus {
    /// The call did what was asked.
    Ok,
    /// The call did what was asked, and the unit has something to report.
    Warning,
    /// The call was refused, as a step that the unit can't compute.
    Discard,
    /// The call failed, and the unit can only be freed.
    Error,
    /// The call failed, and the unit is lost.
    Fatal,
}
