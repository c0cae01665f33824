//! What the bytes of a valid module hold, in one line.
#![tactic(auto)]

mod line;
mod report;

pub use report::{ReportError, module_report, read_checked};
