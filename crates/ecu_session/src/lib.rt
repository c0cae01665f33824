//! One session of a unit at one moment, and the close of a unit, over any unit of FMI 3.0.
#![tactic(auto)]

mod calling;
mod causes;
mod dues;
mod emissions;
mod ends;
mod entering;
mod inputs;
mod intervals;
mod iterating;
mod leaving;
mod outcome;
mod whole;

pub use dues::{DueChange, Dues};
pub use emissions::{Emission, Emissions};
pub use ends::End;
pub use inputs::{Inbox, SessionIn};
pub use outcome::SessionOut;
pub use whole::{close, session};
