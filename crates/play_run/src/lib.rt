//! The run of a play, event by event.
#![tactic(auto)]

mod emission;
mod moment;
mod play;
mod playing;
mod runner;
mod script;

pub use emission::Emission;
pub use play::run;
