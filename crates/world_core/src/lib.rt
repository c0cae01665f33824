//! A network of units on several buses, event by event, over any unit of FMI 3.0.
#![tactic(auto)]

mod clocks;
mod closing;
mod course;
mod event;
mod happening;
mod image;
mod next;
mod opening;
mod plan;
mod sessions;
mod sitting;
mod standing;
mod turns;
mod units;
mod world;

pub use event::{Event, What};
pub use image::{NodeImage, WorldImage};
pub use plan::{NodePlan, Plan};
pub use world::World;
