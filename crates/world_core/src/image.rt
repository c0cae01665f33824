//! What is saved of a network.
ghost use Rattle.std.specs.Prelude.{◌≡◌, ◌≤◌, ◌<◌, ◌+◌, ◌*◌, ◌^◌, All, IfOk, drop, length, map, take};
ghost use Rattle.bus_images.specs.Images.{bus_image};
ghost use Rattle.clock_queue.specs.Dues.{due_of};
ghost use Rattle.world_specs.specs.Plan.{IsPlan};
ghost use Rattle.world_core.specs.Kept.{IsArranged};
ghost use Rattle.world_core.specs.Saved.{course_image, image_of, standing_image, standing_images};

use crate::course::Course;
use crate::plan::NodePlan;
use crate::standing::Standing;
use bus_medium::{BusImage, Medium};
use clock_queue::{Moment, Queue};
use std::alloc::{AllocError, Global};
use std::marker::Model;

/// What is saved of a node. What is saved of the unit of a live one stands elsewhere.
#[derive(Drop)]
pub enum NodeImage {
    /// Its unit wasn't called yet.
    New,
    /// It is live.
    Live {
        /// The moment of its last session, in ticks.
        last: u64,
        /// For each of its countdown clocks the moment in ticks at which it ticks next.
        dues: Vec<Option<u64>>,
    },
    /// Its unit failed.
    Down,
    /// Its unit ended.
    Over,
}

/// What is saved of a network, all but its plan and its units. Moments are in ticks.
#[derive(Drop)]
pub struct WorldImage {
    /// How many events have happened.
    pub events: u64,
    /// The moment of the last event.
    pub moment: u64,
    /// The buses, by their numbers.
    pub buses: Vec<BusImage>,
    /// The nodes, by their numbers.
    pub nodes: Vec<NodeImage>,
}

impl Model for WorldImage {
    ghost use Rattle.std.specs.Prelude.{map};
    ghost use Rattle.network_images.specs.Images.{NetworkImage};
    ghost use Rattle.world_core.specs.Saved.{image_of};

    ghost Value = { NetworkImage (Unit {0}) };

    ghost view = { λ w. record {
      events = w.events;
      now = w.moment;
      buses = w.buses.items;
      nodes = map image_of w.nodes.items;
    } };
}

/// When an entry is due, in ticks; None where it isn't set.
fn due_at(clocks: &Queue<Moment>, entry: u32) -> Option<u64>
    requires { entry < length clocks.now }
    ensures { result ≡ due_of clocks.now entry }
{
    match clocks.get(entry) {
        Some(due) => Some(due.ticks()),
        None => None,
    }
}

/// When so many entries are due, from `first` on.
fn dues_from(
    alloc: Global,
    clocks: &Queue<Moment>,
    first: u32,
    count: usize,
) -> Result<Vec<Option<u64>>, AllocError>
    requires few { count ≤ 8 }
    requires within { first + count ≤ length clocks.now }
    requires room { first < 2 ^ 31 }
    ensures { IfOk result (λ dues. dues.items ≡ take count (drop first clocks.now)) }
{
    let mut dues = Vec::with_capacity(alloc, count)?;
    for place in 0..count {
        dues.push(due_at(clocks, first + place as u32))?;
    }
    Ok(dues)
}

/// What is saved of a node whose entries begin at `first`.
fn node_image(
    alloc: Global,
    plan: &NodePlan,
    standing: Standing,
    clocks: &Queue<Moment>,
    first: u32,
) -> Result<NodeImage, AllocError>
    requires few { length plan.now.description.countdown ≤ 8 }
    requires within { first + length plan.now.description.countdown ≤ length clocks.now }
    requires room { first < 2 ^ 31 }
    ensures { IfOk result (λ i. image_of i ≡ standing_image standing (take (length plan.now.description.countdown) (drop first clocks.now))) }
{
    match standing {
        Standing::New => Ok(NodeImage::New),
        Standing::Live { last } => {
            let count = plan.description.countdown.as_slice().len();
            let dues = dues_from(alloc, clocks, first, count)?;
            Ok(NodeImage::Live { last, dues })
        }
        Standing::Down => Ok(NodeImage::Down),
        Standing::Over => Ok(NodeImage::Over),
    }
}

/// What is saved of the buses.
fn bus_images(alloc: Global, buses: &[Medium]) -> Result<Vec<BusImage>, AllocError>
    ensures { IfOk result (λ images. images.items ≡ map bus_image buses.now) }
{
    let mut images = Vec::with_capacity(alloc, buses.len())?;
    for bus in buses {
        images.push(bus.image(alloc)?)?;
    }
    Ok(images)
}

impl Course {
    /// What is saved of the nodes.
    fn node_images(&self, alloc: Global) -> Result<Vec<NodeImage>, AllocError>
        requires plan { IsPlan self.now.plan }
        requires arranged { IsArranged self.now }
        ensures { IfOk result (λ images. map image_of images.items ≡ standing_images self.entry.now.plan.nodes self.entry.now.standings self.entry.now.clocks) }
    {
        let mut images = Vec::with_capacity(alloc, self.nodes.len())?;
        for (place, plan) in self.nodes.iter().enumerate() {
            let first = place as u32 * 8;
            let standing = self.standings[place];
            images.push(node_image(alloc, plan, standing, &self.clocks, first)?)?;
        }
        Ok(images)
    }

    /// What is saved of the network.
    pub(crate) fn image(&self, alloc: Global) -> Result<WorldImage, AllocError>
        requires plan { IsPlan self.now.plan }
        requires arranged { IsArranged self.now }
        ensures { IfOk result (λ i. i ≡ course_image self.entry.now) }
    {
        Ok(WorldImage {
            events: self.events,
            moment: self.now,
            buses: bus_images(alloc, &self.buses)?,
            nodes: self.node_images(alloc)?,
        })
    }
}
