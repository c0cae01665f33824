//! What is saved of a network.
use crate::logs::push_events;
use crate::units::opened;
use bus_medium::BusImage;
use case_words::Unanswered;
use std::alloc::{AllocError, Global};
use world_core::NodeImage;

fn told_bus(alloc: Global, bus: &BusImage) -> Result<String, AllocError> {
    let attempts = bus.attempts;
    let given = bus.next;
    let waiting = bus.requests.len();
    let idle = bus.idle;
    let runs = bus.running.is_some();
    let nodes = bus.members.len();
    format!(in alloc;
        "; bus of {nodes} nodes: {attempts} attempts, {given} requests, {waiting} wait, idle at {idle}, runs {runs}"
    )
}

fn told_node(alloc: Global, node: &NodeImage) -> Result<String, AllocError> {
    match node {
        NodeImage::New => format!(in alloc; "; new"),
        NodeImage::Live { last, dues } => {
            let last = *last;
            let clocks = dues.len();
            let due = dues.first().copied().flatten().unwrap_or(0);
            format!(in alloc; "; live, last at {last}, {clocks} clocks, the first due at {due}")
        }
        NodeImage::Down => format!(in alloc; "; down"),
        NodeImage::Over => format!(in alloc; "; over"),
    }
}

/// What is saved of a network behind so many events: of each bus some numbers, of each node what it is.
pub fn saved(alloc: Global, rest: &str) -> Result<String, Unanswered> {
    let (mut world, budget) = opened(alloc, rest)?;
    let mut lines = Vec::new(alloc);
    push_events(alloc, &mut lines, &mut world, budget)?;
    let image = world.image(alloc)?;
    let events = image.events;
    let moment = image.moment;
    let mut text = format!(in alloc; "{events} events, at {moment}")?;
    for bus in &image.buses {
        text.push_str(&told_bus(alloc, bus)?)?;
    }
    for node in &image.nodes {
        text.push_str(&told_node(alloc, node)?)?;
    }
    Ok(text)
}
