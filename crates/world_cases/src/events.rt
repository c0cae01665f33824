//! What comes first in a network.
use crate::units::opened;
use case_words::Unanswered;
use std::alloc::Global;
use world_core::What;

fn told(alloc: Global, what: What) -> Result<String, Unanswered> {
    Ok(match what {
        What::Finish(bus) => format!(in alloc; "Finish {bus}")?,
        What::Return { bus, node } => format!(in alloc; "Return {bus} {node}")?,
        What::Sessions => format!(in alloc; "Sessions")?,
        What::Start(bus) => format!(in alloc; "Start {bus}")?,
    })
}

/// How many events have happened in a network that has just opened, whether it has failed, and what is next.
pub fn opens(alloc: Global, rest: &str) -> Result<String, Unanswered> {
    let (world, _) = opened(alloc, rest)?;
    let event = world.next_event().ok_or(Unanswered::Unknown)?;
    let events = world.events();
    let failed = world.failed();
    let moment = event.moment;
    let what = told(alloc, event.what)?;
    world.shared();
    Ok(format!(in alloc; "{events} events, failed {failed}, next {moment} {what}")?)
}
