//! The network of a question.
ghost use Rattle.std.specs.Prelude.{◌≡◌, ◌≤◌, false, IfOk, OnOk};
ghost use Rattle.fmi_states.specs.declared.phase.Phase.TheVariants.{Fresh};

use crate::replies::replies;
use crate::three_nodes::{self, Units};
use case_words::{Unanswered, cut, short};
use fmi_states::{ListEcu, Replies};
use std::alloc::Global;
use world_core::World;

fn unit(alloc: Global, text: &str) -> Result<ListEcu, Unanswered>
    ensures { IfOk result (λ unit. unit.phase ≡ Fresh) }
{
    Ok(ListEcu::new(Replies::of(replies(alloc, text)?)))
}

/// The units of the three nodes.
fn units(alloc: Global, text: &str) -> Result<Units, Unanswered>
    ensures first { IfOk result (λ units. units.first.phase ≡ Fresh) }
    ensures second { IfOk result (λ units. units.second.phase ≡ Fresh) }
    ensures third { IfOk result (λ units. units.third.phase ≡ Fresh) }
{
    let (first, others) = text.split_once(" | ").ok_or(Unanswered::Unknown)?;
    let (second, third) = others.split_once(" | ").ok_or(Unanswered::Unknown)?;
    Ok(Units {
        first: unit(alloc, first)?,
        second: unit(alloc, second)?,
        third: unit(alloc, third)?,
    })
}

/// The network with its stop, how many events happen at most, and its units.
pub fn opened(alloc: Global, rest: &str) -> Result<(World<ListEcu>, u8), Unanswered>
    ensures goes_on { IfOk result (λ opened. opened.0.failed ≡ false) }
    ensures budget { IfOk result (λ opened. opened.0.plan.events ≡ opened.1) }
{
    let (stop, rest) = cut(rest);
    let (events, text) = cut(rest);
    let budget = events.parse::<u8>().ok().ok_or(Unanswered::Unknown)?;
    if budget == 0 {
        return Err(Unanswered::Unknown);
    }
    let world = three_nodes::opened(alloc, short(stop)?, budget, units(alloc, text)?)?;
    Ok((world, budget))
}
