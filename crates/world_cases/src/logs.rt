//! The log of a network.
ghost use Rattle.std.specs.Prelude.{◌≡◌, ◌<◌, is_some, false, true, OnOk};
ghost use Rattle.world_specs.specs.Next.{next_event};

use crate::units::opened;
use case_words::Unanswered;
use fmi_states::ListEcu;
use log_lines::{Line, print_line};
use std::alloc::{AllocError, Global};
use world_core::World;

fn push_lines(alloc: Global, text: &mut Vec<u8>, lines: &[Line]) -> Result<(), AllocError> {
    for line in lines {
        text.extend_from_slice(&print_line(alloc, line)?)?;
    }
    Ok(())
}

// The next event, and its lines.
fn push_event(
    alloc: Global,
    text: &mut Vec<u8>,
    world: &mut World<ListEcu>,
) -> Result<(), AllocError>
    requires goes_on { world.old.failed ≡ false }
    requires next { is_some (next_event world.old.plan.stop world.old.network) ≡ true }
    requires budget { world.old.network.events < world.old.plan.events }
    ensures goes_on { OnOk result (world.new.failed ≡ false) }
    ensures plan { OnOk result (world.new.plan ≡ world.old.plan) }
{
    let lines = world.event(alloc)?;
    push_lines(alloc, text, lines.as_slice())
}

/// Its events up to the budget.
pub(crate) fn push_events(
    alloc: Global,
    text: &mut Vec<u8>,
    world: &mut World<ListEcu>,
    budget: u8,
) -> Result<(), AllocError>
    requires goes_on { world.old.failed ≡ false }
    requires budget { world.old.plan.events ≡ budget }
    ensures goes_on { OnOk result (world.new.failed ≡ false) }
{
    for _ in 0..budget {
        if world.events() >= u64::from(budget) || world.next_event().is_none() {
            break;
        }
        push_event(alloc, text, world)?;
    }
    Ok(())
}

// The lines of its close, and the last one.
fn push_close(
    alloc: Global,
    text: &mut Vec<u8>,
    world: &mut World<ListEcu>,
) -> Result<(), AllocError>
    requires goes_on { world.old.failed ≡ false }
{
    let end = Line::End {
        status: if world.next_event().is_none() { 0 } else { 8 },
        events: world.events(),
    };
    let lines = world.close(alloc)?;
    push_lines(alloc, text, lines.as_slice())?;
    text.extend_from_slice(&print_line(alloc, &end)?)?;
    Ok(())
}

/// The whole log of a network: its lines, each ended by `; `.
pub fn log(alloc: Global, rest: &str) -> Result<String, Unanswered> {
    let (mut world, budget) = opened(alloc, rest)?;
    let mut text = Vec::new(alloc);
    push_events(alloc, &mut text, &mut world, budget)?;
    push_close(alloc, &mut text, &mut world)?;
    let text = String::from_utf8(text).ok().ok_or(Unanswered::Unknown)?;
    Ok(text.trim_end().replace(alloc, "\n", "; ")?)
}
