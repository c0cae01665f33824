//! A moment at which nodes take their notices, or actions are carried out.
ghost use Rattle.std.specs.Prelude.{◌≡◌, ◌≤◌, ◌^◌, ◌++◌, [], true, All, IfNone, IfOk, IfSome, OnOk, map, option_to_list};
ghost use Rattle.bus_specs.specs.Bus.{member_is};
ghost use Rattle.log_lines.specs.Lines.{line_of};
ghost use Rattle.play_run.specs.Moments.{taken_by, carried_out, moment_of};
ghost use Rattle.play_run.specs.Prefixes.{at_moment, behind_moment};
ghost use Rattle.play_run.specs.Ready.{Takes};

use crate::Emission;
use bus_medium::Medium;
use log_lines::{Line, LineList};
use std::alloc::{AllocError, Global};
use std::collections::VecDeque;

/// Puts lines behind others.
fn push_lines(lines: &mut Vec<Line>, more: Vec<Line>) -> Result<(), AllocError>
    ensures { OnOk result (lines.new.items ≡ lines.old.items ++ more.items) }
{
    for line in more {
        lines.push(line)?;
    }
    Ok(())
}

/// These nodes take what is due, in their order.
fn take_notices(
    alloc: Global,
    medium: &mut Medium,
    nodes: &[u32],
    now: u64,
    lines: &mut Vec<Line>,
) -> Result<(), AllocError>
    requires members { All (λ n. member_is (λ m. true) medium.old.members n ≡ true) nodes.now }
    ensures bus { OnOk result (medium.new ≡ (taken_by now (medium.old, map line_of lines.old.items) nodes.now).0) }
    ensures lines { OnOk result (map line_of lines.new.items ≡ (taken_by now (medium.old, map line_of lines.old.items) nodes.now).1) }
{
    for node in nodes {
        let (told, _) = medium.take_inbox(alloc, now, *node)?;
        push_lines(lines, told.into_vec())?;
    }
    Ok(())
}

/// Takes the action in front, if it is of this moment.
fn take_at(ahead: &mut VecDeque<Emission>, now: u64) -> Option<Emission>
    ensures items { ahead.old.items ≡ option_to_list result ++ ahead.new.items }
    ensures moment { IfSome result (λ a. a.moment ≡ now) }
    ensures none { IfNone result (at_moment now ahead.old.items ≡ []) }
    ensures all { IfNone result (behind_moment now ahead.old.items ≡ ahead.old.items) }
{
    let front = ahead.front()?;
    if front.moment() != now {
        return None;
    }
    ahead.pop_front()
}

/// Carries out the actions of this moment, in their order.
fn submit_at(
    alloc: Global,
    medium: &mut Medium,
    ahead: &mut VecDeque<Emission>,
    now: u64,
    lines: &mut Vec<Line>,
) -> Result<(), AllocError>
    requires takes { Takes ahead.old.items medium.old }
    ensures ahead { OnOk result (ahead.new.items ≡ behind_moment now ahead.old.items) }
    ensures bus { OnOk result (medium.new ≡ (carried_out (medium.old, map line_of lines.old.items) (at_moment now ahead.old.items)).0) }
    ensures lines { OnOk result (map line_of lines.new.items ≡ (carried_out (medium.old, map line_of lines.old.items) (at_moment now ahead.old.items)).1) }
{
    while let Some(action) = take_at(ahead, now) {
        let node = action.node();
        let line = medium.submit(alloc, now, node, action.into_item())?;
        lines.push(line)?;
    }
    Ok(())
}

/// The nodes with a due notice take it, and then the actions of this moment are carried out.
pub(crate) fn moment_lines(
    alloc: Global,
    medium: &mut Medium,
    ahead: &mut VecDeque<Emission>,
    now: u64,
) -> Result<LineList, AllocError>
    requires takes { Takes ahead.old.items medium.old }
    ensures ahead { OnOk result (ahead.new.items ≡ behind_moment now ahead.old.items) }
    ensures bus { OnOk result (medium.new ≡ (moment_of medium.old now (at_moment now ahead.old.items)).0) }
    ensures lines { IfOk result (λ lines. lines ≡ (moment_of medium.old now (at_moment now ahead.old.items)).1) }
{
    let mut lines = Vec::new(alloc);
    let nodes = medium.nodes_with_notice(alloc, now)?;
    take_notices(alloc, medium, &nodes, now, &mut lines)?;
    submit_at(alloc, medium, ahead, now, &mut lines)?;
    Ok(LineList::of(lines))
}
