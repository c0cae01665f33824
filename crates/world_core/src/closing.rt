//! The close of the nodes of a network.
ghost use Rattle.std.specs.Prelude.{◌≡◌, ◌<◌, ◌≤◌, ◌++◌, All, IfOk, OnOk, length, map, option_map, slice_get, Some};
ghost use Rattle.log_lines.specs.Lines.{line_of};
ghost use Rattle.bus_specs.specs.Bus.{Bus};
ghost use Rattle.ecu_session.specs.Words.{end_of};
ghost use Rattle.world_specs.specs.Network.{close_lines, node_closed};
ghost use Rattle.world_specs.specs.Plan.{IsPlan, NodePlan as node_plan, units_of};
ghost use Rattle.world_core.specs.Closing as model;
ghost use Rattle.world_core.specs.Courses.{network_of};
ghost use Rattle.world_core.specs.Held.{IsHeld};
ghost use Rattle.world_core.specs.Left.{units_closed};
ghost use Rattle.world_core.specs.Units.{states_of};
ghost use Rattle.world_core.specs.Walked.{Stays};
ghost use Rattle.world_core.specs.declared.standing.Standing.{Standing as standing};

use crate::clocks::clear_all;
use crate::course::Course;
use crate::standing::Standing;
use crate::turns::leave_all;
use crate::units::close_at;
use bus_medium::Medium;
use ecu_session::End;
use fmi_states::Ecu;
use log_lines::{Line, LineList};
use std::alloc::{AllocError, Global};

/// Whether a node is live.
fn is_live(standing: Standing) -> bool
    ensures { result ≡ model.is_live standing }
{
    match standing {
        Standing::Live { .. } => true,
        Standing::New | Standing::Down | Standing::Over => false,
    }
}

/// What a node is behind its close.
fn standing_closed(end: End) -> Standing
    ensures { result ≡ model.standing_closed (end_of end) }
{
    match end {
        End::Live | End::Over => Standing::Over,
        End::Down(_) => Standing::Down,
    }
}

/// The nodes that are live leave every bus.
fn leave_live(buses: &mut Vec<Medium>, standings: &[Standing])
    requires few { length standings.now ≤ 32 }
    ensures { buses.new.items ≡ model.left_from 0 standings.now buses.old.items }
{
    for (node, standing) in standings.iter().enumerate() {
        if is_live(*standing) {
            leave_all(buses, node as u32);
        }
    }
}

/// Puts a line where a close failed.
fn push_failure(
    lines: &mut Vec<Line>,
    moment: u64,
    node: u32,
    end: Option<End>,
) -> Result<(), AllocError>
    ensures { OnOk result (map line_of lines.new.items ≡ map line_of lines.old.items ++ model.lines_of_end moment node (option_map end_of end)) }
{
    if let Some(End::Down(cause)) = end {
        lines.push(Line::Down {
            moment,
            node,
            cause,
        })?;
    }
    Ok(())
}

impl Course {
    /// The nodes that are live leave every bus.
    pub(crate) fn leave_live(&mut self)
        requires few { length self.old.standings ≤ 32 }
        ensures { self.new ≡ record self.old { buses = model.left_from 0 self.old.standings self.old.buses } }
    {
        leave_live(&mut self.buses, &self.standings);
    }

    /// The close of a node, where it is live.
    fn close_node<E: Ecu>(
        &mut self,
        alloc: Global,
        ecus: &mut Vec<E>,
        shared: &mut E::Shared,
        node: u32,
    ) -> Result<Option<End>, AllocError>
        requires held { IsHeld E.Ecu self.old ecus.old.items shared.old }
        requires there { node < length self.old.plan.nodes }
        ensures held { OnOk result (IsHeld E.Ecu self.new ecus.new.items shared.new) }
        ensures parts { OnOk result (map E.parts ecus.new.items ≡ map E.parts ecus.old.items) }
        ensures shuts { IfOk result (λ end. (n : node_plan) (t : standing) → slice_get self.old.plan.nodes node ≡ Some n → slice_get self.old.standings node ≡ Some t
            → model.Shuts E.Ecu node n (model.is_live t) (option_map end_of end) self.old self.new (states_of E.Ecu ecus.old.items shared.old) (states_of E.Ecu ecus.new.items shared.new)) }
        ensures events { self.new.events ≡ self.old.events }
    {
        if !is_live(self.standings[node as usize]) {
            return Ok(None);
        }
        let end = close_at(alloc, ecus, shared, node)?;
        let plan = &self.nodes[node as usize];
        let d = &plan.description;
        let count = d.countdown.as_slice().len() as u32;
        clear_all(&mut self.clocks, node * 8, count);
        self.standings[node as usize] = standing_closed(end);
        Ok(Some(end))
    }

    /// The close of each live node, in the order of the nodes, and the lines of those that fail.
    pub(crate) fn close_all<E: Ecu>(
        &mut self,
        alloc: Global,
        ecus: &mut Vec<E>,
        shared: &mut E::Shared,
    ) -> Result<LineList, AllocError>
        requires held { IsHeld E.Ecu self.old ecus.old.items shared.old }
        ensures held { OnOk result (IsHeld E.Ecu self.new ecus.new.items shared.new) }
        ensures parts { OnOk result (map E.parts ecus.new.items ≡ map E.parts ecus.old.items) }
        ensures stays { OnOk result (Stays self.old self.new) }
        ensures nodes { OnOk result ((network_of self.new (states_of E.Ecu ecus.new.items shared.new)).nodes
            ≡ map (node_closed (units_of E.answer E.phase_of self.old.plan)) (network_of self.old (states_of E.Ecu ecus.old.items shared.old)).nodes) }
        ensures units { OnOk result (states_of E.Ecu ecus.new.items shared.new
            ≡ units_closed (units_of E.answer E.phase_of self.old.plan) (network_of self.old (states_of E.Ecu ecus.old.items shared.old)).nodes (states_of E.Ecu ecus.old.items shared.old)) }
        ensures lines { IfOk result (λ lines. lines ≡ close_lines (units_of E.answer E.phase_of self.old.plan) (network_of self.old (states_of E.Ecu ecus.old.items shared.old))) }
        ensures events { self.new.events ≡ self.old.events }
    {
        let moment = self.now;
        let mut lines = Vec::new(alloc);
        for node in 0..self.nodes.len() as u32 {
            let end = self.close_node(alloc, ecus, shared, node)?;
            push_failure(&mut lines, moment, node, end)?;
        }
        Ok(LineList::of(lines))
    }
}
