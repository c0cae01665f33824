//! The session of one node of a network.
ghost use Rattle.std.specs.Prelude.{◌≡◌, ◌<◌, ◌≤◌, ◌*◌, ◌^◌, All, IfOk, OnOk, drop, length, map, slice_get, Some};
ghost use Rattle.bus_specs.specs.Sound.{Sound};
ghost use Rattle.world_specs.specs.Plan.{NodePlan as node_plan, units_of};
ghost use Rattle.world_specs.specs.Sessions.{node_after, turns as turns_of};
ghost use Rattle.world_core.specs.Called.{call_of as called};
ghost use Rattle.world_core.specs.Courses.{network_of};
ghost use Rattle.world_core.specs.Held.{IsHeld, LastsAreBy};
ghost use Rattle.world_core.specs.Left.{units_after};
ghost use Rattle.world_core.specs.SeenTurns.{seen};
ghost use Rattle.world_core.specs.Sits.{Sits};
ghost use Rattle.world_core.specs.Units.{states_of};
ghost use Rattle.world_core.specs.Walked.{Stays, bare_of};
ghost use Rattle.world_core.specs.declared.standing.Standing.{Standing as standing};

use crate::course::Course;
use crate::sessions::{call_of, settle_entries, standing_behind};
use crate::turns::Turn;
use crate::units::session_at;
use fmi_states::Ecu;
use std::alloc::{AllocError, Global};

impl Course {
    /// The session of a node, where it takes part.
    pub(crate) fn sit<E: Ecu>(
        &mut self,
        alloc: Global,
        ecus: &mut Vec<E>,
        shared: &mut E::Shared,
        node: u32,
        now: u64,
    ) -> Result<Option<Turn>, AllocError>
        requires held { IsHeld E.Ecu self.old ecus.old.items shared.old }
        requires sound { All Sound self.old.buses }
        requires there { node < length self.old.plan.nodes }
        requires early { now ≤ 2 ^ 62 }
        requires last { LastsAreBy now self.old.standings }
        ensures held { OnOk result (IsHeld E.Ecu self.new ecus.new.items shared.new) }
        ensures parts { OnOk result (map E.parts ecus.new.items ≡ map E.parts ecus.old.items) }
        ensures last { OnOk result (LastsAreBy now self.new.standings) }
        ensures sits { IfOk result (λ turn. (n : node_plan) (t : standing) → slice_get self.old.plan.nodes node ≡ Some n → slice_get self.old.standings node ≡ Some t
            → Sits E.Ecu now node n (called self.old.buses self.old.plan.resolution now node n t (drop (node * 8) self.old.clocks)) turn self.old self.new
            (states_of E.Ecu ecus.old.items shared.old) (states_of E.Ecu ecus.new.items shared.new)) }
        ensures events { self.new.events ≡ self.old.events }
    {
        let plan = &self.nodes[node as usize];
        let standing = self.standings[node as usize];
        let called = call_of(
            alloc,
            plan,
            &self.buses,
            &self.clocks,
            standing,
            self.resolution,
            node,
            now,
        )?;
        let Some(call) = called else {
            return Ok(None);
        };
        let d = &plan.description;
        let count = d.countdown.as_slice().len() as u32;
        let out = session_at(alloc, ecus, shared, node, d, &call.input)?;
        settle_entries(&mut self.clocks, node * 8, count, &out, now);
        self.standings[node as usize] = standing_behind(out.end, now);
        Ok(Some(Turn {
            node,
            is_new: call.is_new,
            out,
        }))
    }

    /// The sessions of all nodes that take part, each from what the buses were before the first.
    pub(crate) fn sit_all<E: Ecu>(
        &mut self,
        alloc: Global,
        ecus: &mut Vec<E>,
        shared: &mut E::Shared,
        now: u64,
    ) -> Result<Vec<Turn>, AllocError>
        requires held { IsHeld E.Ecu self.old ecus.old.items shared.old }
        requires sound { All Sound self.old.buses }
        requires early { now ≤ 2 ^ 62 }
        requires last { LastsAreBy now self.old.standings }
        ensures held { OnOk result (IsHeld E.Ecu self.new ecus.new.items shared.new) }
        ensures parts { OnOk result (map E.parts ecus.new.items ≡ map E.parts ecus.old.items) }
        ensures stays { OnOk result (Stays self.old self.new) }
        ensures nodes { OnOk result ((network_of self.new (states_of E.Ecu ecus.new.items shared.new)).nodes
            ≡ map (node_after (units_of E.answer E.phase_of self.old.plan) self.old.buses now) (network_of self.old (states_of E.Ecu ecus.old.items shared.old)).nodes) }
        ensures units { OnOk result (states_of E.Ecu ecus.new.items shared.new
            ≡ units_after (units_of E.answer E.phase_of self.old.plan) self.old.buses now (network_of self.old (states_of E.Ecu ecus.old.items shared.old)).nodes (states_of E.Ecu ecus.old.items shared.old)) }
        ensures turns { IfOk result (λ turns. map (seen self.old.plan.nodes) turns.items
            ≡ map bare_of (turns_of (units_of E.answer E.phase_of self.old.plan) self.old.buses now (network_of self.old (states_of E.Ecu ecus.old.items shared.old)).nodes)) }
        ensures there { IfOk result (λ turns. All (λ x. x.node < length self.old.plan.nodes) turns.items) }
        ensures events { self.new.events ≡ self.old.events }
    {
        let mut turns = Vec::new(alloc);
        for node in 0..self.nodes.len() as u32 {
            if let Some(turn) = self.sit(alloc, ecus, shared, node, now)? {
                turns.push(turn)?;
            }
        }
        Ok(turns)
    }
}
