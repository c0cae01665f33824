//! What a node takes at its turn, and how it becomes live and ends.
ghost use Rattle.std.specs.Prelude.{◌≡◌, ◌==◌, not, filter, flat_map, map, is_some, ◌||◌, IfOk, OnOk, OnErr};
ghost use Rattle.operation_specs.specs.Spelling.{spell};
ghost use Rattle.log_specs.specs.Line.{On};
ghost use Rattle.bus_specs.specs.Bus.{member_is};
ghost use Rattle.bus_specs.specs.Inbox as model;

use crate::lookup::place_of;
use crate::request::Request;
use crate::{Medium, member_changes};
use can_frame::Bytes;
use log_lines::LineList;
use std::alloc::{AllocError, Global};

/// Removes the requests of a node.
fn drop_requests(requests: &mut Vec<Request>, node: u32)
    ensures { requests.new.items ≡ filter (λ q. not (q.node == node)) requests.old.items }
{
    requests.retain(|q| !q.is_of(node));
}

impl Medium {
    /// Whether a notice of this node is due at this moment, in ticks.
    pub fn has_notice(&self, now: u64, node: u32) -> bool
        ensures { result ≡ member_is (model.has_notice now) self.now.members node }
    {
        match place_of(&self.members, node) {
            Some(place) => self.members[place].has_notice(now),
            None => false,
        }
    }

    /// Whether this node has mail, or a notice of it is due at this moment, in ticks.
    pub fn has_inbox(&self, now: u64, node: u32) -> bool
        ensures { result ≡ model.has_inbox self.now now node }
    {
        match place_of(&self.members, node) {
            Some(place) => self.members[place].has_inbox(now),
            None => false,
        }
    }

    /// The bytes that this node would take at this moment, in ticks: its mail, then the lost, the format
    /// and the wake notice that are due, each in its written form.
    pub fn inbox(&self, alloc: Global, now: u64, node: u32) -> Result<Bytes, AllocError>
        ensures { IfOk result (λ bytes. bytes ≡ model.inbox self.now now node) }
    {
        let mut bytes = Vec::new(alloc);
        let Some(place) = place_of(&self.members, node) else {
            return Ok(Bytes::of(bytes));
        };
        self.members[place].write_items(alloc, &mut bytes, now)?;
        Ok(Bytes::of(bytes))
    }

    /// The lines of what this node takes.
    #[tactic(auto, unfolding(bus_specs::specs::Inbox::take_inbox))]
    fn told(&self, alloc: Global, now: u64, node: u32) -> Result<LineList, AllocError>
        ensures { IfOk result (λ lines. lines ≡ (model.take_inbox self.now now node).1) }
    {
        let mut lines = Vec::new(alloc);
        let Some(place) = place_of(&self.members, node) else {
            return Ok(LineList::of(lines));
        };
        self.members[place].push_told(alloc, &mut lines, now, self.number)?;
        Ok(LineList::of(lines))
    }

    /// This node takes its mail and the notices that are due at this moment, in ticks: the lines of the
    /// notices, and the bytes. The bus is unchanged after want of memory.
    #[tactic(auto, unfolding(bus_specs::specs::Inbox::take_inbox))]
    pub fn take_inbox(
        &mut self,
        alloc: Global,
        now: u64,
        node: u32,
    ) -> Result<(LineList, Bytes), AllocError>
        ensures state { OnOk result (self.new ≡ (model.take_inbox self.old now node).0) }
        ensures lines { IfOk result (λ r. r.0 ≡ (model.take_inbox self.old now node).1) }
        ensures bytes { IfOk result (λ r. r.1 ≡ model.inbox self.old now node) }
        ensures err { OnErr result (self.new ≡ self.old) }
    {
        let bytes = self.inbox(alloc, now, node)?;
        let lines = self.told(alloc, now, node)?;
        member_changes::take_inbox(&mut self.members, node, now);
        Ok((lines, bytes))
    }

    /// This node is live from now on.
    pub fn enter(&mut self, node: u32)
        ensures { self.new ≡ model.enter self.old node }
    {
        member_changes::become_live(&mut self.members, node);
    }

    /// This node is live no longer: its requests, notices and mail are gone, and its running frame goes
    /// on.
    pub fn leave(&mut self, node: u32)
        ensures { self.new ≡ model.leave self.old node }
    {
        member_changes::leave(&mut self.members, node);
        drop_requests(&mut self.requests, node);
    }
}

impl Medium {
    /// The nodes for which a notice is due at this moment, in ticks, in their order.
    pub fn nodes_with_notice(&self, alloc: Global, now: u64) -> Result<Vec<u32>, AllocError>
        ensures { IfOk result (λ v. v.items ≡ map (λ m. m.node) (filter (model.has_notice now) self.now.members)) }
    {
        self.members
            .iter()
            .filter(|member| member.has_notice(now))
            .map(|member| member.node)
            .collect(alloc)
    }
}
