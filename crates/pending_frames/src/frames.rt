//! The frames that wait on one bus.
ghost use Rattle.std.specs.Prelude.{◌≡◌, ◌<◌, ◌≤◌, IfOk, option_map, replicate};
ghost use Rattle.bus_specs.specs.Bus.{offer};
ghost use Rattle.pending_frames.specs.Pending.{none_waiting, frame_of, without_request, without_node, request_of};

use crate::entry::Entry;
use crate::walks::{empty, place_of};
use can_frame::Frame;
use index_list::Lists;
use std::alloc::{AllocError, Global};
use std::marker::Model;

/// The frames that wait to be sent on a bus: contracts see the requests of its nodes, by rising numbers. The nodes are
/// numbered from 0, and a request by the order in which it came, from 0.
///
/// A node offers the frame that wins against its others, the earliest of equals. No call but `new` takes memory.
#[derive(Drop)]
pub struct PendingFrames {
    // For each node its requests, in the order in which it offers them.
    lists: Lists<Entry>,
    // How many requests each node has.
    counts: Vec<u32>,
    // The number of the next request.
    next: u64,
}

impl Model for PendingFrames {
    ghost use Rattle.std.specs.Prelude.{◌≡◌, length, map};
    ghost use Rattle.pending_frames.specs.Pending.{Waiting};
    ghost use Rattle.pending_frames.specs.Kept.{IsKept, AreBelow, requests_of};

    ghost Value = { Waiting };

    ghost view = { λ f. record { nodes = length f.lists.lists; requests = requests_of f.lists.lists; next = f.next } };

    ghost invariant = { λ f. IsKept f.lists.lists × AreBelow f.next f.lists.lists × (f.counts.items ≡ map length f.lists.lists) };
}

impl PendingFrames {
    /// The requests of so many nodes, of which there is none.
    pub fn new(alloc: Global, nodes: u32) -> Result<PendingFrames, AllocError>
        ensures { IfOk result (λ frames. frames ≡ none_waiting nodes) }
    {
        let lists = Lists::new(alloc, nodes)?;
        let counts = no_requests(alloc, nodes)?;
        Ok(PendingFrames {
            lists,
            counts,
            next: 0,
        })
    }

    /// The number of the next request.
    pub fn next_number(&self) -> u64
        ensures { result ≡ self.now.next }
    {
        self.next
    }

    /// What a node offers, with its number: the request whose frame wins against its others, the earliest of equals.
    /// None exactly where it has no request.
    pub fn offer(&self, node: u32) -> Option<(u64, &Frame)>
        requires { node < self.now.nodes }
        ensures { option_map (request_of node) result ≡ offer self.now.requests node }
    {
        let place = self.lists.first(node)?;
        let entry = self.lists.get(place);
        Some((entry.number(), entry.frame()))
    }

    /// Takes the request of a node with this number out, and gives its frame; None exactly where there is no such request.
    pub fn take(&mut self, node: u32, number: u64) -> Option<Frame>
        requires { node < self.old.nodes }
        ensures taken { result ≡ frame_of self.old.requests node number }
        ensures left { self.new ≡ without_request self.old node number }
    {
        let place = place_of(&self.lists, node, number)?;
        let entry = self.lists.unlink(place);
        self.counts[node as usize] -= 1;
        Some(entry.into_frame())
    }

    /// Takes all requests of a node out.
    pub fn clear(&mut self, node: u32)
        requires { node < self.old.nodes }
        ensures { self.new ≡ without_node self.old node }
    {
        empty(&mut self.lists, node);
        self.counts[node as usize] = 0;
    }

    /// Numbers the next request like this, which is no lower than the number that it had.
    pub fn set_next(&mut self, next: u64)
        requires { self.old.next ≤ next }
        ensures { self.new ≡ record self.old { next = next } }
    {
        self.next = next;
    }
}

// The counts of so many nodes, of which none has a request.
fn no_requests(alloc: Global, nodes: u32) -> Result<Vec<u32>, AllocError>
    ensures { IfOk result (λ counts. counts.items ≡ replicate nodes 0) }
{
    let mut counts = Vec::with_capacity(alloc, nodes as usize)?;
    for _node in 0..nodes {
        counts.push(0)?;
    }
    Ok(counts)
}
