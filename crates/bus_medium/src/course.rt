//! How an attempt ends: the frame is delivered, or an error frame ends it (ISO 11898-1, error signalling).
ghost use Rattle.std.specs.Prelude.{◌≡◌, ◌≤◌, ◌<◌, ◌+◌, ◌*◌, ◌^◌, ◌==◌, ◌&&◌, IfOk, filter, find, not, nat_le, nat_lt};
ghost use Rattle.frame_specs.specs.Wire.{wire_bits};
ghost use Rattle.bus_specs.specs.Bus as model;
ghost use Rattle.bus_specs.specs.Start as starts;

use crate::Medium;
use crate::lookup::is_passive_at;
use crate::request::Request;
use crate::running::{Fault, Hurt};
use can_frame::{Frame, Numbers};
use error_script::ErrorEntry;
use frame_bits::{ack_bit, duration, time_of_bit, wire_len};
use std::alloc::{AllocError, Global};
use std::marker::Model;
use tick_time::BitTime;

/// How an attempt ends, with its end in ticks.
#[derive(Drop)]
pub(crate) struct Course {
    pub(crate) end: u64,
    pub(crate) fault: Option<Fault>,
    pub(crate) hurt: Option<Hurt>,
    pub(crate) listeners: Numbers,
}

impl Model for Course {
    ghost use Rattle.bus_specs.specs.Start.{Course as course};

    ghost Value = { course };

    ghost view = { λ c. record { end = c.end; fault = c.fault; hurt = c.hurt; listeners = c.listeners } };
}

/// The node that detects the error of an entry: the sender where it names none.
fn node_of_entry(entry: &ErrorEntry, sender: u32) -> u32
    ensures { result ≡ starts.node_of_entry entry.now sender }
{
    entry.by.unwrap_or(sender)
}

/// Whether an entry covers this attempt.
fn covers(entry: &ErrorEntry, attempt: u64) -> bool
    ensures { result ≡ (nat_le entry.now.first attempt && nat_lt attempt (entry.now.first + entry.now.count)) }
{
    attempt >= entry.first && attempt - entry.first < entry.count
}

/// Whether a node is among these.
fn is_among(nodes: &[u32], node: u32) -> bool
    ensures { result ≡ model.among nodes.now node }
{
    nodes.iter().any(|n| *n == node)
}

/// Whether an entry covers this attempt, and its node is the sender or a listener.
fn applies(entry: &ErrorEntry, attempt: u64, sender: u32, heard: &[u32]) -> bool
    ensures { result ≡ starts.applies attempt sender heard.now entry.now }
{
    let node = node_of_entry(entry, sender);
    covers(entry, attempt) && (node == sender || is_among(heard, node))
}

/// The first of these entries that applies to this attempt.
fn first_entry(
    entries: &[ErrorEntry],
    attempt: u64,
    sender: u32,
    heard: &[u32],
) -> Option<ErrorEntry>
    ensures { result ≡ find (starts.applies attempt sender heard.now) entries.now }
{
    for entry in entries {
        if applies(entry, attempt, sender, heard) {
            return Some(*entry);
        }
    }
    None
}

/// Without this node.
fn drop_node(nodes: &mut Vec<u32>, node: u32)
    ensures { nodes.new.items ≡ filter (λ n. not (n == node)) nodes.old.items }
{
    nodes.retain(|n| *n != node);
}

impl Medium {
    /// The ticks of so many nominal bits.
    pub(crate) fn bits(&self, n: u32) -> u64
        requires { n ≤ 2 ^ 20 }
        ensures value { result ≡ model.bits self.now n }
        ensures low { n ≤ result }
        ensures high { result ≤ n * 10 ^ 12 }
    {
        self.nominal.bits(n)
    }

    /// A data bit; on a bus with no FD a nominal one.
    fn data_bit(&self) -> BitTime
        ensures { result ≡ model.data_bit self.now }
    {
        self.fast.unwrap_or(self.nominal)
    }

    /// The other nodes that are live, awake and not off, rising.
    fn listeners(&self, alloc: Global, sender: u32) -> Result<Vec<u32>, AllocError>
        ensures { IfOk result (λ v. v.items ≡ starts.listeners self.now sender) }
    {
        self.members
            .iter()
            .filter(|m| m.takes_part() && !m.is_node(sender))
            .map(|m| m.node)
            .collect(alloc)
    }

    /// The first entry of the script that applies to the next attempt.
    fn entry_of_attempt(&self, sender: u32, heard: &[u32]) -> Option<ErrorEntry>
        requires { self.now.attempts < 2 ^ 63 }
        ensures { result ≡ starts.entry_of_attempt self.now sender heard.now }
    {
        first_entry(self.errors.as_slice(), self.attempts + 1, sender, heard)
    }

    /// An error in this wire bit: an error frame of 20 bits follows.
    fn course_to_error(
        &self,
        now: u64,
        frame: &Frame,
        bit: u32,
        fault: Fault,
        hurt: Option<Hurt>,
        heard: Vec<u32>,
    ) -> Course
        requires moment { now ≤ 2 ^ 62 }
        requires bit { bit < wire_bits frame.now }
        ensures { result ≡ starts.course_to_error self.now now frame.now bit fault hurt heard.items }
    {
        let error = time_of_bit(frame, bit, self.nominal, self.data_bit());
        Course {
            end: now + error + self.bits(20),
            fault: Some(fault),
            hurt,
            listeners: Numbers::of(heard),
        }
    }

    /// No error is scripted: the frame will be delivered, or nobody acknowledges it.
    fn course_of_frame(
        &self,
        now: u64,
        request: &Request,
        hurt: Option<Hurt>,
        heard: Vec<u32>,
    ) -> Course
        requires { now ≤ 2 ^ 62 }
        ensures { result ≡ starts.course_of_frame self.now now request.now hurt heard.items }
    {
        if heard.is_empty() {
            let fault = Fault {
                kind: 5,
                by: request.node,
            };
            let bit = ack_bit(&request.frame);
            return self.course_to_error(now, &request.frame, bit, fault, hurt, heard);
        }
        Course {
            end: now + duration(&request.frame, self.nominal, self.data_bit()),
            fault: None,
            hurt,
            listeners: Numbers::of(heard),
        }
    }

    /// Whether an error of this node leaves the frame as it is: it is a passive listener.
    fn only_hurts(&self, sender: u32, node: u32) -> bool
        ensures { result ≡ starts.only_hurts self.now sender node }
    {
        node != sender && is_passive_at(&self.members, node)
    }

    /// This node detects the error of an entry.
    fn course_by_entry(
        &self,
        now: u64,
        request: &Request,
        mut heard: Vec<u32>,
        entry: ErrorEntry,
        node: u32,
    ) -> Course
        requires { now ≤ 2 ^ 62 }
        ensures { result ≡ starts.course_by_entry self.now now request.now heard.items entry node }
    {
        let kind = entry.kind;
        if self.only_hurts(request.node, node) {
            drop_node(&mut heard, node);
            return self.course_of_frame(now, request, Some(Hurt { node, kind }), heard);
        }
        let bit = entry.bit.min(wire_len(&request.frame) - 1);
        let fault = Fault { kind, by: node };
        self.course_to_error(now, &request.frame, bit, fault, None, heard)
    }

    /// This entry of the script applies, if one does.
    fn course_with(
        &self,
        now: u64,
        request: &Request,
        heard: Vec<u32>,
        entry: Option<ErrorEntry>,
    ) -> Course
        requires { now ≤ 2 ^ 62 }
        ensures { result ≡ starts.course_with self.now now request.now heard.items entry }
    {
        match entry {
            Some(entry) => {
                let node = node_of_entry(&entry, request.node);
                self.course_by_entry(now, request, heard, entry, node)
            }
            None => self.course_of_frame(now, request, None, heard),
        }
    }

    /// How an attempt with this request ends.
    #[tactic(auto, unfolding(bus_specs::specs::Start::course))]
    pub(crate) fn course(
        &self,
        alloc: Global,
        now: u64,
        request: &Request,
    ) -> Result<Course, AllocError>
        requires moment { now ≤ 2 ^ 62 }
        requires attempts { self.now.attempts < 2 ^ 63 }
        ensures { IfOk result (λ c. c ≡ starts.course self.now now request.now) }
    {
        let heard = self.listeners(alloc, request.node)?;
        let entry = self.entry_of_attempt(request.node, &heard);
        Ok(self.course_with(now, request, heard, entry))
    }
}
