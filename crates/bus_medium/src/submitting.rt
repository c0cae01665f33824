//! What a node asks of its bus, carried out.
ghost use Rattle.std.specs.Prelude.{◌≡◌, ◌≤◌, ◌<◌, ◌^◌, ◌==◌, true, IfOk, OnOk, OnErr};
ghost use Rattle.std.specs.List.{count_by};
ghost use Rattle.operation_specs.specs.Reading.{IsWhole};
ghost use Rattle.bus_specs.specs.Bus.{member_is};
ghost use Rattle.bus_specs.specs.Submit.{submit as submit_of, fate as fate_of_node, submission_of, bus_after_submission, told_of};
ghost use Rattle.bus_specs.specs.Submit as model;
ghost use Rattle.bus_specs.specs.Sound.{IsFrame, IsEcho, IsSubmission};
ghost use Rattle.log_specs.specs.Line as log;
ghost use Rattle.log_lines.specs.Lines.{line_of};
ghost use Rattle.bus_ops.specs.Views.{item_of};
ghost use Rattle.bus_medium.specs.Submissions.{fate_of, keep_or_discard};

use crate::Medium;
use crate::lookup::is_off_at;
use crate::member_changes::{fall_asleep, set_discards, tell_format, wake_up};
use crate::request::Request;
use crate::submission::Submission;
use bus_ops::Item;
use can_frame::{Bytes, Frame};
use log_lines::Line;
use std::alloc::{AllocError, Global};

/// The requests that a node may have at once.
const MOST_REQUESTS: usize = 256;

/// What becomes of a request.
#[derive(Clone, Copy, Debug, PartialEq, Eq)]
enum Fate {
    /// It waits.
    Accepted,
    /// Its node has 256 already.
    Full,
    /// Its node is off.
    Dropped,
}

/// How many requests a node has.
fn waiting(requests: &[Request], node: u32) -> usize
    ensures { result ≡ count_by (λ r. r.node == node) requests.now }
{
    requests.iter().filter(|r| r.is_of(node)).count()
}

impl Medium {
    /// What becomes of a request of this node.
    fn fate(&self, node: u32) -> Fate
        ensures { fate_of result ≡ fate_of_node self.now node }
    {
        if is_off_at(&self.members, node) {
            Fate::Dropped
        } else if waiting(&self.requests, node) >= MOST_REQUESTS {
            Fate::Full
        } else {
            Fate::Accepted
        }
    }

    /// A node asks for a frame to be sent.
    fn request(
        &mut self,
        alloc: Global,
        now: u64,
        node: u32,
        frame: Frame,
    ) -> Result<Line, AllocError>
        requires live { member_is (λ m. m.live) self.old.members node ≡ true }
        requires number { self.old.next < 2 ^ 63 }
        requires fits { IsFrame self.old.setup frame }
        ensures state { OnOk result (self.new ≡ bus_after_submission self.old now node (model.Transmit frame)) }
        ensures line { IfOk result (λ line. line_of line ≡ log.On now self.old.setup.number node (told_of self.old node (model.Transmit frame))) }
        ensures err { OnErr result (self.new ≡ self.old) }
    {
        let (moment, bus) = (now, self.number);
        match self.fate(node) {
            Fate::Dropped => Ok(Line::Drop {
                moment,
                bus,
                node,
                frame,
            }),
            Fate::Full => Ok(Line::Full {
                moment,
                bus,
                node,
                frame,
            }),
            Fate::Accepted => {
                let copy = frame.copy(alloc)?;
                self.requests.push(Request::new(node, self.next, frame))?;
                self.next += 1;
                Ok(Line::Req {
                    moment,
                    bus,
                    node,
                    frame: copy,
                })
            }
        }
    }

    /// The frames of a node that lose arbitration are discarded, or kept.
    fn discard(&mut self, now: u64, node: u32, discards: bool) -> Line
        requires live { member_is (λ m. m.live) self.old.members node ≡ true }
        ensures state { self.new ≡ bus_after_submission self.old now node (keep_or_discard discards) }
        ensures line { line_of result ≡ log.On now self.old.setup.number node (told_of self.old node (keep_or_discard discards)) }
    {
        let (moment, bus) = (now, self.number);
        set_discards(&mut self.members, node, discards);
        if discards {
            Line::Discard { moment, bus, node }
        } else {
            Line::Keep { moment, bus, node }
        }
    }

    fn sleep(&mut self, now: u64, node: u32) -> Line
        requires live { member_is (λ m. m.live) self.old.members node ≡ true }
        ensures state { self.new ≡ bus_after_submission self.old now node model.Sleep }
        ensures line { line_of result ≡ log.On now self.old.setup.number node log.Sleep }
    {
        let (moment, bus) = (now, self.number);
        fall_asleep(&mut self.members, node);
        Line::Sleep { moment, bus, node }
    }

    /// A node wakes the bus up. The others are told one bit later.
    fn wake(&mut self, now: u64, node: u32) -> Line
        requires live { member_is (λ m. m.live) self.old.members node ≡ true }
        requires moment { now ≤ 2 ^ 62 }
        ensures state { self.new ≡ bus_after_submission self.old now node model.Wakeup }
        ensures line { line_of result ≡ log.On now self.old.setup.number node log.Wake }
    {
        let (moment, bus) = (now, self.number);
        let due = now + self.nominal.bits(1);
        wake_up(&mut self.members, node, due);
        Line::Wake { moment, bus, node }
    }

    /// A node is told one bit later of these first bytes of what the bus doesn't take.
    fn answer(
        &mut self,
        alloc: Global,
        now: u64,
        node: u32,
        bytes: Bytes,
    ) -> Result<Line, AllocError>
        requires live { member_is (λ m. m.live) self.old.members node ≡ true }
        requires moment { now ≤ 2 ^ 62 }
        requires echo { IsEcho bytes }
        ensures state { OnOk result (self.new ≡ bus_after_submission self.old now node (model.Unfit bytes)) }
        ensures line { IfOk result (λ line. line_of line ≡ log.On now self.old.setup.number node (log.Bad bytes)) }
        ensures err { OnErr result (self.new ≡ self.old) }
    {
        let (moment, bus) = (now, self.number);
        let copy = Bytes::of(bytes.as_slice().to_vec(alloc)?);
        let due = now + self.nominal.bits(1);
        tell_format(&mut self.members, node, due, copy);
        Ok(Line::Bad {
            moment,
            bus,
            node,
            bytes,
        })
    }

    /// What a live node emits at this moment, in ticks, is carried out, and a line tells of it. The bus
    /// is unchanged after want of memory.
    #[tactic(auto, unfolding(bus_specs::specs::Submit::submit))]
    pub fn submit(
        &mut self,
        alloc: Global,
        now: u64,
        node: u32,
        item: Item,
    ) -> Result<Line, AllocError>
        requires live { member_is (λ m. m.live) self.old.members node ≡ true }
        requires number { self.old.next < 2 ^ 63 }
        requires item { IsWhole (item_of item) }
        requires moment { now ≤ 2 ^ 62 }
        ensures state { OnOk result (self.new ≡ (submit_of self.old now node (submission_of self.old.setup (item_of item))).0) }
        ensures line { IfOk result (λ line. line_of line ≡ (submit_of self.old now node (submission_of self.old.setup (item_of item))).1) }
        ensures err { OnErr result (self.new ≡ self.old) }
    {
        match self.submission(alloc, item)? {
            Submission::Transmit(frame) => self.request(alloc, now, node, frame),
            Submission::Unfit(bytes) => self.answer(alloc, now, node, bytes),
            Submission::Keep => Ok(self.discard(now, node, false)),
            Submission::Discard => Ok(self.discard(now, node, true)),
            Submission::Wakeup => Ok(self.wake(now, node)),
            Submission::Sleep => Ok(self.sleep(now, node)),
            Submission::Noted(noted) => Ok(noted.line(now, self.number, node)),
        }
    }
}
