//! Changes of one member. They do nothing where the node isn't among the members.
ghost use Rattle.std.specs.Prelude.{◌≡◌, map, true, false, None};
ghost use Rattle.bus_specs.specs.Submit.{format_notice, member_after_wakeup};
ghost use Rattle.bus_specs.specs.Inbox.{member_after_inbox, member_after_leaving};
ghost use Rattle.bus_medium.specs.Places.{Rising, changed};

use crate::lookup::place_of;
use crate::member::{FormatNotice, Member};
use can_frame::Bytes;

impl Member {
    fn set_discards(&mut self, discards: bool)
        ensures { self.new ≡ record self.old { discards = discards } }
    {
        self.discards = discards;
    }

    fn fall_asleep(&mut self)
        ensures { self.new ≡ record self.old { awake = false } }
    {
        self.awake = false;
    }

    /// It gets a format notice, unless it has one.
    fn tell_format(&mut self, due: u64, bytes: Bytes)
        ensures { self.new ≡ record self.old { format = format_notice due bytes self.old.format } }
    {
        if self.format.is_none() {
            self.format = Some(FormatNotice { due, bytes });
        }
    }

    /// A node wakes the bus up: it is awake itself, and another live node gets a wake notice.
    fn hear_wakeup(&mut self, node: u32, due: u64)
        ensures { self.new ≡ member_after_wakeup node due self.old }
    {
        if self.node == node {
            self.awake = true;
        } else if self.live && self.wake.is_none() {
            self.wake = Some(due);
        }
    }

    fn become_live(&mut self)
        ensures { self.new ≡ record self.old { live = true } }
    {
        self.live = true;
    }

    /// It is live no longer, and its notices and mail are gone.
    fn leave(&mut self)
        ensures { self.new ≡ member_after_leaving self.old }
    {
        self.live = false;
        self.lost = None;
        self.format = None;
        self.wake = None;
        self.mail = None;
    }
}

/// Whether the frames of this node that lose arbitration are discarded.
pub(crate) fn set_discards(members: &mut [Member], node: u32, discards: bool)
    requires rising { Rising members.old }
    ensures { members.new ≡ map (changed node (λ m. record m { discards = discards })) members.old }
{
    if let Some(place) = place_of(members, node) {
        members[place].set_discards(discards);
    }
}

/// The node sleeps.
pub(crate) fn fall_asleep(members: &mut [Member], node: u32)
    requires rising { Rising members.old }
    ensures { members.new ≡ map (changed node (λ m. record m { awake = false })) members.old }
{
    if let Some(place) = place_of(members, node) {
        members[place].fall_asleep();
    }
}

/// The node gets a format notice, unless it has one.
pub(crate) fn tell_format(members: &mut [Member], node: u32, due: u64, bytes: Bytes)
    requires rising { Rising members.old }
    ensures { members.new ≡ map (changed node (λ m. record m { format = format_notice due bytes m.format })) members.old }
{
    if let Some(place) = place_of(members, node) {
        members[place].tell_format(due, bytes);
    }
}

/// The node is awake, and the other live nodes get a wake notice, unless they have one.
pub(crate) fn wake_up(members: &mut [Member], node: u32, due: u64)
    ensures { members.new ≡ map (member_after_wakeup node due) members.old }
{
    for member in members.iter_mut() {
        member.hear_wakeup(node, due);
    }
}

/// The node is live.
pub(crate) fn become_live(members: &mut [Member], node: u32)
    requires rising { Rising members.old }
    ensures { members.new ≡ map (changed node (λ m. record m { live = true })) members.old }
{
    if let Some(place) = place_of(members, node) {
        members[place].become_live();
    }
}

/// The node is live no longer, and its notices and mail are gone.
pub(crate) fn leave(members: &mut [Member], node: u32)
    requires rising { Rising members.old }
    ensures { members.new ≡ map (changed node member_after_leaving) members.old }
{
    if let Some(place) = place_of(members, node) {
        members[place].leave();
    }
}

/// The node takes its mail and what is due.
pub(crate) fn take_inbox(members: &mut [Member], node: u32, now: u64)
    requires rising { Rising members.old }
    ensures { members.new ≡ map (changed node (member_after_inbox now)) members.old }
{
    if let Some(place) = place_of(members, node) {
        members[place].take_inbox(now);
    }
}
