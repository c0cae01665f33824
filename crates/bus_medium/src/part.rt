//! What a node is in the running frame, and what the end of the frame makes of it.
ghost use Rattle.std.specs.Prelude.{◌≡◌, ◌≤◌, ◌==◌, IfOk, IfSome, option_map, if◌then◌else◌};
ghost use Rattle.error_counters.specs.States.{role_of};
ghost use Rattle.bus_specs.specs.Bus as bus;
ghost use Rattle.bus_specs.specs.Bus.{among};
ghost use Rattle.bus_specs.specs.Counters.{count};
ghost use Rattle.bus_specs.specs.Finish as model;
ghost use Rattle.bus_medium.specs.Finishing.{IsCounted, after as after_of, mail_of_live, with_after};
ghost use Rattle.bus_medium.specs.Mails.{mail_of};
ghost use Rattle.bus_medium.specs.Parts.{part_of};

use crate::mail::Mail;
use crate::member::Member;
use crate::running::{Fault, Running};
use error_counters::{Counters, Role};
use std::alloc::{AllocError, Global};
use std::marker::Model;

/// The kind of the error that nobody acknowledges.
const ACKNOWLEDGEMENT: u8 = 5;

/// What a node is in the running frame.
#[derive(Clone, Copy, Debug, PartialEq, Eq)]
pub(crate) enum Part {
    /// It sends the frame.
    Sending,
    /// It hears the frame.
    Listening,
    /// It has an error of its own, of this kind.
    Hurting(u8),
    /// It has no part in the frame.
    Apart,
}

/// Whether a node is among these.
pub(crate) fn is_among(nodes: &[u32], node: u32) -> bool
    ensures { result ≡ among nodes.now node }
{
    nodes.iter().any(|n| *n == node)
}

impl Running {
    /// What a node is in the frame.
    pub(crate) fn part(&self, node: u32) -> Part
        ensures { part_of result ≡ model.part self.now node }
    {
        if self.sender == node {
            return Part::Sending;
        }
        if is_among(self.listeners.as_slice(), node) {
            return Part::Listening;
        }
        match self.hurt {
            Some(hurt) if hurt.node == node => Part::Hurting(hurt.kind),
            _ => Part::Apart,
        }
    }
}

/// What the sender is in a failed attempt.
fn sender_role(fault: Fault) -> Role
    ensures { role_of result ≡ model.sender_role fault }
{
    if fault.kind == ACKNOWLEDGEMENT {
        Role::LoneSender
    } else {
        Role::Sender
    }
}

/// What a listener is in a failed attempt.
fn listener_role(fault: Fault, node: u32) -> Role
    ensures { role_of result ≡ model.listener_role fault node }
{
    if fault.by == node {
        Role::Primary
    } else {
        Role::Secondary
    }
}

/// The counters of a node behind the frame (ISO 11898-1, fault confinement).
fn counters_after(member: &Member, fault: Option<Fault>, part: Part) -> Counters
    requires { IsCounted member.now }
    ensures { result ≡ count member.now.counters (model.happening fault (part_of part) member.now) }
{
    let counters = member.counters;
    match part {
        Part::Sending => match fault {
            None => counters.sent(),
            Some(fault) => counters.failed(sender_role(fault)),
        },
        Part::Listening => match fault {
            None if member.live && member.awake => counters.received(),
            None => counters,
            Some(fault) => counters.failed(listener_role(fault, member.node)),
        },
        Part::Hurting(_) if member.live => counters.failed(Role::Primary),
        Part::Hurting(_) | Part::Apart => counters,
    }
}

/// The notice that the attempt failed, by an error that this node detects or another.
fn failure(running: &Running, fault: Fault, node: u32, sender: bool) -> Mail
    ensures { mail_of result ≡ bus.BusError running.now.frame.id fault.kind (fault.by == node) sender }
{
    Mail::BusError {
        id: running.frame.id(),
        kind: fault.kind,
        primary: fault.by == node,
        sender,
    }
}

/// What a live node is told of the frame, a listener with a copy of it.
fn mail(
    alloc: Global,
    running: &Running,
    member: &Member,
    part: Part,
) -> Result<Option<Mail>, AllocError>
    ensures { IfOk result (λ mail. option_map mail_of mail ≡ mail_of_live running.now (part_of part) member.now) }
{
    if !member.live {
        return Ok(None);
    }
    match (part, running.fault) {
        (Part::Sending, None) => Ok(Some(Mail::Confirm(running.frame.id()))),
        (Part::Sending, Some(fault)) => Ok(Some(failure(running, fault, member.node, true))),
        (Part::Listening, None) => received(alloc, running, member.awake),
        (Part::Listening, Some(fault)) => Ok(Some(failure(running, fault, member.node, false))),
        (Part::Hurting(kind), _) => Ok(Some(Mail::BusError {
            id: running.frame.id(),
            kind,
            primary: true,
            sender: false,
        })),
        (Part::Apart, _) => Ok(None),
    }
}

/// A copy of the frame for a listener that is awake.
fn received(alloc: Global, running: &Running, awake: bool) -> Result<Option<Mail>, AllocError>
    ensures { IfOk result (λ mail. option_map mail_of mail ≡ (if awake then Some (bus.Received running.now.frame) else None)) }
{
    if !awake {
        return Ok(None);
    }
    Ok(Some(Mail::Received(running.frame.copy(alloc)?)))
}

/// What a node becomes at the end of the frame.
#[derive(Drop)]
pub(crate) struct After {
    pub(crate) counters: Counters,
    pub(crate) mail: Option<Mail>,
}

impl Model for After {
    ghost use Rattle.std.specs.Prelude.{option_map};
    ghost use Rattle.bus_medium.specs.Finishing.{After as after};
    ghost use Rattle.bus_medium.specs.Mails.{mail_of};

    ghost Value = { after };

    ghost view = { λ a. record { counters = a.counters; mail = option_map mail_of a.mail } };
}

impl After {
    /// What a node becomes that has this part in the frame.
    pub(crate) fn of(
        alloc: Global,
        running: &Running,
        member: &Member,
        part: Part,
    ) -> Result<After, AllocError>
        requires counted { IsCounted member.now }
        requires part { part_of part ≡ model.part running.now member.now.node }
        ensures { IfOk result (λ after. after ≡ after_of running.now member.now) }
    {
        Ok(After {
            counters: counters_after(member, running.fault, part),
            mail: mail(alloc, running, member, part)?,
        })
    }
}

impl Member {
    /// It becomes what the end of the frame makes of it: where it is off, one occurrence of 11
    /// recessive bits is counted, from the one on that follows.
    pub(crate) fn finish(&mut self, after: After)
        requires { IfSome self.old.occurrences (λ n. n ≤ 128) }
        ensures { self.new ≡ with_after after self.old }
    {
        let After { counters, mail } = after;
        self.counters = counters;
        self.occurrences = occurrences(counters.tec > 255, self.occurrences);
        if let Some(mail) = mail {
            self.mail = Some(mail);
        }
    }
}

/// The occurrences that a node has seen, if it is off now, from those before.
fn occurrences(off: bool, before: Option<u64>) -> Option<u64>
    requires { IfSome before (λ n. n ≤ 128) }
    ensures { result ≡ (if off then Some (model.one_more before) else None) }
{
    if !off {
        return None;
    }
    match before {
        Some(seen) => Some(seen + 1),
        None => Some(0),
    }
}
