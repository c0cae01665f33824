//! What one member takes at its turn: its mail, and the notices that are due.
ghost use Rattle.std.specs.Prelude.{◌≡◌, ◌++◌, ◌||◌, true, None, IfOk, OnOk, is_some, map, flat_map};
ghost use Rattle.operation_specs.specs.Operation.{is_valid};
ghost use Rattle.operation_specs.specs.Spelling.{spell};
ghost use Rattle.log_specs.specs.Line.{On};
ghost use Rattle.log_lines.specs.Lines.{line_of};
ghost use Rattle.bus_ops.specs.Views.{operation_of};
ghost use Rattle.bus_specs.specs.Inbox.{has_notice as has_notice_of, due_lost, due_format, due_wake, later_part, transmit_as, operation_of_mail, items_of, told_notices, member_after_inbox};
ghost use Rattle.bus_medium.specs.Mails.{mail_of};
ghost use Rattle.bus_medium.specs.Telling.{IsTellable, mail_item, lost_item, format_item, wake_item, lost_told, format_told, wake_told};

use crate::mail::Mail;
use crate::member::{FormatNotice, LostNotice, Member};
use bus_ops::{Op, write_op};
use can_frame::{Bytes, Frame, Kind};
use log_lines::Line;
use std::alloc::{AllocError, Global};

/// A received frame as an operation.
fn transmit(alloc: Global, frame: &Frame) -> Result<Op, AllocError>
    ensures { IfOk result (λ op. operation_of op ≡ transmit_as frame.now.kind frame.now) }
{
    let copy = frame.copy(alloc)?;
    match frame.kind() {
        Kind::Fd { .. } => Ok(Op::FdTransmit(copy)),
        Kind::Data | Kind::Remote => Ok(Op::Transmit(copy)),
    }
}

/// Mail as an operation.
fn operation(alloc: Global, mail: &Mail) -> Result<Op, AllocError>
    ensures { IfOk result (λ op. operation_of op ≡ operation_of_mail (mail_of mail.now)) }
{
    match mail {
        Mail::Received(frame) => transmit(alloc, frame),
        Mail::Confirm(id) => Ok(Op::Confirm(*id)),
        Mail::BusError {
            id,
            kind,
            primary,
            sender,
        } => Ok(Op::BusError {
            id: *id,
            kind: *kind,
            primary: *primary,
            sender: *sender,
        }),
    }
}

impl Member {
    fn has_lost(&self, now: u64) -> bool
        ensures { result ≡ is_some (due_lost now self.now) }
    {
        match self.lost {
            Some(notice) => notice.due <= now,
            None => false,
        }
    }

    fn has_format(&self, now: u64) -> bool
        ensures { result ≡ is_some (due_format now self.now) }
    {
        match &self.format {
            Some(notice) => notice.due <= now,
            None => false,
        }
    }

    fn has_wake(&self, now: u64) -> bool
        ensures { result ≡ is_some (due_wake now self.now) }
    {
        match self.wake {
            Some(due) => due <= now,
            None => false,
        }
    }

    /// Whether a notice is due.
    pub(crate) fn has_notice(&self, now: u64) -> bool
        ensures { result ≡ has_notice_of now self.now }
    {
        self.has_lost(now) || self.has_format(now) || self.has_wake(now)
    }

    /// Whether it has mail, or a notice is due.
    pub(crate) fn has_inbox(&self, now: u64) -> bool
        ensures { result ≡ (is_some self.now.mail || has_notice_of now self.now) }
    {
        self.mail.is_some() || self.has_notice(now)
    }

    fn write_mail(&self, alloc: Global, out: &mut Vec<u8>) -> Result<(), AllocError>
        requires { IsTellable self.now }
        ensures { OnOk result (out.new.items ≡ out.old.items ++ flat_map spell (mail_item self.now)) }
    {
        let Some(mail) = &self.mail else {
            return Ok(());
        };
        let op = operation(alloc, mail)?;
        write_op(alloc, out, &op)
    }

    fn write_lost(&self, alloc: Global, out: &mut Vec<u8>, now: u64) -> Result<(), AllocError>
        ensures { OnOk result (out.new.items ≡ out.old.items ++ flat_map spell (lost_item now self.now)) }
    {
        match self.lost {
            Some(LostNotice { due, id }) if due <= now => {
                write_op(alloc, out, &Op::ArbitrationLost(id))
            }
            _ => Ok(()),
        }
    }

    fn write_format(&self, alloc: Global, out: &mut Vec<u8>, now: u64) -> Result<(), AllocError>
        requires { IsTellable self.now }
        ensures { OnOk result (out.new.items ≡ out.old.items ++ flat_map spell (format_item now self.now)) }
    {
        match &self.format {
            Some(notice) if notice.due <= now => {
                let copy = Bytes::of(notice.bytes.as_slice().to_vec(alloc)?);
                write_op(alloc, out, &Op::FormatError(copy))
            }
            _ => Ok(()),
        }
    }

    fn write_wake(&self, alloc: Global, out: &mut Vec<u8>, now: u64) -> Result<(), AllocError>
        ensures { OnOk result (out.new.items ≡ out.old.items ++ flat_map spell (wake_item now self.now)) }
    {
        match self.wake {
            Some(due) if due <= now => write_op(alloc, out, &Op::Wakeup),
            _ => Ok(()),
        }
    }

    /// Appends its mail, then the lost, the format and the wake notice, in their written form.
    pub(crate) fn write_items(
        &self,
        alloc: Global,
        out: &mut Vec<u8>,
        now: u64,
    ) -> Result<(), AllocError>
        requires { IsTellable self.now }
        ensures { OnOk result (out.new.items ≡ out.old.items ++ flat_map spell (items_of now self.now)) }
    {
        self.write_mail(alloc, out)?;
        self.write_lost(alloc, out, now)?;
        self.write_format(alloc, out, now)?;
        self.write_wake(alloc, out, now)
    }

    fn push_lost(&self, lines: &mut Vec<Line>, now: u64, bus: u32) -> Result<(), AllocError>
        ensures { OnOk result (map line_of lines.new.items ≡ map line_of lines.old.items ++ map (On now bus self.now.node) (lost_told now self.now)) }
    {
        match self.lost {
            Some(LostNotice { due, id }) if due <= now => {
                lines.push(Line::ToldLost {
                    moment: now,
                    bus,
                    node: self.node,
                    id,
                })?;
                Ok(())
            }
            _ => Ok(()),
        }
    }

    fn push_format(
        &self,
        alloc: Global,
        lines: &mut Vec<Line>,
        now: u64,
        bus: u32,
    ) -> Result<(), AllocError>
        ensures { OnOk result (map line_of lines.new.items ≡ map line_of lines.old.items ++ map (On now bus self.now.node) (format_told now self.now)) }
    {
        match &self.format {
            Some(notice) if notice.due <= now => {
                let copy = Bytes::of(notice.bytes.as_slice().to_vec(alloc)?);
                lines.push(Line::ToldFormat {
                    moment: now,
                    bus,
                    node: self.node,
                    bytes: copy,
                })?;
                Ok(())
            }
            _ => Ok(()),
        }
    }

    fn push_wake(&self, lines: &mut Vec<Line>, now: u64, bus: u32) -> Result<(), AllocError>
        ensures { OnOk result (map line_of lines.new.items ≡ map line_of lines.old.items ++ map (On now bus self.now.node) (wake_told now self.now)) }
    {
        match self.wake {
            Some(due) if due <= now => {
                lines.push(Line::ToldWake {
                    moment: now,
                    bus,
                    node: self.node,
                })?;
                Ok(())
            }
            _ => Ok(()),
        }
    }

    /// Appends a line for each notice that is due.
    pub(crate) fn push_told(
        &self,
        alloc: Global,
        lines: &mut Vec<Line>,
        now: u64,
        bus: u32,
    ) -> Result<(), AllocError>
        ensures { OnOk result (map line_of lines.new.items ≡ map line_of lines.old.items ++ map (On now bus self.now.node) (told_notices now self.now)) }
    {
        self.push_lost(lines, now, bus)?;
        self.push_format(alloc, lines, now, bus)?;
        self.push_wake(lines, now, bus)
    }

    /// Its mail and what is due are gone. A wake notice makes it awake.
    pub(crate) fn take_inbox(&mut self, now: u64)
        ensures { self.new ≡ member_after_inbox now self.old }
    {
        self.awake = self.awake || self.has_wake(now);
        self.lost = later_lost(self.lost, now);
        self.format = later_format(self.format.take(), now);
        self.wake = later_wake(self.wake, now);
        self.mail = None;
    }
}

/// What isn't due yet.
fn later_lost(notice: Option<LostNotice>, now: u64) -> Option<LostNotice>
    ensures { result ≡ later_part (λ n. n.due) now notice }
{
    match notice {
        Some(LostNotice { due, .. }) if due <= now => None,
        other => other,
    }
}

/// What isn't due yet.
fn later_format(notice: Option<FormatNotice>, now: u64) -> Option<FormatNotice>
    ensures { result ≡ later_part (λ n. n.due) now notice }
{
    let notice = notice?;
    if notice.due <= now {
        None
    } else {
        Some(notice)
    }
}

/// What isn't due yet.
fn later_wake(notice: Option<u64>, now: u64) -> Option<u64>
    ensures { result ≡ later_part (λ due. due) now notice }
{
    match notice {
        Some(due) if due <= now => None,
        other => other,
    }
}
