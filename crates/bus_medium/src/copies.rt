//! Copies of what a bus holds, which take memory.
ghost use Rattle.std.specs.Prelude.{◌≡◌, IfOk, option_map};
ghost use Rattle.bus_medium.specs.Mails.{mail_of};

use crate::mail::Mail;
use crate::member::FormatNotice;
use crate::running::Running;
use can_frame::{Bytes, Numbers};
use std::alloc::{AllocError, Global};

impl Mail {
    /// The same mail again.
    fn copy(&self, alloc: Global) -> Result<Mail, AllocError>
        ensures { IfOk result (λ m. mail_of m ≡ mail_of self.now) }
    {
        match self {
            Mail::Received(frame) => Ok(Mail::Received(frame.copy(alloc)?)),
            Mail::Confirm(id) => Ok(Mail::Confirm(*id)),
            Mail::BusError {
                id,
                kind,
                primary,
                sender,
            } => Ok(Mail::BusError {
                id: *id,
                kind: *kind,
                primary: *primary,
                sender: *sender,
            }),
        }
    }
}

impl FormatNotice {
    /// The same notice again.
    fn copy(&self, alloc: Global) -> Result<FormatNotice, AllocError>
        ensures { IfOk result (λ n. n ≡ self.now) }
    {
        let bytes = Bytes::of(self.bytes.as_slice().to_vec(alloc)?);
        Ok(FormatNotice {
            due: self.due,
            bytes,
        })
    }
}

impl Running {
    /// The same frame on the wire again.
    fn copy(&self, alloc: Global) -> Result<Running, AllocError>
        ensures { IfOk result (λ r. r ≡ self.now) }
    {
        let frame = self.frame.copy(alloc)?;
        let listeners = Numbers::of(self.listeners.as_slice().to_vec(alloc)?);
        Ok(Running {
            sender: self.sender,
            number: self.number,
            frame,
            end: self.end,
            fault: self.fault,
            hurt: self.hurt,
            listeners,
        })
    }
}

/// The same mail again, if there is any.
pub(crate) fn copy_mail(alloc: Global, mail: &Option<Mail>) -> Result<Option<Mail>, AllocError>
    ensures { IfOk result (λ m. option_map mail_of m ≡ option_map mail_of mail.now) }
{
    match mail {
        Some(mail) => Ok(Some(mail.copy(alloc)?)),
        None => Ok(None),
    }
}

/// The same notice again, if there is one.
pub(crate) fn copy_format(
    alloc: Global,
    notice: &Option<FormatNotice>,
) -> Result<Option<FormatNotice>, AllocError>
    ensures { IfOk result (λ n. n ≡ notice.now) }
{
    match notice {
        Some(notice) => Ok(Some(notice.copy(alloc)?)),
        None => Ok(None),
    }
}

/// The same frame on the wire again, if there is one.
pub(crate) fn copy_running(
    alloc: Global,
    running: &Option<Running>,
) -> Result<Option<Running>, AllocError>
    ensures { IfOk result (λ r. r ≡ running.now) }
{
    match running {
        Some(running) => Ok(Some(running.copy(alloc)?)),
        None => Ok(None),
    }
}
