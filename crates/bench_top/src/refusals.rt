//! The refusal of the file that the words name.
ghost use Rattle.std.specs.Prelude.{◌≡◌, ◌≢◌};
ghost use Rattle.bench_outside.specs.declared.refusal.FileId.{FileId};
ghost use Rattle.bench_top.specs.Refusals.{main_refusal, refused_if};

use crate::status::Status;
use bench_outside::{FileId, Refusal, Why};

/// The file that the command names breaks this rule at this place.
pub(crate) fn refused(why: Why, place: u64) -> Status
    ensures { result ≡ Status.Refused (main_refusal why place) }
{
    Status::Refused(Refusal {
        file: FileId::Main,
        why,
        place,
        at: 0,
    })
}

/// The file breaks a rule, or there is none for want of memory.
pub(crate) fn refused_if(refusal: Option<Refusal>) -> Status
    ensures status { result ≡ refused_if refusal }
    ensures form { result ≢ Status.Usage }
    ensures read { (file : FileId) → result ≢ Status.Unread file }
    ensures written { result ≢ Status.Unwritten }
{
    match refusal {
        Some(refusal) => Status::Refused(refusal),
        None => Status::Memory,
    }
}
