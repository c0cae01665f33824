//! How a call of the program ends.
ghost use Rattle.std.specs.Prelude.{◌≡◌};
ghost use Rattle.bench_top.specs.Statuses.{code_of};

use bench_outside::{FileId, Refusal};

/// How a call of the program ended.
#[derive(Clone, Copy, Debug, PartialEq, Eq)]
pub enum Status {
    /// The command was carried out to its end.
    Done,
    /// The words are no form of a command.
    Usage,
    /// A file breaks its rules.
    Refused(Refusal),
    /// A file couldn't be read.
    Unread(FileId),
    /// A write to the output failed.
    Unwritten,
    /// Memory ran out.
    Memory,
    /// The budget of events was used, and an event was left.
    Spent,
}

impl Status {
    /// The exit code of the process.
    pub fn code(&self) -> u8
        ensures { result ≡ code_of self.now }
    {
        match self {
            Status::Done => 0,
            Status::Usage => 2,
            Status::Refused(_) => 3,
            Status::Unread(_) => 4,
            Status::Unwritten => 5,
            Status::Memory => 7,
            Status::Spent => 8,
        }
    }
}
