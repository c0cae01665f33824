//! The replies of a unit, and which reply suits which call.
ghost use Rattle.std.specs.Prelude.{◌≡◌, true};
ghost use Rattle.fmi_states.specs.Reply.{status_of, are_bytes, is_suitable};

use crate::call::Call;
use crate::status::FmiStatus;
use can_frame::Bytes;

/// Why a unit gave no reply of its own.
#[derive(Clone, Copy, Debug, PartialEq, Eq)]
pub enum Broken {
    /// It trapped.
    Trap,
    /// It used up its budget of steps.
    Spent,
    /// Its reply doesn't suit the call, or means nothing.
    BadReply,
    /// It asked for bytes, or named bytes, outside its memory.
    BadBuffer,
}

/// What an interval says of a countdown clock: `fmi3IntervalQualifier`.
#[derive(Clone, Copy, Debug, PartialEq, Eq)]
pub enum Qualifier {
    /// The next interval isn't known yet.
    NotYetKnown,
    /// The interval is as it was.
    Unchanged,
    /// The interval is new.
    Changed,
}

/// What a unit answers a call.
#[derive(Drop)]
pub enum Reply {
    /// A status alone.
    Plain(FmiStatus),
    /// Whether the clock ticks.
    Clock(FmiStatus, bool),
    /// The bytes of a binary output.
    Data(FmiStatus, Bytes),
    /// Whether it wants another update (`discreteStatesNeedUpdate`),
    /// and whether it ends the simulation (`terminateSimulation`).
    Updated(FmiStatus, bool, bool),
    /// The interval of a countdown clock: `counter` ticks of `1 / resolution` seconds each.
    Interval {
        /// How the call went.
        status: FmiStatus,
        /// The interval, in ticks of the resolution.
        counter: u64,
        /// How many ticks a second has.
        resolution: u64,
        /// What the interval says.
        qualifier: Qualifier,
    },
    /// No reply of its own: the unit is lost.
    Broken(Broken),
}

impl Reply {
    /// The status of a reply; None exactly where the unit broke.
    pub fn status(&self) -> Option<FmiStatus>
        ensures { result ≡ status_of self.now }
    {
        match self {
            Reply::Plain(status)
            | Reply::Clock(status, _)
            | Reply::Data(status, _)
            | Reply::Updated(status, _, _)
            | Reply::Interval { status, .. } => Some(*status),
            Reply::Broken(_) => None,
        }
    }
}

// Whatever a slice of bytes holds are bytes.
fn bytes_hold(bytes: &[u8])
    ensures { are_bytes bytes.now ≡ true }
{}

/// Whether the reply is of the call's kind.
pub fn suits(call: &Call, reply: &Reply) -> bool
    ensures { result ≡ is_suitable call.now reply.now }
{
    match (call, reply) {
        (_, Reply::Broken(_)) => true,
        (Call::GetClock(_), _) => matches!(reply, Reply::Clock(_, _)),
        (Call::GetBinary(_), Reply::Data(_, bytes)) => {
            bytes_hold(bytes.as_slice());
            true
        }
        (Call::GetBinary(_), _) => false,
        (Call::Update, _) => matches!(reply, Reply::Updated(_, _, _)),
        (Call::GetInterval(_), _) => matches!(reply, Reply::Interval { .. }),
        (_, _) => matches!(reply, Reply::Plain(_)),
    }
}
