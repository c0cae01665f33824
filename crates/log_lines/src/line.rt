//! A line of a log.

use crate::{Cause, Level};
use can_frame::{Bytes, Frame, Numbers};

/// A line of a log. Moments are in ticks.
#[derive(Drop)]
pub enum Line {
    /// A request is accepted.
    Req {
        moment: u64,
        bus: u32,
        node: u32,
        /// The frame.
        frame: Frame,
    },
    /// A request is refused: its node has 256 of them.
    Full {
        moment: u64,
        bus: u32,
        node: u32,
        /// The frame.
        frame: Frame,
    },
    /// A request is refused: its node is off.
    Drop {
        moment: u64,
        bus: u32,
        node: u32,
        /// The frame.
        frame: Frame,
    },
    /// A node keeps the frames that lose arbitration from now on.
    Keep {
        moment: u64,
        bus: u32,
        node: u32,
    },
    /// A node discards the frames that lose arbitration from now on.
    Discard {
        moment: u64,
        bus: u32,
        node: u32,
    },
    /// A node wakes the bus up.
    Wake {
        moment: u64,
        bus: u32,
        node: u32,
    },
    /// A node goes to sleep.
    Sleep {
        moment: u64,
        bus: u32,
        node: u32,
    },
    /// A node configures the bit rate that the bus has.
    Rate {
        moment: u64,
        bus: u32,
        node: u32,
        /// The rate, in bits a second.
        value: u32,
    },
    /// A node configures the data bit rate that the bus has.
    FdRate {
        moment: u64,
        bus: u32,
        node: u32,
        /// The rate, in bits a second.
        value: u32,
    },
    /// A node declares its state.
    Status {
        moment: u64,
        bus: u32,
        node: u32,
        /// The state.
        level: Level,
    },
    /// The fault confinement state of a node has changed.
    State {
        moment: u64,
        bus: u32,
        node: u32,
        /// The state.
        level: Level,
    },
    /// A node says that it couldn't read these bytes.
    FormatError {
        moment: u64,
        bus: u32,
        node: u32,
        /// At most 64 bytes.
        bytes: Bytes,
    },
    /// A node emitted these bytes, which are no operation that the bus takes.
    Bad {
        moment: u64,
        bus: u32,
        node: u32,
        /// At most 64 bytes.
        bytes: Bytes,
    },
    /// A node takes the notice that its frame lost arbitration and is gone.
    ToldLost {
        moment: u64,
        bus: u32,
        node: u32,
        /// The identifier of the frame.
        id: u32,
    },
    /// A node takes the notice that it emitted a bad operation.
    ToldFormat {
        moment: u64,
        bus: u32,
        node: u32,
        /// At most 64 bytes.
        bytes: Bytes,
    },
    /// A node takes the notice that the bus was woken up.
    ToldWake {
        moment: u64,
        bus: u32,
        node: u32,
    },
    /// A node that was off takes part again.
    Back {
        moment: u64,
        bus: u32,
        node: u32,
    },
    /// A frame starts.
    Start {
        moment: u64,
        bus: u32,
        node: u32,
        /// The frame.
        frame: Frame,
    },
    /// A node lost arbitration, and its request waits.
    LostKept {
        moment: u64,
        bus: u32,
        node: u32,
        /// The frame.
        frame: Frame,
    },
    /// A node lost arbitration, and its request is gone.
    LostGone {
        moment: u64,
        bus: u32,
        node: u32,
        /// The frame.
        frame: Frame,
    },
    /// A frame is delivered.
    Done {
        moment: u64,
        bus: u32,
        node: u32,
        /// The frame.
        frame: Frame,
        /// The nodes that received it, rising.
        receivers: Numbers,
    },
    /// An attempt fails.
    Fail {
        moment: u64,
        bus: u32,
        node: u32,
        /// The frame.
        frame: Frame,
        /// 1 bit, 2 stuffing, 3 form, 4 CRC, 5 acknowledgement.
        kind: u8,
        /// The node that detects the error.
        by: u32,
    },
    /// A passive listener has an error of its own.
    Hurt {
        moment: u64,
        bus: u32,
        node: u32,
        /// 1 bit, 2 stuffing, 3 form, 4 CRC, 5 acknowledgement.
        kind: u8,
    },
    /// A node is down.
    Down {
        moment: u64,
        node: u32,
        /// Why.
        cause: Cause,
    },
    /// A node has ended by its own wish.
    Over {
        moment: u64,
        node: u32,
    },
    /// The log ends.
    End {
        /// 0 where nothing is left to happen, 8 where the budget of events is used and one is left.
        status: u8,
        /// How many events there were.
        events: u64,
    },
}
