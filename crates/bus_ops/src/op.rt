//! Operations as values.

use can_frame::{Bytes, Frame};

/// The fault confinement state that a node declares.
#[derive(Clone, Copy, Debug, PartialEq, Eq)]
pub enum Declared {
    /// Error active: the node sends and receives, and marks errors by a flag of dominant bits.
    Active,
    /// Error passive: the node sends and receives, and its error flag is recessive.
    Passive,
    /// Bus off: the node takes no part in the bus.
    Off,
}

/// What a node configures.
#[derive(Clone, Copy, Debug, PartialEq, Eq)]
pub enum Parameter {
    /// The nominal bit rate, in bits per second.
    Rate(u32),
    /// The data bit rate, in bits per second.
    FdRate(u32),
    /// A frame that loses arbitration stays pending.
    Keep,
    /// A frame that loses arbitration is removed, and its node is told.
    Discard,
}

/// An operation.
#[derive(Drop)]
pub enum Op {
    /// The other side couldn't read these bytes, at most 65,535.
    FormatError(Bytes),
    /// A classical frame.
    Transmit(Frame),
    /// A frame of flexible data rate.
    FdTransmit(Frame),
    /// The frame with this identifier was delivered.
    Confirm(u32),
    /// The frame with this identifier lost arbitration and was removed.
    ArbitrationLost(u32),
    /// The frame with the identifier `id` failed.
    BusError {
        id: u32,
        /// 1 bit, 2 stuffing, 3 form, 4 CRC, 5 acknowledgement.
        kind: u8,
        /// This node detected the error first.
        primary: bool,
        /// This node sent the frame.
        sender: bool,
    },
    /// A node configures its bus.
    Configuration(Parameter),
    /// A node declares its state.
    Status(Declared),
    /// The bus wakes up.
    Wakeup,
    /// The node goes to sleep.
    Sleep,
}

/// What stands in a list of bytes: an operation, or bytes that are none.
#[derive(Drop)]
pub enum Item {
    /// The operation with exactly these bytes.
    Op(Op),
    /// Bytes that spell no operation; FMI-LS-BUS has the format error to say so.
    Bad(Bytes),
}
