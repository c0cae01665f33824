//! What a node is told of a frame.
ghost use Rattle.std.specs.Prelude.{◌≡◌, IfOk};
ghost use Rattle.bus_medium.specs.Mails.{mail_of};

use can_frame::Frame;

/// What a node is told of a frame.
#[derive(Drop)]
pub enum Mail {
    /// It received this frame.
    Received(Frame),
    /// Its own frame with this identifier was delivered.
    Confirm(u32),
    /// The attempt with this identifier failed.
    BusError {
        /// The identifier of the frame.
        id: u32,
        /// 1 bit, 2 stuffing, 3 form, 4 CRC, 5 acknowledgement.
        kind: u8,
        /// This node detected the error first.
        primary: bool,
        /// This node sent the frame.
        sender: bool,
    },
}
