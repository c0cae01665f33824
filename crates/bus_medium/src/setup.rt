//! What a bus is made from.
use can_frame::Numbers;
use error_script::ErrorList;
use tick_time::BitTime;

/// A bus: its number, its bit rates and bit times, its nodes and its script of errors.
#[derive(Drop)]
pub struct BusSetup {
    /// The number of the bus.
    pub number: u32,
    /// The nominal bit rate, in bits a second.
    pub rate: u32,
    /// The data bit rate, in bits a second; none on a bus with no FD.
    pub fd_rate: Option<u32>,
    /// A bit at the nominal bit rate.
    pub nominal: BitTime,
    /// A bit at the data bit rate; none on a bus with no FD.
    pub fast: Option<BitTime>,
    /// The nodes of the bus, rising.
    pub members: Numbers,
    /// The script of errors.
    pub errors: ErrorList,
}
