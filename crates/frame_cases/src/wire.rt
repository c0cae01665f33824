//! Frames on the wire.
use crate::frames::frame_of;
use can_frame::Frame;
use case_words::Unanswered;
use frame_bits::{ack_bit, duration, stuffed_len, time_of_bit, wire_len};
use std::alloc::Global;
use tick_time::BitTime;

/// The time of one bit at a rate, where a second has a billion ticks.
fn bit_time(rate: u32) -> Result<BitTime, Unanswered> {
    BitTime::of_rate(rate, 1_000_000_000).ok_or(Unanswered::Unknown)
}

/// The ticks to the end of a bit of the frame.
fn end_of_bit(
    frame: &Frame,
    place: u32,
    nominal: BitTime,
    fast: BitTime,
) -> Result<u64, Unanswered> {
    if place < wire_len(frame) {
        Ok(time_of_bit(frame, place, nominal, fast))
    } else {
        Err(Unanswered::Unknown)
    }
}

/// How many bits are stuffed and how many stand on the wire; then, at 500,000 bits and 2,000,000 data bits a second,
/// the ticks that they last, those to the end of the ACK slot and those to the end of the bit in the middle.
pub fn wire(alloc: Global, rest: &str) -> Result<String, Unanswered> {
    let frame = frame_of(alloc, rest)?;
    let (nominal, fast) = (bit_time(500_000)?, bit_time(2_000_000)?);
    let stuffed = stuffed_len(&frame);
    let wire = wire_len(&frame);
    let ticks = duration(&frame, nominal, fast);
    let acked = end_of_bit(&frame, ack_bit(&frame), nominal, fast)?;
    let half = end_of_bit(&frame, wire / 2, nominal, fast)?;
    Ok(format!(in alloc; "{stuffed} {wire} {ticks} {acked} {half}")?)
}

/// The bits that are stuffed, with their stuff bits; 1 is recessive.
pub fn bits(alloc: Global, rest: &str) -> Result<String, Unanswered> {
    let frame = frame_of(alloc, rest)?;
    let mut text = String::new(alloc);
    for bit in &frame_bits::bits(alloc, &frame)? {
        text.push_str(if *bit { "1" } else { "0" })?;
    }
    Ok(text)
}

/// The key of a frame, in hexadecimal.
pub fn key(alloc: Global, rest: &str) -> Result<String, Unanswered> {
    let frame = frame_of(alloc, rest)?;
    Ok(format!(in alloc; "{:x}", arbitration::key(&frame))?)
}
