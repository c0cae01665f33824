//! How long a frame lasts on the wire.
ghost use Rattle.std.specs.Prelude.{◌≡◌, ◌<◌, ◌≤◌, ◌+◌, ◌*◌, ◌^◌, ◌++◌, replicate, sum, take};
ghost use Rattle.frame_specs.specs.Wire.{body_bits, wire_bits, spread, tail_bits, time_of, duration as duration_of};
ghost use Rattle.frame_bits.specs.Timing.{slow_bits};

use crate::lengths::{TAIL, find_ends};
use can_frame::{Frame, Kind};
use tick_time::BitTime;

/// How long the bits before the tail last: one nominal bit time each up to `slow`, and one data bit
/// time each behind it up to `body`. The bits of the tail last one nominal bit time each.
#[derive(Clone, Copy)]
struct Timing {
    slow: u32,
    body: u32,
}

/// The ticks from the start of SOF to the end of the last bit of end of frame.
pub fn duration(f: &Frame, nominal: BitTime, fast: BitTime) -> u64
    ensures exact { result ≡ duration_of f.now nominal fast }
    ensures positive { 0 < result }
    ensures bound { result < 2 ^ 50 }
{
    let timing = timing_of(f);
    ticks(timing, timing.body + TAIL, nominal, fast)
}

/// The ticks from the start of SOF to the end of wire bit `k`; wire bits are numbered from 0.
pub fn time_of_bit(f: &Frame, k: u32, nominal: BitTime, fast: BitTime) -> u64
    requires { k < wire_bits f.now }
    ensures exact { result ≡ time_of f.now k nominal fast }
    ensures positive { 0 < result }
    ensures within { result ≤ duration_of f.now nominal fast }
    ensures bound { result < 2 ^ 50 }
{
    ticks(timing_of(f), k + 1, nominal, fast)
}

/// The fast bits of a frame begin behind a recessive BRS.
fn timing_of(f: &Frame) -> Timing
    ensures slow { result.slow ≡ slow_bits f.now }
    ensures body { result.body ≡ body_bits f.now }
    ensures order { result.slow ≤ result.body }
    ensures bound { result.body ≤ 723 }
{
    let ends = find_ends(f);
    let slow = match f.kind() {
        Kind::Fd { brs: true, .. } => ends.head,
        _ => ends.body,
    };
    Timing {
        slow,
        body: ends.body,
    }
}

/// The ticks of the first `count` wire bits.
fn ticks(timing: Timing, count: u32, nominal: BitTime, fast: BitTime) -> u64
    requires order { timing.slow ≤ timing.body }
    requires bound { timing.body ≤ 723 }
    requires count { count ≤ timing.body + tail_bits }
    ensures exact { result ≡ sum (take count (spread timing.slow timing.body nominal fast ++ replicate tail_bits nominal)) }
    ensures positive { 0 < count → 0 < result }
    ensures bound { result ≤ count * 10 ^ 12 }
{
    let slow = count.min(timing.slow);
    let body = count.min(timing.body);
    let tail = count - body;
    nominal.bits(slow + tail) + fast.bits(body - slow)
}
