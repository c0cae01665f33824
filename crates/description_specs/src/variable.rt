//! The variables of a unit, as its description has them (FMI 3.0, section 2.4.7).

/// Whether a variable comes in or goes out.
#[derive(Clone, Copy, Debug)]
pub enum Causality {
    /// The bench sets it.
    Input,
    /// The unit sets it.
    Output,
}

/// By what the next tick of a clock is given.
#[derive(Clone, Copy, Debug)]
pub enum IntervalVariability {
    /// The clock ticks with its binary.
    Triggered,
    /// The clock ticks after an interval that the unit sets.
    Countdown,
}

/// A clock.
#[derive(Clone, Copy, Debug)]
pub struct ClockVariable {
    /// Its value reference.
    pub reference: u32,
    /// Whether it comes in or goes out.
    pub causality: Causality,
    /// By what its next tick is given.
    pub interval: IntervalVariability,
}

/// A binary variable.
#[derive(Clone, Copy, Debug)]
pub struct BinaryVariable {
    /// Its value reference.
    pub reference: u32,
    /// Whether it comes in or goes out.
    pub causality: Causality,
    /// The value reference of its one clock.
    pub clock: u32,
    /// Its greatest length, in bytes.
    pub max_size: u32,
}
