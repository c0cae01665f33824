//! The calls of a unit.
use can_frame::Bytes;

/// A call of a unit. A `u32` is a value reference.
#[derive(Drop)]
pub enum Call {
    /// Makes the instance: `fmi3InstantiateCoSimulation`.
    Instantiate,
    /// `fmi3EnterInitializationMode`.
    EnterInit,
    /// `fmi3ExitInitializationMode`, which enters Event Mode.
    ExitInit,
    /// `fmi3EnterEventMode`.
    EnterEvent,
    /// `fmi3EnterStepMode`.
    EnterStep,
    /// Ticks an input clock: `fmi3SetClock`.
    SetClock(u32),
    /// Gives a binary input its bytes: `fmi3SetBinary`.
    SetBinary(u32, Bytes),
    /// Asks whether an output clock ticks: `fmi3GetClock`.
    GetClock(u32),
    /// Asks for the bytes of a binary output: `fmi3GetBinary`.
    GetBinary(u32),
    /// Ends an event iteration: `fmi3UpdateDiscreteStates`.
    Update,
    /// Asks for the interval of a countdown clock: `fmi3GetIntervalFraction`.
    GetInterval(u32),
    /// `fmi3DoStep`.
    DoStep {
        /// The communication point where the step starts, in ticks.
        from: u64,
        /// The step size, in ticks.
        size: u64,
    },
    /// `fmi3Terminate`.
    Terminate,
    /// `fmi3FreeInstance`.
    Free,
}
