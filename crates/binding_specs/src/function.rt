//! The functions that the module of a unit exports.

/// A function that the module of a unit exports, in the order in which they are looked for.
#[derive(Clone, Copy, PartialEq, Eq, Debug)]
pub enum Function {
    /// Says where the area of exchange lies: `bench_area`.
    Area,
    /// `fmi3InstantiateCoSimulation`.
    Instantiate,
    /// `fmi3EnterInitializationMode`.
    EnterInit,
    /// `fmi3ExitInitializationMode`.
    ExitInit,
    /// `fmi3EnterEventMode`.
    EnterEvent,
    /// `fmi3EnterStepMode`.
    EnterStep,
    /// `fmi3SetClock`.
    SetClock,
    /// `fmi3SetBinary`.
    SetBinary,
    /// `fmi3GetClock`.
    GetClock,
    /// `fmi3GetBinary`.
    GetBinary,
    /// `fmi3UpdateDiscreteStates`.
    Update,
    /// `fmi3GetIntervalFraction`.
    GetInterval,
    /// `fmi3DoStep`.
    DoStep,
    /// `fmi3Terminate`.
    Terminate,
    /// `fmi3FreeInstance`.
    Free,
}
