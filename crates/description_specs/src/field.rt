//! The fields of a description, by which a refusal is named.
ghost use Rattle.std.specs.Prelude.{◌≡◌};
ghost use Rattle.description_specs.specs.Names.{name_of};

/// A field of a description, in the order of its checks.
#[derive(Clone, Copy, Debug)]
pub enum Field {
    /// The file is too long.
    Size,
    /// The file is no TOML document.
    Toml,
    /// The version of FMI.
    FmiVersion,
    /// The model's name.
    ModelName,
    /// The token by which a unit is known to be of this description.
    InstantiationToken,
    /// The table of what holds for co-simulation.
    CoSimulation,
    /// The name of the unit's module.
    ModelIdentifier,
    /// Whether the unit has Event Mode.
    HasEventMode,
    /// The array of clocks.
    Clock,
    /// A clock's name.
    ClockName,
    /// A clock's value reference.
    ClockValueReference,
    /// A clock's causality.
    ClockCausality,
    /// By what a clock's interval is given.
    ClockIntervalVariability,
    /// The array of binary variables.
    Binary,
    /// A binary's name.
    BinaryName,
    /// A binary's value reference.
    BinaryValueReference,
    /// A binary's causality.
    BinaryCausality,
    /// A binary's clock.
    BinaryClocks,
    /// A binary's greatest length.
    BinaryMaxSize,
    /// The array of terminals.
    Terminal,
    /// A terminal's name.
    TerminalName,
    /// The binary input of a terminal.
    TerminalRxData,
    /// The input's clock.
    TerminalRxClock,
    /// The binary output of a terminal.
    TerminalTxData,
    /// The output's clock.
    TerminalTxClock,
}

impl Field {
    /// The field as a report prints it: its key, behind the name of the array that its tables stand in.
    pub fn name(self) -> &'static str
        ensures { result.now ≡ name_of self }
    {
        match self {
            Field::Size => "Size",
            Field::Toml => "Toml",
            Field::FmiVersion => "fmiVersion",
            Field::ModelName => "modelName",
            Field::InstantiationToken => "instantiationToken",
            Field::CoSimulation => "CoSimulation",
            Field::ModelIdentifier => "modelIdentifier",
            Field::HasEventMode => "hasEventMode",
            Field::Clock => "Clock",
            Field::ClockName => "Clock.name",
            Field::ClockValueReference => "Clock.valueReference",
            Field::ClockCausality => "Clock.causality",
            Field::ClockIntervalVariability => "Clock.intervalVariability",
            Field::Binary => "Binary",
            Field::BinaryName => "Binary.name",
            Field::BinaryValueReference => "Binary.valueReference",
            Field::BinaryCausality => "Binary.causality",
            Field::BinaryClocks => "Binary.clocks",
            Field::BinaryMaxSize => "Binary.maxSize",
            Field::Terminal => "Terminal",
            Field::TerminalName => "Terminal.name",
            Field::TerminalRxData => "Terminal.Rx_Data",
            Field::TerminalRxClock => "Terminal.Rx_Clock",
            Field::TerminalTxData => "Terminal.Tx_Data",
            Field::TerminalTxClock => "Terminal.Tx_Clock",
        }
    }
}
