//! The names of fields.
ghost use Rattle.std.specs.Prelude.{◌≡◌};
ghost use Rattle.refusal_names.specs.Fields.{why_of_network, why_of_description};

use bench_outside::Why;
use description_specs::Field;
use network_specs::NetworkField;

/// The name of a field of a network file.
pub fn network_why(field: NetworkField) -> Why
    ensures { result ≡ why_of_network field }
{
    match field {
        NetworkField::Size => Why::Size,
        NetworkField::Toml => Why::Toml,
        NetworkField::Resolution => Why::Resolution,
        NetworkField::Stop => Why::Stop,
        NetworkField::Events => Why::Events,
        NetworkField::Fuel => Why::Fuel,
        NetworkField::Bus => Why::Bus,
        NetworkField::BusName => Why::BusName,
        NetworkField::BusRate => Why::BusRate,
        NetworkField::BusFdRate => Why::BusFdRate,
        NetworkField::Node => Why::Node,
        NetworkField::NodeName => Why::NodeName,
        NetworkField::NodeFmu => Why::NodeFmu,
        NetworkField::NodeBus => Why::NodeBus,
        NetworkField::Error => Why::Error,
        NetworkField::ErrorBus => Why::ErrorBus,
        NetworkField::ErrorAttempt => Why::ErrorAttempt,
        NetworkField::ErrorCount => Why::ErrorCount,
        NetworkField::ErrorKind => Why::ErrorKind,
        NetworkField::ErrorBy => Why::ErrorBy,
        NetworkField::ErrorBit => Why::ErrorBit,
    }
}

/// The name of a field of a description.
pub fn description_why(field: Field) -> Why
    ensures { result ≡ why_of_description field }
{
    match field {
        Field::Size => Why::Size,
        Field::Toml => Why::Toml,
        Field::FmiVersion => Why::FmiVersion,
        Field::ModelName => Why::ModelName,
        Field::InstantiationToken => Why::InstantiationToken,
        Field::CoSimulation => Why::CoSimulation,
        Field::ModelIdentifier => Why::ModelIdentifier,
        Field::HasEventMode => Why::HasEventMode,
        Field::Clock => Why::Clock,
        Field::ClockName => Why::ClockName,
        Field::ClockValueReference => Why::ClockValueReference,
        Field::ClockCausality => Why::ClockCausality,
        Field::ClockIntervalVariability => Why::ClockIntervalVariability,
        Field::Binary => Why::Binary,
        Field::BinaryName => Why::BinaryName,
        Field::BinaryValueReference => Why::BinaryValueReference,
        Field::BinaryCausality => Why::BinaryCausality,
        Field::BinaryClocks => Why::BinaryClocks,
        Field::BinaryMaxSize => Why::BinaryMaxSize,
        Field::Terminal => Why::Terminal,
        Field::TerminalName => Why::TerminalName,
        Field::TerminalRxData => Why::TerminalRxData,
        Field::TerminalRxClock => Why::TerminalRxClock,
        Field::TerminalTxData => Why::TerminalTxData,
        Field::TerminalTxClock => Why::TerminalTxClock,
    }
}
