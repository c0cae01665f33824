//! The fields of the network file, by which a refusal is named.
ghost use Rattle.std.specs.Prelude.{◌≡◌};
ghost use Rattle.network_specs.specs.Names.{name_of};

/// A field of the network file, in the order of its checks.
#[derive(Clone, Copy, Debug)]
pub enum NetworkField {
    /// The file is too long.
    Size,
    /// The file is no TOML document.
    Toml,
    /// How many ticks a second has.
    Resolution,
    /// The last moment at which something happens.
    Stop,
    /// How many events happen at most.
    Events,
    /// How many instructions a call of a unit takes at most.
    Fuel,
    /// The array of buses.
    Bus,
    /// A bus's name.
    BusName,
    /// A bus's nominal bit rate.
    BusRate,
    /// A bus's data bit rate.
    BusFdRate,
    /// The array of nodes.
    Node,
    /// A node's name.
    NodeName,
    /// The folder of a node's unit.
    NodeFmu,
    /// The bus of each terminal of a node.
    NodeBus,
    /// The array of errors.
    Error,
    /// The bus of an error.
    ErrorBus,
    /// The first attempt that an error covers.
    ErrorAttempt,
    /// How many attempts an error covers.
    ErrorCount,
    /// The kind of an error.
    ErrorKind,
    /// Who detects an error.
    ErrorBy,
    /// The bit at which an error is detected.
    ErrorBit,
}

impl NetworkField {
    /// The field as a report prints it: its key, behind the name of the array that its tables stand in.
    pub fn name(self) -> &'static str
        ensures { result.now ≡ name_of self }
    {
        match self {
            NetworkField::Size => "Size",
            NetworkField::Toml => "Toml",
            NetworkField::Resolution => "resolution",
            NetworkField::Stop => "stop",
            NetworkField::Events => "events",
            NetworkField::Fuel => "fuel",
            NetworkField::Bus => "bus",
            NetworkField::BusName => "bus.name",
            NetworkField::BusRate => "bus.rate",
            NetworkField::BusFdRate => "bus.fd_rate",
            NetworkField::Node => "node",
            NetworkField::NodeName => "node.name",
            NetworkField::NodeFmu => "node.fmu",
            NetworkField::NodeBus => "node.bus",
            NetworkField::Error => "error",
            NetworkField::ErrorBus => "error.bus",
            NetworkField::ErrorAttempt => "error.attempt",
            NetworkField::ErrorCount => "error.count",
            NetworkField::ErrorKind => "error.kind",
            NetworkField::ErrorBy => "error.by",
            NetworkField::ErrorBit => "error.bit",
        }
    }
}
