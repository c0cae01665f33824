//! What a network file says.
use can_frame::{Bytes, Name};
use error_script::ErrorEntry;
use std::marker::Model;
use tick_time::BitTime;

/// The numbers at the top of the file.
#[derive(Drop)]
pub struct Settings {
    /// How many ticks a second has.
    pub resolution: u64,
    /// The last moment at which something happens, in ticks.
    pub stop: u64,
    /// How many events happen at most.
    pub events: u64,
    /// How many instructions a call of a unit takes at most.
    pub fuel: u64,
}

impl Model for Settings {
    ghost use Rattle.network_specs.specs.Settings.{Settings as settings};

    ghost Value = { settings };

    ghost view = { λ s. record { resolution = s.resolution; stop = s.stop; events = s.events; fuel = s.fuel } };
}

/// A bit rate and its bit time.
#[derive(Drop)]
pub struct Rate {
    /// The rate, in bits a second.
    pub bits: u32,
    /// How long a bit lasts.
    pub ticks: BitTime,
}

impl Model for Rate {
    ghost use Rattle.network_specs.specs.Buses.{Rate as rate};

    ghost Value = { rate };

    ghost view = { λ r. record { bits = r.bits; ticks = r.ticks } };
}

/// A bus.
#[derive(Drop)]
pub struct Bus {
    /// Its name.
    pub name: Name,
    /// The nominal bit rate.
    pub rate: Rate,
    /// The data bit rate; none on a bus with no FD.
    pub fd_rate: Option<Rate>,
}

impl Model for Bus {
    ghost use Rattle.network_specs.specs.Buses.{Bus as bus};

    ghost Value = { bus };

    ghost view = { λ b. record { name = b.name; rate = b.rate; fd_rate = b.fd_rate } };
}

/// A terminal of a node, and the bus that it stands on.
#[derive(Drop)]
pub struct Attachment {
    /// The terminal's name, as the file has it.
    pub terminal: Bytes,
    /// The place of the bus.
    pub bus: u32,
}

impl Model for Attachment {
    ghost use Rattle.network_specs.specs.Nodes.{Attachment as attachment};

    ghost Value = { attachment };

    ghost view = { λ a. record { terminal = a.terminal; bus = a.bus } };
}

/// A node.
#[derive(Drop)]
pub struct Node {
    /// Its name.
    pub name: Name,
    /// The folder of its unit.
    pub fmu: Name,
    /// Its terminals, in the order of their names.
    pub attachments: Vec<Attachment>,
}

impl Model for Node {
    ghost use Rattle.network_specs.specs.Nodes.{Node as node};

    ghost Value = { node };

    ghost view = { λ n. record { name = n.name; fmu = n.fmu; attachments = n.attachments.items } };
}

/// An error that is to happen on a bus.
#[derive(Drop)]
pub struct ScriptEntry {
    /// The place of the bus.
    pub bus: u32,
    /// The attempts that fail, and how.
    pub entry: ErrorEntry,
}

impl Model for ScriptEntry {
    ghost use Rattle.network_specs.specs.Scripts.{ScriptEntry as script_entry};

    ghost Value = { script_entry };

    ghost view = { λ e. record { bus = e.bus; entry = e.entry } };
}

/// A network, without what is known of its units. All lists are in the order of the file.
#[derive(Drop)]
pub struct NetworkFile {
    /// The numbers at the top.
    pub settings: Settings,
    /// The buses.
    pub buses: Vec<Bus>,
    /// The nodes.
    pub nodes: Vec<Node>,
    /// The errors that are to happen.
    pub script: Vec<ScriptEntry>,
}

impl Model for NetworkFile {
    ghost use Rattle.network_specs.specs.NetworkFiles.{NetworkFile as network_file};

    ghost Value = { network_file };

    ghost view = { λ f. record { settings = f.settings; buses = f.buses.items; nodes = f.nodes.items; script = f.script.items } };
}
