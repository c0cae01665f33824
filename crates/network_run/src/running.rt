//! A network that was read is opened and runs to its end.
ghost use Rattle.std.specs.Prelude.{◌≡◌, map, IfOk};
ghost use Rattle.log_specs.specs.Line.{line_text};
ghost use Rattle.log_writing.specs.Endings.{code_of};
ghost use Rattle.log_writing.specs.Written.{WritesOrBreaksOff};
ghost use Rattle.ideal_specs.specs.Ideal.{ideal_lines, ideal_status};
ghost use Rattle.network_folder.specs.Outcomes.{IsSound, seen};

use bench_outside::Sink;
use guest_worlds::open_world;
use log_writing::{Ending, RunError};
use network_folder::Network;
use std::alloc::Global;
use world_run::run;

/// Runs a network up to its stop or to its budget of events, and writes its log line by line: each line is one write.
/// `Unwritten` comes only where a write failed: the lines before that one stand there, of its own line a first part, and
/// nothing behind it. `Memory` comes only where no write failed, and then whole lines stand there.
pub fn run_network<O: Sink>(
    alloc: Global,
    network: Network,
    out: &mut O,
) -> Result<Ending, RunError>
    requires sound { IsSound (seen network) }
    ensures written { WritesOrBreaksOff O.Sink out.old out.new (map line_text (ideal_lines (seen network))) result }
    ensures ending { IfOk result (λ e. code_of e ≡ ideal_status (seen network)) }
{
    let events = network.plan.events;
    let world = open_world(alloc, network.plan, network.codes)?;
    run(alloc, world, events, out)
}
