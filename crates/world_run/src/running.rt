//! A network runs to its end, and its log is written line by line.
ghost use Rattle.std.specs.Prelude.{◌≡◌, ◌≤◌, ◌+◌, ◌∷◌, ◌++◌, [], false, map, IfOk};
ghost use Rattle.log_specs.specs.Line.{line_text};
ghost use Rattle.log_specs.specs.Line as log;
ghost use Rattle.log_writing.specs.Endings.{code_of};
ghost use Rattle.log_writing.specs.Written.{WritesOrBreaksOff};
ghost use Rattle.world_specs.specs.Plan.{units_of};
ghost use Rattle.world_specs.specs.Network.{close_lines, run_lines, run_status};

use bench_outside::Sink;
use fmi_states::Ecu;
use log_writing::{Ending, RunError, write_end, write_lines};
use std::alloc::Global;
use world_core::World;

/// Closes the units that are live, and writes the last lines of the log.
fn close_with<E: Ecu, O: Sink>(
    alloc: Global,
    mut world: World<E>,
    ending: Ending,
    out: &mut O,
) -> Result<Ending, RunError>
    requires goes_on { world.failed ≡ false }
    ensures written { WritesOrBreaksOff O.Sink out.old out.new (map line_text
        (close_lines (units_of E.answer E.phase_of world.plan) world.network ++ log.End (code_of ending) world.network.events ∷ [])) result }
    ensures ending { IfOk result (λ e. e ≡ ending) }
{
    let events = world.events();
    let lines = world.close(alloc)?;
    write_lines(alloc, lines.as_slice(), out)?;
    write_end(alloc, ending, events, out)
}

/// Runs a network from where it stands with at most this many events more, and writes its log line by line: each line is
/// one write. `Unwritten` comes only where a write failed: the lines before that one stand there, of its own line a first
/// part, and nothing behind it. `Memory` comes only where no write failed, and then whole lines stand there.
pub fn run<E: Ecu, O: Sink>(
    alloc: Global,
    mut world: World<E>,
    budget: u64,
    out: &mut O,
) -> Result<Ending, RunError>
    requires goes_on { world.failed ≡ false }
    requires budget { world.network.events + budget ≤ world.plan.events }
    ensures written { WritesOrBreaksOff O.Sink out.old out.new
        (map line_text (run_lines (units_of E.answer E.phase_of world.plan) world.plan.stop budget world.network)) result }
    ensures ending { IfOk result
        (λ e. code_of e ≡ run_status (units_of E.answer E.phase_of world.plan) world.plan.stop budget world.network) }
{
    let mut left = budget;
    while let Some(event) = world.next_event() {
        if left == 0 {
            return close_with(alloc, world, Ending::Spent, out);
        }
        let lines = world.happen(alloc, event)?;
        write_lines(alloc, lines.as_slice(), out)?;
        left -= 1;
    }
    close_with(alloc, world, Ending::Done, out)
}
