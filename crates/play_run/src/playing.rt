//! The run of a play over its whole length.
ghost use Rattle.std.specs.Prelude.{◌≡◌, ◌≤◌, ◌<◌, ◌+◌, ◌^◌, true, All, fold, map, IfOk};
ghost use Rattle.std.specs.List.{range_with_len};
ghost use Rattle.bus_specs.specs.Bus.{member_is, new_bus};
ghost use Rattle.bus_specs.specs.Inbox.{enter};
ghost use Rattle.bus_medium.specs.Setups.{setup_of, IsWellFormed};
ghost use Rattle.log_specs.specs.Line.{line_text};
ghost use Rattle.run_specs.specs.Run.{log as log_of};
ghost use Rattle.play_specs.specs.Scenario.{machine, scenario_lines, scenario_status};
ghost use Rattle.play_run.specs.Scripts.{scenario_of, IsRunnable};
ghost use Rattle.play_run.specs.Statuses.{status_from};
ghost use Rattle.log_writing.specs.Endings.{code_of};
ghost use Rattle.log_writing.specs.Written.{WritesOrBreaksOff};
ghost use Rattle.play_run.specs.Ready.{IsReady};
ghost use Rattle.play_run.specs.Worlds.{world_of};

use crate::runner::Runner;
use crate::script::Script;
use bench_outside::Sink;
use bus_medium::{BusSetup, Medium};
use log_writing::{Ending, RunError, write_end, write_lines};
use std::alloc::{AllocError, Global};

/// Runs from here with at most this many events, and writes the log.
fn run_on<O: Sink>(
    alloc: Global,
    stop: u64,
    budget: u64,
    mut runner: Runner,
    out: &mut O,
) -> Result<Ending, RunError>
    requires ready { IsReady (world_of runner) }
    requires stop { stop ≤ 2 ^ 62 }
    requires budget { (world_of runner).events + budget < 2 ^ 62 }
    ensures written { WritesOrBreaksOff O.Sink out.old out.new
        (map line_text (log_of (machine stop) budget (world_of runner))) result }
    ensures ending { IfOk result (λ e. code_of e ≡ status_from stop budget (world_of runner)) }
{
    let mut left = budget;
    while let Some(event) = runner.next_event(stop) {
        if left == 0 {
            return write_end(alloc, Ending::Spent, runner.events(), out);
        }
        let lines = runner.step(alloc, event)?;
        write_lines(alloc, lines.as_slice(), out)?;
        left -= 1;
    }
    write_end(alloc, Ending::Done, runner.events(), out)
}

/// All nodes are live from now on.
fn enter_all(medium: &mut Medium, nodes: u32)
    requires members { All (λ n. member_is (λ m. true) medium.old.members n ≡ true) (range_with_len 0 nodes) }
    ensures { medium.new ≡ fold enter medium.old (range_with_len 0 nodes) }
{
    for node in 0..nodes {
        medium.enter(node);
    }
}

/// The bus of a script, all of whose nodes are live.
fn live_bus(alloc: Global, setup: BusSetup, nodes: u32) -> Result<Medium, AllocError>
    requires setup { IsWellFormed setup }
    requires nodes { setup.members ≡ range_with_len 0 nodes }
    ensures { IfOk result (λ m. m ≡ fold enter (new_bus (setup_of setup) setup.members) setup.members) }
{
    let mut medium = Medium::new(alloc, setup)?;
    enter_all(&mut medium, nodes);
    Ok(medium)
}

/// Runs a script with at most this many events, and writes its log line by line: each line is one
/// write. `Unwritten` comes only where a write failed: the lines before that one stand there, of its
/// own line a first part, and nothing behind it. `Memory` comes only where no write failed, and then
/// whole lines stand there.
pub(crate) fn run_script<O: Sink>(
    alloc: Global,
    budget: u64,
    script: Script,
    out: &mut O,
) -> Result<Ending, RunError>
    requires runnable { IsRunnable script }
    requires budget { budget < 2 ^ 62 }
    ensures written { WritesOrBreaksOff O.Sink out.old out.new
        (map line_text (scenario_lines budget (scenario_of script))) result }
    ensures ending { IfOk result (λ e. code_of e ≡ scenario_status budget (scenario_of script)) }
{
    let stop = script.stop;
    let medium = live_bus(alloc, script.setup, script.nodes)?;
    run_on(
        alloc,
        stop,
        budget,
        Runner::new(medium, script.actions),
        out,
    )
}
