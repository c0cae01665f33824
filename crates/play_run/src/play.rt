//! The run of a play of a file.
ghost use Rattle.std.specs.Prelude.{◌≡◌, ◌<◌, ◌^◌, IfOk, map, length};
ghost use Rattle.std.specs.List.{range_with_len};
ghost use Rattle.log_specs.specs.Line.{line_text};
ghost use Rattle.play_specs.specs.Play as model;
ghost use Rattle.bus_ops.specs.Views.{item_of};
ghost use Rattle.play_file.specs.Verbs.{verb_of};
ghost use Rattle.log_writing.specs.Endings.{code_of};
ghost use Rattle.log_writing.specs.Written.{WritesOrBreaksOff};
ghost use Rattle.play_run.specs.Scripts.{scenario_of, IsRunnable};

use crate::Emission;
use crate::playing::run_script;
use crate::script::Script;
use bench_outside::Sink;
use bus_medium::BusSetup;
use bus_ops::{Item, Op, Parameter};
use can_frame::{Frame, Kind, Numbers};
use log_writing::{Ending, RunError};
use play_file::{Action, Play, Verb};
use std::alloc::{AllocError, Global};

/// The operation that asks for a frame to be sent.
fn transmit_of(frame: Frame) -> Op
    ensures { item_of (Item.Op result) ≡ model.item_of (model.Send frame) }
{
    match frame.kind() {
        Kind::Fd { .. } => Op::FdTransmit(frame),
        _ => Op::Transmit(frame),
    }
}

/// The item that a node emits.
fn item_of_verb(verb: Verb) -> Item
    ensures { item_of result ≡ model.item_of (verb_of verb) }
{
    Item::Op(match verb {
        Verb::Send(frame) => transmit_of(frame),
        Verb::Wake => Op::Wakeup,
        Verb::Sleep => Op::Sleep,
        Verb::Keep => Op::Configuration(Parameter::Keep),
        Verb::Discard => Op::Configuration(Parameter::Discard),
    })
}

/// What a node emits at a moment.
fn emission_of(action: Action) -> Emission
    ensures { result ≡ model.action_of action }
{
    let (moment, node) = (action.moment(), action.node());
    Emission::new(moment, node, item_of_verb(action.into_verb()))
}

/// What the nodes emit.
fn emissions_of(alloc: Global, actions: Vec<Action>) -> Result<Vec<Emission>, AllocError>
    ensures { IfOk result (λ v. v.items ≡ map model.action_of actions.items) }
{
    actions.into_iter().map(emission_of).collect(alloc)
}

/// The numbers from 0 on, so many.
fn numbers_below(alloc: Global, count: u32) -> Result<Vec<u32>, AllocError>
    ensures { IfOk result (λ v. v.items ≡ range_with_len 0 count) }
{
    let mut numbers = Vec::new(alloc);
    for number in 0..count {
        numbers.push(number)?;
    }
    Ok(numbers)
}

/// A play as what is run.
fn script_of(alloc: Global, play: Play) -> Result<Script, AllocError>
    requires few { length play.actions < 2 ^ 63 }
    ensures scenario { IfOk result (λ s. scenario_of s ≡ model.scenario_of play) }
    ensures runnable { IfOk result IsRunnable }
{
    let (rate, fd_rate) = (play.rate(), play.fd_rate());
    let (nominal, fast) = (play.nominal(), play.data());
    let (nodes, stop) = (play.nodes(), play.stop());
    let members = numbers_below(alloc, nodes)?;
    let (errors, actions) = play.into_lists();
    let setup = BusSetup {
        number: 0,
        rate,
        fd_rate,
        nominal,
        fast,
        members: Numbers::of(members),
        errors,
    };
    Ok(Script {
        setup,
        nodes,
        stop,
        actions: emissions_of(alloc, actions)?,
    })
}

/// Runs a play with at most this many events, and writes its log line by line: each line is one
/// write. `Unwritten` comes only where a write failed: the lines before that one stand there, of its
/// own line a first part, and nothing behind it. `Memory` comes only where no write failed, and then
/// whole lines stand there.
pub fn run<O: Sink>(alloc: Global, budget: u64, play: Play, out: &mut O) -> Result<Ending, RunError>
    requires few { length play.actions < 2 ^ 63 }
    requires budget { budget < 2 ^ 62 }
    ensures written { WritesOrBreaksOff O.Sink out.old out.new (map line_text (model.play_lines budget play)) result }
    ensures ending { IfOk result (λ e. code_of e ≡ model.play_status budget play) }
{
    let script = script_of(alloc, play)?;
    run_script(alloc, budget, script, out)
}
