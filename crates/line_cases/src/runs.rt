//! Plays that run.
ghost use Rattle.std.specs.Prelude.{◌<◌, ◌^◌, IfOk};

use crate::plays::{play_of, told_refusal};
use crate::texts::{spelled, text_of, word};
use bench_outside::MemSink;
use case_words::{Unanswered, cut, long, short};
use log_writing::{Ending, RunError};
use play_run::run;
use run_laws::{a_log_is_a_head_and_the_rest, a_state_behind_events, heads_join};
use std::alloc::Global;

/// Room for a log.
const ROOM: usize = 4096;

/// The name of the answer.
fn name_of(answer: Result<Ending, RunError>) -> Result<&'static str, Unanswered> {
    match answer {
        Ok(Ending::Done) => Ok("done"),
        Ok(Ending::Spent) => Ok("spent"),
        Err(RunError::Unwritten) => Ok("unwritten"),
        Err(RunError::Memory) => Err(Unanswered::Memory),
    }
}

/// A budget of events that a run can take.
fn budget_of(word: &str) -> Result<u64, Unanswered>
    ensures { IfOk result (λ n. n < 2 ^ 62) }
{
    let budget = long(word)?;
    if budget < 0x4000_0000_0000_0000 {
        Ok(budget)
    } else {
        Err(Unanswered::Unknown)
    }
}

/// How the run of a play ends, and what was written: `BUDGET PLAY`.
fn told_run(alloc: Global, mut sink: MemSink, rest: &str) -> Result<String, Unanswered> {
    let (budget, spelling) = cut(rest);
    let text = text_of(alloc, spelling)?;
    let play = match play_of(alloc, &text)? {
        Ok(play) => play,
        Err(number) => return told_refusal(alloc, number),
    };
    let name = name_of(run(alloc, budget_of(budget)?, play, &mut sink))?;
    let log = spelled(alloc, sink.written())?;
    Ok(format!(in alloc; "{name}: {log}")?)
}

/// A run with an output that takes all.
pub fn run_play(alloc: Global, rest: &str) -> Result<String, Unanswered> {
    let sink = MemSink::new(alloc, ROOM)?;
    told_run(alloc, sink, rest)
}

/// A run where one write fails and keeps so many bytes: `NUMBER KEPT BUDGET PLAY`.
pub fn run_failing(alloc: Global, rest: &str) -> Result<String, Unanswered> {
    let (number, rest) = cut(rest);
    let (kept, rest) = cut(rest);
    let mut sink = MemSink::new(alloc, ROOM)?;
    sink.fail(alloc, long(number)?, short(kept)? as usize)?;
    told_run(alloc, sink, rest)
}

/// The laws of runs at two concrete types, whose proof is that of this function.
pub fn laws(alloc: Global) -> Result<String, Unanswered> {
    a_state_behind_events::<u32, u8>();
    heads_join::<u32, u8>();
    a_log_is_a_head_and_the_rest::<u32, u8>();
    word(alloc, "stand")
}
