//! Phases: which calls each one permits, and where a call leads.
use call_words::{call_of, reply_of, told_call};
use case_words::{Unanswered, cut};
use fmi_states::{Phase, next, permitted};
use std::alloc::Global;

const CALLS: [&str; 14] = [
    "Instantiate",
    "EnterInit",
    "ExitInit",
    "SetClock 1",
    "SetBinary 2 07",
    "GetClock 3",
    "GetBinary 4",
    "Update",
    "GetInterval 5",
    "EnterStep",
    "DoStep 0 10",
    "EnterEvent",
    "Terminate",
    "Free",
];

fn phase_of(word: &str) -> Result<Phase, Unanswered> {
    match word {
        "Fresh" => Ok(Phase::Fresh),
        "Instantiated" => Ok(Phase::Instantiated),
        "Init" => Ok(Phase::Init),
        "Event" => Ok(Phase::Event),
        "Step" => Ok(Phase::Step),
        "Terminated" => Ok(Phase::Terminated),
        "Failed" => Ok(Phase::Failed),
        "Gone" => Ok(Phase::Gone),
        _ => Err(Unanswered::Unknown),
    }
}

/// The name of a phase.
pub fn told_phase(phase: Phase) -> &'static str {
    match phase {
        Phase::Fresh => "Fresh",
        Phase::Instantiated => "Instantiated",
        Phase::Init => "Init",
        Phase::Event => "Event",
        Phase::Step => "Step",
        Phase::Terminated => "Terminated",
        Phase::Failed => "Failed",
        Phase::Gone => "Gone",
    }
}

/// Which of fourteen calls, one of each kind, a phase permits; a dash for none.
pub fn permits(alloc: Global, rest: &str) -> Result<String, Unanswered> {
    let phase = phase_of(rest)?;
    let mut text = String::new(alloc);
    for words in CALLS {
        let call = call_of(alloc, words)?;
        if permitted(phase, &call) {
            if !text.is_empty() {
                text.push_str("; ")?;
            }
            let told = told_call(alloc, &call)?;
            text.push_str(&told)?;
        }
    }
    if text.is_empty() {
        text.push_str("-")?;
    }
    Ok(text)
}

/// The phase behind a permitted call that was answered so: `Init ExitInit: Discard`.
pub fn next_phase(alloc: Global, rest: &str) -> Result<String, Unanswered> {
    let (phase, exchange) = cut(rest);
    let (call, reply) = exchange.split_once(": ").ok_or(Unanswered::Unknown)?;
    let phase = phase_of(phase)?;
    let call = call_of(alloc, call)?;
    let reply = reply_of(alloc, reply)?;
    if !permitted(phase, &call) {
        return Err(Unanswered::Unknown);
    }
    let behind = next(phase, &call, &reply);
    Ok(String::from_str(alloc, told_phase(behind))?)
}
