//! Descriptions: what they say, or the first check that fails.
use crate::texts::{self, told};
use case_words::{Unanswered, bytes_of};
use fmu_description::{DescError, Description, Terminal, read_description};
use std::alloc::Global;

/// A terminal with the greatest lengths of its input and its output.
fn push_terminal(alloc: Global, text: &mut String, terminal: &Terminal) -> Result<(), Unanswered> {
    let name = told(alloc, terminal.name.as_slice())?;
    let (rx, tx) = (terminal.rx_max, terminal.tx_max);
    let part = format!(in alloc; " {name}:{rx}:{tx}")?;
    text.push_str(&part)?;
    Ok(())
}

/// The name of the module, and the number of countdown clocks.
fn told_head(alloc: Global, unit: &Description) -> Result<String, Unanswered> {
    let identifier = told(alloc, unit.identifier.as_slice())?;
    let countdown = unit.countdown.as_slice().len();
    Ok(format!(in alloc; "{identifier} countdown {countdown}")?)
}

/// Behind those the terminals.
fn told_description(alloc: Global, unit: &Description) -> Result<String, Unanswered> {
    let mut text = told_head(alloc, unit)?;
    for terminal in &unit.terminals {
        push_terminal(alloc, &mut text, terminal)?;
    }
    Ok(text)
}

fn answer(alloc: Global, bytes: &[u8]) -> Result<String, Unanswered> {
    match read_description(alloc, bytes) {
        Ok(unit) => told_description(alloc, &unit),
        Err(DescError::Field(field, place)) => {
            let name = field.name();
            Ok(format!(in alloc; "{name} {place}")?)
        }
        Err(DescError::Memory) => Err(Unanswered::Memory),
    }
}

/// The description that a question is about.
pub fn description(alloc: Global, kept: &str, rest: &str) -> Result<String, Unanswered> {
    let text = texts::asked(alloc, kept, rest)?;
    answer(alloc, text.as_bytes())
}

/// The kept description with bytes behind it.
pub fn behind(alloc: Global, kept: &str, rest: &str) -> Result<String, Unanswered> {
    let more = bytes_of(alloc, rest)?;
    let mut bytes = Vec::from_slice(alloc, kept.as_bytes())?;
    bytes.extend_from_slice(&more)?;
    answer(alloc, &bytes)
}
