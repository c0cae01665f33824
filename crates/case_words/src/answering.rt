//! The loop of a program of cases.
use crate::unanswered::Unanswered;
use std::alloc::Global;
use std::io::{self, BufRead, BufReader};

/// What answers questions.
pub trait Answers {
    /// The answer to a question: its first word, and the others.
    fn answer(&mut self, alloc: Global, call: &str, rest: &str) -> Result<String, Unanswered>;
}

fn print_answer<A: Answers>(
    rt: &impl Print,
    alloc: Global,
    answers: &mut A,
    line: &str,
) -> io::Result<()> {
    let (call, rest) = line.split_once(' ').unwrap_or((line, ""));
    match answers.answer(alloc, call, rest) {
        Ok(text) => println!(rt; "{text}"),
        Err(Unanswered::Unknown) => println!(rt; "unknown call"),
        Err(Unanswered::Memory) => println!(rt; "Memory"),
    }
}

/// Reads questions from standard input, a line each, and prints the answer to each, a line too. A line that begins with
/// `#` is printed as it is; a question that is none of the program's has the answer `unknown call`, and where memory runs
/// out it is `Memory`.
pub fn print_answers<A: Answers>(
    rt: &(impl Print + Input),
    alloc: Global,
    answers: &mut A,
) -> io::Result<()> {
    for line in BufReader::new(alloc, rt.reader())?.lines(alloc) {
        let line = line?;
        if line.starts_with('#') {
            println!(rt; "{line}")?;
        } else {
            print_answer(rt, alloc, answers, &line)?;
        }
    }
    Ok(())
}
