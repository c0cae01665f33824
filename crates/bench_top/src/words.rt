//! The words of the command line.
ghost use Rattle.std.specs.Prelude.{◌≡◌, ◌^◌, ◌-◌, ℕ, Vec, map, option_map, string_bytes, is_some, IfOk, IfErr, Some};
ghost use Rattle.std.specs.declared.alloc.Global.{Global};
ghost use Rattle.plain_text.specs.Decimal.{number_in as number_in_of};
ghost use Rattle.call_specs.specs.CallWords.{CallWords as call_record, arguments_of_words};
ghost use Rattle.bench_top.specs.Words.{command_of as command_in, meant, of_one, of_call, Play, Wasm, Call, Run};

use plain_text::number_in;
use std::alloc::{AllocError, Global};

/// The most fuel that may be asked for.
const MOST_FUEL: u64 = 1_000_000_000;

/// A command, with the words that it was given.
#[derive(Drop)]
pub(crate) enum Command<'a> {
    /// Writes the log of the play of a file.
    Play(&'a str),
    /// Writes what the module of a file holds.
    Wasm(&'a str),
    /// Writes how a call of a function of a file's module ends.
    Call(CallWords<'a>),
    /// Writes the log of the network of a folder.
    Run(&'a str),
}

/// The words behind `call`.
#[derive(Drop)]
pub(crate) struct CallWords<'a> {
    /// The file.
    pub file: &'a str,
    /// The name under which the function is exported.
    pub name: &'a str,
    /// The fuel of the call, and of the function that runs first.
    pub fuel: u64,
    /// The arguments.
    pub arguments: Vec<u64>,
}

/// The command that the words are; None where they are no form of a command, and then no memory is taken.
pub(crate) fn command_of(alloc: Global, words: &[String]) -> Result<Option<Command<'_>>, AllocError>
    ensures form { IfOk result (λ c. option_map meant c ≡ command_in (map string_bytes words.now)) }
    ensures memory { IfErr result (λ e. (w : call_record) × (command_in (map string_bytes words.now) ≡ Some (Call w))) }
{
    let [first, words @ ..] = words else {
        return Ok(None);
    };
    if first.as_str() == "play" {
        return Ok(of_play(words));
    }
    if first.as_str() == "wasm" {
        return Ok(of_wasm(words));
    }
    if first.as_str() == "call" {
        return of_call(alloc, words);
    }
    if first.as_str() == "run" {
        return Ok(of_run(words));
    }
    Ok(None)
}

/// The words behind `play`.
fn of_play(words: &[String]) -> Option<Command<'_>>
    ensures { option_map meant result ≡ of_one Play (map string_bytes words.now) }
{
    let [file] = words else {
        return None;
    };
    Some(Command::Play(file.as_str()))
}

/// The words behind `wasm`.
fn of_wasm(words: &[String]) -> Option<Command<'_>>
    ensures { option_map meant result ≡ of_one Wasm (map string_bytes words.now) }
{
    let [file] = words else {
        return None;
    };
    Some(Command::Wasm(file.as_str()))
}

/// The words behind `run`.
fn of_run(words: &[String]) -> Option<Command<'_>>
    ensures { option_map meant result ≡ of_one Run (map string_bytes words.now) }
{
    let [net] = words else {
        return None;
    };
    Some(Command::Run(net.as_str()))
}

/// The words behind `call`.
fn of_call(alloc: Global, words: &[String]) -> Result<Option<Command<'_>>, AllocError>
    ensures form { IfOk result (λ c. option_map meant c ≡ of_call (map string_bytes words.now)) }
    ensures memory { IfErr result (λ e. (w : call_record) × (of_call (map string_bytes words.now) ≡ Some (Call w))) }
{
    let [file, name, fuel, words @ ..] = words else {
        return Ok(None);
    };
    let Some(fuel) = number_in(0, MOST_FUEL, fuel.as_bytes()) else {
        return Ok(None);
    };
    if !are_arguments(words) {
        return Ok(None);
    }
    let Some(arguments) = arguments_of(alloc, words)? else {
        return Ok(None);
    };
    Ok(Some(Command::Call(CallWords {
        file: file.as_str(),
        name: name.as_str(),
        fuel,
        arguments,
    })))
}

/// The number of 64 bits that a word is.
fn argument_of(word: &str) -> Option<u64>
    ensures { result ≡ number_in_of 0 (2 ^ 64 - 1) word.now }
{
    number_in(0, u64::MAX, word.as_bytes())
}

/// Whether each word is a number of 64 bits. Takes no memory.
fn are_arguments(words: &[String]) -> bool
    ensures { result ≡ is_some (arguments_of_words (map string_bytes words.now)) }
{
    let mut left = words;
    while let [word, others @ ..] = left {
        if argument_of(word.as_str()).is_none() {
            return false;
        }
        left = others;
    }
    true
}

/// The numbers that the words are; None where one of them is no number of 64 bits.
fn arguments_of(alloc: Global, words: &[String]) -> Result<Option<Vec<u64>>, AllocError>
    ensures { IfOk result (λ numbers. option_map (λ (v : Vec ℕ Global). v.items) numbers
        ≡ arguments_of_words (map string_bytes words.now)) }
{
    let mut numbers = Vec::new(alloc);
    let mut left = words;
    while let [word, others @ ..] = left {
        let Some(number) = argument_of(word.as_str()) else {
            return Ok(None);
        };
        numbers.push(number)?;
        left = others;
    }
    Ok(Some(numbers))
}
