//! A memory, and calls on it one after the other.
ghost use Rattle.std.specs.Prelude.{◌≡◌, true, IfOk};
ghost use Rattle.wasm_memory.specs.Pools.{IsThere, is_width};

use case_words::{Unanswered, bytes_of, cut, hexadecimal, short, told_bytes};
use std::alloc::Global;
use wasm_memory::{Memory, Pool};

/// How many bytes an access has.
fn width(word: &str) -> Result<u8, Unanswered>
    ensures { IfOk result (λ w. is_width w ≡ true) }
{
    match word {
        "1" => Ok(1),
        "2" => Ok(2),
        "4" => Ok(4),
        "8" => Ok(8),
        _ => Err(Unanswered::Unknown),
    }
}

fn word(alloc: Global, word: &str) -> Result<String, Unanswered> {
    Ok(String::from_str(alloc, word)?)
}

/// The number at `BASE OFFSET WIDTH`, in hexadecimal.
fn load(alloc: Global, pool: &Pool, held: &Memory, rest: &str) -> Result<String, Unanswered>
    requires { IsThere pool.now held.now }
{
    let (base, rest) = cut(rest);
    let (offset, rest) = cut(rest);
    match held.load(pool, short(base)?, short(offset)?, width(rest)?) {
        Some(number) => Ok(format!(in alloc; "{number:x}")?),
        None => word(alloc, "outside"),
    }
}

/// The bytes at `AT LEN`.
fn read(alloc: Global, pool: &Pool, held: &Memory, rest: &str) -> Result<String, Unanswered>
    requires { IsThere pool.now held.now }
{
    let (at, len) = cut(rest);
    match held.read_range(alloc, pool, short(at)?, short(len)?)? {
        Some(bytes) => told_bytes(alloc, &bytes),
        None => word(alloc, "outside"),
    }
}

fn done(alloc: Global, done: bool) -> Result<String, Unanswered> {
    word(alloc, if done { "done" } else { "outside" })
}

/// Puts a number: `BASE OFFSET WIDTH NUMBER`.
fn store(
    alloc: Global,
    pool: &mut Pool,
    held: &mut Memory,
    rest: &str,
) -> Result<String, Unanswered>
    requires { IsThere pool.old held.old }
    ensures { IsThere pool.new held.new }
{
    let (base, rest) = cut(rest);
    let (offset, rest) = cut(rest);
    let (bytes, number) = cut(rest);
    let (base, offset) = (short(base)?, short(offset)?);
    let width = width(bytes)?;
    let number = hexadecimal(number)?;
    let is_done = held.store(alloc, pool, base, offset, width, number)?;
    done(alloc, is_done)
}

/// Puts bytes: `AT BYTES`.
fn write(
    alloc: Global,
    pool: &mut Pool,
    held: &mut Memory,
    rest: &str,
) -> Result<String, Unanswered>
    requires { IsThere pool.old held.old }
    ensures { IsThere pool.new held.new }
{
    let (at, runs) = cut(rest);
    let at = short(at)?;
    let bytes = bytes_of(alloc, runs)?;
    let is_done = held.write_range(alloc, pool, at, &bytes)?;
    done(alloc, is_done)
}

/// Grows by so many pages.
fn grow(alloc: Global, pool: &mut Pool, held: &mut Memory, rest: &str) -> Result<String, Unanswered>
    requires { IsThere pool.old held.old }
    ensures { IsThere pool.new held.new }
{
    let pages = short(rest)?;
    match held.grow(alloc, pool, pages)? {
        Some(before) => Ok(format!(in alloc; "from {before}")?),
        None => word(alloc, "refused"),
    }
}

/// The answer to one call.
fn step(alloc: Global, pool: &mut Pool, held: &mut Memory, call: &str) -> Result<String, Unanswered>
    requires { IsThere pool.old held.old }
    ensures { IsThere pool.new held.new }
{
    let (name, rest) = cut(call);
    match name {
        "load" => load(alloc, pool, held, rest),
        "read" => read(alloc, pool, held, rest),
        "store" => store(alloc, pool, held, rest),
        "write" => write(alloc, pool, held, rest),
        "grow" => grow(alloc, pool, held, rest),
        "size" => Ok(format!(in alloc; "{}", held.size())?),
        _ => Err(Unanswered::Unknown),
    }
}

/// A new memory and its pool: `PAGES MAX`, with a dash for no maximum.
fn made(alloc: Global, pool: &mut Pool, rest: &str) -> Result<Memory, Unanswered>
    ensures { IfOk result (λ m. IsThere pool.new m) }
{
    let (pages, max) = cut(rest);
    let max = if max == "-" { None } else { Some(short(max)?) };
    Ok(Memory::new(alloc, pool, short(pages)?, max)?)
}

/// The answers of calls on a new memory, each behind a semicolon: `1 -; load 0 0 4; size`.
pub fn memory(alloc: Global, rest: &str) -> Result<String, Unanswered> {
    let (new, calls) = rest.split_once("; ").ok_or(Unanswered::Unknown)?;
    let mut pool = Pool::new(alloc)?;
    let mut memory = made(alloc, &mut pool, new)?;
    let mut text = String::new(alloc);
    for call in calls.split("; ") {
        let told = step(alloc, &mut pool, &mut memory, call)?;
        if !text.is_empty() {
            text.push_str("; ")?;
        }
        text.push_str(&told)?;
    }
    Ok(text)
}
