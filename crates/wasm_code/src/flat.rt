//! Nested code, read in one pass into flat code: where a list ends is written at its beginning as soon as it is known.
ghost use Rattle.std.specs.Prelude.{◌≡◌, ◌≤◌, ◌<◌, ◌+◌, ◌^◌, ◌++◌, List, length, reverse, All, IfOk, IfSome, OnOk, Ok, []};
ghost use Rattle.module_specs.specs.Reading.{Gives};
ghost use Rattle.module_specs.specs.CodeReading.{code_at};
ghost use Rattle.wasm_code.specs.Flat.{Flat, opener, close, takes_else, flat_open, flat_else, flat_end, flat_act, flattened, Inside, place_of};

use crate::items::{block_type, read_token};
use module_specs::{Fault, Kind, Token};
use std::alloc::Global;
use wasm_types::{Instr, ValType};

const MOST_NESTED: usize = 1024;

/// A list that isn't closed yet.
#[derive(Clone, Copy)]
pub struct Pending {
    kind: Kind,
    result: Option<ValType>,
    at: u32,
    else_at: Option<u32>,
}

/// Where reading goes on, or that the body is closed.
#[derive(Clone, Copy)]
pub enum Went {
    On(usize),
    Done(usize),
}

fn opening(p: Pending, end: u32) -> Instr
    ensures { result ≡ opener p.kind p.result p.else_at end }
{
    match p.kind {
        Kind::Block => Instr::Block {
            result: p.result,
            end,
        },
        Kind::Loop => Instr::Loop {
            result: p.result,
            end,
        },
        Kind::If => Instr::If {
            result: p.result,
            else_at: p.else_at,
            end,
        },
    }
}

fn close(code: &mut Vec<Instr>, p: Pending, end: u32)
    requires { Inside (length code.old.items) p }
    ensures { code.new.items ≡ close code.old.items p end }
{
    if let Some(q) = p.else_at {
        code[q as usize] = Instr::Else { end };
    }
    code[p.at as usize] = opening(p, end);
}

fn takes_else(p: Pending) -> bool
    ensures { result ≡ takes_else p.kind p.else_at }
{
    p.kind == Kind::If && p.else_at.is_none()
}

fn put_open(
    code: &mut Vec<Instr>,
    pending: &mut Vec<Pending>,
    bytes: &[u8],
    at: usize,
    kind: Kind,
    next: usize,
) -> Result<Went, Fault>
    requires fits { length code.old.items < 2 ^ 32 }
    requires next { next ≤ length bytes.now }
    ensures place { IfOk result (λ w. (next ≤ place_of w) × (place_of w ≤ length bytes.now)) }
    ensures more { IfOk result (λ w. length code.new.items ≡ length code.old.items + 1) }
    ensures is { Gives (λ w. record { code = code.new.items; pending = reverse pending.new.items; went = w }) result
        (flat_open bytes.now at code.old.items (reverse pending.old.items) kind next) }
{
    if pending.len() >= MOST_NESTED {
        return Err(Fault::Limit(at));
    }
    let (result, next) = block_type(bytes, next)?;
    let p = Pending {
        kind,
        result,
        at: code.len() as u32,
        else_at: None,
    };
    code.push(opening(p, 0))?;
    pending.push(p)?;
    Ok(Went::On(next))
}

fn put_else(
    code: &mut Vec<Instr>,
    pending: &mut Vec<Pending>,
    at: usize,
    next: usize,
) -> Result<Went, Fault>
    requires fits { length code.old.items < 2 ^ 32 }
    ensures place { IfOk result (λ w. place_of w ≡ next) }
    ensures more { IfOk result (λ w. length code.new.items ≡ length code.old.items + 1) }
    ensures is { Gives (λ w. record { code = code.new.items; pending = reverse pending.new.items; went = w }) result
        (flat_else at code.old.items (reverse pending.old.items) next) }
{
    let Some(p) = pending.pop() else {
        return Err(Fault::Nesting(at));
    };
    if !takes_else(p) {
        return Err(Fault::Nesting(at));
    }
    pending.push(Pending {
        kind: p.kind,
        result: p.result,
        at: p.at,
        else_at: Some(code.len() as u32),
    })?;
    code.push(Instr::Else { end: 0 })?;
    Ok(Went::On(next))
}

fn put_end(code: &mut Vec<Instr>, pending: &mut Vec<Pending>, next: usize) -> Result<Went, Fault>
    requires fits { length code.old.items < 2 ^ 32 }
    requires inside { All (Inside (length code.old.items)) pending.old.items }
    ensures place { IfOk result (λ w. place_of w ≡ next) }
    ensures more { IfOk result (λ w. length code.new.items ≡ length code.old.items + 1) }
    ensures is { Gives (λ w. record { code = code.new.items; pending = reverse pending.new.items; went = w }) result
        (Ok (flat_end code.old.items (reverse pending.old.items) next)) }
{
    let end = code.len() as u32;
    match pending.pop() {
        None => {
            code.push(Instr::End)?;
            Ok(Went::Done(next))
        }
        Some(p) => {
            close(code, p, end);
            code.push(Instr::End)?;
            Ok(Went::On(next))
        }
    }
}

fn put(
    code: &mut Vec<Instr>,
    pending: &mut Vec<Pending>,
    bytes: &[u8],
    at: usize,
    token: Token,
    next: usize,
) -> Result<Went, Fault>
    requires fits { length code.old.items < 2 ^ 32 }
    requires inside { All (Inside (length code.old.items)) pending.old.items }
    requires next { next ≤ length bytes.now }
    ensures place { IfOk result (λ w. (next ≤ place_of w) × (place_of w ≤ length bytes.now)) }
    ensures more { IfOk result (λ w. length code.new.items ≡ length code.old.items + 1) }
    ensures is { Gives (λ w. record { code = code.new.items; pending = reverse pending.new.items; went = w }) result
        (flat_act bytes.now at code.old.items (reverse pending.old.items) token next) }
{
    match token {
        Token::Plain(instr) => {
            code.push(instr)?;
            Ok(Went::On(next))
        }
        Token::Opens(kind) => put_open(code, pending, bytes, at, kind, next),
        Token::Else => put_else(code, pending, at, next),
        Token::End => put_end(code, pending, next),
    }
}

/// The flat form of the code at a place, up to the end that closes it, and the place behind that.
pub fn read_code(alloc: Global, bytes: &[u8], at: usize) -> Result<(Vec<Instr>, usize), Fault>
    requires place { at ≤ length bytes.now }
    requires size { length bytes.now < at + 2 ^ 32 }
    ensures next { IfOk result (λ p. p.1 ≤ length bytes.now) }
    ensures is { Gives (λ p. (p.0.items, p.1)) result (flattened (code_at bytes.now at)) }
{
    // No instruction is shorter than a byte.
    let mut code = Vec::with_capacity(alloc, bytes.len() - at)?;
    let mut pending = Vec::new(alloc);
    let mut place = at;
    for _ in 0..bytes.len() {
        let (token, next) = read_token(alloc, bytes, place)?;
        match put(&mut code, &mut pending, bytes, place, token, next)? {
            Went::On(next) => place = next,
            Went::Done(next) => return Ok((code, next)),
        }
    }
    Err(Fault::Short(bytes.len()))
}
