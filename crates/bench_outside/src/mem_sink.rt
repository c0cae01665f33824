//! A sink in memory, for tests: it fails where its maker says.
ghost use Rattle.std.specs.Prelude.{◌≡◌, ◌≤◌, ◌+◌, List, ℕ, Some, ◌++◌, if◌then◌else◌, nat_le};
ghost use Rattle.std.specs.Prelude.{length, vec_len, vec_capacity, is_ok, IfOk, OnOk, OnErr};
ghost use Rattle.bench_outside.specs.Causes.{HasCause};
ghost use Rattle.bench_outside.specs.Sink.{Appended, IsPrefix, AppendedPart, Counted};
ghost use Rattle.bench_outside.specs.MemSink.{empty_sink, with_failing, kept_at, kept_part, succeeds, after_write};

use crate::{Failed, Sink};
use std::alloc::{AllocError, Global};
use std::marker::Model;

/// A sink in memory, which writes into room that its maker reserved. A piece that doesn't fit is a
/// fault, and so is each write that its maker said is to fail.
#[derive(Drop)]
pub struct MemSink {
    bytes: Vec<u8>,
    room: usize,
    made: u64,
    failing: Vec<(u64, usize)>,
    faults: u64,
}

impl Model for MemSink {
    ghost use Rattle.std.specs.Prelude.{◌≤◌, vec_len, vec_capacity};
    ghost use Rattle.bench_outside.specs.MemSink as model;

    ghost Value = { model.MemSink };

    ghost view = { λ s. record {
      bytes = s.bytes.items;
      room = s.room;
      made = s.made;
      failing = s.failing.items;
      faults = s.faults;
    } };

    ghost invariant = { λ s. (vec_len s.bytes ≤ s.room) × (s.room ≤ vec_capacity s.bytes) };
}

impl MemSink {
    /// An empty sink with room for so many bytes.
    pub fn new(alloc: Global, room: usize) -> Result<MemSink, AllocError>
        ensures { IfOk result (λ s. s ≡ empty_sink room) }
    {
        let bytes = Vec::with_capacity(alloc, room)?;
        Ok(MemSink {
            bytes,
            room,
            made: 0,
            failing: Vec::new(alloc),
            faults: 0,
        })
    }

    /// Adds the write of number `n`, from 1, to those that are to fail. Its first `kept` bytes are
    /// kept. Where a write is added twice, the first time counts.
    pub fn fail(&mut self, _alloc: Global, n: u64, kept: usize) -> Result<(), AllocError>
        ensures ok { OnOk result (self.new ≡ with_failing self.old n kept) }
        ensures err { OnErr result (self.new ≡ self.old) }
    {
        self.failing.push((n, kept))?;
        Ok(())
    }

    /// What was written.
    pub fn written(&self) -> &[u8]
        ensures { result.now ≡ self.now.bytes }
    {
        &self.bytes
    }
}

/// How many bytes are kept of the write of this number, if it is to fail.
fn kept_at(failing: &[(u64, usize)], number: u64) -> Option<usize>
    ensures { result ≡ kept_at failing.now number }
{
    for (n, kept) in failing {
        if *n == number {
            return Some(*kept);
        }
    }
    None
}

/// The first bytes of a piece that are kept, or all.
fn kept_part(kept: Option<usize>, bytes: &[u8]) -> &[u8]
    ensures kept { result.now ≡ kept_part kept bytes.now }
    ensures prefix { IsPrefix result.now bytes.now }
{
    match kept {
        Some(kept) => &bytes[..kept.min(bytes.len())],
        None => bytes,
    }
}

/// Appends a piece where it fits in the room, and nothing of it otherwise.
fn append(bytes: &mut Vec<u8>, room: usize, piece: &[u8]) -> bool
    requires filled { vec_len bytes.old ≤ room }
    requires reserved { room ≤ vec_capacity bytes.old }
    ensures fits { result ≡ nat_le (length bytes.old.items + length piece.now) room }
    ensures items { bytes.new.items
        ≡ (if result then bytes.old.items ++ piece.now else bytes.old.items) }
    ensures part { (whole : List ℕ) → IsPrefix piece.now whole
        → AppendedPart (Some bytes.old.items) (Some bytes.new.items) whole }
    ensures filled { vec_len bytes.new ≤ room }
    ensures reserved { room ≤ vec_capacity bytes.new }
{
    if piece.len() > room - bytes.len() {
        return false;
    }
    bytes.extend_from_slice(piece).is_ok()
}

impl Sink for MemSink {
    ghost written = { λ s. Some s.bytes };

    ghost faults = { λ s. s.faults };

    ghost writes = { λ s. Some s.made };

    fn write(&mut self, bytes: &[u8]) -> Result<(), Failed>
        // Which write fails, and what it leaves.
        ensures answer { is_ok result ≡ succeeds self.old bytes.now }
        ensures state { self.new ≡ after_write self.old bytes.now }

        // As for every sink.
        ensures appended { OnOk result
            (Appended (Some self.old.bytes) (Some self.new.bytes) bytes.now) }
        ensures part { OnErr result
            (AppendedPart (Some self.old.bytes) (Some self.new.bytes) bytes.now) }
        ensures cause { HasCause self.old.faults self.new.faults result }
        ensures made { Counted (Some self.old.made) (Some self.new.made) 1 }
    {
        self.made = self.made.saturating_add(1);
        let kept = kept_at(&self.failing, self.made);
        let part = kept_part(kept, bytes);
        let fits = append(&mut self.bytes, self.room, part);
        if fits && kept.is_none() {
            return Ok(());
        }
        self.faults = self.faults.saturating_add(1);
        Err(Failed)
    }
}
