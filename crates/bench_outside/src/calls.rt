//! How calls of one kind are counted, and those that failed.
ghost use Rattle.std.specs.Prelude.{◌≡◌, ◌≤◌, OnOk, OnErr};
ghost use Rattle.bench_outside.specs.Calls.{no_faults, with_fault};
ghost use Rattle.bench_outside.specs.Calls.{no_calls, with_failing, next_fails, with_call, with_failed_call};

use std::alloc::{AllocError, Global};
use std::marker::Model;

/// How many calls failed, up to the greatest `u64`, and the name that the last of them was given.
#[derive(Drop)]
pub struct FaultCount {
    count: u64,
    last: Vec<u8>,
}

impl Model for FaultCount {
    ghost use Rattle.bench_outside.specs.Shelf as model;

    ghost Value = { model.Faults };

    ghost view = { λ f. record { count = f.count; last = f.last.items } };
}

impl FaultCount {
    /// No faults. Takes no memory.
    pub fn new(alloc: Global) -> FaultCount
        ensures { result ≡ no_faults }
    {
        FaultCount {
            count: 0,
            last: Vec::new(alloc),
        }
    }

    /// Counts a call that failed.
    pub fn blame(&mut self, name: Vec<u8>)
        ensures counted { self.new ≡ with_fault self.old name.items }
        ensures later { self.old.count ≤ self.new.count }
    {
        self.count = self.count.saturating_add(1);
        self.last = name;
    }
}

/// Calls by their numbers, from 1: how many were made, which are to fail, and which failed.
#[derive(Drop)]
pub struct Calls {
    made: u64,
    failing: Vec<u64>,
    faults: FaultCount,
}

impl Model for Calls {
    ghost use Rattle.bench_outside.specs.Calls as model;

    ghost Value = { model.Calls };

    ghost view = { λ c. record { made = c.made; failing = c.failing.items; faults = c.faults } };
}

impl Calls {
    /// No calls, and none that is to fail. Takes no memory.
    pub fn new(alloc: Global) -> Calls
        ensures { result ≡ no_calls }
    {
        Calls {
            made: 0,
            failing: Vec::new(alloc),
            faults: FaultCount::new(alloc),
        }
    }

    /// Adds a call to those that are to fail.
    pub fn add_failing(&mut self, n: u64) -> Result<(), AllocError>
        ensures ok { OnOk result (self.new ≡ with_failing self.old n) }
        ensures err { OnErr result (self.new ≡ self.old) }
    {
        self.failing.push(n)?;
        Ok(())
    }

    /// Whether the next call is to fail.
    pub fn next_fails(&self) -> bool
        ensures { result ≡ next_fails self.now }
    {
        let number = self.made.saturating_add(1);
        self.failing.contains(&number)
    }

    /// Counts a call that did what was asked.
    pub fn count(&mut self)
        ensures { self.new ≡ with_call self.old }
    {
        self.made = self.made.saturating_add(1);
    }

    /// Counts a call that failed.
    pub fn blame(&mut self, name: Vec<u8>)
        ensures counted { self.new ≡ with_failed_call self.old name.items }
        ensures later { self.old.faults.count ≤ self.new.faults.count }
    {
        self.made = self.made.saturating_add(1);
        self.faults.blame(name);
    }
}
