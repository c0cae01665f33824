//! The bytes of one memory.
ghost use Rattle.std.specs.Prelude.{◌≡◌, ◌≤◌, ◌<◌, ◌+◌, ◌*◌, ◌^◌, ◌++◌, true, length, replicate, slice_range, is_ok, IfOk, OnOk, OnErr, if◌then◌else◌};
ghost use Rattle.code_specs.specs.Stores.{bytes_of, replaced_at};
ghost use Rattle.wasm_memory.specs.Pools.{is_width};
ghost use Rattle.wasm_memory.specs.Words.{number_at};

use crate::words::{number, put};
use std::alloc::{AllocError, Global};
use std::marker::Model;

/// The bytes of one memory, seen as their list.
#[derive(Drop)]
pub(crate) struct Table {
    bytes: Vec<u8>,
}

impl Model for Table {
    ghost use Rattle.std.specs.Prelude.{ℕ, List};

    ghost Value = { List ℕ };

    ghost view = { λ t. t.bytes.items };
}

impl Table {
    /// So many zeros.
    pub(crate) fn zeros(alloc: Global, count: usize) -> Result<Table, AllocError>
        ensures { IfOk result (λ t. t ≡ replicate count 0) }
    {
        let mut bytes = Vec::new(alloc);
        bytes.resize(count, 0)?;
        Ok(Table { bytes })
    }

    pub(crate) fn len(&self) -> usize
        ensures { result ≡ length self.now }
    {
        self.bytes.len()
    }

    /// Puts so many zeros behind the bytes.
    pub(crate) fn extend(&mut self, count: usize) -> Result<(), AllocError>
        requires { length self.old + count < 2 ^ 64 }
        ensures { self.new ≡ (if is_ok result then self.old ++ replicate count 0 else self.old) }
    {
        let len = self.bytes.len();
        self.bytes.resize(len + count, 0)
    }

    /// The number in the bytes from a place on, as many as its width.
    #[inline]
    pub(crate) fn number(&self, at: usize, width: u8) -> u64
        requires width { is_width width ≡ true }
        requires within { at + width ≤ length self.now }
        ensures value { result ≡ number_at self.now at width }
        ensures fits { result < 2 ^ (8 * width) }
    {
        number(&self.bytes, at, width)
    }

    /// Puts the lowest bytes of a number in the place of those from a place on.
    #[inline]
    pub(crate) fn put(&mut self, at: usize, width: u8, n: u64)
        requires width { is_width width ≡ true }
        requires within { at + width ≤ length self.old }
        ensures bytes { self.new ≡ replaced_at self.old at (bytes_of width n) }
        ensures len { length self.new ≡ length self.old }
    {
        put(&mut self.bytes, at, width, n);
    }

    /// A copy of so many bytes from a place on.
    pub(crate) fn copy(&self, alloc: Global, at: usize, count: usize) -> Result<Vec<u8>, AllocError>
        requires { at + count ≤ length self.now }
        ensures { IfOk result (λ v. v.items ≡ slice_range self.now at (at + count)) }
    {
        Vec::from_slice(alloc, &self.bytes[at..at + count])
    }

    /// Puts bytes in the place of those from a place on.
    pub(crate) fn replace(&mut self, at: usize, new: &[u8])
        requires { at + length new.now ≤ length self.old }
        ensures { self.new ≡ replaced_at self.old at new.now }
    {
        self.bytes[at..at + new.len()].copy_from_slice(new);
    }
}
