//! What the guests of one world share.
ghost use Rattle.std.specs.Prelude.{◌≡◌, [], IfOk};

use std::alloc::{AllocError, Global};
use wasm_machine::Stack;
use wasm_memory::Pool;

/// What the guests of one world share: the pool in which their memories lie, and the stack on which they run.
#[derive(Drop)]
pub struct Guests {
    pub(crate) pool: Pool,
    pub(crate) stack: Stack,
}

impl Guests {
    /// A pool without memories, and a stack.
    pub fn new(alloc: Global) -> Result<Guests, AllocError>
        ensures { IfOk result (λ shared. shared.pool ≡ []) }
    {
        let pool = Pool::new(alloc)?;
        let stack = Stack::new(alloc)?;
        Ok(Guests { pool, stack })
    }
}
