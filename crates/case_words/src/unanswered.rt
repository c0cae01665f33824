//! Why a question has no answer.
use std::alloc::{AllocError, AllocFailed};

/// Why a question has no answer.
#[derive(Clone, Copy, Debug)]
pub enum Unanswered {
    /// It is none of this program's questions.
    Unknown,
    /// Want of memory.
    Memory,
}

impl From<AllocError> for Unanswered {
    fn from(_: AllocError) -> Unanswered {
        Unanswered::Memory
    }
}

impl<T: Drop> From<AllocFailed<T>> for Unanswered {
    fn from(_: AllocFailed<T>) -> Unanswered {
        Unanswered::Memory
    }
}
