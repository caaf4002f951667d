//! What is told of a book.

use std::alloc::{AllocError, AllocFailed};
use thiserror::Error;

/// Whether a book is a journal of a program.
#[derive(Drop)]
pub enum Verdict {
    /// It is, and this was printed in its run.
    Same(Vec<u8>),
    /// It isn't. The line, from 1, is the first at which it differs from all of them.
    Differs { line: u64 },
}

/// Why there is no verdict.
#[derive(Debug, Drop, Error)]
pub enum ReplayFault {
    /// A call of the book failed.
    #[error("the book can't be read")]
    Book,
    #[error("out of memory")]
    Memory(AllocError),
}

impl<T: Drop> From<AllocFailed<T>> for ReplayFault {
    ghost use Rattle.std.specs.Prelude.{◌≡◌, alloc_error};
    ghost use Rattle.ql_replay.specs.declared.verdict.ReplayFault.TheVariants.{Memory};

    ghost from_gives = { λ _ e. e ≡ Memory alloc_error };

    fn from(_error: AllocFailed<T>) -> ReplayFault {
        ReplayFault::Memory(AllocError)
    }
}
