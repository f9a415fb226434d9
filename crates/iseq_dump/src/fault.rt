//! Why a reader gave up.
ghost use Rattle.std.specs.Prelude.{◌≡◌};
ghost use Rattle.iseq_dump.specs.declared.fault.ReadError.TheVariants.{Memory};

use std::alloc::{AllocError, AllocFailed};

/// Why nothing was read.
#[derive(Debug, Drop)]
pub enum ReadError {
    /// Memory ran out.
    Memory,
    /// No value has a spelling that begins where the reader began.
    NotSpelled,
}

impl From<AllocError> for ReadError {
    ghost from_gives = { λ _ e. e ≡ Memory };

    fn from(_e: AllocError) -> ReadError {
        ReadError::Memory
    }
}

impl<T: Drop> From<AllocFailed<T>> for ReadError {
    ghost from_gives = { λ _ e. e ≡ Memory };

    fn from(_e: AllocFailed<T>) -> ReadError {
        ReadError::Memory
    }
}
