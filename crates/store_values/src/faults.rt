//! Why a store makes nothing more.
ghost use Rattle.std.specs.Prelude.{◌≡◌};
ghost use Rattle.store_values.specs.declared.faults.StoreFault.TheVariants as fault;

use std::alloc::{AllocError, AllocFailed};
use thiserror::Error;

/// The cells would pass the limit.
#[derive(Clone, Copy, Debug, PartialEq, Eq, Drop, Error)]
#[error("the store is full")]
pub struct Full;

/// Why a store makes nothing more.
#[derive(Clone, Copy, Debug, PartialEq, Eq, Drop, Error)]
pub enum StoreFault {
    /// The cells would pass the limit, and the store is as before.
    #[error(transparent)]
    Full(Full),
    /// There was not memory enough.
    #[error("out of memory")]
    NoMemory,
}

impl From<AllocError> for StoreFault {
    ghost from_gives = { λ _ given. given ≡ fault.NoMemory };

    fn from(_: AllocError) -> Self {
        StoreFault::NoMemory
    }
}

impl<T: Drop> From<AllocFailed<T>> for StoreFault {
    ghost from_gives = { λ _ given. given ≡ fault.NoMemory };

    fn from(_: AllocFailed<T>) -> Self {
        StoreFault::NoMemory
    }
}
