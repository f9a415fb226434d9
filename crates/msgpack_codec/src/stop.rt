//! Why bytes have no value, and why a part of them has none.
use std::alloc::{AllocError, AllocFailed};

/// Why bytes have no value.
#[derive(Clone, Copy, PartialEq, Eq, Debug, thiserror::Error)]
pub enum Unread {
    /// They are a spelling that was cut off.
    #[error("the bytes end too early")]
    Short,
    /// No bytes behind them make them a spelling.
    #[error("the byte at place {at} goes on with no spelling")]
    Malformed {
        /// How many bytes, from the first on, still begin a spelling.
        at: usize,
    },
    /// There was no memory for the value.
    #[error("out of memory")]
    NoMemory,
}

/// Why a reading of a part from the front of bytes stopped.
#[derive(Clone, Copy)]
pub enum Stop {
    /// The bytes end before the part does.
    Short,
    /// So many bytes are left from the first on that cannot stand there.
    Bad(usize),
    /// There was no memory for what was read.
    NoMemory,
}

impl From<AllocError> for Stop {
    ghost use Rattle.std.specs.Prelude.{◌≡◌};
    ghost use Rattle.msgpack_codec.specs.declared.stop.Stop.TheVariants.{NoMemory};

    ghost from_gives = { λ _ e. e ≡ NoMemory };

    fn from(_: AllocError) -> Stop {
        Stop::NoMemory
    }
}

impl<T: Drop> From<AllocFailed<T>> for Stop {
    ghost use Rattle.std.specs.Prelude.{◌≡◌};
    ghost use Rattle.msgpack_codec.specs.declared.stop.Stop.TheVariants.{NoMemory};

    ghost from_gives = { λ _ e. e ≡ NoMemory };

    fn from(_: AllocFailed<T>) -> Stop {
        Stop::NoMemory
    }
}
