//! Why nothing was read.
ghost use Rattle.std.specs.Prelude.{◌≡◌};
ghost use Rattle.parse_state.specs.declared.failures.Failure.TheVariants as failure;

use std::alloc::{AllocError, AllocFailed};

/// Why nothing was read.
#[derive(Clone, Copy, Debug, PartialEq, Eq, Drop)]
pub enum Failure {
    /// There was not memory enough.
    Memory,
    /// The grammar derives nothing.
    Syntax,
    /// Symbols nest too deep.
    TooDeep,
}

impl From<AllocError> for Failure {
    ghost from_gives = { λ _ given. given ≡ failure.Memory };

    fn from(_: AllocError) -> Self {
        Failure::Memory
    }
}

impl<T: Drop> From<AllocFailed<T>> for Failure {
    ghost from_gives = { λ _ given. given ≡ failure.Memory };

    fn from(_: AllocFailed<T>) -> Self {
        Failure::Memory
    }
}
