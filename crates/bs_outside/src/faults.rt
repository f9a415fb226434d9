//! Why a call of the outside answered nothing. `Failed` comes only where the object's count of faults rose; want of memory is no fault.
ghost use Rattle.std.specs.Prelude.{◌≡◌};
ghost use Rattle.bs_outside.specs.declared.faults.TreeFault.TheVariants as tree_fault;
ghost use Rattle.bs_outside.specs.declared.faults.ShelfFault.TheVariants as shelf_fault;
ghost use Rattle.bs_outside.specs.declared.faults.InputFault.TheVariants as input_fault;
ghost use Rattle.bs_outside.specs.declared.faults.SinkFault.TheVariants as sink_fault;

use std::alloc::{AllocError, AllocFailed};
use thiserror::Error;

/// Why a tree answered nothing.
#[derive(Drop, Debug, Error)]
pub enum TreeFault {
    #[error("the source tree failed")]
    Failed,
    #[error("out of memory")]
    NoMemory,
}

/// Why a shelf answered nothing.
#[derive(Drop, Debug, Error)]
pub enum ShelfFault {
    #[error("the cache folder failed")]
    Failed,
    #[error("out of memory")]
    NoMemory,
}

/// Why an input gave nothing.
#[derive(Drop, Debug, Error)]
pub enum InputFault {
    #[error("the input failed")]
    Failed,
    #[error("out of memory")]
    NoMemory,
}

/// Why a sink took nothing more.
#[derive(Drop, Debug, Error)]
pub enum SinkFault {
    #[error("the output failed")]
    Failed,
    #[error("out of memory")]
    NoMemory,
}

impl From<AllocError> for TreeFault {
    ghost from_gives = { λ _ fault. fault ≡ tree_fault.NoMemory };

    fn from(_: AllocError) -> Self {
        TreeFault::NoMemory
    }
}

impl From<AllocError> for ShelfFault {
    ghost from_gives = { λ _ fault. fault ≡ shelf_fault.NoMemory };

    fn from(_: AllocError) -> Self {
        ShelfFault::NoMemory
    }
}

impl<T: Drop> From<AllocFailed<T>> for ShelfFault {
    ghost from_gives = { λ _ fault. fault ≡ shelf_fault.NoMemory };

    fn from(_: AllocFailed<T>) -> Self {
        ShelfFault::NoMemory
    }
}

impl From<AllocError> for InputFault {
    ghost from_gives = { λ _ fault. fault ≡ input_fault.NoMemory };

    fn from(_: AllocError) -> Self {
        InputFault::NoMemory
    }
}

impl From<AllocError> for SinkFault {
    ghost from_gives = { λ _ fault. fault ≡ sink_fault.NoMemory };

    fn from(_: AllocError) -> Self {
        SinkFault::NoMemory
    }
}
