//! Why a text has no value.
use thiserror::Error;

/// The line of a data text at which it has no value. Lines count from 1.
#[derive(Drop, Debug, Clone, Copy, PartialEq, Eq, Error)]
#[error("data fault in line {line}")]
pub struct DataFault {
    pub line: u64,
}

/// Why a data text was not read.
#[derive(Drop, Debug, Error)]
pub enum DataError {
    /// It has no value.
    #[error("{0}")]
    Fault(DataFault),
    /// There was no memory for the value.
    #[error("out of memory")]
    NoMemory,
}
