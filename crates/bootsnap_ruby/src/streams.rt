//! Inputs and sinks over streams.
ghost use Rattle.std.specs.Prelude.{◌≡◌, ◌<◌, ◌≤◌, None, IfOk, length};
ghost use Rattle.bs_outside.specs.Told.{Rose};

use crate::faults::Faults;
use bs_outside::{Bytes, Input, InputFault, Sink, SinkFault};
use std::alloc::Global;
use std::io;
use std::io::{ErrorKind, Read, Stderr, Stdout, Write};

/// A sink over a writer.
#[derive(Drop)]
pub struct StreamSink<W> {
    to: W,
    faults: Faults,
}

impl<W> StreamSink<W> {
    /// No call failed yet.
    pub fn new(to: W) -> Self {
        StreamSink {
            to,
            faults: Faults::new(),
        }
    }
}

impl<W: Write> Sink for StreamSink<W> {
    ghost taken = { λ s. None };

    ghost faults = { λ s. s.faults };

    #[tactic(auto, using(bs_outside::proofs::Owing::none_came))]
    fn put(&mut self, _alloc: Global, piece: &[u8]) -> Result<usize, SinkFault> {
        match write_some(&mut self.to, piece) {
            Ok(count) => Ok(count),
            Err(error) => Err(sink_fault(&mut self.faults, &error)),
        }
    }
}

/// What a call answers after the error. All but want of memory is counted.
fn sink_fault(faults: &mut Faults, error: &io::Error) -> SinkFault
    ensures counted { faults.old ≤ faults.new }
    ensures failed { result ≡ SinkFault.Failed → Rose faults.old faults.new }
{
    if faults.is_memory(error) {
        SinkFault::NoMemory
    } else {
        SinkFault::Failed
    }
}

/// Writes the first bytes of the piece, and answers how many.
pub(crate) fn write_some<F: Write>(file: &mut F, piece: &[u8]) -> io::Result<usize>
    ensures within { IfOk result (λ count. count ≤ length piece.now) }
    ensures some { IfOk result (λ count. 0 < length piece.now → 0 < count) }
{
    if piece.is_empty() {
        return Ok(0);
    }
    match file.write(piece)? {
        0 => Err(io::Error::from(ErrorKind::WriteZero)),
        count => Ok(count),
    }
}

/// Standard output or standard error.
#[derive(Drop)]
pub enum Standard {
    Output(Stdout),
    Error(Stderr),
}

impl Write for Standard {
    fn write(&mut self, bytes: &[u8]) -> io::Result<usize> {
        match self {
            Standard::Output(out) => out.write(bytes),
            Standard::Error(err) => err.write(bytes),
        }
    }

    fn flush(&mut self) -> io::Result<()> {
        match self {
            Standard::Output(out) => out.flush(),
            Standard::Error(err) => err.flush(),
        }
    }
}

/// An input over a reader.
#[derive(Drop)]
pub struct StreamInput<R> {
    from: R,
    faults: Faults,
}

impl<R> StreamInput<R> {
    /// No call failed yet.
    pub fn new(from: R) -> Self {
        StreamInput {
            from,
            faults: Faults::new(),
        }
    }
}

impl<R: Read> Input for StreamInput<R> {
    ghost left = { λ s. None };

    ghost faults = { λ s. s.faults };

    fn take(&mut self, alloc: Global, max: usize) -> Result<Bytes, InputFault> {
        match read_some(alloc, &mut self.from, max) {
            Ok(bytes) => Ok(bytes),
            Err(error) => Err(input_fault(&mut self.faults, &error)),
        }
    }
}

/// Reads at most so many bytes.
fn read_some<R: Read>(alloc: Global, from: &mut R, max: usize) -> io::Result<Bytes>
    ensures { IfOk result (λ bytes. length bytes ≤ max) }
{
    let mut buffer = [0u8; 4096];
    let wanted = max.min(buffer.len());
    let count = from.read(&mut buffer[..wanted])?;
    Ok(Bytes::new(alloc, &buffer[..count])?)
}

/// What a call answers after the error. All but want of memory is counted.
fn input_fault(faults: &mut Faults, error: &io::Error) -> InputFault
    ensures counted { faults.old ≤ faults.new }
    ensures failed { result ≡ InputFault.Failed → Rose faults.old faults.new }
{
    if faults.is_memory(error) {
        InputFault::NoMemory
    } else {
        InputFault::Failed
    }
}
