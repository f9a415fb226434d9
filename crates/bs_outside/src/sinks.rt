//! Where bytes go.
ghost use Rattle.std.specs.Prelude.{◌≡◌, ◌+◌, ◌<◌, ◌≤◌, ℕ, List, Option, length, take, [], ◌++◌, IfOk, IfErr, OnOk, OnErr, IsErrOf};
ghost use Rattle.bs_outside.specs.Told.{added, Owes, AddsPrefix, Rose};

use crate::SinkFault;
use std::alloc::Global;
use std::marker::Model;

/// What takes bytes, as standard output.
pub trait Sink {
    /// The bytes taken so far, where the object tells them.
    ghost taken: { Self → Option (List ℕ) };

    /// How many calls failed.
    ghost faults: { Self → ℕ };

    /// Takes the first bytes of the piece, at least one of a piece that is not empty, and answers how many.
    /// After an error some prefix of the piece was taken.
    fn put(&mut self, alloc: Global, piece: &[u8]) -> Result<usize, SinkFault>
        ensures within { IfOk result (λ count. count ≤ length piece.now) }
        ensures some { IfOk result (λ count. 0 < length piece.now → 0 < count) }
        ensures ok { IfOk result (λ count. taken self.new ≡ added (taken self.old) (take count piece.now)) }
        ensures err { OnErr result (AddsPrefix (taken self.old) (taken self.new) piece.now) }
        ensures counted { faults self.old ≤ faults self.new }
        ensures failed { IsErrOf result SinkFault.Failed → Rose (faults self.old) (faults self.new) };
}

/// Gives all bytes to the sink, in as many pieces as it takes.
#[tactic(auto, using(crate::proofs::Owing::owing))]
pub fn put_all<S: Sink>(alloc: Global, sink: &mut S, bytes: &[u8]) -> Result<(), SinkFault>
    ensures ok { OnOk result (S.taken sink.new ≡ added (S.taken sink.old) bytes.now) }
    ensures err { OnErr result (AddsPrefix (S.taken sink.old) (S.taken sink.new) bytes.now) }
    ensures counted { S.faults sink.old ≤ S.faults sink.new }
    ensures failed { IsErrOf result SinkFault.Failed → Rose (S.faults sink.old) (S.faults sink.new) }
{
    let mut rest = bytes;
    while !rest.is_empty() {
        let count = sink.put(alloc, rest)?;
        let (_, left) = rest.split_at(count);
        rest = left;
    }
    Ok(())
}

/// How many bytes are gathered before they are sent.
const PIECE: usize = 8192;

/// Bytes that are still owed to a sink: small pieces are gathered, so that a sink is given few large ones. After an error some of them
/// may have been taken, so they are not to be sent again.
#[derive(Drop, Debug)]
pub struct Gathered {
    bytes: Vec<u8>,
}

impl Model for Gathered {
    ghost use Rattle.std.specs.Prelude.{List, ℕ};

    ghost Value = { List ℕ };

    ghost view = { λ a. a.bytes.items };
}

impl Gathered {
    /// Nothing is owed.
    pub fn new(alloc: Global) -> Gathered
        ensures { result ≡ [] }
    {
        Gathered {
            bytes: Vec::new(alloc),
        }
    }

    /// Owes the piece too, and sends all where enough was gathered.
    #[tactic(auto, using(crate::proofs::Owing::owing))]
    pub fn put<S: Sink>(
        &mut self,
        alloc: Global,
        sink: &mut S,
        piece: &[u8],
    ) -> Result<(), SinkFault>
        ensures ok { OnOk result (Owes (S.taken sink.old) (S.taken sink.new) (self.old ++ piece.now) self.new) }
        ensures err { OnErr result (AddsPrefix (S.taken sink.old) (S.taken sink.new) (self.old ++ piece.now)) }
        ensures counted { S.faults sink.old ≤ S.faults sink.new }
        ensures failed { IsErrOf result SinkFault.Failed → Rose (S.faults sink.old) (S.faults sink.new) }
    {
        self.owe(piece)?;
        if self.bytes.len() >= PIECE {
            self.send(alloc, sink)?;
        }
        Ok(())
    }

    fn owe(&mut self, piece: &[u8]) -> Result<(), SinkFault>
        ensures ok { OnOk result (self.new ≡ self.old ++ piece.now) }
        ensures err { IfErr result (λ fault. fault ≡ SinkFault.NoMemory) }
    {
        match self.bytes.extend_from_slice(piece) {
            Ok(()) => Ok(()),
            Err(_) => Err(SinkFault::NoMemory),
        }
    }

    /// Sends all that is owed.
    pub fn send<S: Sink>(&mut self, alloc: Global, sink: &mut S) -> Result<(), SinkFault>
        ensures ok { OnOk result (S.taken sink.new ≡ added (S.taken sink.old) self.old) }
        ensures sent { OnOk result (self.new ≡ []) }
        ensures err { OnErr result (AddsPrefix (S.taken sink.old) (S.taken sink.new) self.old) }
        ensures counted { S.faults sink.old ≤ S.faults sink.new }
        ensures failed { IsErrOf result SinkFault.Failed → Rose (S.faults sink.old) (S.faults sink.new) }
    {
        put_all(alloc, sink, &self.bytes)?;
        self.bytes.clear();
        Ok(())
    }
}
