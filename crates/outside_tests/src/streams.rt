//! Inputs and sinks in memory, and a shelf that always fails.
use bs_outside::{
    Bytes, CacheKind, CacheName, Gathered, Input, InputFault, Shelf, Sink, SinkFault, put_all,
};
use mem_outside::{MemInput, MemSink, NoShelf, SureInput, SureSink};
use std::test::Fail;

#[test]
fn inputs_give_their_bytes(rt: HostRuntime) -> Result<(), Fail> {
    let alloc = rt.alloc();
    let mut input = MemInput::new(Bytes::new(alloc, b"hello")?, vec![in alloc; 2]?);
    assert!(rt; input.take(alloc, 2)?.as_slice() == b"he".as_slice());
    assert!(rt; matches!(input.take(alloc, 2), Err(InputFault::Failed)));
    assert!(rt; input.take(alloc, 9)?.as_slice() == b"llo".as_slice());
    assert!(rt; input.take(alloc, 9)?.is_empty());
    let mut input = SureInput::new(Bytes::new(alloc, b"a")?);
    assert_eq!(rt; input.take(alloc, 1)?.len(), 1);
    Ok(())
}

#[test]
fn sinks_keep_what_they_take(rt: HostRuntime) -> Result<(), Fail> {
    let alloc = rt.alloc();
    let mut sink = MemSink::new(alloc, vec![in alloc; 2]?);
    put_all(alloc, &mut sink, b"one")?;
    assert!(rt; matches!(put_all(alloc, &mut sink, b"two"), Err(SinkFault::Failed)));
    assert!(rt; sink.bytes() == b"one".as_slice());
    let mut sink = SureSink::new(alloc);
    let mut held = Gathered::new(alloc);
    held.put(alloc, &mut sink, b"ab")?;
    assert!(rt; sink.bytes().is_empty());
    held.send(alloc, &mut sink)?;
    assert!(rt; sink.bytes() == b"ab".as_slice());
    Ok(())
}

#[test]
fn no_shelf_answers(rt: HostRuntime) {
    let mut shelf = NoShelf::new();
    let name = CacheName {
        kind: CacheKind::Iseq,
        hash: 1,
    };
    assert!(rt; shelf.load(rt.alloc(), &name).is_err());
    assert!(rt; shelf.begin(rt.alloc(), &name).is_err());
}
