//! How the sequences of a file are numbered.
use ruby_reader::read_program;
use sequence_numbers::SequenceNumbers;
use std::test::Fail;

#[test]
fn a_method_and_blocks(rt: HostRuntime) -> Result<(), Fail> {
    let alloc = rt.alloc();
    let program = read_program(alloc, b"def f\n  g { 1 }\nend\nh { 2 }\n")?;
    let numbers = SequenceNumbers::of_tree(alloc, &program.root)?;
    assert_eq!(rt; numbers.len(), 3);
    assert_eq!(rt; numbers.number(0), 1);
    assert_eq!(rt; numbers.number(10), 2);
    assert_eq!(rt; numbers.number(22), 3);
    Ok(())
}
