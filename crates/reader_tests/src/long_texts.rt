//! Texts of the greatest length and depth.
use ruby_lexer::{LexError, LexFault, read_token_prefix, tokens};
use std::alloc::{AllocError, Global};
use std::test::Fail;

/// Texts that look far ahead at each token where a reader forgets what it saw.
const HARD: [(&[u8], usize); 6] = [
    (b"%w[ ", 60000),
    (b"=begin\n", 60000),
    (b"(", 60000),
    (b"a ", 60000),
    (b"\"#{a}\" ", 20000),
    (b"\n", 60000),
];

/// The text so many times.
fn repeated(alloc: Global, part: &[u8], count: usize) -> Result<Vec<u8>, AllocError> {
    let mut all = Vec::new(alloc);
    for _ in 0..count {
        all.extend_from_slice(part)?;
    }
    Ok(all)
}

/// Code in literals, so deep.
fn nested(alloc: Global, depth: usize) -> Result<Vec<u8>, AllocError> {
    let mut all = repeated(alloc, b"\"#{", depth)?;
    let closed = repeated(alloc, b"}\"", depth)?;
    all.extend_from_slice(closed.as_slice())?;
    Ok(all)
}

#[test]
fn code_nests_so_deep(rt: HostRuntime) -> Result<(), Fail> {
    let alloc = rt.alloc();
    let deep = nested(alloc, 200)?;
    assert!(rt; tokens(alloc, deep.as_slice()).is_ok());
    let deeper = nested(alloc, 201)?;
    let stopped = read_token_prefix(alloc, deeper.as_slice())
        .ok()
        .ok_or("no front")?;
    assert_eq!(rt; stopped.fault, Some(1));
    assert_eq!(rt; stopped.tokens.len(), 0);
    Ok(())
}

#[test]
fn long_texts_are_read(rt: HostRuntime) -> Result<(), Fail> {
    let alloc = rt.alloc();
    for (part, count) in HARD.iter() {
        let text = repeated(alloc, part, *count)?;
        assert!(rt; tokens(alloc, text.as_slice()).is_ok());
    }
    let blanks = repeated(alloc, b" ", 2048)?;
    let mut long = repeated(alloc, blanks.as_slice(), 2048)?;
    long.push(b' ')?;
    let fault = tokens(alloc, long.as_slice())
        .err()
        .ok_or("a text is too long")?;
    assert!(rt; matches!(fault, LexError::Fault(LexFault { line: 1 })));
    Ok(())
}
