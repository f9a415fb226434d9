//! Names by their numbers.
use ruby_tree::SymbolTable;
use std::test::Fail;

#[test]
fn a_text_has_one_number(rt: HostRuntime) -> Result<(), Fail> {
    let mut table = SymbolTable::new(rt.alloc());
    let size = table.intern(rt.alloc(), b"size")?;
    let each = table.intern(rt.alloc(), b"each")?;
    let again = table.intern(rt.alloc(), b"size")?;
    assert!(rt; size != each);
    assert_eq!(rt; again, size);
    assert_eq!(rt; table.name(size), b"size".as_slice());
    assert_eq!(rt; table.name(each), b"each".as_slice());
    Ok(())
}
