//! Locals that hide others, and that are taken back.
use std::test::Fail;
use token_lookahead::Locals;

#[test]
fn locals_hide_and_close(rt: HostRuntime) -> Result<(), Fail> {
    let alloc = rt.alloc();
    let mut locals = Locals::new(alloc);
    assert_eq!(rt; locals.len(), 0);
    assert!(rt; !locals.contains(b"size"));
    locals.declare(alloc, b"size")?;
    locals.declare(alloc, b"each")?;
    let outside = locals.len();
    assert_eq!(rt; outside, 2);
    locals.declare(alloc, b"size")?;
    locals.declare(alloc, b"inner")?;
    locals.declare(alloc, b"inner")?;
    assert!(rt; locals.contains(b"inner"));
    locals.close(outside);
    assert_eq!(rt; locals.len(), 2);
    assert!(rt; !locals.contains(b"inner"));
    assert!(rt; locals.contains(b"size"));
    assert!(rt; locals.contains(b"each"));
    locals.close(1);
    assert!(rt; locals.contains(b"size"));
    assert!(rt; !locals.contains(b"each"));
    locals.declare(alloc, b"inner")?;
    assert!(rt; locals.contains(b"inner"));
    locals.close(0);
    assert!(rt; !locals.contains(b"size"));
    assert!(rt; !locals.contains(b"inner"));
    Ok(())
}

#[test]
fn many_locals(rt: HostRuntime) -> Result<(), Fail> {
    let alloc = rt.alloc();
    let mut locals = Locals::new(alloc);
    for number in 0..20000u32 {
        let name = format!(in alloc; "x{number}")?;
        locals.declare(alloc, name.as_bytes())?;
        locals.declare(alloc, b"same")?;
        assert!(rt; locals.contains(name.as_bytes()));
    }
    assert_eq!(rt; locals.len(), 40000);
    assert!(rt; locals.contains(b"x0"));
    locals.close(1);
    assert!(rt; locals.contains(b"x0"));
    assert!(rt; !locals.contains(b"same"));
    assert!(rt; !locals.contains(b"x19999"));
    Ok(())
}
