//! Where locals are found in files, methods and blocks.
use local_scopes::LocalScopes;
use ruby_reader::read_program;
use ruby_tree::{Call, Control, Definition, Kind, Node};
use std::test::Fail;

/// The statement with this number, of statements.
fn statement(node: &Node, number: usize) -> Result<&Node, Fail> {
    match &node.kind {
        Kind::Control(Control::Statements(nodes)) => Ok(nodes.get(number).ok_or("too few")?),
        _ => Ok(None.ok_or("no statements")?),
    }
}

/// The block of a call.
fn block(node: &Node) -> Result<&Node, Fail> {
    match &node.kind {
        Kind::Call(Call::Send(_, _, _, _, _, _, Some(block))) => Ok(block),
        _ => Ok(None.ok_or("no block")?),
    }
}

/// The statements of a body.
fn inside(node: &Node) -> Result<&Node, Fail> {
    match &node.kind {
        Kind::Definition(Definition::Body(_, statements)) => Ok(statements),
        _ => Ok(None.ok_or("no body")?),
    }
}

/// The body of a method.
fn method(node: &Node) -> Result<&Node, Fail> {
    match &node.kind {
        Kind::Definition(Definition::Method(_, body, _)) => Ok(body),
        _ => Ok(None.ok_or("no method")?),
    }
}

/// Whether the name is found at this slot of the environment at this level.
fn is_at(scopes: &LocalScopes, name: &[u8], slot: usize, level: usize) -> bool {
    let local = scopes.find(name);
    local.slot == slot && local.level == level
}

#[test]
fn a_file(rt: HostRuntime) -> Result<(), Fail> {
    let alloc = rt.alloc();
    let program = read_program(alloc, b"x = 1\ny = x\nx = 2\n")?;
    let scopes = LocalScopes::in_file(alloc, &program.symbols, &program.root)?;
    assert!(rt; is_at(&scopes, b"x", 0, 0));
    assert!(rt; is_at(&scopes, b"y", 1, 0));
    assert!(rt; is_at(&scopes, b"z", 0, 1));
    assert_eq!(rt; scopes.locals().len(), 2);
    assert_eq!(rt; scopes.params().len(), 0);
    Ok(())
}

#[test]
fn a_block(rt: HostRuntime) -> Result<(), Fail> {
    let alloc = rt.alloc();
    let program = read_program(alloc, b"a = 1\nf { |b| c = a }\nc = 3\n")?;
    let mut scopes = LocalScopes::in_file(alloc, &program.symbols, &program.root)?;
    assert_eq!(rt; scopes.locals().len(), 2);
    scopes.enter_block(
        alloc,
        &program.symbols,
        block(statement(&program.root, 1)?)?,
    )?;
    assert!(rt; is_at(&scopes, b"b", 0, 0));
    assert!(rt; is_at(&scopes, b"c", 1, 0));
    assert!(rt; is_at(&scopes, b"a", 0, 1));
    assert_eq!(rt; scopes.params().len(), 1);
    scopes.leave();
    assert!(rt; is_at(&scopes, b"c", 1, 0));
    Ok(())
}

#[test]
fn parts_in_the_order_of_the_text(rt: HostRuntime) -> Result<(), Fail> {
    let alloc = rt.alloc();
    let program = read_program(alloc, b"f { x = 2 } if x = 1\ng { x = 3 }\n")?;
    let mut scopes = LocalScopes::in_file(alloc, &program.symbols, &program.root)?;
    let Kind::Control(Control::If(_, first, _)) = &statement(&program.root, 0)?.kind else {
        return Ok(None.ok_or("no if")?);
    };
    scopes.enter_block(alloc, &program.symbols, block(statement(first, 0)?)?)?;
    assert!(rt; is_at(&scopes, b"x", 0, 0));
    scopes.leave();
    scopes.enter_block(
        alloc,
        &program.symbols,
        block(statement(&program.root, 1)?)?,
    )?;
    assert!(rt; is_at(&scopes, b"x", 0, 1));
    assert_eq!(rt; scopes.locals().len(), 0);
    Ok(())
}

#[test]
fn a_method_with_blocks(rt: HostRuntime) -> Result<(), Fail> {
    let alloc = rt.alloc();
    let text = b"x = 1\ndef m(a, b = (e = 2), *c, &d)\n  f { g { |h| x = h + b } }\nend\n";
    let program = read_program(alloc, text)?;
    let mut scopes = LocalScopes::in_file(alloc, &program.symbols, &program.root)?;
    let body = method(statement(&program.root, 1)?)?;
    scopes.enter_body(alloc, &program.symbols, body)?;
    assert_eq!(rt; scopes.params().len(), 4);
    assert!(rt; is_at(&scopes, b"d", 3, 0));
    assert!(rt; is_at(&scopes, b"e", 4, 0));
    let outer = block(statement(inside(body)?, 0)?)?;
    scopes.enter_block(alloc, &program.symbols, outer)?;
    let inner = block(statement(inside(outer)?, 0)?)?;
    scopes.enter_block(alloc, &program.symbols, inner)?;
    assert!(rt; is_at(&scopes, b"h", 0, 0));
    assert!(rt; is_at(&scopes, b"x", 1, 0));
    assert!(rt; is_at(&scopes, b"b", 1, 2));
    assert!(rt; is_at(&scopes, b"y", 0, 3));
    scopes.leave();
    scopes.leave();
    scopes.leave();
    assert!(rt; is_at(&scopes, b"x", 0, 0));
    Ok(())
}
