//! Elements that are set.
ghost use Rattle.std.specs.Prelude.{◌≡◌, ◌++◌, codes, OnOk, IfOk};
ghost use Rattle.ruby_tree.specs.SourcePositions.{position_of};
ghost use Rattle.ruby_tree.specs.Tree.{assign_index, operate_index};
ghost use Rattle.ruby_tree.specs.Read.{tree_of, text_of_name};
ghost use Rattle.code_meaning.specs.Code.{done};
ghost use Rattle.compile_table.specs.Shapes.{own, start, shape, form_shape, self_flag, index_read, or_set};
ghost use Rattle.code_writer.specs.Writing.{branch_of};
ghost use Rattle.code_emitter.specs.Children.{direct};
ghost use Rattle.code_emitter.specs.Emitting.{where_of, texts_of, written, children_of, Writes, Finds};

use crate::setters::{Setter, operate_and_set, plain_send, set_by_send, set_unless};
use bs_outside::{NoMemory, Text};
use code_emitter::{Emitter, Nodes, Output, self_flag};
use code_writer::Branch;
use iseq_types::Instr;
use ruby_tree::{Name, Node, SourcePosition};

/// An element of a value.
#[derive(Clone, Copy, Drop)]
pub(crate) struct Element<'a> {
    pub(crate) receiver: &'a Node,
    pub(crate) index: &'a Node,
}

/// The call that sets an element.
fn setter(
    emitter: &Emitter<'_, '_>,
    at: SourcePosition,
    receiver: &Node,
) -> Result<Setter, NoMemory>
    ensures { IfOk result (λ setter. setter ≡ record { line = start (where_of emitter.now) (position_of at); call = own (where_of emitter.now) (position_of at); depth = 3; name = codes "[]="; count = 2; flags = self_flag (tree_of (texts_of emitter.now) receiver.now) }) }
{
    Ok(Setter {
        line: emitter.start(at),
        call: emitter.own(at),
        depth: 3,
        name: Text::new(emitter.alloc, b"[]=")?,
        count: 2,
        flags: self_flag(receiver),
    })
}

/// Writes the code of `a[i] = v`.
pub(crate) fn set_element<'a, N: Nodes<'a>>(
    emitter: &Emitter<'_, 'a>,
    below: &N,
    at: SourcePosition,
    element: Element<'a>,
    value: &'a Node,
    out: &mut Output<'a>,
) -> Result<(), NoMemory>
    requires { N.IsReady below.now }
    ensures code { OnOk result (Writes emitter.now.depth (form_shape (where_of emitter.now) (assign_index (tree_of (texts_of emitter.now) element.entry.receiver.now) (tree_of (texts_of emitter.now) element.entry.index.now) (tree_of (texts_of emitter.now) value.now)) (position_of at)) out.old out.new) }
    ensures children { OnOk result (Finds (texts_of emitter.now) (direct emitter.now.in_loop (tree_of (texts_of emitter.now) value.now) ++ (direct emitter.now.in_loop (tree_of (texts_of emitter.now) element.entry.index.now) ++ direct emitter.now.in_loop (tree_of (texts_of emitter.now) element.entry.receiver.now))) out.old out.new) }
{
    let setter = setter(emitter, at, element.receiver)?;
    set_by_send(emitter, setter, out)?;
    below.node(emitter, 3, value, out)?;
    below.node(emitter, 2, element.index, out)?;
    below.node(emitter, 1, element.receiver, out)?;
    out.code.write(emitter.start(at), Instr::PutNil)?;
    Ok(())
}

/// Writes the code that reads an element before it is set.
fn read_element<'a, N: Nodes<'a>>(
    emitter: &Emitter<'_, 'a>,
    below: &N,
    at: SourcePosition,
    element: Element<'a>,
    out: &mut Output<'a>,
) -> Result<(), NoMemory>
    requires { N.IsReady below.now }
    ensures code { OnOk result (Writes emitter.now.depth (index_read (start (where_of emitter.now) (position_of at)) (own (where_of emitter.now) (position_of at)) (self_flag (tree_of (texts_of emitter.now) element.entry.receiver.now)) (shape (where_of emitter.now) (tree_of (texts_of emitter.now) element.entry.receiver.now)) (shape (where_of emitter.now) (tree_of (texts_of emitter.now) element.entry.index.now)) done) out.old out.new) }
    ensures children { OnOk result (Finds (texts_of emitter.now) (direct emitter.now.in_loop (tree_of (texts_of emitter.now) element.entry.index.now) ++ direct emitter.now.in_loop (tree_of (texts_of emitter.now) element.entry.receiver.now)) out.old out.new) }
{
    let name = Text::new(emitter.alloc, b"[]")?;
    let flags = self_flag(element.receiver);
    let line = emitter.start(at);
    plain_send(emitter, emitter.own(at), name, 1, flags, out)?;
    out.code.write(line, Instr::TopN(1))?;
    out.code.write(line, Instr::TopN(1))?;
    below.node(emitter, 2, element.index, out)?;
    below.node(emitter, 1, element.receiver, out)?;
    out.code.write(line, Instr::PutNil)?;
    Ok(())
}

/// Writes the code of `a[i] ||= v` or `a[i] &&= v`: the branch keeps the old value.
pub(crate) fn set_element_unless<'a, N: Nodes<'a>>(
    emitter: &Emitter<'_, 'a>,
    below: &N,
    at: SourcePosition,
    branch: Branch,
    element: Element<'a>,
    value: &'a Node,
    out: &mut Output<'a>,
) -> Result<(), NoMemory>
    requires { N.IsReady below.now }
    ensures code { OnOk result (Writes emitter.now.depth (index_read (start (where_of emitter.now) (position_of at)) (own (where_of emitter.now) (position_of at)) (self_flag (tree_of (texts_of emitter.now) element.entry.receiver.now)) (shape (where_of emitter.now) (tree_of (texts_of emitter.now) element.entry.receiver.now)) (shape (where_of emitter.now) (tree_of (texts_of emitter.now) element.entry.index.now)) (or_set (start (where_of emitter.now) (position_of at)) (own (where_of emitter.now) (position_of at)) (branch_of branch) 3 (codes "[]=") 2 (self_flag (tree_of (texts_of emitter.now) element.entry.receiver.now)) (shape (where_of emitter.now) (tree_of (texts_of emitter.now) value.now)))) out.old out.new) }
    ensures children { OnOk result (Finds (texts_of emitter.now) (direct emitter.now.in_loop (tree_of (texts_of emitter.now) value.now) ++ (direct emitter.now.in_loop (tree_of (texts_of emitter.now) element.entry.index.now) ++ direct emitter.now.in_loop (tree_of (texts_of emitter.now) element.entry.receiver.now))) out.old out.new) }
{
    let setter = setter(emitter, at, element.receiver)?;
    set_unless(emitter, below, setter, branch, value, out)?;
    read_element(emitter, below, at, element, out)?;
    Ok(())
}

/// Writes the code of `a[i] op= v`, whose operator stands on the line.
pub(crate) fn operate_element<'a, N: Nodes<'a>>(
    emitter: &Emitter<'_, 'a>,
    below: &N,
    at: SourcePosition,
    element: Element<'a>,
    value: &'a Node,
    operator: Name,
    line: u64,
    out: &mut Output<'a>,
) -> Result<(), NoMemory>
    requires { N.IsReady below.now }
    ensures code { OnOk result (Writes emitter.now.depth (form_shape (where_of emitter.now) (operate_index (tree_of (texts_of emitter.now) element.entry.receiver.now) (tree_of (texts_of emitter.now) element.entry.index.now) (tree_of (texts_of emitter.now) value.now) (text_of_name (texts_of emitter.now) operator) line) (position_of at)) out.old out.new) }
    ensures children { OnOk result (Finds (texts_of emitter.now) (direct emitter.now.in_loop (tree_of (texts_of emitter.now) value.now) ++ (direct emitter.now.in_loop (tree_of (texts_of emitter.now) element.entry.index.now) ++ direct emitter.now.in_loop (tree_of (texts_of emitter.now) element.entry.receiver.now))) out.old out.new) }
{
    let setter = setter(emitter, at, element.receiver)?;
    operate_and_set(emitter, setter, emitter.line(line), operator, out)?;
    below.node(emitter, 4, value, out)?;
    read_element(emitter, below, at, element, out)?;
    Ok(())
}
