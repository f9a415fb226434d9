//! Attributes that are set.
ghost use Rattle.std.specs.Prelude.{◌≡◌, ◌++◌, OnOk, IfOk};
ghost use Rattle.ruby_tree.specs.SourcePositions.{position_of};
ghost use Rattle.ruby_tree.specs.Tree.{assign_attribute, operate_attribute};
ghost use Rattle.ruby_tree.specs.Read.{tree_of, text_of_name};
ghost use Rattle.code_meaning.specs.Code.{done};
ghost use Rattle.compile_table.specs.Shapes.{own, start, shape, form_shape, self_flag, attribute_read, or_set};
ghost use Rattle.code_writer.specs.Writing.{branch_of};
ghost use Rattle.code_emitter.specs.Children.{direct};
ghost use Rattle.code_emitter.specs.Emitting.{where_of, texts_of, written, children_of, Writes, Finds};

use crate::setters::{Setter, operate_and_set, plain_send, set_by_send, set_unless};
use bs_outside::NoMemory;
use code_emitter::{Emitter, Nodes, Output, self_flag};
use code_writer::Branch;
use iseq_types::Instr;
use ruby_tree::{Name, Node, SourcePosition};

/// An attribute of a value, which is read before it is set.
#[derive(Clone, Copy, Drop)]
pub(crate) struct Attribute<'a> {
    receiver: &'a Node,
    /// The name of the method that reads it.
    read: Name,
    /// The name of the method that sets it.
    set: Name,
}

impl<'a> Attribute<'a> {
    /// The attribute of the receiver that these methods read and set.
    pub(crate) fn new(receiver: &'a Node, read: Name, set: Name) -> Attribute<'a>
        ensures receiver { result.receiver.now ≡ receiver.now }
        ensures read { result.read ≡ read }
        ensures set { result.set ≡ set }
    {
        Attribute {
            receiver,
            read,
            set,
        }
    }
}

/// The call that sets an attribute.
fn setter(
    emitter: &Emitter<'_, '_>,
    at: SourcePosition,
    receiver: &Node,
    name: Name,
) -> Result<Setter, NoMemory>
    ensures { IfOk result (λ setter. setter ≡ record { line = start (where_of emitter.now) (position_of at); call = own (where_of emitter.now) (position_of at); depth = 2; name = text_of_name (texts_of emitter.now) name; count = 1; flags = self_flag (tree_of (texts_of emitter.now) receiver.now) }) }
{
    Ok(Setter {
        line: emitter.start(at),
        call: emitter.own(at),
        depth: 2,
        name: emitter.text(name)?,
        count: 1,
        flags: self_flag(receiver),
    })
}

/// Writes the code of `a.m = v`.
pub(crate) fn set_attribute<'a, N: Nodes<'a>>(
    emitter: &Emitter<'_, 'a>,
    below: &N,
    at: SourcePosition,
    receiver: &'a Node,
    value: &'a Node,
    name: Name,
    out: &mut Output<'a>,
) -> Result<(), NoMemory>
    requires { N.IsReady below.now }
    ensures code { OnOk result (Writes emitter.now.depth (form_shape (where_of emitter.now) (assign_attribute (tree_of (texts_of emitter.now) receiver.now) (tree_of (texts_of emitter.now) value.now) (text_of_name (texts_of emitter.now) name)) (position_of at)) out.old out.new) }
    ensures children { OnOk result (Finds (texts_of emitter.now) (direct emitter.now.in_loop (tree_of (texts_of emitter.now) value.now) ++ direct emitter.now.in_loop (tree_of (texts_of emitter.now) receiver.now)) out.old out.new) }
{
    let setter = setter(emitter, at, receiver, name)?;
    set_by_send(emitter, setter, out)?;
    below.node(emitter, 2, value, out)?;
    below.node(emitter, 1, receiver, out)?;
    out.code.write(emitter.start(at), Instr::PutNil)?;
    Ok(())
}

/// Writes the code that reads an attribute before it is set.
fn read_attribute<'a, N: Nodes<'a>>(
    emitter: &Emitter<'_, 'a>,
    below: &N,
    at: SourcePosition,
    attribute: Attribute<'a>,
    out: &mut Output<'a>,
) -> Result<(), NoMemory>
    requires { N.IsReady below.now }
    ensures code { OnOk result (Writes emitter.now.depth (attribute_read (start (where_of emitter.now) (position_of at)) (own (where_of emitter.now) (position_of at)) (text_of_name (texts_of emitter.now) attribute.entry.read) (self_flag (tree_of (texts_of emitter.now) attribute.entry.receiver.now)) (shape (where_of emitter.now) (tree_of (texts_of emitter.now) attribute.entry.receiver.now)) done) out.old out.new) }
    ensures children { OnOk result (Finds (texts_of emitter.now) (direct emitter.now.in_loop (tree_of (texts_of emitter.now) attribute.entry.receiver.now)) out.old out.new) }
{
    let name = emitter.text(attribute.read)?;
    let flags = self_flag(attribute.receiver);
    let line = emitter.start(at);
    plain_send(emitter, emitter.own(at), name, 0, flags, out)?;
    out.code.write(line, Instr::Dup)?;
    below.node(emitter, 1, attribute.receiver, out)?;
    out.code.write(line, Instr::PutNil)?;
    Ok(())
}

/// Writes the code of `a.m ||= v` or `a.m &&= v`: the branch keeps the old value.
pub(crate) fn set_attribute_unless<'a, N: Nodes<'a>>(
    emitter: &Emitter<'_, 'a>,
    below: &N,
    at: SourcePosition,
    branch: Branch,
    attribute: Attribute<'a>,
    value: &'a Node,
    out: &mut Output<'a>,
) -> Result<(), NoMemory>
    requires { N.IsReady below.now }
    ensures code { OnOk result (Writes emitter.now.depth (attribute_read (start (where_of emitter.now) (position_of at)) (own (where_of emitter.now) (position_of at)) (text_of_name (texts_of emitter.now) attribute.entry.read) (self_flag (tree_of (texts_of emitter.now) attribute.entry.receiver.now)) (shape (where_of emitter.now) (tree_of (texts_of emitter.now) attribute.entry.receiver.now)) (or_set (start (where_of emitter.now) (position_of at)) (own (where_of emitter.now) (position_of at)) (branch_of branch) 2 (text_of_name (texts_of emitter.now) attribute.entry.set) 1 (self_flag (tree_of (texts_of emitter.now) attribute.entry.receiver.now)) (shape (where_of emitter.now) (tree_of (texts_of emitter.now) value.now)))) out.old out.new) }
    ensures children { OnOk result (Finds (texts_of emitter.now) (direct emitter.now.in_loop (tree_of (texts_of emitter.now) value.now) ++ direct emitter.now.in_loop (tree_of (texts_of emitter.now) attribute.entry.receiver.now)) out.old out.new) }
{
    let setter = setter(emitter, at, attribute.receiver, attribute.set)?;
    set_unless(emitter, below, setter, branch, value, out)?;
    read_attribute(emitter, below, at, attribute, out)?;
    Ok(())
}

/// Writes the code of `a.m op= v`, whose operator stands on the line.
pub(crate) fn operate_attribute<'a, N: Nodes<'a>>(
    emitter: &Emitter<'_, 'a>,
    below: &N,
    at: SourcePosition,
    attribute: Attribute<'a>,
    value: &'a Node,
    operator: Name,
    line: u64,
    out: &mut Output<'a>,
) -> Result<(), NoMemory>
    requires { N.IsReady below.now }
    ensures code { OnOk result (Writes emitter.now.depth (form_shape (where_of emitter.now) (operate_attribute (tree_of (texts_of emitter.now) attribute.entry.receiver.now) (text_of_name (texts_of emitter.now) attribute.entry.read) (tree_of (texts_of emitter.now) value.now) (text_of_name (texts_of emitter.now) operator) (text_of_name (texts_of emitter.now) attribute.entry.set) line) (position_of at)) out.old out.new) }
    ensures children { OnOk result (Finds (texts_of emitter.now) (direct emitter.now.in_loop (tree_of (texts_of emitter.now) value.now) ++ direct emitter.now.in_loop (tree_of (texts_of emitter.now) attribute.entry.receiver.now)) out.old out.new) }
{
    let setter = setter(emitter, at, attribute.receiver, attribute.set)?;
    operate_and_set(emitter, setter, emitter.line(line), operator, out)?;
    below.node(emitter, 3, value, out)?;
    read_attribute(emitter, below, at, attribute, out)?;
    Ok(())
}
