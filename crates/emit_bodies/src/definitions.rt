//! Methods, classes and modules.
ghost use Rattle.std.specs.Prelude.{◌≡◌, suc, [], ◌∷◌, OnOk, IfOk};
ghost use Rattle.ruby_tree.specs.SourcePositions.{position_of};
ghost use Rattle.ruby_tree.specs.Read.{tree_of, text_of_name};
ghost use Rattle.ruby_tree.specs.Tree.{class};
ghost use Rattle.ruby_tree.specs.Views.{read_other, read_definition};
ghost use Rattle.iseq_types.specs.declared.instructions.Instr.TheVariants.{PutNil, DefineMethod, DefineClass, PutObject};
ghost use Rattle.iseq_types.specs.declared.instructions.Literal.TheVariants.{Sym};
ghost use Rattle.iseq_types.specs.declared.sequences.SeqKind.TheVariants as kinds;
ghost use Rattle.code_meaning.specs.Code.{op, done, part};
ghost use Rattle.compile_table.specs.Shapes.{form_shape, shape, number_of, on_self};
ghost use Rattle.code_emitter.specs.Children.{form_direct, direct, child};
ghost use Rattle.code_emitter.specs.Emitting.{where_of, texts_of, written, Writes, Finds};

use crate::bodies::definition_body;
use bs_outside::NoMemory;
use code_emitter::{Child, Emitter, Nodes, Output, sum};
use iseq_types::{Instr, Literal, SeqKind};
use ruby_tree::{Definition, Name, Node, SourcePosition};

/// Writes the code of a method, a class, a module or a body.
pub fn definition<'a, N: Nodes<'a>>(
    emitter: &Emitter<'_, 'a>,
    below: &N,
    at: SourcePosition,
    definition: &'a Definition<Node>,
    out: &mut Output<'a>,
) -> Result<(), NoMemory>
    requires { N.IsReady below.now }
    ensures code { OnOk result (Writes emitter.now.depth (form_shape (where_of emitter.now) (read_definition (texts_of emitter.now) definition.now) (position_of at)) out.old out.new) }
    ensures children { OnOk result (Finds (texts_of emitter.now) (form_direct emitter.now.in_loop (read_definition (texts_of emitter.now) definition.now)) out.old out.new) }
{
    let line = emitter.own(at);
    match definition {
        Definition::Method(name, tree, on_self) => method(
            emitter, line, *name, tree, *on_self, out,
        ),
        Definition::Class(superclass, name, tree) => {
            class(emitter, below, at, superclass, *name, tree, out)
        }
        Definition::Module(name, tree) => opened(emitter, line, 2, *name, tree, out),
        Definition::Body(params, tree) => {
            definition_body(emitter, below, params, tree, out)?;
            Ok(())
        }
    }
}

/// Writes the code of a method.
fn method<'a>(
    emitter: &Emitter<'_, 'a>,
    line: u64,
    name: Name,
    tree: &'a Node,
    of_self: bool,
    out: &mut Output<'a>,
) -> Result<(), NoMemory>
    ensures code { OnOk result (Writes emitter.now.depth (op line (DefineMethod (text_of_name (texts_of emitter.now) name) (suc (number_of (where_of emitter.now) (tree_of (texts_of emitter.now) tree.now))) (on_self of_self)) (op line (PutObject (Sym (text_of_name (texts_of emitter.now) name))) done)) out.old out.new) }
    ensures children { OnOk result (Finds (texts_of emitter.now) (child kinds.Method (text_of_name (texts_of emitter.now) name) emitter.now.in_loop (tree_of (texts_of emitter.now) tree.now) ∷ []) out.old out.new) }
{
    let seq = found(emitter, SeqKind::Method, name, tree, out)?;
    let symbol = Literal::Sym(emitter.text(name)?);
    out.code.write(line, Instr::PutObject(symbol))?;
    let text = emitter.text(name)?;
    out.code
        .write(line, Instr::DefineMethod(text, seq, of_self as u64))
}

/// Writes the code of a class.
fn class<'a, N: Nodes<'a>>(
    emitter: &Emitter<'_, 'a>,
    below: &N,
    at: SourcePosition,
    superclass: &'a Option<Box<Node>>,
    name: Name,
    tree: &'a Node,
    out: &mut Output<'a>,
) -> Result<(), NoMemory>
    requires { N.IsReady below.now }
    ensures code { OnOk result (Writes emitter.now.depth (form_shape (where_of emitter.now) (class (read_other (texts_of emitter.now) superclass.now) (text_of_name (texts_of emitter.now) name) (tree_of (texts_of emitter.now) tree.now)) (position_of at)) out.old out.new) }
    ensures children { OnOk result (Finds (texts_of emitter.now) (form_direct emitter.now.in_loop (class (read_other (texts_of emitter.now) superclass.now) (text_of_name (texts_of emitter.now) name) (tree_of (texts_of emitter.now) tree.now))) out.old out.new) }
{
    let line = emitter.own(at);
    match superclass {
        None => opened(emitter, line, 0, name, tree, out),
        Some(parent) => subclass(emitter, below, line, parent, name, tree, out),
    }
}

/// Writes the code of a class with a superclass.
fn subclass<'a, N: Nodes<'a>>(
    emitter: &Emitter<'_, 'a>,
    below: &N,
    line: u64,
    superclass: &'a Node,
    name: Name,
    tree: &'a Node,
    out: &mut Output<'a>,
) -> Result<(), NoMemory>
    requires { N.IsReady below.now }
    ensures code { OnOk result (Writes emitter.now.depth (part 0 (shape (where_of emitter.now) (tree_of (texts_of emitter.now) superclass.now)) (op line (DefineClass (text_of_name (texts_of emitter.now) name) (suc (number_of (where_of emitter.now) (tree_of (texts_of emitter.now) tree.now))) 1) done)) out.old out.new) }
    ensures children { OnOk result (Finds (texts_of emitter.now) (child kinds.Class (text_of_name (texts_of emitter.now) name) emitter.now.in_loop (tree_of (texts_of emitter.now) tree.now) ∷ direct emitter.now.in_loop (tree_of (texts_of emitter.now) superclass.now)) out.old out.new) }
{
    let seq = found(emitter, SeqKind::Class, name, tree, out)?;
    let text = emitter.text(name)?;
    out.code.write(line, Instr::DefineClass(text, seq, 1))?;
    below.node(emitter, 0, superclass, out)
}

/// Writes the code of a class without a superclass, which opens by 0, or of a module, by 2.
fn opened<'a>(
    emitter: &Emitter<'_, 'a>,
    line: u64,
    by: u64,
    name: Name,
    tree: &'a Node,
    out: &mut Output<'a>,
) -> Result<(), NoMemory>
    ensures code { OnOk result (Writes emitter.now.depth (op line PutNil (op line (DefineClass (text_of_name (texts_of emitter.now) name) (suc (number_of (where_of emitter.now) (tree_of (texts_of emitter.now) tree.now))) by) done)) out.old out.new) }
    ensures children { OnOk result (Finds (texts_of emitter.now) (child kinds.Class (text_of_name (texts_of emitter.now) name) emitter.now.in_loop (tree_of (texts_of emitter.now) tree.now) ∷ []) out.old out.new) }
{
    let seq = found(emitter, SeqKind::Class, name, tree, out)?;
    let text = emitter.text(name)?;
    out.code.write(line, Instr::DefineClass(text, seq, by))?;
    out.code.write(line, Instr::PutNil)
}

/// Notes the body of a method, a class or a module, and answers how an instruction names it: by
/// its number and 1.
fn found<'a>(
    emitter: &Emitter<'_, 'a>,
    kind: SeqKind,
    name: Name,
    tree: &'a Node,
    out: &mut Output<'a>,
) -> Result<u64, NoMemory>
    ensures code { OnOk result (written out.new ≡ written out.old) }
    ensures children { OnOk result (Finds (texts_of emitter.now) (child kind (text_of_name (texts_of emitter.now) name) emitter.now.in_loop (tree_of (texts_of emitter.now) tree.now) ∷ []) out.old out.new) }
    ensures seq { IfOk result (λ seq. seq ≡ suc (number_of (where_of emitter.now) (tree_of (texts_of emitter.now) tree.now))) }
{
    out.note(Child {
        kind,
        name: Some(name),
        in_loop: emitter.in_loop,
        tree,
    })?;
    sum(emitter.number_of(tree), 1)
}
