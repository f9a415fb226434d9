//! The clauses of a rescue part: their tests, in order, and behind these their bodies.
ghost use Rattle.std.specs.Prelude.{◌≡◌, ℕ, suc, ◌+◌, ◌-◌, [], ◌∷◌, ◌++◌, length, OnOk, IfOk, codes};
ghost use Rattle.ruby_tree.specs.Tree.{no_more};
ghost use Rattle.ruby_tree.specs.Read.{tree_of, text_of_option};
ghost use Rattle.ruby_tree.specs.Views.{read_all, read_clauses};
ghost use Rattle.iseq_types.specs.declared.instructions.Instr.TheVariants.{Dup, CheckMatch, BranchIf, Leave, Throw};
ghost use Rattle.code_meaning.specs.Code.{op, ahead, done, part, size};
ghost use Rattle.compile_table.specs.Shapes.{shape, clauses_shape, clause_shape, classes_shape, bodies_shape, named};
ghost use Rattle.code_emitter.specs.Children.{direct, trees_direct, clauses_direct, classes_direct};
ghost use Rattle.code_emitter.specs.Emitting.{where_of, texts_of, written, Writes, Finds};
ghost use Rattle.emit_bodies.specs.Clauses.{clause_starts};

use bs_outside::{Items, NoMemory, Text, Texts};
use code_emitter::{Emitter, Nodes, Output};
use code_writer::Branch;
use iseq_types::Instr;
use ruby_tree::{Name, Node};
use std::alloc::Global;

/// Writes the code of the clauses of a rescue part.
pub(crate) fn rescue_sequence<'a, N: Nodes<'a>>(
    emitter: &Emitter<'_, 'a>,
    below: &N,
    line: u64,
    clauses: &'a [(Vec<Node>, Option<Name>, Node)],
    out: &mut Output<'a>,
) -> Result<(), NoMemory>
    requires { N.IsReady below.now }
    ensures code { OnOk result (Writes emitter.now.depth (clauses_shape (where_of emitter.now) (read_clauses (texts_of emitter.now) clauses.now) line 0 (op line (Throw 0) (bodies_shape (where_of emitter.now) (read_clauses (texts_of emitter.now) clauses.now) line))) out.old out.new) }
    ensures children { OnOk result (Finds (texts_of emitter.now) (clauses_direct emitter.now.in_loop (read_clauses (texts_of emitter.now) clauses.now) ++ classes_direct emitter.now.in_loop (read_clauses (texts_of emitter.now) clauses.now)) out.old out.new) }
{
    let starts = bodies(emitter, below, line, clauses, out)?;
    out.code.write(line, Instr::Throw(0))?;
    tests(emitter, below, line, clauses, &starts, out)?;
    Ok(())
}

/// Writes the code of the bodies of clauses, and answers for each where it begins: how many
/// instructions stand behind that.
fn bodies<'a, N: Nodes<'a>>(
    emitter: &Emitter<'_, 'a>,
    below: &N,
    line: u64,
    clauses: &'a [(Vec<Node>, Option<Name>, Node)],
    out: &mut Output<'a>,
) -> Result<Vec<u64>, NoMemory>
    requires { N.IsReady below.now }
    ensures code { OnOk result (Writes emitter.now.depth (bodies_shape (where_of emitter.now) (read_clauses (texts_of emitter.now) clauses.now) line) out.old out.new) }
    ensures children { OnOk result (Finds (texts_of emitter.now) (clauses_direct emitter.now.in_loop (read_clauses (texts_of emitter.now) clauses.now)) out.old out.new) }
    ensures starts { IfOk result (λ starts. starts.items ≡ clause_starts (where_of emitter.now) line (length (written out.old).steps) (read_clauses (texts_of emitter.now) clauses.now)) }
{
    let mut starts = Vec::new(emitter.alloc);
    for i in (0..clauses.len()).rev() {
        let (_, name, tree) = &clauses[i];
        body(emitter, below, line, *name, tree, out)?;
        starts.push(out.code.len())?;
    }
    starts.reverse();
    Ok(starts)
}

/// Writes the code of the body of a clause, which begins with its name if it has one.
#[tactic(auto, using(crate::proofs::ClauseSteps::named_seam))]
fn body<'a, N: Nodes<'a>>(
    emitter: &Emitter<'_, 'a>,
    below: &N,
    line: u64,
    name: Option<Name>,
    tree: &'a Node,
    out: &mut Output<'a>,
) -> Result<(), NoMemory>
    requires { N.IsReady below.now }
    ensures code { OnOk result (Writes emitter.now.depth (named (where_of emitter.now) line (text_of_option (texts_of emitter.now) name) (part 0 (shape (where_of emitter.now) (tree_of (texts_of emitter.now) tree.now)) (op line Leave done))) out.old out.new) }
    ensures children { OnOk result (Finds (texts_of emitter.now) (direct emitter.now.in_loop (tree_of (texts_of emitter.now) tree.now)) out.old out.new) }
{
    out.code.write(line, Instr::Leave)?;
    below.node(emitter, 0, tree, out)?;
    name_exception(emitter, line, name, out)
}

/// Writes the code that gives the name of a clause, if it has one, the exception.
fn name_exception<'a>(
    emitter: &Emitter<'_, 'a>,
    line: u64,
    name: Option<Name>,
    out: &mut Output<'a>,
) -> Result<(), NoMemory>
    ensures code { OnOk result (Writes emitter.now.depth (named (where_of emitter.now) line (text_of_option (texts_of emitter.now) name) done) out.old out.new) }
    ensures children { OnOk result (out.new.children ≡ out.old.children) }
{
    match name {
        None => Ok(()),
        Some(name) => {
            out.code.write(line, emitter.set_local(name))?;
            out.code.write(line, Instr::Dup)
        }
    }
}

/// Writes the tests of clauses, of which each jumps to where its body begins.
fn tests<'a, N: Nodes<'a>>(
    emitter: &Emitter<'_, 'a>,
    below: &N,
    line: u64,
    clauses: &'a [(Vec<Node>, Option<Name>, Node)],
    starts: &[u64],
    out: &mut Output<'a>,
) -> Result<(), NoMemory>
    requires ready { N.IsReady below.now }
    requires count { length starts.now ≡ length clauses.now }
    ensures code { (n : ℕ) → OnOk result (starts.now ≡ clause_starts (where_of emitter.now) line n (read_clauses (texts_of emitter.now) clauses.now) → length (written out.old).steps ≡ suc (size (bodies_shape (where_of emitter.now) (read_clauses (texts_of emitter.now) clauses.now) line) + n) → Writes emitter.now.depth (clauses_shape (where_of emitter.now) (read_clauses (texts_of emitter.now) clauses.now) line 0 done) out.old out.new) }
    ensures children { OnOk result (Finds (texts_of emitter.now) (classes_direct emitter.now.in_loop (read_clauses (texts_of emitter.now) clauses.now)) out.old out.new) }
{
    for i in (0..clauses.len()).rev() {
        test(emitter, below, line, &clauses[i].0, starts[i], out)?;
    }
    Ok(())
}

/// Writes the test of a clause, which jumps to the place where its body begins. A clause without
/// classes takes StandardError.
fn test<'a, N: Nodes<'a>>(
    emitter: &Emitter<'_, 'a>,
    below: &N,
    line: u64,
    trees: &'a [Node],
    start: u64,
    out: &mut Output<'a>,
) -> Result<(), NoMemory>
    requires { N.IsReady below.now }
    ensures code { (far : ℕ) → OnOk result (length (written out.old).steps ≡ far + start → Writes emitter.now.depth (clause_shape (where_of emitter.now) (read_all (texts_of emitter.now) trees.now) line far done) out.old out.new) }
    ensures children { OnOk result (Finds (texts_of emitter.now) (trees_direct emitter.now.in_loop (read_all (texts_of emitter.now) trees.now)) out.old out.new) }
{
    if trees.is_empty() {
        standard_error(emitter, line, start, out)
    } else {
        classes(emitter, below, line, trees, start, out)
    }
}

/// Writes the test of a clause without classes.
fn standard_error<'a>(
    emitter: &Emitter<'_, 'a>,
    line: u64,
    start: u64,
    out: &mut Output<'a>,
) -> Result<(), NoMemory>
    ensures code { OnOk result (Writes emitter.now.depth (clause_shape (where_of emitter.now) no_more line (length (written out.old).steps - start) done) out.old out.new) }
    ensures children { OnOk result (out.new.children ≡ out.old.children) }
{
    out.code.jump_on(line, Branch::If, start)?;
    out.code.write(line, Instr::CheckMatch)?;
    let path = Instr::OptGetConstantPath(1, standard_error_path(emitter.alloc)?);
    out.code.write(emitter.first, path)?;
    out.code.write(line, Instr::Dup)
}

/// The path of the constant of StandardError.
fn standard_error_path(alloc: Global) -> Result<Texts, NoMemory>
    ensures { IfOk result (λ path. path ≡ codes "StandardError" ∷ []) }
{
    let mut path = Items::new(alloc);
    path.push(Text::new(alloc, b"StandardError")?)?;
    Ok(path)
}

/// Writes the tests of an exception by classes.
fn classes<'a, N: Nodes<'a>>(
    emitter: &Emitter<'_, 'a>,
    below: &N,
    line: u64,
    trees: &'a [Node],
    start: u64,
    out: &mut Output<'a>,
) -> Result<(), NoMemory>
    requires { N.IsReady below.now }
    ensures code { (far : ℕ) → OnOk result (length (written out.old).steps ≡ far + start → Writes emitter.now.depth (classes_shape (where_of emitter.now) (read_all (texts_of emitter.now) trees.now) line far done) out.old out.new) }
    ensures children { OnOk result (Finds (texts_of emitter.now) (trees_direct emitter.now.in_loop (read_all (texts_of emitter.now) trees.now)) out.old out.new) }
{
    for i in (0..trees.len()).rev() {
        class(emitter, below, line, &trees[i], start, out)?;
    }
    Ok(())
}

/// Writes the test of an exception by a class.
fn class<'a, N: Nodes<'a>>(
    emitter: &Emitter<'_, 'a>,
    below: &N,
    line: u64,
    tree: &'a Node,
    start: u64,
    out: &mut Output<'a>,
) -> Result<(), NoMemory>
    requires { N.IsReady below.now }
    ensures code { OnOk result (Writes emitter.now.depth (op line Dup (part 1 (shape (where_of emitter.now) (tree_of (texts_of emitter.now) tree.now)) (op line CheckMatch (ahead line BranchIf (length (written out.old).steps - start) done)))) out.old out.new) }
    ensures children { OnOk result (Finds (texts_of emitter.now) (direct emitter.now.in_loop (tree_of (texts_of emitter.now) tree.now)) out.old out.new) }
{
    out.code.jump_on(line, Branch::If, start)?;
    out.code.write(line, Instr::CheckMatch)?;
    below.node(emitter, 1, tree, out)?;
    out.code.write(line, Instr::Dup)
}
