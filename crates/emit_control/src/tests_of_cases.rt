//! A case without a value: its tests, in order, the part behind `else`, and behind this the bodies.
ghost use Rattle.std.specs.Prelude.{◌≡◌, ℕ, ◌+◌, ◌-◌, ◌++◌, length, OnOk, IfOk};
ghost use Rattle.ruby_tree.specs.Read.{tree_of};
ghost use Rattle.ruby_tree.specs.Views.{read_all, read_other, read_whens};
ghost use Rattle.iseq_types.specs.declared.instructions.Instr.TheVariants.{BranchIf, Jump};
ghost use Rattle.code_meaning.specs.Code.{ahead, part, done, size};
ghost use Rattle.compile_table.specs.Shapes.{shape, other_shape, tests_shape, test_shape, hits_shape};
ghost use Rattle.code_emitter.specs.Children.{direct, trees_direct, other_direct, whens_direct, patterns_direct};
ghost use Rattle.code_emitter.specs.Emitting.{where_of, texts_of, written, children_of, Writes, Finds};
ghost use Rattle.emit_control.specs.Starts.{starts};

use crate::choices::one_branch;
use bs_outside::NoMemory;
use code_emitter::{Emitter, Nodes, Output, other};
use code_writer::Branch;
use ruby_tree::Node;

/// Writes the code of a case without a value.
pub(crate) fn case_tests<'a, N: Nodes<'a>>(
    emitter: &Emitter<'_, 'a>,
    below: &N,
    line: u64,
    whens: &'a [(Vec<Node>, Node)],
    last: &'a Option<Box<Node>>,
    out: &mut Output<'a>,
) -> Result<(), NoMemory>
    requires { N.IsReady below.now }
    ensures code { OnOk result (Writes emitter.now.depth (tests_shape (where_of emitter.now) line (read_whens (texts_of emitter.now) whens.now) (size (other_shape (where_of emitter.now) (read_other (texts_of emitter.now) last.now)) + 1) (part 0 (other_shape (where_of emitter.now) (read_other (texts_of emitter.now) last.now)) (ahead line Jump (size (hits_shape (where_of emitter.now) line (read_whens (texts_of emitter.now) whens.now))) (hits_shape (where_of emitter.now) line (read_whens (texts_of emitter.now) whens.now))))) out.old out.new) }
    ensures children { OnOk result (Finds (texts_of emitter.now) (whens_direct emitter.now.in_loop (read_whens (texts_of emitter.now) whens.now) ++ (other_direct emitter.now.in_loop (read_other (texts_of emitter.now) last.now) ++ patterns_direct emitter.now.in_loop (read_whens (texts_of emitter.now) whens.now))) out.old out.new) }
{
    let starts = behind_tests(emitter, below, line, whens, last, out)?;
    tests(emitter, below, line, whens, &starts, out)?;
    Ok(())
}

/// Writes the code of a case behind its tests, and answers for each body where it begins: how many
/// instructions stand behind that.
fn behind_tests<'a, N: Nodes<'a>>(
    emitter: &Emitter<'_, 'a>,
    below: &N,
    line: u64,
    whens: &'a [(Vec<Node>, Node)],
    last: &'a Option<Box<Node>>,
    out: &mut Output<'a>,
) -> Result<Vec<u64>, NoMemory>
    requires { N.IsReady below.now }
    ensures code { OnOk result (Writes emitter.now.depth (part 0 (other_shape (where_of emitter.now) (read_other (texts_of emitter.now) last.now)) (ahead line Jump (size (hits_shape (where_of emitter.now) line (read_whens (texts_of emitter.now) whens.now))) (hits_shape (where_of emitter.now) line (read_whens (texts_of emitter.now) whens.now)))) out.old out.new) }
    ensures children { OnOk result (Finds (texts_of emitter.now) (whens_direct emitter.now.in_loop (read_whens (texts_of emitter.now) whens.now) ++ other_direct emitter.now.in_loop (read_other (texts_of emitter.now) last.now)) out.old out.new) }
    ensures starts { IfOk result (λ places. places.items ≡ starts (hits_shape (where_of emitter.now) line) (length (written out.old).steps) (read_whens (texts_of emitter.now) whens.now)) }
    ensures count { IfOk result (λ places. length places.items ≡ length whens.now) }
{
    let end = out.code.len();
    let starts = bodies(emitter, below, line, whens, out)?;
    out.code.jump_on(line, Branch::Always, end)?;
    other(emitter, below, 0, last, out)?;
    Ok(starts)
}

/// Writes the code of the bodies of a case, and answers for each where it begins: how many
/// instructions stand behind that.
fn bodies<'a, N: Nodes<'a>>(
    emitter: &Emitter<'_, 'a>,
    below: &N,
    line: u64,
    whens: &'a [(Vec<Node>, Node)],
    out: &mut Output<'a>,
) -> Result<Vec<u64>, NoMemory>
    requires { N.IsReady below.now }
    ensures code { OnOk result (Writes emitter.now.depth (hits_shape (where_of emitter.now) line (read_whens (texts_of emitter.now) whens.now)) out.old out.new) }
    ensures children { OnOk result (Finds (texts_of emitter.now) (whens_direct emitter.now.in_loop (read_whens (texts_of emitter.now) whens.now)) out.old out.new) }
    ensures starts { IfOk result (λ places. places.items ≡ starts (hits_shape (where_of emitter.now) line) (length (written out.old).steps) (read_whens (texts_of emitter.now) whens.now)) }
    ensures count { IfOk result (λ places. length places.items ≡ length whens.now) }
{
    let end = out.code.len();
    let mut starts = Vec::new(emitter.alloc);
    for i in (0..whens.len()).rev() {
        one_branch(emitter, below, line, &whens[i].1, end, out)?;
        starts.push(out.code.len())?;
    }
    starts.reverse();
    Ok(starts)
}

/// Writes the tests of a case, each of which jumps to where its body begins.
fn tests<'a, N: Nodes<'a>>(
    emitter: &Emitter<'_, 'a>,
    below: &N,
    line: u64,
    whens: &'a [(Vec<Node>, Node)],
    places: &[u64],
    out: &mut Output<'a>,
) -> Result<(), NoMemory>
    requires ready { N.IsReady below.now }
    requires count { length places.now ≡ length whens.now }
    ensures code { (n far : ℕ) → OnOk result (places.now ≡ starts (hits_shape (where_of emitter.now) line) n (read_whens (texts_of emitter.now) whens.now) → length (written out.old).steps ≡ far + (size (hits_shape (where_of emitter.now) line (read_whens (texts_of emitter.now) whens.now)) + n) → Writes emitter.now.depth (tests_shape (where_of emitter.now) line (read_whens (texts_of emitter.now) whens.now) far done) out.old out.new) }
    ensures children { OnOk result (Finds (texts_of emitter.now) (patterns_direct emitter.now.in_loop (read_whens (texts_of emitter.now) whens.now)) out.old out.new) }
{
    for i in (0..whens.len()).rev() {
        alternatives(emitter, below, line, &whens[i].0, places[i], out)?;
    }
    Ok(())
}

/// Writes the tests of one `when`, which jump to where its body begins.
fn alternatives<'a, N: Nodes<'a>>(
    emitter: &Emitter<'_, 'a>,
    below: &N,
    line: u64,
    trees: &'a [Node],
    start: u64,
    out: &mut Output<'a>,
) -> Result<(), NoMemory>
    requires { N.IsReady below.now }
    ensures code { (far : ℕ) → OnOk result (length (written out.old).steps ≡ far + start → Writes emitter.now.depth (test_shape (where_of emitter.now) line (read_all (texts_of emitter.now) trees.now) far done) out.old out.new) }
    ensures children { OnOk result (Finds (texts_of emitter.now) (trees_direct emitter.now.in_loop (read_all (texts_of emitter.now) trees.now)) out.old out.new) }
{
    for i in (0..trees.len()).rev() {
        test(emitter, below, line, &trees[i], start, out)?;
    }
    Ok(())
}

/// Writes a test.
fn test<'a, N: Nodes<'a>>(
    emitter: &Emitter<'_, 'a>,
    below: &N,
    line: u64,
    tree: &'a Node,
    start: u64,
    out: &mut Output<'a>,
) -> Result<(), NoMemory>
    requires { N.IsReady below.now }
    ensures code { OnOk result (Writes emitter.now.depth (part 0 (shape (where_of emitter.now) (tree_of (texts_of emitter.now) tree.now)) (ahead line BranchIf (length (written out.old).steps - start) done)) out.old out.new) }
    ensures children { OnOk result (Finds (texts_of emitter.now) (direct emitter.now.in_loop (tree_of (texts_of emitter.now) tree.now)) out.old out.new) }
{
    out.code.jump_on(line, Branch::If, start)?;
    below.node(emitter, 0, tree, out)
}
