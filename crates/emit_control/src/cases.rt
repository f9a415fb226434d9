//! A case with a value: the tests of its patterns, in order, the part behind `else`, and behind
//! this the bodies.
ghost use Rattle.std.specs.Prelude.{◌≡◌, ℕ, ◌+◌, ◌-◌, ◌++◌, length, OnOk, IfOk, codes};
ghost use Rattle.ruby_tree.specs.Read.{tree_of};
ghost use Rattle.ruby_tree.specs.Views.{read_all, read_other, read_whens};
ghost use Rattle.iseq_types.specs.declared.instructions.Instr.TheVariants.{Pop, TopN, BranchIf, Jump};
ghost use Rattle.code_meaning.specs.Code.{op, ahead, part, done, size};
ghost use Rattle.compile_table.specs.Shapes.{shape, other_shape, patterns_shape, pattern_shape, cases_shape, plain_send, self_flag};
ghost use Rattle.code_emitter.specs.Children.{direct, trees_direct, other_direct, whens_direct, patterns_direct};
ghost use Rattle.code_emitter.specs.Emitting.{where_of, texts_of, written, children_of, Writes, Finds};
ghost use Rattle.emit_control.specs.Starts.{starts};

use crate::choices::one_branch;
use bs_outside::{Items, NoMemory, Text};
use code_emitter::{Emitter, Nodes, Output, other, self_flag};
use code_writer::Branch;
use iseq_types::Instr;
use ruby_tree::Node;

/// Writes the code of a case with a value.
pub(crate) fn case_of<'a, N: Nodes<'a>>(
    emitter: &Emitter<'_, 'a>,
    below: &N,
    line: u64,
    value: &'a Node,
    whens: &'a [(Vec<Node>, Node)],
    last: &'a Option<Box<Node>>,
    out: &mut Output<'a>,
) -> Result<(), NoMemory>
    requires { N.IsReady below.now }
    ensures code { OnOk result (Writes emitter.now.depth (part 0 (shape (where_of emitter.now) (tree_of (texts_of emitter.now) value.now)) (patterns_shape (where_of emitter.now) line (read_whens (texts_of emitter.now) whens.now) (size (other_shape (where_of emitter.now) (read_other (texts_of emitter.now) last.now)) + 2) (op line Pop (part 0 (other_shape (where_of emitter.now) (read_other (texts_of emitter.now) last.now)) (ahead line Jump (size (cases_shape (where_of emitter.now) line (read_whens (texts_of emitter.now) whens.now))) (cases_shape (where_of emitter.now) line (read_whens (texts_of emitter.now) whens.now))))))) out.old out.new) }
    ensures children { OnOk result (Finds (texts_of emitter.now) (whens_direct emitter.now.in_loop (read_whens (texts_of emitter.now) whens.now) ++ (other_direct emitter.now.in_loop (read_other (texts_of emitter.now) last.now) ++ (patterns_direct emitter.now.in_loop (read_whens (texts_of emitter.now) whens.now) ++ direct emitter.now.in_loop (tree_of (texts_of emitter.now) value.now)))) out.old out.new) }
{
    let starts = behind_patterns(emitter, below, line, whens, last, out)?;
    patterns(emitter, below, line, whens, &starts, out)?;
    below.node(emitter, 0, value, out)?;
    Ok(())
}

/// Writes the code of a case behind its tests, and answers for each body where it begins: how many
/// instructions stand behind that.
fn behind_patterns<'a, N: Nodes<'a>>(
    emitter: &Emitter<'_, 'a>,
    below: &N,
    line: u64,
    whens: &'a [(Vec<Node>, Node)],
    last: &'a Option<Box<Node>>,
    out: &mut Output<'a>,
) -> Result<Vec<u64>, NoMemory>
    requires { N.IsReady below.now }
    ensures code { OnOk result (Writes emitter.now.depth (op line Pop (part 0 (other_shape (where_of emitter.now) (read_other (texts_of emitter.now) last.now)) (ahead line Jump (size (cases_shape (where_of emitter.now) line (read_whens (texts_of emitter.now) whens.now))) (cases_shape (where_of emitter.now) line (read_whens (texts_of emitter.now) whens.now))))) out.old out.new) }
    ensures children { OnOk result (Finds (texts_of emitter.now) (whens_direct emitter.now.in_loop (read_whens (texts_of emitter.now) whens.now) ++ other_direct emitter.now.in_loop (read_other (texts_of emitter.now) last.now)) out.old out.new) }
    ensures starts { IfOk result (λ places. places.items ≡ starts (cases_shape (where_of emitter.now) line) (length (written out.old).steps) (read_whens (texts_of emitter.now) whens.now)) }
    ensures count { IfOk result (λ places. length places.items ≡ length whens.now) }
{
    let end = out.code.len();
    let starts = bodies(emitter, below, line, whens, out)?;
    out.code.jump_on(line, Branch::Always, end)?;
    other(emitter, below, 0, last, out)?;
    out.code.write(line, Instr::Pop)?;
    Ok(starts)
}

/// Writes the code of the bodies of a case, and answers for each where it begins: how many
/// instructions stand behind that.
fn bodies<'a, N: Nodes<'a>>(
    emitter: &Emitter<'_, 'a>,
    below: &N,
    line: u64,
    whens: &'a [(Vec<Node>, Node)],
    out: &mut Output<'a>,
) -> Result<Vec<u64>, NoMemory>
    requires { N.IsReady below.now }
    ensures code { OnOk result (Writes emitter.now.depth (cases_shape (where_of emitter.now) line (read_whens (texts_of emitter.now) whens.now)) out.old out.new) }
    ensures children { OnOk result (Finds (texts_of emitter.now) (whens_direct emitter.now.in_loop (read_whens (texts_of emitter.now) whens.now)) out.old out.new) }
    ensures starts { IfOk result (λ places. places.items ≡ starts (cases_shape (where_of emitter.now) line) (length (written out.old).steps) (read_whens (texts_of emitter.now) whens.now)) }
    ensures count { IfOk result (λ places. length places.items ≡ length whens.now) }
{
    let end = out.code.len();
    let mut starts = Vec::new(emitter.alloc);
    for i in (0..whens.len()).rev() {
        body(emitter, below, line, &whens[i].1, end, out)?;
        starts.push(out.code.len())?;
    }
    starts.reverse();
    Ok(starts)
}

/// Writes the code of a body, which drops the value and jumps to the end.
fn body<'a, N: Nodes<'a>>(
    emitter: &Emitter<'_, 'a>,
    below: &N,
    line: u64,
    tree: &'a Node,
    end: u64,
    out: &mut Output<'a>,
) -> Result<(), NoMemory>
    requires { N.IsReady below.now }
    ensures code { OnOk result (Writes emitter.now.depth (op line Pop (part 0 (shape (where_of emitter.now) (tree_of (texts_of emitter.now) tree.now)) (ahead line Jump (length (written out.old).steps - end) done))) out.old out.new) }
    ensures children { OnOk result (Finds (texts_of emitter.now) (direct emitter.now.in_loop (tree_of (texts_of emitter.now) tree.now)) out.old out.new) }
{
    one_branch(emitter, below, line, tree, end, out)?;
    out.code.write(line, Instr::Pop)
}

/// Writes the tests of a case's patterns, each of which jumps to where its body begins.
fn patterns<'a, N: Nodes<'a>>(
    emitter: &Emitter<'_, 'a>,
    below: &N,
    line: u64,
    whens: &'a [(Vec<Node>, Node)],
    places: &[u64],
    out: &mut Output<'a>,
) -> Result<(), NoMemory>
    requires ready { N.IsReady below.now }
    requires count { length places.now ≡ length whens.now }
    ensures code { (n far : ℕ) → OnOk result (places.now ≡ starts (cases_shape (where_of emitter.now) line) n (read_whens (texts_of emitter.now) whens.now) → length (written out.old).steps ≡ far + (size (cases_shape (where_of emitter.now) line (read_whens (texts_of emitter.now) whens.now)) + n) → Writes emitter.now.depth (patterns_shape (where_of emitter.now) line (read_whens (texts_of emitter.now) whens.now) far done) out.old out.new) }
    ensures children { OnOk result (Finds (texts_of emitter.now) (patterns_direct emitter.now.in_loop (read_whens (texts_of emitter.now) whens.now)) out.old out.new) }
{
    for i in (0..whens.len()).rev() {
        alternatives(emitter, below, line, &whens[i].0, places[i], out)?;
    }
    Ok(())
}

/// Writes the tests of the patterns of one `when`, which jump to where its body begins.
fn alternatives<'a, N: Nodes<'a>>(
    emitter: &Emitter<'_, 'a>,
    below: &N,
    line: u64,
    trees: &'a [Node],
    start: u64,
    out: &mut Output<'a>,
) -> Result<(), NoMemory>
    requires { N.IsReady below.now }
    ensures code { (far : ℕ) → OnOk result (length (written out.old).steps ≡ far + start → Writes emitter.now.depth (pattern_shape (where_of emitter.now) line (read_all (texts_of emitter.now) trees.now) far done) out.old out.new) }
    ensures children { OnOk result (Finds (texts_of emitter.now) (trees_direct emitter.now.in_loop (read_all (texts_of emitter.now) trees.now)) out.old out.new) }
{
    for i in (0..trees.len()).rev() {
        pattern(emitter, below, line, &trees[i], start, out)?;
    }
    Ok(())
}

/// Writes the test of a pattern.
fn pattern<'a, N: Nodes<'a>>(
    emitter: &Emitter<'_, 'a>,
    below: &N,
    line: u64,
    tree: &'a Node,
    start: u64,
    out: &mut Output<'a>,
) -> Result<(), NoMemory>
    requires { N.IsReady below.now }
    ensures code { OnOk result (Writes emitter.now.depth (part 1 (shape (where_of emitter.now) (tree_of (texts_of emitter.now) tree.now)) (op line (TopN 1) (op emitter.now.first (plain_send (codes "===") 1 (self_flag (tree_of (texts_of emitter.now) tree.now))) (ahead line BranchIf (length (written out.old).steps - start) done)))) out.old out.new) }
    ensures children { OnOk result (Finds (texts_of emitter.now) (direct emitter.now.in_loop (tree_of (texts_of emitter.now) tree.now)) out.old out.new) }
{
    out.code.jump_on(line, Branch::If, start)?;
    let name = Text::new(emitter.alloc, b"===")?;
    let splats = Items::new(emitter.alloc);
    let call = Instr::Send(name, 1, splats, self_flag(tree), 0);
    out.code.write(emitter.first, call)?;
    out.code.write(line, Instr::TopN(1))?;
    below.node(emitter, 1, tree, out)
}
