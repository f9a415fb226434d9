//! The code of one sequence.
ghost use Rattle.std.specs.Prelude.{◌≡◌, ◌-◌, Bool, true, map, IfOk, OnOk, [], length};
ghost use Rattle.ruby_tree.specs.SourcePositions.{position_of};
ghost use Rattle.ruby_tree.specs.Read.{tree_of};
ghost use Rattle.ruby_tree.specs.Views.{read_kind, read_definition, read_params};
ghost use Rattle.ruby_meaning.specs.Locals.{params_of, params_in};
ghost use Rattle.ruby_meaning.specs.Loads.{file_body};
ghost use Rattle.code_meaning.specs.Code.{lines_of, rows_of};
ghost use Rattle.compile_table.specs.Shapes.{shape, form_shape};
ghost use Rattle.compile_table.specs.Sequences.{entries_of, has_optional};
ghost use Rattle.code_writer.specs.Writing.{grown, nothing};
ghost use Rattle.code_emitter.specs.Children.{direct, form_direct};
ghost use Rattle.code_emitter.specs.Emitting.{where_of, texts_of, child_of, written, children_of, Writes, Finds};
ghost use Rattle.emit_sequence.specs.NodesWritten.{IsWritten};
ghost use Rattle.emit_sequence.specs.Starts.{starts_in};

use crate::below::{MOST_NESTED, write, writing_by};
use bs_outside::{Items, NoMemory};
use code_emitter::{Child, Emitter, Nodes, Output};
use code_writer::Code;
use ruby_tree::{Definition, Kind, Node, Param, SourcePosition};
use std::alloc::Global;

/// The code of a sequence, the places at which its body begins, and the sequences that stand
/// directly in it.
#[derive(Drop)]
pub struct EmittedSequence<'a> {
    pub code: Code,
    /// None where no parameter may be left out.
    pub entries: Items<u64>,
    pub children: Vec<Child<'a>>,
}

/// Writes the code of the body of a method, a class, a module or a block, or of a rescue or ensure
/// part. The emitter says where its nodes stand.
pub fn sequence<'a>(
    emitter: &Emitter<'_, 'a>,
    tree: &'a Node,
) -> Result<EmittedSequence<'a>, NoMemory>
    ensures lines { IfOk result (λ made. made.code.lines ≡ lines_of emitter.now.depth 0 (shape (where_of emitter.now) (tree_of (texts_of emitter.now) tree.now))) }
    ensures rows { IfOk result (λ made. made.code.rows ≡ rows_of emitter.now.depth 0 (shape (where_of emitter.now) (tree_of (texts_of emitter.now) tree.now))) }
    ensures entries { IfOk result (λ made. made.entries ≡ entries_of (where_of emitter.now) (params_of (tree_of (texts_of emitter.now) tree.now))) }
    ensures children { IfOk result (λ made. map (child_of (texts_of emitter.now)) made.children.items ≡ direct emitter.now.in_loop (tree_of (texts_of emitter.now) tree.now)) }
{
    let mut out = Output::new(emitter.alloc);
    let entries = entries(emitter, tree, &mut out)?;
    finish(emitter.alloc, out, entries)
}

/// Writes the code of a file's own sequence, whose statements these are.
pub fn file<'a>(emitter: &Emitter<'_, 'a>, root: &'a Node) -> Result<EmittedSequence<'a>, NoMemory>
    ensures lines { IfOk result (λ made. made.code.lines ≡ lines_of emitter.now.depth 0 (shape (where_of emitter.now) (file_body (tree_of (texts_of emitter.now) root.now)))) }
    ensures rows { IfOk result (λ made. made.code.rows ≡ rows_of emitter.now.depth 0 (shape (where_of emitter.now) (file_body (tree_of (texts_of emitter.now) root.now)))) }
    ensures entries { IfOk result (λ made. made.entries ≡ []) }
    ensures children { IfOk result (λ made. map (child_of (texts_of emitter.now)) made.children.items ≡ direct emitter.now.in_loop (tree_of (texts_of emitter.now) root.now)) }
{
    let mut out = Output::new(emitter.alloc);
    let below = writing_by(
        |emitter, deeper, node, out| -> Result<(), NoMemory>
            ensures { IsWritten emitter.now deeper node.now out.old out.new result }
        { write(MOST_NESTED, emitter, deeper, node, out) },
    );
    emit_bodies::file_body(emitter, &below, root, &mut out)?;
    finish(emitter.alloc, out, Items::new(emitter.alloc))
}

/// What was written and found, with these entries.
fn finish<'a>(
    alloc: Global,
    out: Output<'a>,
    entries: Items<u64>,
) -> Result<EmittedSequence<'a>, NoMemory>
    ensures lines { (depth : _) (s : _) → written out.entry ≡ grown depth s nothing → IfOk result (λ made. made.code.lines ≡ lines_of depth 0 s) }
    ensures rows { (depth : _) (s : _) → written out.entry ≡ grown depth s nothing → IfOk result (λ made. made.code.rows ≡ rows_of depth 0 s) }
    ensures entries { IfOk result (λ made. made.entries ≡ entries) }
    ensures children { (texts : _) → IfOk result (λ made. map (child_of texts) made.children.items ≡ children_of texts out.entry) }
{
    let Output { code, children } = out;
    Ok(EmittedSequence {
        code: code.finish(alloc)?,
        entries,
        children,
    })
}

/// Writes the code of a tree into what nothing is written in, and answers the places at which its
/// body begins.
fn entries<'a>(
    emitter: &Emitter<'_, 'a>,
    tree: &'a Node,
    out: &mut Output<'a>,
) -> Result<Items<u64>, NoMemory>
    ensures code { OnOk result (Writes emitter.now.depth (shape (where_of emitter.now) (tree_of (texts_of emitter.now) tree.now)) out.old out.new) }
    ensures children { OnOk result (Finds (texts_of emitter.now) (direct emitter.now.in_loop (tree_of (texts_of emitter.now) tree.now)) out.old out.new) }
    ensures entries { written out.old ≡ nothing → IfOk result (λ entries. entries ≡ entries_of (where_of emitter.now) (params_of (tree_of (texts_of emitter.now) tree.now))) }
{
    let below = writing_by(
        |emitter, deeper, node, out| -> Result<(), NoMemory>
            ensures { IsWritten emitter.now deeper node.now out.old out.new result }
        { write(MOST_NESTED, emitter, deeper, node, out) },
    );
    let at = SourcePosition {
        first: tree.first,
        line: tree.line,
        place: tree.place,
    };
    let starts = starts(emitter, &below, at, &tree.kind, out)?;
    if !may_leave_out(params_of(&tree.kind)) {
        return Ok(Items::new(emitter.alloc));
    }
    let total = out.code.len();
    let found = places(emitter.alloc, total, &starts)?;
    Ok(found)
}

/// The places from the beginning of so many instructions, of which these numbers stand behind them.
fn places(alloc: Global, total: u64, starts: &[u64]) -> Result<Items<u64>, NoMemory>
    ensures { IfOk result (λ places. places ≡ map (λ behind. total - behind) starts.now) }
{
    let mut places = Items::new(alloc);
    for behind in starts {
        places.push(total.saturating_sub(*behind))?;
    }
    Ok(places)
}

/// Writes the code of a node of a kind, and answers for each place at which its body begins, how
/// many instructions stand behind it.
fn starts<'a, N: Nodes<'a>>(
    emitter: &Emitter<'_, 'a>,
    below: &N,
    at: SourcePosition,
    kind: &'a Kind<Node>,
    out: &mut Output<'a>,
) -> Result<Vec<u64>, NoMemory>
    requires { N.IsReady below.now }
    ensures code { OnOk result (Writes emitter.now.depth (form_shape (where_of emitter.now) (read_kind (texts_of emitter.now) kind.now) (position_of at)) out.old out.new) }
    ensures children { OnOk result (Finds (texts_of emitter.now) (form_direct emitter.now.in_loop (read_kind (texts_of emitter.now) kind.now)) out.old out.new) }
    ensures starts { IfOk result (λ starts. starts.items ≡ starts_in (where_of emitter.now) (length (written out.old).steps) (read_kind (texts_of emitter.now) kind.now)) }
{
    match kind {
        Kind::Definition(definition) => starts_of(emitter, below, at, definition, out),
        Kind::Literal(_)
        | Kind::Variable(_)
        | Kind::Collection(_)
        | Kind::Assignment(_)
        | Kind::Call(_)
        | Kind::Control(_)
        | Kind::Exit(_)
        | Kind::Handler(_) => {
            crate::nodes::kind(emitter, below, at, kind, out)?;
            Ok(Vec::new(emitter.alloc))
        }
    }
}

/// Writes the code of a definition or a body, and answers the same of it.
fn starts_of<'a, N: Nodes<'a>>(
    emitter: &Emitter<'_, 'a>,
    below: &N,
    at: SourcePosition,
    definition: &'a Definition<Node>,
    out: &mut Output<'a>,
) -> Result<Vec<u64>, NoMemory>
    requires { N.IsReady below.now }
    ensures code { OnOk result (Writes emitter.now.depth (form_shape (where_of emitter.now) (read_definition (texts_of emitter.now) definition.now) (position_of at)) out.old out.new) }
    ensures children { OnOk result (Finds (texts_of emitter.now) (form_direct emitter.now.in_loop (read_definition (texts_of emitter.now) definition.now)) out.old out.new) }
    ensures starts { IfOk result (λ starts. starts.items ≡ starts_in (where_of emitter.now) (length (written out.old).steps) (read_definition (texts_of emitter.now) definition.now)) }
{
    match definition {
        Definition::Body(params, tree) => {
            emit_bodies::definition_body(emitter, below, params, tree, out)
        }
        Definition::Method(_, _, _) | Definition::Class(_, _, _) | Definition::Module(_, _) => {
            emit_bodies::definition(emitter, below, at, definition, out)?;
            Ok(Vec::new(emitter.alloc))
        }
    }
}

/// The parameters of a node that is a body.
pub fn params_of(kind: &Kind<Node>) -> &[Param<Node>]
    ensures { (texts : _) → read_params texts result.now ≡ params_in (read_kind texts kind.now) }
{
    match kind {
        Kind::Definition(definition) => params_of_definition(definition),
        Kind::Literal(_)
        | Kind::Variable(_)
        | Kind::Collection(_)
        | Kind::Assignment(_)
        | Kind::Call(_)
        | Kind::Control(_)
        | Kind::Exit(_)
        | Kind::Handler(_) => &[],
    }
}

/// The parameters of a body.
fn params_of_definition(definition: &Definition<Node>) -> &[Param<Node>]
    ensures { (texts : _) → read_params texts result.now ≡ params_in (read_definition texts definition.now) }
{
    match definition {
        Definition::Body(params, _) => params,
        Definition::Method(_, _, _) | Definition::Class(_, _, _) | Definition::Module(_, _) => &[],
    }
}

/// Whether one of the parameters may be left out.
fn may_leave_out(params: &[Param<Node>]) -> bool
    ensures { (texts : _) → result ≡ has_optional (read_params texts params.now) }
{
    for param in params {
        if let Param::Optional(_, _) = param {
            return true;
        }
    }
    false
}
