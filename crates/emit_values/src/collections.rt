//! Values that are made of others, or found by a path.
ghost use Rattle.std.specs.Prelude.{◌≡◌, ◌+◌, ◌*◌, [], length, map, OnOk, IfOk};
ghost use Rattle.ruby_tree.specs.SourcePositions.{position_of};
ghost use Rattle.ruby_tree.specs.Tree.{joined, array, hash, range, constant_path, no_piece};
ghost use Rattle.ruby_tree.specs.Read.{tree_of, text_of_name};
ghost use Rattle.ruby_tree.specs.Views.{read_all, read_other, read_pairs, read_part, read_parts, read_collection};
ghost use Rattle.iseq_types.specs.declared.instructions.Instr.TheVariants.{NewArray, NewHash, ConcatStrings};
ghost use Rattle.code_meaning.specs.Code.{op, done};
ghost use Rattle.compile_table.specs.Shapes.{count, count_pairs, count_pieces, form_shape, args_shape, pieces_shape, pairs_shape, path_shape};
ghost use Rattle.code_emitter.specs.Children.{form_direct, trees_direct, pieces_direct, pairs_direct, other_direct};
ghost use Rattle.code_emitter.specs.Emitting.{where_of, texts_of, written, children_of, Writes, Finds};

use bs_outside::{NoMemory, Text};
use code_emitter::{Emitter, Nodes, Output, args, sum};
use iseq_types::Instr;
use ruby_tree::{Collection, Name, Node, SourcePosition, TextPart};

/// Writes the code of a value that is made of others, or found by a path.
pub fn collection<'a, N: Nodes<'a>>(
    emitter: &Emitter<'_, 'a>,
    below: &N,
    at: SourcePosition,
    collection: &'a Collection<Node>,
    out: &mut Output<'a>,
) -> Result<(), NoMemory>
    requires { N.IsReady below.now }
    ensures code { OnOk result (Writes emitter.now.depth (form_shape (where_of emitter.now) (read_collection (texts_of emitter.now) collection.now) (position_of at)) out.old out.new) }
    ensures children { OnOk result (Finds (texts_of emitter.now) (form_direct emitter.now.in_loop (read_collection (texts_of emitter.now) collection.now)) out.old out.new) }
{
    let line = emitter.own(at);
    match collection {
        Collection::Text(parts) => joined(emitter, below, line, parts, out),
        Collection::Array(elements, splats) => array(emitter, below, line, elements, splats, out),
        Collection::Hash(pairs) => hash(emitter, below, line, pairs, out),
        Collection::Range(first, last, exclusive) => {
            out.code.write(line, Instr::NewRange(*exclusive as u64))?;
            below.node(emitter, 1, last, out)?;
            below.node(emitter, 0, first, out)
        }
        Collection::ConstantPath(value, top, names) => {
            path(emitter, below, line, value, *top, names, out)
        }
    }
}

/// Writes the code of a text with code.
#[tactic(auto, using(crate::proofs::Seams::pieces_seam, crate::proofs::Seams::count_parts))]
fn joined<'a, N: Nodes<'a>>(
    emitter: &Emitter<'_, 'a>,
    below: &N,
    line: u64,
    parts: &'a [TextPart<Node>],
    out: &mut Output<'a>,
) -> Result<(), NoMemory>
    requires { N.IsReady below.now }
    ensures code { OnOk result (Writes emitter.now.depth (pieces_shape (where_of emitter.now) line 0 (read_parts (texts_of emitter.now) parts.now) (op line (ConcatStrings (count_pieces (read_parts (texts_of emitter.now) parts.now))) done)) out.old out.new) }
    ensures children { OnOk result (Finds (texts_of emitter.now) (pieces_direct emitter.now.in_loop (read_parts (texts_of emitter.now) parts.now)) out.old out.new) }
{
    out.code
        .write(line, Instr::ConcatStrings(parts.len() as u64))?;
    pieces(emitter, below, line, parts, out)
}

/// Writes the code of the parts of a text.
fn pieces<'a, N: Nodes<'a>>(
    emitter: &Emitter<'_, 'a>,
    below: &N,
    line: u64,
    parts: &'a [TextPart<Node>],
    out: &mut Output<'a>,
) -> Result<(), NoMemory>
    requires { N.IsReady below.now }
    ensures code { OnOk result (Writes emitter.now.depth (pieces_shape (where_of emitter.now) line 0 (read_parts (texts_of emitter.now) parts.now) done) out.old out.new) }
    ensures children { OnOk result (Finds (texts_of emitter.now) (pieces_direct emitter.now.in_loop (read_parts (texts_of emitter.now) parts.now)) out.old out.new) }
{
    for i in (0..parts.len()).rev() {
        piece(emitter, below, line, i as u64, &parts[i], out)?;
    }
    Ok(())
}

/// Writes the code of a part of a text, which stands so much deeper on the stack.
fn piece<'a, N: Nodes<'a>>(
    emitter: &Emitter<'_, 'a>,
    below: &N,
    line: u64,
    deeper: u64,
    part: &'a TextPart<Node>,
    out: &mut Output<'a>,
) -> Result<(), NoMemory>
    requires { N.IsReady below.now }
    ensures code { OnOk result (Writes emitter.now.depth (pieces_shape (where_of emitter.now) line deeper (read_part (texts_of emitter.now) part.now no_piece) done) out.old out.new) }
    ensures children { OnOk result (Finds (texts_of emitter.now) (pieces_direct emitter.now.in_loop (read_part (texts_of emitter.now) part.now no_piece)) out.old out.new) }
{
    match part {
        TextPart::Plain(bytes) => {
            let text = Text::new(emitter.alloc, bytes.as_slice())?;
            out.code.write(line, Instr::PutString(text))
        }
        TextPart::Code(tree) => {
            out.code.write(line, Instr::AnyToString)?;
            out.code.write(line, Instr::ObjToString)?;
            out.code.write(line, Instr::Dup)?;
            below.node(emitter, deeper, tree, out)
        }
    }
}

/// Writes the code of an Array.
#[tactic(auto, using(code_emitter::proofs::Seams::args_seam, code_emitter::proofs::Seams::count_all))]
fn array<'a, N: Nodes<'a>>(
    emitter: &Emitter<'_, 'a>,
    below: &N,
    line: u64,
    elements: &'a [Node],
    splats: &[u64],
    out: &mut Output<'a>,
) -> Result<(), NoMemory>
    requires { N.IsReady below.now }
    ensures code { OnOk result (Writes emitter.now.depth (args_shape (where_of emitter.now) 0 (read_all (texts_of emitter.now) elements.now) (op line (NewArray (count (read_all (texts_of emitter.now) elements.now)) splats.now) done)) out.old out.new) }
    ensures children { OnOk result (Finds (texts_of emitter.now) (trees_direct emitter.now.in_loop (read_all (texts_of emitter.now) elements.now)) out.old out.new) }
{
    let splats = emitter.splats(splats)?;
    out.code
        .write(line, Instr::NewArray(elements.len() as u64, splats))?;
    args(emitter, below, 0, elements, out)
}

/// Writes the code of a Hash.
#[tactic(auto, using(crate::proofs::Seams::pairs_seam, crate::proofs::Seams::count_all_pairs))]
fn hash<'a, N: Nodes<'a>>(
    emitter: &Emitter<'_, 'a>,
    below: &N,
    line: u64,
    pairs: &'a [(Node, Node)],
    out: &mut Output<'a>,
) -> Result<(), NoMemory>
    requires { N.IsReady below.now }
    ensures code { OnOk result (Writes emitter.now.depth (pairs_shape (where_of emitter.now) 0 (read_pairs (texts_of emitter.now) pairs.now) (op line (NewHash (2 * count_pairs (read_pairs (texts_of emitter.now) pairs.now))) done)) out.old out.new) }
    ensures children { OnOk result (Finds (texts_of emitter.now) (pairs_direct emitter.now.in_loop (read_pairs (texts_of emitter.now) pairs.now)) out.old out.new) }
{
    let count = sum(pairs.len() as u64, pairs.len() as u64)?;
    out.code.write(line, Instr::NewHash(count))?;
    entries(emitter, below, pairs, out)
}

/// Writes the code of keys and values.
fn entries<'a, N: Nodes<'a>>(
    emitter: &Emitter<'_, 'a>,
    below: &N,
    pairs: &'a [(Node, Node)],
    out: &mut Output<'a>,
) -> Result<(), NoMemory>
    requires { N.IsReady below.now }
    ensures code { OnOk result (Writes emitter.now.depth (pairs_shape (where_of emitter.now) 0 (read_pairs (texts_of emitter.now) pairs.now) done) out.old out.new) }
    ensures children { OnOk result (Finds (texts_of emitter.now) (pairs_direct emitter.now.in_loop (read_pairs (texts_of emitter.now) pairs.now)) out.old out.new) }
{
    for i in (0..pairs.len()).rev() {
        let (key, value) = &pairs[i];
        let deeper = sum(i as u64, i as u64)?;
        below.node(emitter, sum(deeper, 1)?, value, out)?;
        below.node(emitter, deeper, key, out)?;
    }
    Ok(())
}

/// Writes the code of a path of constants.
fn path<'a, N: Nodes<'a>>(
    emitter: &Emitter<'_, 'a>,
    below: &N,
    line: u64,
    value: &'a Option<Box<Node>>,
    top: bool,
    names: &[Name],
    out: &mut Output<'a>,
) -> Result<(), NoMemory>
    requires { N.IsReady below.now }
    ensures code { OnOk result (Writes emitter.now.depth (path_shape (where_of emitter.now) (read_other (texts_of emitter.now) value.now) top (map (text_of_name (texts_of emitter.now)) names.now) line) out.old out.new) }
    ensures children { OnOk result (Finds (texts_of emitter.now) (other_direct emitter.now.in_loop (read_other (texts_of emitter.now) value.now)) out.old out.new) }
{
    let names = emitter.texts(names)?;
    match value {
        None => out
            .code
            .write(line, Instr::OptGetConstantPath(top as u64, names)),
        Some(tree) => {
            out.code.write(line, Instr::OptGetConstantPath(2, names))?;
            below.node(emitter, 0, tree, out)
        }
    }
}
