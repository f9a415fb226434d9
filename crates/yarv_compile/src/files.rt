//! Compiles the sequences of a file.
ghost use Rattle.std.specs.Prelude.{◌≡◌, false, map, IfOk, IsPermutation};
ghost use Rattle.std.specs.List.Sorted.{IsNonDecreasingBy};
ghost use Rattle.ruby_tree.specs.Read.{tree_of};
ghost use Rattle.ruby_meaning.specs.Levels.{file_sight};
ghost use Rattle.compile_table.specs.Shapes.{Where};
ghost use Rattle.compile_table.specs.Sequences.{sequences};
ghost use Rattle.code_emitter.specs.Children.{direct};
ghost use Rattle.code_emitter.specs.Emitting.{child_of};
ghost use Rattle.yarv_compile.specs.Finishing.{IsWithin, finished_of, finished_file, finished_own};

use crate::bodies;
use crate::nested::{MOST_NESTED, add_children};
use crate::places::SourceFile;
use crate::units::Finished;
use bs_outside::{NoMemory, Text};
use code_emitter::Child;
use emit_sequence::EmittedSequence;
use iseq_types::{SeqKind, Sequence};
use local_scopes::LocalScopes;
use ruby_tree::Node;

/// A file's own sequence, and those in it by the places of their first tokens.
#[derive(Drop)]
pub(crate) struct FileSequences {
    pub own: Finished,
    pub done: Vec<Finished>,
}

/// Compiles the sequences of a file.
pub(crate) fn sequences<'a>(
    file: &SourceFile<'_, 'a>,
    root: &'a Node,
) -> Result<FileSequences, NoMemory>
    ensures own { IfOk result (λ all. all.own ≡ finished_file file.now (tree_of file.now.symbols.now root.now)) }
    ensures done { (l : Where) → IsWithin file.now (file_sight (tree_of file.now.symbols.now root.now)) 0 l → l.loop ≡ false → IfOk result (λ all. IsPermutation (map finished_of (sequences l (tree_of file.now.symbols.now root.now))) all.done.items) }
    ensures order { IfOk result (λ all. IsNonDecreasingBy (λ finished. finished.place) all.done.items) }
{
    let mut scopes = LocalScopes::in_file(file.alloc, file.symbols, root)?;
    let (own, children) = own_sequence(file, &scopes, root)?;
    let mut done = Vec::new(file.alloc);
    add_children(MOST_NESTED, file, &mut scopes, 0, &children, &mut done)?;
    sort(&mut done);
    Ok(FileSequences { own, done })
}

/// Puts sequences in the order of their places.
fn sort(done: &mut Vec<Finished>)
    ensures same { IsPermutation done.old.items done.new.items }
    ensures order { IsNonDecreasingBy (λ finished. finished.place) done.new.items }
{
    done.sort_unstable_by_key(|finished| finished.place);
}

/// Compiles a file's own sequence, and answers those that stand directly in it.
fn own_sequence<'a>(
    file: &SourceFile<'_, 'a>,
    scopes: &LocalScopes<'a>,
    root: &'a Node,
) -> Result<(Finished, Vec<Child<'a>>), NoMemory>
    ensures own { IfOk result (λ made. made.0 ≡ finished_own file.now scopes.now (tree_of file.now.symbols.now root.now)) }
    ensures inner { IfOk result (λ made. map (child_of file.now.symbols.now) made.1.items ≡ direct false (tree_of file.now.symbols.now root.now)) }
{
    let emitter = file.emitter(scopes, SeqKind::File, false, 1);
    let EmittedSequence {
        code,
        entries,
        children,
    } = emit_sequence::file(&emitter, root)?;
    let body = Sequence {
        name: Text::new(file.alloc, b"")?,
        first_line: 1,
        locals: bodies::locals(file.alloc, scopes)?,
        required: 0,
        entries,
        rest: false,
        block: false,
        rows: code.rows,
        code: code.lines,
    };
    let own = Finished {
        place: 0,
        kind: SeqKind::File,
        parent: 0,
        body,
    };
    Ok((own, children))
}
