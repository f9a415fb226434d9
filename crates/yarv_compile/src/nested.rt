//! Compiles the sequences that stand in a sequence, and those within them.
ghost use Rattle.std.specs.Prelude.{◌≡◌, ◌∷◌, ◌++◌, [], map, IfOk, OnOk, IsPermutation};
ghost use Rattle.ruby_tree.specs.Read.{tree_of};
ghost use Rattle.compile_table.specs.Shapes.{Where};
ghost use Rattle.local_scopes.specs.Opened.{sight};
ghost use Rattle.code_emitter.specs.Children.{direct};
ghost use Rattle.code_emitter.specs.Emitting.{child_of};
ghost use Rattle.yarv_compile.specs.Children.{under, all_under};
ghost use Rattle.yarv_compile.specs.Finishing.{IsWithin, finished_of, finished_child, loop_within};

use crate::bodies;
use crate::places::{self, SourceFile};
use crate::units::Finished;
use bs_outside::NoMemory;
use code_emitter::Child;
use emit_sequence::EmittedSequence;
use local_scopes::LocalScopes;
use std::alloc::AllocError;

/// So many sequences may stand in one another. The tree of a text is at most 200 nodes deep.
pub(crate) const MOST_NESTED: u64 = 256;

/// Compiles sequences that stand directly in one, whose number this is, and those within them.
/// Deeper ones than may stand in one another want more memory than there is.
#[cycle(nested)]
pub(crate) fn add_children<'a>(
    nested: u64,
    file: &SourceFile<'_, 'a>,
    scopes: &mut LocalScopes<'a>,
    parent: usize,
    children: &[Child<'a>],
    done: &mut Vec<Finished>,
) -> Result<(), NoMemory>
    ensures scopes { OnOk result (scopes.new ≡ scopes.old) }
    ensures done { (l : Where) → IsWithin file.now (sight scopes.old) parent l → OnOk result (IsPermutation (done.old.items ++ map finished_of (all_under l (map (child_of file.now.symbols.now) children.now))) done.new.items) }
{
    for child in children {
        add_child(nested, file, scopes, parent, child, done)?;
    }
    Ok(())
}

/// Compiles a sequence, and those within it.
#[cycle(nested)]
fn add_child<'a>(
    nested: u64,
    file: &SourceFile<'_, 'a>,
    scopes: &mut LocalScopes<'a>,
    parent: usize,
    child: &Child<'a>,
    done: &mut Vec<Finished>,
) -> Result<(), NoMemory>
    ensures scopes { OnOk result (scopes.new ≡ scopes.old) }
    ensures done { (l : Where) → IsWithin file.now (sight scopes.old) parent l → OnOk result (IsPermutation (done.old.items ++ map finished_of (under l (child_of file.now.symbols.now child.now))) done.new.items) }
{
    if nested == 0 {
        return Err(AllocError);
    }
    places::enter(file.alloc, file.symbols, scopes, child.kind, child.tree)?;
    let inner = add_own(file, scopes, parent, child, done)?;
    let number = file.numbers.number(child.tree.place);
    add_children(nested - 1, file, scopes, number, &inner, done)?;
    places::leave(scopes, child.kind);
    Ok(())
}

/// Compiles a sequence whose bodies are open, and answers those that stand directly in it.
fn add_own<'a>(
    file: &SourceFile<'_, 'a>,
    scopes: &LocalScopes<'a>,
    parent: usize,
    child: &Child<'a>,
    done: &mut Vec<Finished>,
) -> Result<Vec<Child<'a>>, NoMemory>
    ensures done { OnOk result (done.new.items ≡ done.old.items ++ finished_child file.now scopes.now parent (child_of file.now.symbols.now child.now) ∷ []) }
    ensures inner { IfOk result (λ inner. map (child_of file.now.symbols.now) inner.items ≡ direct (loop_within child.now.kind child.now.in_loop) (tree_of file.now.symbols.now child.now.tree.now)) }
{
    let emitter = file.emitter(scopes, child.kind, child.in_loop, child.tree.first);
    let EmittedSequence {
        code,
        entries,
        children,
    } = emit_sequence::sequence(&emitter, child.tree)?;
    let body = bodies::sequence(
        file.alloc,
        file.symbols,
        scopes,
        child.kind,
        child.name,
        child.tree,
        code,
        entries,
    )?;
    done.push(Finished {
        place: child.tree.place,
        kind: child.kind,
        parent,
        body,
    })?;
    Ok(children)
}
