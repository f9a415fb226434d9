//! Where sequences stand whose code is written, and what is in sight there.
ghost use Rattle.std.specs.Prelude.{◌≡◌, OnOk};
ghost use Rattle.ruby_tree.specs.Read.{tree_of};
ghost use Rattle.local_scopes.specs.Opened.{sights, sight};
ghost use Rattle.code_emitter.specs.Emitting.{where_of, texts_of};
ghost use Rattle.compile_table.specs.Sequences.{depth_in};
ghost use Rattle.yarv_compile.specs.Finishing.{standing, sight_within, without_inner, loop_within};

use bs_outside::{NoMemory, Text};
use code_emitter::{Child, Emitter};
use iseq_types::SeqKind;
use local_scopes::LocalScopes;
use ruby_tree::{Node, SymbolTable};
use sequence_numbers::SequenceNumbers;
use std::alloc::Global;

/// The file that is compiled.
#[derive(Drop)]
pub(crate) struct SourceFile<'s, 'a> {
    pub alloc: Global,
    /// The names in the file.
    pub symbols: &'a SymbolTable,
    pub path: &'s Text,
    /// The numbers of its sequences.
    pub numbers: &'s SequenceNumbers,
}

/// What a sequence stands in: another one of this number, in a loop of it or not.
impl<'s, 'a> SourceFile<'s, 'a> {
    /// Within a sequence of this kind and first line, where these bodies are open and a loop of the
    /// sequence around it is or is not.
    pub fn emitter<'e>(
        &'e self,
        scopes: &'e LocalScopes<'a>,
        kind: SeqKind,
        in_loop: bool,
        first: u64,
    ) -> Emitter<'e, 'a>
        ensures place { where_of result ≡ standing self.now scopes.now (loop_within kind in_loop) first }
        ensures texts { texts_of result ≡ self.now.symbols.now }
        ensures depth { result.depth ≡ depth_in kind }
        ensures loops { result.in_loop ≡ loop_within kind in_loop }
    {
        Emitter {
            alloc: self.alloc,
            symbols: self.symbols,
            path: self.path,
            numbers: self.numbers,
            scopes,
            in_loop: stays_in_loop(kind, in_loop),
            first,
            depth: first_depth(kind),
        }
    }
}

/// Whether the nodes of a sequence stand in a loop. A body begins anew.
fn stays_in_loop(kind: SeqKind, in_loop: bool) -> bool
    ensures { result ≡ loop_within kind in_loop }
{
    match kind {
        SeqKind::Rescue | SeqKind::Ensure => in_loop,
        SeqKind::File | SeqKind::Method | SeqKind::Class | SeqKind::Block => false,
    }
}

/// How many values a sequence begins with: a rescue part has the exception.
fn first_depth(kind: SeqKind) -> u64
    ensures { result ≡ depth_in kind }
{
    match kind {
        SeqKind::Rescue => 1,
        SeqKind::Ensure => 0,
        SeqKind::File | SeqKind::Method | SeqKind::Class | SeqKind::Block => 0,
    }
}

/// Goes into a sequence of this kind. A part sees what the sequence around it sees.
pub(crate) fn enter<'a>(
    alloc: Global,
    symbols: &'a SymbolTable,
    scopes: &mut LocalScopes<'a>,
    kind: SeqKind,
    tree: &'a Node,
) -> Result<(), NoMemory>
    ensures back { OnOk result (without_inner kind scopes.new ≡ scopes.old) }
    ensures sight { OnOk result (sight scopes.new ≡ sight_within kind (sight scopes.old) (tree_of symbols.now tree.now)) }
{
    match kind {
        SeqKind::Rescue | SeqKind::Ensure => Ok(()),
        SeqKind::Block => scopes.enter_block(alloc, symbols, tree),
        SeqKind::File | SeqKind::Method | SeqKind::Class => {
            scopes.enter_body(alloc, symbols, tree)
        }
    }
}

/// Leaves a sequence of this kind.
pub(crate) fn leave(scopes: &mut LocalScopes<'_>, kind: SeqKind)
    ensures { scopes.new ≡ without_inner kind scopes.old }
{
    match kind {
        SeqKind::Rescue | SeqKind::Ensure => {}
        SeqKind::File | SeqKind::Method | SeqKind::Class | SeqKind::Block => scopes.leave(),
    }
}
