//! The sequences that are made of the code that was written.
ghost use Rattle.std.specs.Prelude.{◌≡◌, IfOk, [], map};
ghost use Rattle.ruby_tree.specs.Read.{tree_of};
ghost use Rattle.ruby_meaning.specs.Locals.{params_of, first_line_of};
ghost use Rattle.compile_table.specs.Sequences.{count_required, has_rest, has_block};
ghost use Rattle.local_scopes.specs.Opened.{sight, innermost_names};
ghost use Rattle.code_emitter.specs.Emitting.{name_or_none};
ghost use Rattle.yarv_compile.specs.Finishing.{body_with, part_with, sequence_with};

use crate::params;
use bs_outside::{Items, NoMemory, Text, Texts};
use code_writer::Code;
use iseq_types::{SeqKind, Sequence};
use local_scopes::LocalScopes;
use ruby_tree::{Name, Node, SymbolTable};
use std::alloc::Global;

/// The names of the locals of the innermost body.
pub(crate) fn locals(alloc: Global, scopes: &LocalScopes<'_>) -> Result<Texts, NoMemory>
    ensures { IfOk result (λ locals. locals ≡ innermost_names (sight scopes.now).scopes) }
{
    copies(alloc, scopes.locals())
}

/// Copies of texts.
fn copies(alloc: Global, names: &[&[u8]]) -> Result<Texts, NoMemory>
    ensures { IfOk result (λ copies. copies ≡ map (λ name. name.now) names.now) }
{
    let mut copies = Items::new(alloc);
    for name in names {
        copies.push(Text::new(alloc, name)?)?;
    }
    Ok(copies)
}

/// The text of a name, or of none.
fn text_or_none(alloc: Global, symbols: &SymbolTable, name: Option<Name>) -> Result<Text, NoMemory>
    ensures { IfOk result (λ text. text ≡ name_or_none symbols.now name) }
{
    match name {
        Some(name) => Text::new(alloc, symbols.text(name)),
        None => Text::new(alloc, b""),
    }
}

/// The sequence of the innermost body.
#[tactic(auto, using(crate::proofs::Opened::params_read, crate::proofs::Opened::first_line))]
fn body(
    alloc: Global,
    symbols: &SymbolTable,
    scopes: &LocalScopes<'_>,
    name: Option<Name>,
    tree: &Node,
    code: Code,
    entries: Items<u64>,
) -> Result<Sequence, NoMemory>
    ensures { IfOk result (λ made. made ≡ body_with (name_or_none symbols.now name) (innermost_names (sight scopes.now).scopes) (tree_of symbols.now tree.now) code entries) }
{
    let params = params::params_of(&tree.kind);
    Ok(Sequence {
        name: text_or_none(alloc, symbols, name)?,
        first_line: tree.first,
        locals: locals(alloc, scopes)?,
        required: params::count_required(params),
        entries,
        rest: params::has_rest(params),
        block: params::has_block(params),
        rows: code.rows,
        code: code.lines,
    })
}

/// The sequence of a rescue or ensure part.
#[tactic(auto, using(crate::proofs::Opened::first_line))]
fn part(alloc: Global, tree: &Node, code: Code) -> Result<Sequence, NoMemory>
    ensures { IfOk result (λ made. (texts : _) → made ≡ part_with (tree_of texts tree.now) code) }
{
    Ok(Sequence {
        name: Text::new(alloc, b"")?,
        first_line: tree.first,
        locals: Items::new(alloc),
        required: 0,
        entries: Items::new(alloc),
        rest: false,
        block: false,
        rows: code.rows,
        code: code.lines,
    })
}

/// The sequence of a kind, where the innermost body is its own, or for a part that around it.
pub(crate) fn sequence(
    alloc: Global,
    symbols: &SymbolTable,
    scopes: &LocalScopes<'_>,
    kind: SeqKind,
    name: Option<Name>,
    tree: &Node,
    code: Code,
    entries: Items<u64>,
) -> Result<Sequence, NoMemory>
    ensures { IfOk result (λ made. made ≡ sequence_with kind (name_or_none symbols.now name) (innermost_names (sight scopes.now).scopes) (tree_of symbols.now tree.now) code entries) }
{
    match kind {
        SeqKind::Rescue | SeqKind::Ensure => part(alloc, tree, code),
        SeqKind::File | SeqKind::Method | SeqKind::Class | SeqKind::Block => {
            body(alloc, symbols, scopes, name, tree, code, entries)
        }
    }
}
