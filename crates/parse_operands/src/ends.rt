//! How operands end.
ghost use Rattle.std.specs.Prelude.{◌≡◌, [], ◌∷◌, IfOk};
ghost use Rattle.ruby_lexer.specs.Bytes.{Bytes};
ghost use Rattle.ruby_lexer.specs.Pieces.{Toks};
ghost use Rattle.ruby_tree.specs.Names.{Texts};
ghost use Rattle.ruby_tree.specs.Tree.{Tree};
ghost use Rattle.ruby_tree.specs.Rules.{Scope, next};
ghost use Rattle.tree_builder.specs.Subtrees.{IsNamed, AreNamed, Holds};
ghost use Rattle.reference_parser.specs.Answers.{taken};
ghost use Rattle.reference_parser.specs.ReadItems.{Readers, closed};
ghost use Rattle.reference_parser.specs.ReadBodies.{ended};
ghost use Rattle.parse_state.specs.Standing.{At};
ghost use Rattle.parse_state.specs.Gives.{Gives, Reads};

use bs_outside::NoMemory;
use parse_state::{Context, Failure, Parser};
use ruby_tree::Name;
use std::alloc::Global;
use tree_builder::Subtree;

/// A part that is the first token.
pub fn leaf(parser: &mut Parser<'_>, part: Subtree) -> Result<Subtree, Failure>
    ensures gives { (t : Tree) (w : Toks) (s : Scope) → Holds parser.old.symbols part t → At parser.old w s → Gives Holds parser.old parser.new result (taken t (next w) s) }
{
    parser.bump();
    Ok(part)
}

/// A part, and `end` behind it.
pub fn ended(
    context: Context<'_>,
    parser: &mut Parser<'_>,
    part: Subtree,
) -> Result<Subtree, Failure>
    ensures reads { (Q : Readers) (t : Tree) → Holds parser.old.symbols part t → Reads Holds parser.old parser.new result (ended context.entry.source.now Q t) }
{
    parser.expect_word(context, "end")?;
    Ok(part)
}

/// A part, and behind it a comma or none, and the bracket that closes a list.
pub fn closed(
    context: Context<'_>,
    parser: &mut Parser<'_>,
    bracket: &str,
    part: Subtree,
) -> Result<Subtree, Failure>
    ensures reads { (t : Tree) → Holds parser.old.symbols part t → Reads Holds parser.old parser.new result (closed context.entry.source.now bracket.now t) }
{
    parser.expect_closing(context, bracket)?;
    Ok(part)
}

/// A name alone.
pub fn one_name(alloc: Global, name: Name) -> Result<Vec<Name>, NoMemory>
    ensures { (T : Texts) (x : Bytes) → IsNamed T name x → IfOk result (λ names. AreNamed T names.items (x ∷ [])) }
{
    let mut names = Vec::new(alloc);
    names.push(name)?;
    Ok(names)
}
