//! The parameters of a body.
ghost use Rattle.std.specs.Prelude.{◌≡◌};
ghost use Rattle.ruby_tree.specs.Names.{Texts};
ghost use Rattle.ruby_tree.specs.Views.{read_kind, read_params, read_definition};
ghost use Rattle.ruby_meaning.specs.Locals.{params_in};
ghost use Rattle.compile_table.specs.Sequences.{count_required, has_rest, has_block};

use ruby_tree::{Definition, Kind, Node, Param};

/// The parameters of a node that is a body.
pub(crate) fn params_of(kind: &Kind<Node>) -> &[Param<Node>]
    ensures { (texts : Texts) → read_params texts result.now ≡ params_in (read_kind texts kind.now) }
{
    match kind {
        Kind::Definition(definition) => params_of_definition(definition),
        Kind::Literal(_) => &[],
        Kind::Variable(_) => &[],
        Kind::Collection(_) => &[],
        Kind::Assignment(_) => &[],
        Kind::Call(_) => &[],
        Kind::Control(_) => &[],
        Kind::Exit(_) => &[],
        Kind::Handler(_) => &[],
    }
}

/// The parameters of a body.
fn params_of_definition(definition: &Definition<Node>) -> &[Param<Node>]
    ensures { (texts : Texts) → read_params texts result.now ≡ params_in (read_definition texts definition.now) }
{
    match definition {
        Definition::Body(params, _) => params,
        Definition::Method(_, _, _) => &[],
        Definition::Class(_, _, _) => &[],
        Definition::Module(_, _) => &[],
    }
}

/// How many parameters have to be given.
pub(crate) fn count_required(params: &[Param<Node>]) -> u64
    ensures { (texts : Texts) → result ≡ count_required (read_params texts params.now) }
{
    let mut count = 0;
    for param in params {
        match param {
            Param::Required(_) => count += 1,
            Param::Optional(_, _) => {}
            Param::Rest(_) => {}
            Param::Block(_) => {}
        }
    }
    count
}

/// Whether one takes the arguments that are left.
pub(crate) fn has_rest(params: &[Param<Node>]) -> bool
    ensures { (texts : Texts) → result ≡ has_rest (read_params texts params.now) }
{
    for param in params {
        match param {
            Param::Rest(_) => return true,
            Param::Required(_) => {}
            Param::Optional(_, _) => {}
            Param::Block(_) => {}
        }
    }
    false
}

/// Whether one takes the block.
pub(crate) fn has_block(params: &[Param<Node>]) -> bool
    ensures { (texts : Texts) → result ≡ has_block (read_params texts params.now) }
{
    for param in params {
        match param {
            Param::Block(_) => return true,
            Param::Required(_) => {}
            Param::Optional(_, _) => {}
            Param::Rest(_) => {}
        }
    }
    false
}
