//! Gathers the names in the lists of a node, each of which is one loop.
ghost use Rattle.std.specs.Prelude.{◌≡◌, ℕ, map, OnOk};
ghost use Rattle.ruby_meaning.specs.Locals.{of_trees, of_other, of_pairs, of_pieces, of_whens, of_clauses, of_params, of_goal, of_goals, of_name};
ghost use Rattle.ruby_tree.specs.Tree.{no_piece, no_param};
ghost use Rattle.ruby_tree.specs.Read.{goal_of, text_of_option};
ghost use Rattle.ruby_tree.specs.Views.{read_all, read_other, read_pairs, read_part, read_parts, read_whens, read_clauses, read_param, read_params};
ghost use Rattle.local_scopes.specs.Gathering.{gathered};

use super::tree;
use crate::known::Known;
use bs_outside::NoMemory;
use ruby_tree::{Name, Node, Param, SymbolTable, Target, TextPart};

/// Of several trees.
#[cycle(gather)]
#[tactic(auto, using(crate::proofs::Walked::walked, std::proofs::lemmas::Grind::common_steps))]
pub(super) fn trees<'a>(
    symbols: &'a SymbolTable,
    known: &mut Known<'a>,
    nodes: &[Node],
) -> Result<(), NoMemory>
    ensures { OnOk result ((place : ℕ) → gathered known.new place ≡ of_trees place (read_all symbols.now nodes.now) (gathered known.old place)) }
{
    for node in nodes {
        tree(symbols, known, node)?;
    }
    Ok(())
}

/// Of a part that may be missing.
#[cycle(gather)]
#[tactic(auto, using(crate::proofs::Walked::walked, std::proofs::lemmas::Grind::common_steps))]
pub(super) fn other<'a>(
    symbols: &'a SymbolTable,
    known: &mut Known<'a>,
    node: &Option<Box<Node>>,
) -> Result<(), NoMemory>
    ensures { OnOk result ((place : ℕ) → gathered known.new place ≡ of_other place (read_other symbols.now node.now) (gathered known.old place)) }
{
    match node {
        Some(node) => tree(symbols, known, node),
        None => Ok(()),
    }
}

/// Of the keys and values of a hash.
#[cycle(gather)]
#[tactic(auto, using(crate::proofs::Walked::walked, std::proofs::lemmas::Grind::common_steps))]
pub(super) fn pairs<'a>(
    symbols: &'a SymbolTable,
    known: &mut Known<'a>,
    pairs: &[(Node, Node)],
) -> Result<(), NoMemory>
    ensures { OnOk result ((place : ℕ) → gathered known.new place ≡ of_pairs place (read_pairs symbols.now pairs.now) (gathered known.old place)) }
{
    for pair in pairs {
        tree(symbols, known, &pair.0)?;
        tree(symbols, known, &pair.1)?;
    }
    Ok(())
}

/// Of the parts of a text.
#[cycle(gather)]
#[tactic(auto, using(crate::proofs::Walked::walked, std::proofs::lemmas::Grind::common_steps))]
pub(super) fn parts<'a>(
    symbols: &'a SymbolTable,
    known: &mut Known<'a>,
    parts: &[TextPart<Node>],
) -> Result<(), NoMemory>
    ensures { OnOk result ((place : ℕ) → gathered known.new place ≡ of_pieces place (read_parts symbols.now parts.now) (gathered known.old place)) }
{
    for each in parts {
        part(symbols, known, each)?;
    }
    Ok(())
}

/// Of a part of a text.
#[cycle(gather)]
#[tactic(auto, using(crate::proofs::Walked::walked, std::proofs::lemmas::Grind::common_steps))]
fn part<'a>(
    symbols: &'a SymbolTable,
    known: &mut Known<'a>,
    part: &TextPart<Node>,
) -> Result<(), NoMemory>
    ensures { OnOk result ((place : ℕ) → gathered known.new place ≡ of_pieces place (read_part symbols.now part.now no_piece) (gathered known.old place)) }
{
    match part {
        TextPart::Plain(_) => Ok(()),
        TextPart::Code(node) => tree(symbols, known, node),
    }
}

/// Of what a case is compared with, and the bodies.
#[cycle(gather)]
#[tactic(auto, using(crate::proofs::Walked::walked, std::proofs::lemmas::Grind::common_steps))]
pub(super) fn whens<'a>(
    symbols: &'a SymbolTable,
    known: &mut Known<'a>,
    whens: &[(Vec<Node>, Node)],
) -> Result<(), NoMemory>
    ensures { OnOk result ((place : ℕ) → gathered known.new place ≡ of_whens place (read_whens symbols.now whens.now) (gathered known.old place)) }
{
    for when in whens {
        trees(symbols, known, &when.0)?;
        tree(symbols, known, &when.1)?;
    }
    Ok(())
}

/// Of the classes of rescue clauses, the names that the exceptions get, and the bodies.
#[cycle(gather)]
#[tactic(auto, using(crate::proofs::Walked::walked, std::proofs::lemmas::Grind::common_steps))]
pub(super) fn clauses<'a>(
    symbols: &'a SymbolTable,
    known: &mut Known<'a>,
    clauses: &[(Vec<Node>, Option<Name>, Node)],
) -> Result<(), NoMemory>
    ensures { OnOk result ((place : ℕ) → gathered known.new place ≡ of_clauses place (read_clauses symbols.now clauses.now) (gathered known.old place)) }
{
    for clause in clauses {
        trees(symbols, known, &clause.0)?;
        name(symbols, known, &clause.1)?;
        tree(symbols, known, &clause.2)?;
    }
    Ok(())
}

/// The name that an exception gets.
fn name<'a>(
    symbols: &'a SymbolTable,
    known: &mut Known<'a>,
    name: &Option<Name>,
) -> Result<(), NoMemory>
    ensures { OnOk result ((place : ℕ) → gathered known.new place ≡ of_name (text_of_option symbols.now name.now) (gathered known.old place)) }
{
    match name {
        Some(name) => known.declare(symbols.text(*name)),
        None => Ok(()),
    }
}

/// Of the parameters, and of what they are where no argument is given.
#[cycle(gather)]
#[tactic(auto, using(crate::proofs::Walked::walked, std::proofs::lemmas::Grind::common_steps))]
pub(super) fn params<'a>(
    symbols: &'a SymbolTable,
    known: &mut Known<'a>,
    params: &[Param<Node>],
) -> Result<(), NoMemory>
    ensures { OnOk result ((place : ℕ) → gathered known.new place ≡ of_params place (read_params symbols.now params.now) (gathered known.old place)) }
{
    for each in params {
        param(symbols, known, each)?;
    }
    Ok(())
}

/// Of a parameter.
#[cycle(gather)]
#[tactic(auto, using(crate::proofs::Walked::walked, std::proofs::lemmas::Grind::common_steps))]
fn param<'a>(
    symbols: &'a SymbolTable,
    known: &mut Known<'a>,
    param: &Param<Node>,
) -> Result<(), NoMemory>
    ensures { OnOk result ((place : ℕ) → gathered known.new place ≡ of_params place (read_param symbols.now param.now no_param) (gathered known.old place)) }
{
    match param {
        Param::Required(name) => known.declare(symbols.text(*name)),
        Param::Optional(name, value) => {
            known.declare(symbols.text(*name))?;
            tree(symbols, known, value)
        }
        Param::Rest(name) => known.declare(symbols.text(*name)),
        Param::Block(name) => known.declare(symbols.text(*name)),
    }
}

/// The locals among several targets.
pub(super) fn targets<'a>(
    symbols: &'a SymbolTable,
    known: &mut Known<'a>,
    targets: &[Target],
) -> Result<(), NoMemory>
    ensures { OnOk result ((place : ℕ) → gathered known.new place ≡ of_goals (map (goal_of symbols.now) targets.now) (gathered known.old place)) }
{
    for each in targets {
        target(symbols, known, each)?;
    }
    Ok(())
}

/// A local that is set.
pub(super) fn target<'a>(
    symbols: &'a SymbolTable,
    known: &mut Known<'a>,
    target: &Target,
) -> Result<(), NoMemory>
    ensures { OnOk result ((place : ℕ) → gathered known.new place ≡ of_goal (goal_of symbols.now target.now) (gathered known.old place)) }
{
    match target {
        Target::Local(name) => known.declare(symbols.text(*name)),
        Target::Instance(_) => Ok(()),
        Target::Global(_) => Ok(()),
        Target::Constant(_) => Ok(()),
    }
}
