//! Finds the places of sequences in the lists of a node, each of which is one loop.
#![tactic(auto, using(crate::proofs::Walked::walked, std::proofs::lemmas::Grind::common_steps))]

ghost use Rattle.std.specs.Prelude.{◌≡◌, ◌++◌, [], OnOk};
ghost use Rattle.ruby_tree.specs.Tree.{no_piece, no_param};
ghost use Rattle.ruby_tree.specs.Views.{read_all, read_other, read_pairs, read_part, read_parts, read_whens, read_clauses, read_param, read_params};
ghost use Rattle.ruby_meaning.specs.Sequences.{trees_places, other_places, pairs_places, pieces_places, whens_places, clauses_places, params_places};

use crate::walk::add_tree;
use bs_outside::NoMemory;
use ruby_tree::{Name, Node, Param, TextPart};

/// Adds the places in several trees.
#[cycle(walk)]
pub fn add_trees(found: &mut Vec<u64>, nodes: &[Node]) -> Result<(), NoMemory>
    ensures { OnOk result (found.new.items ≡ found.old.items ++ trees_places (read_all [] nodes.now)) }
{
    for node in nodes {
        add_tree(found, node)?;
    }
    Ok(())
}

/// Adds the places in a part that may be missing.
#[cycle(walk)]
pub fn add_other(found: &mut Vec<u64>, node: &Option<Box<Node>>) -> Result<(), NoMemory>
    ensures { OnOk result (found.new.items ≡ found.old.items ++ other_places (read_other [] node.now)) }
{
    match node {
        Some(node) => add_tree(found, node),
        None => Ok(()),
    }
}

/// Adds the places in the keys and values of a hash.
#[cycle(walk)]
pub fn add_pairs(found: &mut Vec<u64>, pairs: &[(Node, Node)]) -> Result<(), NoMemory>
    ensures { OnOk result (found.new.items ≡ found.old.items ++ pairs_places (read_pairs [] pairs.now)) }
{
    for pair in pairs {
        add_tree(found, &pair.0)?;
        add_tree(found, &pair.1)?;
    }
    Ok(())
}

/// Adds the places in the parts of a text.
#[cycle(walk)]
pub fn add_parts(found: &mut Vec<u64>, parts: &[TextPart<Node>]) -> Result<(), NoMemory>
    ensures { OnOk result (found.new.items ≡ found.old.items ++ pieces_places (read_parts [] parts.now)) }
{
    for part in parts {
        add_part(found, part)?;
    }
    Ok(())
}

/// Adds the places in a part of a text.
#[cycle(walk)]
fn add_part(found: &mut Vec<u64>, part: &TextPart<Node>) -> Result<(), NoMemory>
    ensures { OnOk result (found.new.items ≡ found.old.items ++ pieces_places (read_part [] part.now no_piece)) }
{
    match part {
        TextPart::Plain(_) => Ok(()),
        TextPart::Code(node) => add_tree(found, node),
    }
}

/// Adds the places in what a case is compared with, and in the bodies.
#[cycle(walk)]
pub fn add_whens(found: &mut Vec<u64>, whens: &[(Vec<Node>, Node)]) -> Result<(), NoMemory>
    ensures { OnOk result (found.new.items ≡ found.old.items ++ whens_places (read_whens [] whens.now)) }
{
    for when in whens {
        add_trees(found, &when.0)?;
        add_tree(found, &when.1)?;
    }
    Ok(())
}

/// Adds the places in the classes of rescue clauses, and in the bodies.
#[cycle(walk)]
pub fn add_clauses(
    found: &mut Vec<u64>,
    clauses: &[(Vec<Node>, Option<Name>, Node)],
) -> Result<(), NoMemory>
    ensures { OnOk result (found.new.items ≡ found.old.items ++ clauses_places (read_clauses [] clauses.now)) }
{
    for clause in clauses {
        add_trees(found, &clause.0)?;
        add_tree(found, &clause.2)?;
    }
    Ok(())
}

/// Adds the places in what the parameters are where no argument is given.
#[cycle(walk)]
pub fn add_params(found: &mut Vec<u64>, params: &[Param<Node>]) -> Result<(), NoMemory>
    ensures { OnOk result (found.new.items ≡ found.old.items ++ params_places (read_params [] params.now)) }
{
    for param in params {
        add_param(found, param)?;
    }
    Ok(())
}

/// Adds the places in a parameter.
#[cycle(walk)]
fn add_param(found: &mut Vec<u64>, param: &Param<Node>) -> Result<(), NoMemory>
    ensures { OnOk result (found.new.items ≡ found.old.items ++ params_places (read_param [] param.now no_param)) }
{
    match param {
        Param::Optional(_, node) => add_tree(found, node),
        Param::Required(_) => Ok(()),
        Param::Rest(_) => Ok(()),
        Param::Block(_) => Ok(()),
    }
}
