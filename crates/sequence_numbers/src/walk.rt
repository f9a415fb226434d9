//! Finds the places of sequences, on one way down a tree.
#![tactic(auto, using(crate::proofs::Walked::walked, std::proofs::lemmas::Grind::common_steps))]

ghost use Rattle.std.specs.Prelude.{◌≡◌, ◌++◌, [], OnOk};
ghost use Rattle.ruby_tree.specs.Read.{tree_of};
ghost use Rattle.ruby_tree.specs.Views.{read_kind, read_collection, read_assignment, read_call, read_control, read_exit, read_handler, read_definition};
ghost use Rattle.ruby_meaning.specs.Sequences.{places};
ghost use Rattle.sequence_numbers.specs.NodePlaces.{is_sequence, part_places};

use crate::lists::{
    add_clauses, add_other, add_pairs, add_params, add_parts, add_trees, add_whens,
};
use bs_outside::NoMemory;
use ruby_tree::{Assignment, Call, Collection, Control, Definition, Exit, Handler, Kind, Node};

/// Adds the places in a tree.
#[cycle(walk)]
pub fn add_tree(found: &mut Vec<u64>, node: &Node) -> Result<(), NoMemory>
    ensures { OnOk result (found.new.items ≡ found.old.items ++ places (tree_of [] node.now)) }
{
    if begins_sequence(&node.kind) {
        found.push(node.place)?;
    }
    add_kind(found, &node.kind)
}

/// Whether a node of this kind is a sequence of its own.
#[tactic(auto)]
fn begins_sequence(kind: &Kind<Node>) -> bool
    ensures { result ≡ is_sequence (read_kind [] kind.now) }
{
    match kind {
        Kind::Definition(Definition::Body(_, _)) => true,
        Kind::Handler(Handler::RescueSequence(_)) => true,
        Kind::Handler(Handler::EnsureSequence(_)) => true,
        _ => false,
    }
}

/// Adds the places in the parts of a node.
#[cycle(walk)]
fn add_kind(found: &mut Vec<u64>, kind: &Kind<Node>) -> Result<(), NoMemory>
    ensures { OnOk result (found.new.items ≡ found.old.items ++ part_places (read_kind [] kind.now)) }
{
    match kind {
        Kind::Literal(_) => Ok(()),
        Kind::Variable(_) => Ok(()),
        Kind::Collection(collection) => add_collection(found, collection),
        Kind::Assignment(assignment) => add_assignment(found, assignment),
        Kind::Call(call) => add_call(found, call),
        Kind::Control(control) => add_control(found, control),
        Kind::Exit(exit) => add_exit(found, exit),
        Kind::Handler(handler) => add_handler(found, handler),
        Kind::Definition(definition) => add_definition(found, definition),
    }
}

/// Adds the places in the elements.
#[cycle(walk)]
fn add_collection(found: &mut Vec<u64>, collection: &Collection<Node>) -> Result<(), NoMemory>
    ensures { OnOk result (found.new.items ≡ found.old.items ++ part_places (read_collection [] collection.now)) }
{
    match collection {
        Collection::Text(parts) => add_parts(found, parts),
        Collection::Array(nodes, _) => add_trees(found, nodes),
        Collection::Hash(pairs) => add_pairs(found, pairs),
        Collection::Range(first, last, _) => {
            add_tree(found, first)?;
            add_tree(found, last)
        }
        Collection::ConstantPath(value, _, _) => add_other(found, value),
    }
}

/// Adds the places in what is set, and in what it is set to.
#[cycle(walk)]
fn add_assignment(found: &mut Vec<u64>, assignment: &Assignment<Node>) -> Result<(), NoMemory>
    ensures { OnOk result (found.new.items ≡ found.old.items ++ part_places (read_assignment [] assignment.now)) }
{
    match assignment {
        Assignment::Single(value, _) => add_tree(found, value),
        Assignment::Multiple(values, _) => add_trees(found, values),
        Assignment::Attribute(receiver, value, _) => {
            add_tree(found, receiver)?;
            add_tree(found, value)
        }
        Assignment::AttributeOperator(receiver, _, value, _, _, _) => {
            add_tree(found, receiver)?;
            add_tree(found, value)
        }
        Assignment::AttributeOr(receiver, _, value, _) => {
            add_tree(found, receiver)?;
            add_tree(found, value)
        }
        Assignment::AttributeAnd(receiver, _, value, _) => {
            add_tree(found, receiver)?;
            add_tree(found, value)
        }
        Assignment::Index(receiver, index, value)
        | Assignment::IndexOr(receiver, index, value)
        | Assignment::IndexAnd(receiver, index, value) => {
            add_tree(found, receiver)?;
            add_tree(found, index)?;
            add_tree(found, value)
        }
        Assignment::IndexOperator(receiver, index, value, _, _) => {
            add_tree(found, receiver)?;
            add_tree(found, index)?;
            add_tree(found, value)
        }
    }
}

/// Adds the places in the receiver, the arguments and the block.
#[cycle(walk)]
fn add_call(found: &mut Vec<u64>, call: &Call<Node>) -> Result<(), NoMemory>
    ensures { OnOk result (found.new.items ≡ found.old.items ++ part_places (read_call [] call.now)) }
{
    match call {
        Call::Send(receiver, arguments, _, value, _, _, block) => {
            add_other(found, receiver)?;
            add_trees(found, arguments)?;
            add_other(found, value)?;
            add_other(found, block)
        }
        Call::SafeSend(receiver, arguments, _, value, _, block) => {
            add_tree(found, receiver)?;
            add_trees(found, arguments)?;
            add_other(found, value)?;
            add_other(found, block)
        }
        Call::Yield(arguments, _) => add_trees(found, arguments),
        Call::Super(arguments, _, value, block) => {
            add_trees(found, arguments)?;
            add_other(found, value)?;
            add_other(found, block)
        }
        Call::BareSuper(block) => add_other(found, block),
        Call::BareRaise => Ok(()),
    }
}

/// Adds the places in the statements, and in what chooses among them.
#[cycle(walk)]
fn add_control(found: &mut Vec<u64>, control: &Control<Node>) -> Result<(), NoMemory>
    ensures { OnOk result (found.new.items ≡ found.old.items ++ part_places (read_control [] control.now)) }
{
    match control {
        Control::Statements(nodes) => add_trees(found, nodes),
        Control::And(left, right) => {
            add_tree(found, left)?;
            add_tree(found, right)
        }
        Control::Or(left, right) => {
            add_tree(found, left)?;
            add_tree(found, right)
        }
        Control::Not(node) => add_tree(found, node),
        Control::If(test, then, other) => {
            add_tree(found, test)?;
            add_tree(found, then)?;
            add_other(found, other)
        }
        Control::While(body, test, _, _) => {
            add_tree(found, body)?;
            add_tree(found, test)
        }
        Control::Case(value, whens, other) => {
            add_tree(found, value)?;
            add_whens(found, whens)?;
            add_other(found, other)
        }
        Control::CaseTests(whens, other) => {
            add_whens(found, whens)?;
            add_other(found, other)
        }
    }
}

/// Adds the places in the values.
#[cycle(walk)]
fn add_exit(found: &mut Vec<u64>, exit: &Exit<Node>) -> Result<(), NoMemory>
    ensures { OnOk result (found.new.items ≡ found.old.items ++ part_places (read_exit [] exit.now)) }
{
    match exit {
        Exit::Return(values) => add_trees(found, values),
        Exit::Break(values) => add_trees(found, values),
        Exit::Next(values) => add_trees(found, values),
        Exit::Retry => Ok(()),
    }
}

/// Adds the places in the statements and the clauses.
#[cycle(walk)]
fn add_handler(found: &mut Vec<u64>, handler: &Handler<Node>) -> Result<(), NoMemory>
    ensures { OnOk result (found.new.items ≡ found.old.items ++ part_places (read_handler [] handler.now)) }
{
    match handler {
        Handler::Rescue(body, other, clauses) => {
            add_tree(found, body)?;
            add_other(found, other)?;
            add_tree(found, clauses)
        }
        Handler::Ensure(body, last) => {
            add_tree(found, body)?;
            add_tree(found, last)
        }
        Handler::RescueSequence(clauses) => add_clauses(found, clauses),
        Handler::EnsureSequence(body) => add_tree(found, body),
    }
}

/// Adds the places in the body, and in what stands before it.
#[cycle(walk)]
fn add_definition(found: &mut Vec<u64>, definition: &Definition<Node>) -> Result<(), NoMemory>
    ensures { OnOk result (found.new.items ≡ found.old.items ++ part_places (read_definition [] definition.now)) }
{
    match definition {
        Definition::Method(_, body, _) => add_tree(found, body),
        Definition::Class(superclass, _, body) => {
            add_other(found, superclass)?;
            add_tree(found, body)
        }
        Definition::Module(_, body) => add_tree(found, body),
        Definition::Body(params, body) => {
            add_params(found, params)?;
            add_tree(found, body)
        }
    }
}
