//! Gathers the names of a body.
ghost use Rattle.std.specs.Prelude.{◌≡◌, ℕ, OnOk};
ghost use Rattle.ruby_meaning.specs.Locals.{of_tree, of_form, of_block, by_place, by_places, place_of};
ghost use Rattle.ruby_tree.specs.Read.{tree_of};
ghost use Rattle.ruby_tree.specs.Views.{read_kind, read_collection, read_assignment, read_call, read_control, read_exit, read_handler, read_definition, read_other};
ghost use Rattle.local_scopes.specs.Gathering.{gathered};

mod lists;

use crate::known::Known;
use bs_outside::NoMemory;
use lists::{clauses, other, pairs, params, parts, target, targets, trees, whens};
use ruby_tree::{
    Assignment, Call, Collection, Control, Definition, Exit, Handler, Kind, Node, SymbolTable,
};

/// Gathers the names of a part of a body, and notes each block in it. The bodies of blocks, methods and classes are left out.
#[cycle(gather)]
#[tactic(auto, using(crate::proofs::Walked::walked, std::proofs::lemmas::Grind::common_steps))]
pub(crate) fn tree<'a>(
    symbols: &'a SymbolTable,
    known: &mut Known<'a>,
    node: &Node,
) -> Result<(), NoMemory>
    ensures { OnOk result ((place : ℕ) → gathered known.new place ≡ of_tree place (tree_of symbols.now node.now) (gathered known.old place)) }
{
    kind(symbols, known, &node.kind)
}

/// Of the parts of a node.
#[cycle(gather)]
#[tactic(auto, using(crate::proofs::Walked::walked, std::proofs::lemmas::Grind::common_steps))]
fn kind<'a>(
    symbols: &'a SymbolTable,
    known: &mut Known<'a>,
    kind: &Kind<Node>,
) -> Result<(), NoMemory>
    ensures { OnOk result ((place : ℕ) → gathered known.new place ≡ of_form place (read_kind symbols.now kind.now) (gathered known.old place)) }
{
    match kind {
        Kind::Literal(_) => Ok(()),
        Kind::Variable(_) => Ok(()),
        Kind::Collection(group) => collection(symbols, known, group),
        Kind::Assignment(group) => assignment(symbols, known, group),
        Kind::Call(group) => call(symbols, known, group),
        Kind::Control(group) => control(symbols, known, group),
        Kind::Exit(group) => exit(symbols, known, group),
        Kind::Handler(group) => handler(symbols, known, group),
        Kind::Definition(group) => definition(symbols, known, group),
    }
}

/// Of the elements.
#[cycle(gather)]
#[tactic(auto, using(crate::proofs::Walked::walked, std::proofs::lemmas::Grind::common_steps))]
fn collection<'a>(
    symbols: &'a SymbolTable,
    known: &mut Known<'a>,
    collection: &Collection<Node>,
) -> Result<(), NoMemory>
    ensures { OnOk result ((place : ℕ) → gathered known.new place ≡ of_form place (read_collection symbols.now collection.now) (gathered known.old place)) }
{
    match collection {
        Collection::Text(all) => parts(symbols, known, all),
        Collection::Array(nodes, _) => trees(symbols, known, nodes),
        Collection::Hash(all) => pairs(symbols, known, all),
        Collection::Range(first, last, _) => {
            tree(symbols, known, first)?;
            tree(symbols, known, last)
        }
        Collection::ConstantPath(value, _, _) => other(symbols, known, value),
    }
}

/// Of what is set: the target comes before the value.
#[cycle(gather)]
#[tactic(auto, using(crate::proofs::Walked::walked, std::proofs::lemmas::Grind::common_steps))]
fn assignment<'a>(
    symbols: &'a SymbolTable,
    known: &mut Known<'a>,
    assignment: &Assignment<Node>,
) -> Result<(), NoMemory>
    ensures { OnOk result ((place : ℕ) → gathered known.new place ≡ of_form place (read_assignment symbols.now assignment.now) (gathered known.old place)) }
{
    match assignment {
        Assignment::Single(value, goal) => {
            target(symbols, known, goal)?;
            tree(symbols, known, value)
        }
        Assignment::Multiple(values, goals) => {
            targets(symbols, known, goals)?;
            trees(symbols, known, values)
        }
        Assignment::Attribute(receiver, value, _) => {
            tree(symbols, known, receiver)?;
            tree(symbols, known, value)
        }
        Assignment::AttributeOperator(receiver, _, value, _, _, _) => {
            tree(symbols, known, receiver)?;
            tree(symbols, known, value)
        }
        Assignment::AttributeOr(receiver, _, value, _) => {
            tree(symbols, known, receiver)?;
            tree(symbols, known, value)
        }
        Assignment::AttributeAnd(receiver, _, value, _) => {
            tree(symbols, known, receiver)?;
            tree(symbols, known, value)
        }
        Assignment::Index(receiver, index, value) => {
            tree(symbols, known, receiver)?;
            tree(symbols, known, index)?;
            tree(symbols, known, value)
        }
        Assignment::IndexOperator(receiver, index, value, _, _) => {
            tree(symbols, known, receiver)?;
            tree(symbols, known, index)?;
            tree(symbols, known, value)
        }
        Assignment::IndexOr(receiver, index, value) => {
            tree(symbols, known, receiver)?;
            tree(symbols, known, index)?;
            tree(symbols, known, value)
        }
        Assignment::IndexAnd(receiver, index, value) => {
            tree(symbols, known, receiver)?;
            tree(symbols, known, index)?;
            tree(symbols, known, value)
        }
    }
}

/// Of the receiver, the arguments and the block value. The block is noted.
#[cycle(gather)]
#[tactic(auto, using(crate::proofs::Walked::walked, std::proofs::lemmas::Grind::common_steps))]
fn call<'a>(
    symbols: &'a SymbolTable,
    known: &mut Known<'a>,
    call: &Call<Node>,
) -> Result<(), NoMemory>
    ensures { OnOk result ((place : ℕ) → gathered known.new place ≡ of_form place (read_call symbols.now call.now) (gathered known.old place)) }
{
    match call {
        Call::Send(receiver, arguments, _, value, _, _, literal) => {
            other(symbols, known, receiver)?;
            trees(symbols, known, arguments)?;
            other(symbols, known, value)?;
            block(symbols, known, literal)
        }
        Call::SafeSend(receiver, arguments, _, value, _, literal) => {
            tree(symbols, known, receiver)?;
            trees(symbols, known, arguments)?;
            other(symbols, known, value)?;
            block(symbols, known, literal)
        }
        Call::Yield(arguments, _) => trees(symbols, known, arguments),
        Call::Super(arguments, _, value, literal) => {
            trees(symbols, known, arguments)?;
            other(symbols, known, value)?;
            block(symbols, known, literal)
        }
        Call::BareSuper(literal) => block(symbols, known, literal),
        Call::BareRaise => Ok(()),
    }
}

/// Notes the block of a call.
fn block<'a>(
    symbols: &SymbolTable,
    known: &mut Known<'a>,
    block: &Option<Box<Node>>,
) -> Result<(), NoMemory>
    ensures { OnOk result ((place : ℕ) → gathered known.new place ≡ of_block place (read_other symbols.now block.now) (gathered known.old place)) }
{
    match block {
        Some(node) => known.mark(node.place),
        None => Ok(()),
    }
}

/// Of the statements and of what chooses among them, in the order of the text.
#[cycle(gather)]
#[tactic(auto, using(crate::proofs::Walked::walked, std::proofs::lemmas::Grind::common_steps))]
fn control<'a>(
    symbols: &'a SymbolTable,
    known: &mut Known<'a>,
    control: &Control<Node>,
) -> Result<(), NoMemory>
    ensures { OnOk result ((place : ℕ) → gathered known.new place ≡ of_form place (read_control symbols.now control.now) (gathered known.old place)) }
{
    match control {
        Control::Statements(nodes) => trees(symbols, known, nodes),
        Control::And(left, right) => {
            tree(symbols, known, left)?;
            tree(symbols, known, right)
        }
        Control::Or(left, right) => {
            tree(symbols, known, left)?;
            tree(symbols, known, right)
        }
        Control::Not(node) => tree(symbols, known, node),
        Control::If(test, then, last) => match last {
            Some(last) => three(symbols, known, test, then, last),
            None => two(symbols, known, test, then),
        },
        Control::While(body, test, _, _) => two(symbols, known, body, test),
        Control::Case(value, all, last) => {
            tree(symbols, known, value)?;
            whens(symbols, known, all)?;
            other(symbols, known, last)
        }
        Control::CaseTests(all, last) => {
            whens(symbols, known, all)?;
            other(symbols, known, last)
        }
    }
}

/// Of two parts, in the order of their places.
#[cycle(gather)]
#[tactic(auto, using(crate::proofs::Walked::walked, std::proofs::lemmas::Grind::common_steps))]
fn two<'a>(
    symbols: &'a SymbolTable,
    known: &mut Known<'a>,
    first: &Node,
    second: &Node,
) -> Result<(), NoMemory>
    ensures { OnOk result ((place : ℕ) → gathered known.new place ≡ by_place (place_of (tree_of symbols.now first.now)) (of_tree place (tree_of symbols.now first.now)) (place_of (tree_of symbols.now second.now)) (of_tree place (tree_of symbols.now second.now)) (gathered known.old place)) }
{
    if first.place <= second.place {
        tree(symbols, known, first)?;
        tree(symbols, known, second)
    } else {
        tree(symbols, known, second)?;
        tree(symbols, known, first)
    }
}

/// Of three parts, in the order of their places.
#[cycle(gather)]
#[tactic(auto, using(crate::proofs::Walked::walked, std::proofs::lemmas::Grind::common_steps))]
fn three<'a>(
    symbols: &'a SymbolTable,
    known: &mut Known<'a>,
    first: &Node,
    second: &Node,
    third: &Node,
) -> Result<(), NoMemory>
    ensures { OnOk result ((place : ℕ) → gathered known.new place ≡ by_places (place_of (tree_of symbols.now first.now)) (of_tree place (tree_of symbols.now first.now)) (place_of (tree_of symbols.now second.now)) (of_tree place (tree_of symbols.now second.now)) (place_of (tree_of symbols.now third.now)) (of_tree place (tree_of symbols.now third.now)) (gathered known.old place)) }
{
    if first.place <= second.place {
        if first.place <= third.place {
            tree(symbols, known, first)?;
            two(symbols, known, second, third)
        } else {
            tree(symbols, known, third)?;
            tree(symbols, known, first)?;
            tree(symbols, known, second)
        }
    } else if second.place <= third.place {
        tree(symbols, known, second)?;
        two(symbols, known, first, third)
    } else {
        tree(symbols, known, third)?;
        tree(symbols, known, second)?;
        tree(symbols, known, first)
    }
}

/// Of the values.
#[cycle(gather)]
#[tactic(auto, using(crate::proofs::Walked::walked, std::proofs::lemmas::Grind::common_steps))]
fn exit<'a>(
    symbols: &'a SymbolTable,
    known: &mut Known<'a>,
    exit: &Exit<Node>,
) -> Result<(), NoMemory>
    ensures { OnOk result ((place : ℕ) → gathered known.new place ≡ of_form place (read_exit symbols.now exit.now) (gathered known.old place)) }
{
    match exit {
        Exit::Return(values) => trees(symbols, known, values),
        Exit::Break(values) => trees(symbols, known, values),
        Exit::Next(values) => trees(symbols, known, values),
        Exit::Retry => Ok(()),
    }
}

/// Of the statements and the clauses.
#[cycle(gather)]
#[tactic(auto, using(crate::proofs::Walked::walked, std::proofs::lemmas::Grind::common_steps))]
fn handler<'a>(
    symbols: &'a SymbolTable,
    known: &mut Known<'a>,
    handler: &Handler<Node>,
) -> Result<(), NoMemory>
    ensures { OnOk result ((place : ℕ) → gathered known.new place ≡ of_form place (read_handler symbols.now handler.now) (gathered known.old place)) }
{
    match handler {
        Handler::Rescue(body, last, sequence) => match last {
            Some(last) => three(symbols, known, body, sequence, last),
            None => two(symbols, known, body, sequence),
        },
        Handler::Ensure(body, sequence) => {
            tree(symbols, known, body)?;
            tree(symbols, known, sequence)
        }
        Handler::RescueSequence(all) => clauses(symbols, known, all),
        Handler::EnsureSequence(body) => tree(symbols, known, body),
    }
}

/// Of a superclass, or of the parameters and the statements of a body.
#[cycle(gather)]
#[tactic(auto, using(crate::proofs::Walked::walked, std::proofs::lemmas::Grind::common_steps))]
fn definition<'a>(
    symbols: &'a SymbolTable,
    known: &mut Known<'a>,
    definition: &Definition<Node>,
) -> Result<(), NoMemory>
    ensures { OnOk result ((place : ℕ) → gathered known.new place ≡ of_form place (read_definition symbols.now definition.now) (gathered known.old place)) }
{
    match definition {
        Definition::Method(_, _, _) => Ok(()),
        Definition::Class(superclass, _, _) => other(symbols, known, superclass),
        Definition::Module(_, _) => Ok(()),
        Definition::Body(all, body) => {
            params(symbols, known, all)?;
            tree(symbols, known, body)
        }
    }
}
