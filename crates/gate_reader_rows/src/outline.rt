//! Trees as text.

mod lists;
mod names;
mod words;

use crate::pieces::Pieces;
use ruby_tree::{
    Assignment, Call, Collection, Control, Definition, Exit, Handler, Kind, Node, Program,
    SymbolTable,
};
use std::alloc::{AllocError, Global};
use words::{
    assignment_word, call_word, control_end, control_word, definition_word, exit_word, handler_word,
};

/// The tree of a program: a node as its word and its parts in brackets, and behind each node, where that is asked for, its position, `@` with
/// the line of its first token, the line of its instructions and its place.
///
/// A call is `(send RECEIVER NAME ARGUMENTS)`, with `_` where it has no receiver; statements are `{..}`, an array is `[..]`, and a body is
/// `(|PARAMETERS| STATEMENTS)`. What is spread has a `*`, a block value a `&`.
pub fn outline(
    alloc: Global,
    program: &Program,
    has_positions: bool,
) -> Result<Vec<u8>, AllocError> {
    let mut outliner = Outliner {
        symbols: &program.symbols,
        has_positions,
        pieces: Pieces::new(alloc),
    };
    outliner.tree(&program.root);
    outliner.pieces.whole()
}

/// A writer of trees.
#[derive(Drop)]
struct Outliner<'a> {
    symbols: &'a SymbolTable,
    has_positions: bool,
    pieces: Pieces,
}

impl<'a> Outliner<'a> {
    /// A tree, with its position.
    #[cycle(outline)]
    fn tree(&mut self, node: &Node) {
        self.kind(&node.kind);
        self.position(node);
    }

    /// A tree that is a part of another.
    #[cycle(outline)]
    fn part(&mut self, node: &Node) {
        self.put(" ");
        self.tree(node);
    }

    #[cycle(outline)]
    fn kind(&mut self, kind: &Kind<Node>) {
        match kind {
            Kind::Literal(literal) => self.literal(literal),
            Kind::Variable(variable) => self.variable(variable),
            Kind::Collection(collection) => self.collection(collection),
            Kind::Assignment(assignment) => self.assignment(assignment),
            Kind::Call(call) => self.call(call),
            Kind::Control(control) => self.control(control),
            Kind::Exit(exit) => self.exit(exit),
            Kind::Handler(handler) => self.handler(handler),
            Kind::Definition(definition) => self.definition(definition),
        }
    }

    #[cycle(outline)]
    fn collection(&mut self, collection: &Collection<Node>) {
        match collection {
            Collection::Text(parts) => {
                self.put("(text");
                self.texts(parts);
                self.put(")");
            }
            Collection::Array(nodes, spread) => {
                self.put("[");
                self.nodes("", nodes, spread);
                self.put("]");
            }
            Collection::Hash(pairs) => {
                self.put("(hash");
                self.pairs(pairs);
                self.put(")");
            }
            Collection::Range(first, last, is_without_last) => {
                self.put(if *is_without_last { "(..." } else { "(.." });
                self.part(first);
                self.part(last);
                self.put(")");
            }
            Collection::ConstantPath(value, begins_at_top, names) => {
                self.other("", value);
                self.path(value.is_some() || *begins_at_top, names);
            }
        }
    }

    #[cycle(outline)]
    fn assignment(&mut self, assignment: &Assignment<Node>) {
        self.put(assignment_word(assignment));
        match assignment {
            Assignment::Single(value, target) => {
                self.target(" ", *target);
                self.part(value);
            }
            Assignment::Multiple(values, targets) => {
                self.targets(targets);
                self.nodes(" ", values, &[]);
            }
            Assignment::Attribute(receiver, value, name)
            | Assignment::AttributeOperator(receiver, name, value, _, _, _)
            | Assignment::AttributeOr(receiver, name, value, _)
            | Assignment::AttributeAnd(receiver, name, value, _) => {
                self.part(receiver);
                self.name(" ", *name);
                self.part(value);
            }
            Assignment::Index(receiver, index, value)
            | Assignment::IndexOperator(receiver, index, value, _, _)
            | Assignment::IndexOr(receiver, index, value)
            | Assignment::IndexAnd(receiver, index, value) => {
                self.part(receiver);
                self.part(index);
                self.part(value);
            }
        }
        self.operation(assignment);
        self.put(")");
    }

    #[cycle(outline)]
    fn call(&mut self, call: &Call<Node>) {
        self.put(call_word(call));
        match call {
            Call::Send(receiver, arguments, spread, value, name, _, block) => {
                self.other(" ", receiver);
                self.name(" ", *name);
                self.nodes(" ", arguments, spread);
                self.other(" &", value);
                self.other(" ", block);
            }
            Call::SafeSend(receiver, arguments, spread, value, name, block) => {
                self.part(receiver);
                self.name(" ", *name);
                self.nodes(" ", arguments, spread);
                self.other(" &", value);
                self.other(" ", block);
            }
            Call::Yield(arguments, spread) => self.nodes(" ", arguments, spread),
            Call::Super(arguments, spread, value, block) => {
                self.nodes(" ", arguments, spread);
                self.other(" &", value);
                self.other(" ", block);
            }
            Call::BareSuper(block) => self.other(" ", block),
            Call::BareRaise => {}
        }
        self.put(")");
    }

    #[cycle(outline)]
    fn control(&mut self, control: &Control<Node>) {
        self.put(control_word(control));
        match control {
            Control::Statements(nodes) => self.nodes("", nodes, &[]),
            Control::And(left, right) | Control::Or(left, right) => {
                self.part(left);
                self.part(right);
            }
            Control::Not(node) => self.part(node),
            Control::If(test, then, other) => {
                self.part(test);
                self.part(then);
                self.other(" ", other);
            }
            Control::While(body, test, _, _) => {
                self.part(body);
                self.part(test);
            }
            Control::Case(value, whens, other) => {
                self.part(value);
                self.whens(whens);
                self.other(" ", other);
            }
            Control::CaseTests(whens, other) => {
                self.whens(whens);
                self.other(" ", other);
            }
        }
        self.put(control_end(control));
    }

    #[cycle(outline)]
    fn exit(&mut self, exit: &Exit<Node>) {
        self.put(exit_word(exit));
        match exit {
            Exit::Return(values) | Exit::Break(values) | Exit::Next(values) => {
                self.nodes(" ", values, &[])
            }
            Exit::Retry => {}
        }
        self.put(")");
    }

    #[cycle(outline)]
    fn handler(&mut self, handler: &Handler<Node>) {
        self.put(handler_word(handler));
        match handler {
            Handler::Rescue(body, other, clauses) => {
                self.part(body);
                self.other(" ", other);
                self.part(clauses);
            }
            Handler::Ensure(body, last) => {
                self.part(body);
                self.part(last);
            }
            Handler::RescueSequence(clauses) => self.clauses(clauses),
            Handler::EnsureSequence(body) => self.part(body),
        }
        self.put(")");
    }

    #[cycle(outline)]
    fn definition(&mut self, definition: &Definition<Node>) {
        self.put(definition_word(definition));
        match definition {
            Definition::Method(name, body, _) => {
                self.name(" ", *name);
                self.part(body);
            }
            Definition::Class(superclass, name, body) => {
                self.name(" ", *name);
                self.other(" < ", superclass);
                self.part(body);
            }
            Definition::Module(name, body) => {
                self.name(" ", *name);
                self.part(body);
            }
            Definition::Body(params, body) => {
                self.params(params);
                self.put("|");
                self.part(body);
            }
        }
        self.put(")");
    }
}
