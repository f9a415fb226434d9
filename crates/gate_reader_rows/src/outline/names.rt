//! What has no trees in it: names, numbers, positions, literals.

use super::Outliner;
use bs_outside::Bytes;
use ruby_tree::{Assignment, Literal, Name, Node, Target, Variable};

impl<'a> Outliner<'a> {
    pub(super) fn put(&mut self, piece: &str) {
        self.pieces.put(piece);
    }

    /// A name, with what stands before it.
    pub(super) fn name(&mut self, before: &str, name: Name) {
        self.put(before);
        self.pieces.put_bytes(self.symbols.text(name));
    }

    /// The name that an exception gets.
    pub(super) fn exception(&mut self, name: Option<Name>) {
        if let Some(name) = name {
            self.name(" => ", name);
        }
    }

    /// What stands behind the value of an assignment: the operator, the name that sets an attribute, and the operator's line.
    pub(super) fn operation(&mut self, assignment: &Assignment<Node>) {
        match assignment {
            Assignment::AttributeOperator(_, _, _, operator, setter, line) => {
                self.name(" ", *operator);
                self.name(" ", *setter);
                self.line(*line);
            }
            Assignment::AttributeOr(_, _, _, setter) | Assignment::AttributeAnd(_, _, _, setter) =>
                self.name(" ", *setter),
            Assignment::IndexOperator(_, _, _, operator, line) => {
                self.name(" ", *operator);
                self.line(*line);
            }
            _ => {}
        }
    }

    fn line(&mut self, line: u64) {
        self.put(" ");
        self.pieces.number(line);
    }

    pub(super) fn string(&mut self, bytes: &Bytes) {
        self.put("\"");
        self.pieces.put_bytes(bytes.as_slice());
        self.put("\"");
    }

    pub(super) fn position(&mut self, node: &Node) {
        if self.has_positions {
            self.put("@");
            self.pieces.number(node.first);
            self.put(".");
            self.pieces.number(node.line);
            self.put(".");
            self.pieces.number(node.place);
        }
    }

    pub(super) fn literal(&mut self, literal: &Literal) {
        match literal {
            Literal::Nil => self.put("nil"),
            Literal::True => self.put("true"),
            Literal::False => self.put("false"),
            Literal::Integer(number) => self.pieces.number(*number),
            Literal::Symbol(name) => self.name(":", *name),
            Literal::String(bytes) => self.string(bytes),
            Literal::SelfValue => self.put("self"),
            Literal::File => self.put("__FILE__"),
            Literal::Folder => self.put("__dir__"),
            Literal::Line => self.put("__LINE__"),
        }
    }

    pub(super) fn variable(&mut self, variable: &Variable) {
        match variable {
            Variable::Local(name) | Variable::Instance(name) | Variable::Global(name) => {
                self.name("", *name)
            }
        }
    }

    pub(super) fn target(&mut self, before: &str, target: Target) {
        match target {
            Target::Local(name)
            | Target::Instance(name)
            | Target::Global(name)
            | Target::Constant(name) => self.name(before, name),
        }
    }

    /// Targets, with commas between them.
    pub(super) fn targets(&mut self, targets: &[Target]) {
        for (index, target) in targets.iter().enumerate() {
            self.target(if index == 0 { " " } else { "," }, *target);
        }
    }

    /// The names of a path, the first of them behind `::` where that is so.
    pub(super) fn path(&mut self, is_behind_colons: bool, names: &[Name]) {
        for (index, name) in names.iter().enumerate() {
            let has_colons = is_behind_colons || index > 0;
            self.name(if has_colons { "::" } else { "" }, *name);
        }
    }
}
