//! The lists of a node, each of which is one loop.

use super::Outliner;
use ruby_tree::{Name, Node, Param, TextPart};

impl<'a> Outliner<'a> {
    /// Several trees, of which those at the places of `spread` are spread. `before` stands before the first, a space before each other one.
    #[cycle(outline)]
    pub(super) fn nodes(&mut self, before: &str, nodes: &[Node], spread: &[u64]) {
        for (index, node) in nodes.iter().enumerate() {
            self.put(if index == 0 { before } else { " " });
            if spread.contains(&(index as u64)) {
                self.put("*");
            }
            self.tree(node);
        }
    }

    /// A part that may be missing, with what stands before it.
    #[cycle(outline)]
    pub(super) fn other(&mut self, before: &str, node: &Option<Box<Node>>) {
        if let Some(node) = node {
            self.put(before);
            self.tree(node);
        }
    }

    /// Keys and values.
    #[cycle(outline)]
    pub(super) fn pairs(&mut self, pairs: &[(Node, Node)]) {
        for pair in pairs {
            self.part(&pair.0);
            self.part(&pair.1);
        }
    }

    /// Parts of a text.
    #[cycle(outline)]
    pub(super) fn texts(&mut self, parts: &[TextPart<Node>]) {
        for part in parts {
            self.put(" ");
            self.text(part);
        }
    }

    #[cycle(outline)]
    fn text(&mut self, part: &TextPart<Node>) {
        match part {
            TextPart::Plain(bytes) => self.string(bytes),
            TextPart::Code(node) => self.tree(node),
        }
    }

    /// What a case is compared with, and the bodies.
    #[cycle(outline)]
    pub(super) fn whens(&mut self, whens: &[(Vec<Node>, Node)]) {
        for when in whens {
            self.put(" (when");
            self.nodes(" ", &when.0, &[]);
            self.part(&when.1);
            self.put(")");
        }
    }

    /// The classes of rescue clauses, the names of the exceptions, and the bodies.
    #[cycle(outline)]
    pub(super) fn clauses(&mut self, clauses: &[(Vec<Node>, Option<Name>, Node)]) {
        for clause in clauses {
            self.put(" (on");
            self.nodes(" ", &clause.0, &[]);
            self.exception(clause.1);
            self.part(&clause.2);
            self.put(")");
        }
    }

    /// Parameters.
    #[cycle(outline)]
    pub(super) fn params(&mut self, params: &[Param<Node>]) {
        for (index, param) in params.iter().enumerate() {
            self.put(if index == 0 { "" } else { " " });
            self.param(param);
        }
    }

    #[cycle(outline)]
    fn param(&mut self, param: &Param<Node>) {
        match param {
            Param::Required(name) => self.name("", *name),
            Param::Optional(name, node) => {
                self.name("", *name);
                self.put("=");
                self.tree(node);
            }
            Param::Rest(name) => self.name("*", *name),
            Param::Block(name) => self.name("&", *name),
        }
    }
}
