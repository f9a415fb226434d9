//! The first fault of placement in a tree.
ghost use Rattle.std.specs.Prelude.{◌≡◌, ◌↔◌, [], IfOk, IfSome, IsNone};
ghost use Rattle.ruby_tree.specs.Placement.{at_home, in_loop, in_block, in_clause, outside_clause, file, faults, form_faults};
ghost use Rattle.ruby_tree.specs.FirstFault.{home_of, around_of, root_faults, first_of, IsFirstFault};
ghost use Rattle.ruby_tree.specs.Read.{tree_of};
ghost use Rattle.ruby_tree.specs.Views.{read_kind, read_collection, read_assignment, read_call, read_control, read_exit, read_handler};

mod definitions;
mod lists;

use crate::surroundings::{Home, Misplaced, Surroundings, earlier, is_fault};
use crate::{Assignment, Call, Collection, Control, Exit, Handler, Kind, Node, SymbolTable};
use bs_outside::NoMemory;
use std::alloc::Global;

/// The first fault of placement in the tree of a file: what stands where it may not, such as a `break` outside of a loop. There is none
/// to give exactly where everything stands where it may.
pub fn placement_fault(
    alloc: Global,
    symbols: &SymbolTable,
    root: &Node,
) -> Result<Option<Misplaced>, NoMemory>
    ensures none { IfOk result (λ fault. IsNone fault ↔ (faults (at_home file) (tree_of symbols.now root.now) ≡ [])) }
    ensures first { IfOk result (λ fault. IfSome fault (IsFirstFault (faults (at_home file) (tree_of symbols.now root.now)))) }
{
    let walk = Walk {
        alloc,
        symbols,
        around: Surroundings::at_home(Home::File),
    };
    walk.tree(root)
}

/// A walk down a tree, with what stands around the node that it has come to.
#[derive(Clone, Copy, Drop)]
struct Walk<'a> {
    alloc: Global,
    symbols: &'a SymbolTable,
    around: Surroundings,
}

#[tactic(auto, using(crate::proofs::FirstFaults::walked, std::proofs::lemmas::Grind::common_steps))]
impl<'a> Walk<'a> {
    /// In the body of a loop.
    fn in_loop(&self) -> Walk<'a>
        ensures symbols { result.symbols.now ≡ self.now.symbols.now }
        ensures around { around_of result.around ≡ in_loop (around_of self.now.around) }
    {
        Walk {
            alloc: self.alloc,
            symbols: self.symbols,
            around: self.around.inside_loop(),
        }
    }

    /// In a block.
    fn in_block(&self) -> Walk<'a>
        ensures symbols { result.symbols.now ≡ self.now.symbols.now }
        ensures around { around_of result.around ≡ in_block (around_of self.now.around) }
    {
        Walk {
            alloc: self.alloc,
            symbols: self.symbols,
            around: self.around.inside_block(),
        }
    }

    /// Directly in a rescue clause.
    fn in_clause(&self) -> Walk<'a>
        ensures symbols { result.symbols.now ≡ self.now.symbols.now }
        ensures around { around_of result.around ≡ in_clause (around_of self.now.around) }
    {
        Walk {
            alloc: self.alloc,
            symbols: self.symbols,
            around: self.around.inside_clause(),
        }
    }

    /// In no rescue clause.
    fn outside_clause(&self) -> Walk<'a>
        ensures symbols { result.symbols.now ≡ self.now.symbols.now }
        ensures around { around_of result.around ≡ outside_clause (around_of self.now.around) }
    {
        Walk {
            alloc: self.alloc,
            symbols: self.symbols,
            around: self.around.outside_clause(),
        }
    }

    /// In a home of its own.
    fn at_home(&self, home: Home) -> Walk<'a>
        ensures symbols { result.symbols.now ≡ self.now.symbols.now }
        ensures around { around_of result.around ≡ at_home (home_of home) }
    {
        Walk {
            alloc: self.alloc,
            symbols: self.symbols,
            around: Surroundings::at_home(home),
        }
    }

    /// The first fault in a tree.
    #[cycle(placement)]
    fn tree(&self, node: &Node) -> Result<Option<Misplaced>, NoMemory>
        ensures { IfOk result (λ fault. fault ≡ first_of (faults (around_of self.now.around) (tree_of self.now.symbols.now node.now))) }
    {
        let own = self.own(node)?;
        let inner = self.kind(&node.kind)?;
        Ok(earlier(own, inner))
    }

    /// The node itself, where it is a fault.
    #[tactic(auto, using(crate::proofs::FirstFaults::rooted, std::proofs::lemmas::Grind::common_steps))]
    fn own(&self, node: &Node) -> Result<Option<Misplaced>, NoMemory>
        ensures { IfOk result (λ fault. fault ≡ first_of (root_faults (around_of self.now.around) (tree_of self.now.symbols.now node.now))) }
    {
        if is_fault(self.alloc, self.symbols, self.around, &node.kind)? {
            return Ok(Some(Misplaced {
                line: node.first,
                place: node.place,
            }));
        }
        Ok(None)
    }

    /// The first fault in the parts of a node.
    #[cycle(placement)]
    fn kind(&self, kind: &Kind<Node>) -> Result<Option<Misplaced>, NoMemory>
        ensures { IfOk result (λ fault. fault ≡ first_of (form_faults (around_of self.now.around) (read_kind self.now.symbols.now kind.now))) }
    {
        match kind {
            Kind::Literal(_) => Ok(None),
            Kind::Variable(_) => Ok(None),
            Kind::Collection(collection) => self.collection(collection),
            Kind::Assignment(assignment) => self.assignment(assignment),
            Kind::Call(call) => self.call(call),
            Kind::Control(control) => self.control(control),
            Kind::Exit(exit) => self.exit(exit),
            Kind::Handler(handler) => self.handler(handler),
            Kind::Definition(definition) => self.definition(definition),
        }
    }

    /// In the elements.
    #[cycle(placement)]
    fn collection(&self, collection: &Collection<Node>) -> Result<Option<Misplaced>, NoMemory>
        ensures { IfOk result (λ fault. fault ≡ first_of (form_faults (around_of self.now.around) (read_collection self.now.symbols.now collection.now))) }
    {
        match collection {
            Collection::Text(parts) => self.parts(parts),
            Collection::Array(nodes, _) => self.trees(nodes),
            Collection::Hash(pairs) => self.pairs(pairs),
            Collection::Range(first, last, _) => {
                Ok(earlier(self.tree(first)?, self.tree(last)?))
            }
            Collection::ConstantPath(value, _, _) => self.other(value),
        }
    }

    /// In what is set, and to what.
    #[cycle(placement)]
    fn assignment(&self, assignment: &Assignment<Node>) -> Result<Option<Misplaced>, NoMemory>
        ensures { IfOk result (λ fault. fault ≡ first_of (form_faults (around_of self.now.around) (read_assignment self.now.symbols.now assignment.now))) }
    {
        match assignment {
            Assignment::Single(value, _) => self.tree(value),
            Assignment::Multiple(values, _) => self.trees(values),
            Assignment::Attribute(receiver, value, _) => {
                Ok(earlier(self.tree(receiver)?, self.tree(value)?))
            }
            Assignment::AttributeOperator(receiver, _, value, _, _, _) => {
                Ok(earlier(self.tree(receiver)?, self.tree(value)?))
            }
            Assignment::AttributeOr(receiver, _, value, _) => {
                Ok(earlier(self.tree(receiver)?, self.tree(value)?))
            }
            Assignment::AttributeAnd(receiver, _, value, _) => {
                Ok(earlier(self.tree(receiver)?, self.tree(value)?))
            }
            Assignment::Index(receiver, index, value) => {
                let before = earlier(self.tree(receiver)?, self.tree(index)?);
                Ok(earlier(before, self.tree(value)?))
            }
            Assignment::IndexOperator(receiver, index, value, _, _) => {
                let before = earlier(self.tree(receiver)?, self.tree(index)?);
                Ok(earlier(before, self.tree(value)?))
            }
            Assignment::IndexOr(receiver, index, value) => {
                let before = earlier(self.tree(receiver)?, self.tree(index)?);
                Ok(earlier(before, self.tree(value)?))
            }
            Assignment::IndexAnd(receiver, index, value) => {
                let before = earlier(self.tree(receiver)?, self.tree(index)?);
                Ok(earlier(before, self.tree(value)?))
            }
        }
    }

    /// In the receiver, the arguments and the block.
    #[cycle(placement)]
    fn call(&self, call: &Call<Node>) -> Result<Option<Misplaced>, NoMemory>
        ensures { IfOk result (λ fault. fault ≡ first_of (form_faults (around_of self.now.around) (read_call self.now.symbols.now call.now))) }
    {
        match call {
            Call::Send(receiver, arguments, _, value, _, _, block) => {
                let given = earlier(self.other(receiver)?, self.trees(arguments)?);
                let given = earlier(given, self.other(value)?);
                Ok(earlier(given, self.in_block().other(block)?))
            }
            Call::SafeSend(receiver, arguments, _, value, _, block) => {
                let given = earlier(self.tree(receiver)?, self.trees(arguments)?);
                let given = earlier(given, self.other(value)?);
                Ok(earlier(given, self.in_block().other(block)?))
            }
            Call::Yield(arguments, _) => self.trees(arguments),
            Call::Super(arguments, _, value, block) => {
                let given = earlier(self.trees(arguments)?, self.other(value)?);
                Ok(earlier(given, self.in_block().other(block)?))
            }
            Call::BareSuper(block) => self.in_block().other(block),
            Call::BareRaise => Ok(None),
        }
    }

    /// In the statements and in what chooses among them.
    #[cycle(placement)]
    fn control(&self, control: &Control<Node>) -> Result<Option<Misplaced>, NoMemory>
        ensures { IfOk result (λ fault. fault ≡ first_of (form_faults (around_of self.now.around) (read_control self.now.symbols.now control.now))) }
    {
        match control {
            Control::Statements(nodes) => self.trees(nodes),
            Control::And(left, right) => Ok(earlier(self.tree(left)?, self.tree(right)?)),
            Control::Or(left, right) => Ok(earlier(self.tree(left)?, self.tree(right)?)),
            Control::Not(node) => self.tree(node),
            Control::If(test, then, other) => {
                let before = earlier(self.tree(test)?, self.tree(then)?);
                Ok(earlier(before, self.other(other)?))
            }
            // The condition of a loop is outside its body.
            Control::While(body, test, _, _) => {
                Ok(earlier(self.in_loop().tree(body)?, self.tree(test)?))
            }
            Control::Case(value, whens, other) => {
                let before = earlier(self.tree(value)?, self.whens(whens)?);
                Ok(earlier(before, self.other(other)?))
            }
            Control::CaseTests(whens, other) => {
                Ok(earlier(self.whens(whens)?, self.other(other)?))
            }
        }
    }

    /// In the values.
    #[cycle(placement)]
    fn exit(&self, exit: &Exit<Node>) -> Result<Option<Misplaced>, NoMemory>
        ensures { IfOk result (λ fault. fault ≡ first_of (form_faults (around_of self.now.around) (read_exit self.now.symbols.now exit.now))) }
    {
        match exit {
            Exit::Return(values) => self.trees(values),
            Exit::Break(values) => self.trees(values),
            Exit::Next(values) => self.trees(values),
            Exit::Retry => Ok(None),
        }
    }

    /// In the statements and the clauses.
    #[cycle(placement)]
    fn handler(&self, handler: &Handler<Node>) -> Result<Option<Misplaced>, NoMemory>
        ensures { IfOk result (λ fault. fault ≡ first_of (form_faults (around_of self.now.around) (read_handler self.now.symbols.now handler.now))) }
    {
        match handler {
            Handler::Rescue(body, other, clauses) => {
                let before = earlier(self.tree(body)?, self.other(other)?);
                Ok(earlier(before, self.tree(clauses)?))
            }
            Handler::Ensure(body, last) => Ok(earlier(self.tree(body)?, self.tree(last)?)),
            Handler::RescueSequence(clauses) => self.in_clause().clauses(clauses),
            Handler::EnsureSequence(body) => self.outside_clause().tree(body),
        }
    }
}
