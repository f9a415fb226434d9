//! What stands around a node, and which nodes are faults there by themselves.
ghost use Rattle.std.specs.Prelude.{◌≡◌, IfOk};
ghost use Rattle.ruby_tree.specs.Placement.{is_method, is_class, all_required, is_constant, at_home, in_loop, in_block, in_clause, outside_clause, is_fault};
ghost use Rattle.ruby_tree.specs.FirstFault.{home_of, around_of, earlier};
ghost use Rattle.ruby_tree.specs.Names.{Texts};
ghost use Rattle.ruby_tree.specs.Read.{goal_of};
ghost use Rattle.ruby_tree.specs.Views.{read_kind, read_assignment, read_call, read_exit, read_definition};

use crate::params::stands_twice;
use crate::{Assignment, Call, Definition, Exit, Kind, Node, SymbolTable, Target};
use bs_outside::NoMemory;
use std::alloc::Global;

/// A node that stands where it may not.
#[derive(Clone, Copy, Debug, PartialEq, Eq, Drop)]
pub struct Misplaced {
    /// The line of its first token.
    pub line: u64,
    /// Its place in the text.
    pub place: u64,
}

/// The innermost method, class or module around a node, or the file.
#[derive(Clone, Copy, Drop)]
pub enum Home {
    File,
    /// Whether each parameter is a required one.
    Method(bool),
    /// A module too.
    Class,
}

/// What stands around a node.
#[derive(Clone, Copy, Drop)]
pub struct Surroundings {
    pub home: Home,
    /// Whether the body of a loop or a block of the home is around it.
    pub in_loop: bool,
    /// Whether a block of the home is.
    pub in_block: bool,
    /// Whether it is directly in a rescue clause.
    pub in_clause: bool,
}

impl Home {
    fn is_method(self) -> bool
        ensures { result ≡ is_method (home_of self) }
    {
        match self {
            Home::Method(_) => true,
            Home::File => false,
            Home::Class => false,
        }
    }

    fn is_class(self) -> bool
        ensures { result ≡ is_class (home_of self) }
    {
        match self {
            Home::Class => true,
            Home::File => false,
            Home::Method(_) => false,
        }
    }

    fn all_required(self) -> bool
        ensures { result ≡ all_required (home_of self) }
    {
        match self {
            Home::Method(required) => required,
            Home::File => true,
            Home::Class => true,
        }
    }
}

impl Surroundings {
    /// Nothing but the home.
    pub fn at_home(home: Home) -> Surroundings
        ensures { around_of result ≡ at_home (home_of home) }
    {
        Surroundings {
            home,
            in_loop: false,
            in_block: false,
            in_clause: false,
        }
    }

    pub fn inside_loop(self) -> Surroundings
        ensures { around_of result ≡ in_loop (around_of self) }
    {
        Surroundings {
            in_loop: true,
            ..self
        }
    }

    pub fn inside_block(self) -> Surroundings
        ensures { around_of result ≡ in_block (around_of self) }
    {
        Surroundings {
            home: self.home,
            in_loop: true,
            in_block: true,
            in_clause: false,
        }
    }

    pub fn inside_clause(self) -> Surroundings
        ensures { around_of result ≡ in_clause (around_of self) }
    {
        Surroundings {
            in_clause: true,
            ..self
        }
    }

    pub fn outside_clause(self) -> Surroundings
        ensures { around_of result ≡ outside_clause (around_of self) }
    {
        Surroundings {
            in_clause: false,
            ..self
        }
    }
}

/// Of two faults the one that comes first.
#[tactic(auto, using(crate::proofs::FirstFaults::compared, std::proofs::lemmas::Grind::common_steps))]
pub fn earlier(a: Option<Misplaced>, b: Option<Misplaced>) -> Option<Misplaced>
    ensures { result ≡ earlier a b }
{
    match (a, b) {
        (None, b) => b,
        (Some(a), None) => Some(a),
        (Some(a), Some(b)) => Some(if b.place < a.place { b } else { a }),
    }
}

/// Whether a node of this kind is a fault by itself.
pub fn is_fault(
    alloc: Global,
    symbols: &SymbolTable,
    around: Surroundings,
    kind: &Kind<Node>,
) -> Result<bool, NoMemory>
    ensures { IfOk result (λ fault. fault ≡ is_fault (around_of around) (read_kind symbols.now kind.now)) }
{
    match kind {
        Kind::Literal(_) => Ok(false),
        Kind::Variable(_) => Ok(false),
        Kind::Collection(_) => Ok(false),
        Kind::Assignment(assignment) => Ok(is_assignment_fault(around, assignment)),
        Kind::Call(call) => Ok(is_call_fault(around, call)),
        Kind::Control(_) => Ok(false),
        Kind::Exit(exit) => Ok(is_exit_fault(around, exit)),
        Kind::Handler(_) => Ok(false),
        Kind::Definition(definition) => is_definition_fault(alloc, symbols, around, definition),
    }
}

/// No constant is set in a method.
fn is_assignment_fault(around: Surroundings, assignment: &Assignment<Node>) -> bool
    ensures { (texts : Texts) → result ≡ is_fault (around_of around) (read_assignment texts assignment.now) }
{
    match assignment {
        Assignment::Single(_, target) => is_constant(target) && around.home.is_method(),
        Assignment::Multiple(_, _) => false,
        Assignment::Attribute(_, _, _) => false,
        Assignment::Index(_, _, _) => false,
        Assignment::AttributeOperator(_, _, _, _, _, _) => false,
        Assignment::AttributeOr(_, _, _, _) => false,
        Assignment::AttributeAnd(_, _, _, _) => false,
        Assignment::IndexOperator(_, _, _, _, _) => false,
        Assignment::IndexOr(_, _, _) => false,
        Assignment::IndexAnd(_, _, _) => false,
    }
}

fn is_constant(target: &Target) -> bool
    ensures { (texts : Texts) → result ≡ is_constant (goal_of texts target.now) }
{
    match target {
        Target::Constant(_) => true,
        Target::Local(_) => false,
        Target::Instance(_) => false,
        Target::Global(_) => false,
    }
}

/// `yield` and `super` stand in a method, `super` in no block, and a bare one only where all parameters are required.
fn is_call_fault(around: Surroundings, call: &Call<Node>) -> bool
    ensures { (texts : Texts) → result ≡ is_fault (around_of around) (read_call texts call.now) }
{
    match call {
        Call::Yield(_, _) => !around.home.is_method(),
        Call::Super(_, _, _, _) => !around.home.is_method() || around.in_block,
        Call::BareSuper(_) => {
            !around.home.is_method() || around.in_block || !around.home.all_required()
        }
        Call::Send(_, _, _, _, _, _, _) => false,
        Call::SafeSend(_, _, _, _, _, _) => false,
        Call::BareRaise => false,
    }
}

/// `break` and `next` stand in the body of a loop or in a block, `retry` directly in a rescue clause, and `return` in no class.
fn is_exit_fault(around: Surroundings, exit: &Exit<Node>) -> bool
    ensures { (texts : Texts) → result ≡ is_fault (around_of around) (read_exit texts exit.now) }
{
    match exit {
        Exit::Return(_) => around.home.is_class(),
        Exit::Break(_) => !around.in_loop,
        Exit::Next(_) => !around.in_loop,
        Exit::Retry => !around.in_clause,
    }
}

/// No class or module stands in a method, and no parameter stands twice.
fn is_definition_fault(
    alloc: Global,
    symbols: &SymbolTable,
    around: Surroundings,
    definition: &Definition<Node>,
) -> Result<bool, NoMemory>
    ensures { IfOk result (λ fault. fault ≡ is_fault (around_of around) (read_definition symbols.now definition.now)) }
{
    match definition {
        Definition::Method(_, _, _) => Ok(false),
        Definition::Class(_, _, _) => Ok(around.home.is_method()),
        Definition::Module(_, _) => Ok(around.home.is_method()),
        Definition::Body(params, _) => stands_twice(alloc, symbols, params),
    }
}
