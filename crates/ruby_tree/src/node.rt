//! The nodes of a syntax tree.
//!
//! The parts of a node stand in the order in which its code evaluates them.

use crate::Name;
use bs_outside::Bytes;

/// A node of the tree, with the lines that its code has.
pub struct Node {
    /// The line of its first token, counted from 1; 0 where it stands for no token.
    pub first: u64,
    /// The line of the name or the operator of a call, of the `[` of an index, and else that of its first token.
    pub line: u64,
    /// The place in the text, counted from 0, of the token that begins its sequence: `def`, `class`, `module`, `{`, `do`, `&`, `rescue`
    /// or `ensure`. Where it has none, that of its first token.
    pub place: u64,
    /// What it is.
    pub kind: Kind<Node>,
}

// By hand, so that the crates above need no proof of the drop of each kind.
impl Drop for Node {
    fn drop(self) {
        let Node {
            first: _,
            line: _,
            place: _,
            kind: _,
        } = self;
    }
}

/// What a node is, in groups. `N` is the type of the nodes in it.
#[derive(Drop)]
pub enum Kind<N> {
    Literal(Literal),
    Variable(Variable),
    Collection(Collection<N>),
    Assignment(Assignment<N>),
    Call(Call<N>),
    Control(Control<N>),
    Exit(Exit<N>),
    Handler(Handler<N>),
    Definition(Definition<N>),
}

/// A value that is written as it is.
#[derive(Drop)]
pub enum Literal {
    Nil,
    True,
    False,
    Integer(i64),
    /// `:name`, by the name.
    Symbol(Name),
    /// A text without code.
    String(Bytes),
    SelfValue,
    /// `__FILE__`
    File,
    /// `__dir__`
    Folder,
    /// `__LINE__`
    Line,
}

/// A variable that is read.
#[derive(Drop)]
pub enum Variable {
    Local(Name),
    /// By its name with the `@`.
    Instance(Name),
    /// By its name with the `$`.
    Global(Name),
}

/// A value that is made of others, or found by a path.
#[derive(Drop)]
pub enum Collection<N> {
    /// A text with `#{..}`.
    Text(Vec<TextPart<N>>),
    /// The elements, and the places among them of those that are spread.
    Array(Vec<N>, Vec<u64>),
    /// The keys and values.
    Hash(Vec<(N, N)>),
    /// The ends, and whether the last one is left out.
    Range(Box<N>, Box<N>, bool),
    /// The value before the first `::`, where that is no constant; whether the path begins with `::`; and the names.
    ConstantPath(Option<Box<N>>, bool, Vec<Name>),
}

/// A part of a text with code.
#[derive(Drop)]
pub enum TextPart<N> {
    /// Bytes that stand for themselves, at least one.
    Plain(Bytes),
    /// The statements of `#{..}`.
    Code(N),
}

/// A variable or a constant that is set.
#[derive(Clone, Copy, Debug, PartialEq, Eq, Drop)]
pub enum Target {
    Local(Name),
    /// By its name with the `@`.
    Instance(Name),
    /// By its name with the `$`.
    Global(Name),
    Constant(Name),
}

/// Something is set. In each the receiver and the index come before the value.
#[derive(Drop)]
pub enum Assignment<N> {
    /// `x = v`: the value and the target.
    Single(Box<N>, Target),
    /// `x, y = v`: the values, of which a single one is spread over the targets.
    Multiple(Vec<N>, Vec<Target>),
    /// `a.m = v`: the receiver, the value and the name `m=`.
    Attribute(Box<N>, Box<N>, Name),
    /// `a[i] = v`
    Index(Box<N>, Box<N>, Box<N>),
    /// `a.m op= v`: the receiver, the name `m`, the value, the operator, the name `m=` and the line of the operator.
    AttributeOperator(Box<N>, Name, Box<N>, Name, Name, u64),
    /// `a.m ||= v`: the receiver, the name `m`, the value and the name `m=`.
    AttributeOr(Box<N>, Name, Box<N>, Name),
    /// `a.m &&= v`, in the same order.
    AttributeAnd(Box<N>, Name, Box<N>, Name),
    /// `a[i] op= v`: the receiver, the index, the value, the operator and its line.
    IndexOperator(Box<N>, Box<N>, Box<N>, Name, u64),
    /// `a[i] ||= v`
    IndexOr(Box<N>, Box<N>, Box<N>),
    /// `a[i] &&= v`
    IndexAnd(Box<N>, Box<N>, Box<N>),
}

/// A method or a block is called.
///
/// The places of the arguments that are spread follow the arguments. A block value is what stands behind `&`. A literal block is a
/// `Definition::Body`.
#[derive(Drop)]
pub enum Call<N> {
    /// The receiver, or none for that of the method; the arguments, the block value, the name, whether the name stands alone, and the
    /// literal block.
    Send(Option<Box<N>>, Vec<N>, Vec<u64>, Option<Box<N>>, Name, bool, Option<Box<N>>),
    /// `a&.m`: the receiver, the arguments, the block value, the name and the literal block.
    SafeSend(Box<N>, Vec<N>, Vec<u64>, Option<Box<N>>, Name, Option<Box<N>>),
    Yield(Vec<N>, Vec<u64>),
    /// `super` with arguments or brackets: the arguments, the block value and the literal block.
    Super(Vec<N>, Vec<u64>, Option<Box<N>>, Option<Box<N>>),
    /// `super` alone, with its literal block.
    BareSuper(Option<Box<N>>),
    /// `raise` alone in a rescue clause.
    BareRaise,
}

/// Statements, and what chooses among them.
#[derive(Drop)]
pub enum Control<N> {
    Statements(Vec<N>),
    And(Box<N>, Box<N>),
    Or(Box<N>, Box<N>),
    Not(Box<N>),
    /// The condition, what follows where it holds, and what follows where it does not.
    If(Box<N>, Box<N>, Option<Box<N>>),
    /// The body, the condition, whether it ends where the condition holds (`until`), and whether the body comes first.
    While(Box<N>, Box<N>, bool, bool),
    /// The value, for each `when` what it is compared with and its body, and the part behind `else`.
    Case(Box<N>, Vec<(Vec<N>, N)>, Option<Box<N>>),
    /// A `case` without a value, whose tests decide by themselves.
    CaseTests(Vec<(Vec<N>, N)>, Option<Box<N>>),
}

/// Leaves a method, a loop, a block or a clause, with no value, one, or several as an array.
#[derive(Drop)]
pub enum Exit<N> {
    Return(Vec<N>),
    Break(Vec<N>),
    Next(Vec<N>),
    Retry,
}

/// Statements with clauses.
#[derive(Drop)]
pub enum Handler<N> {
    /// The statements, the part behind `else`, and the clauses.
    Rescue(Box<N>, Option<Box<N>>, Box<N>),
    /// The statements with their rescue clauses, and the part behind `ensure`.
    Ensure(Box<N>, Box<N>),
    /// The clauses of a rescue: the classes, the name that the exception gets, and the body.
    RescueSequence(Vec<(Vec<N>, Option<Name>, N)>),
    EnsureSequence(Box<N>),
}

/// Methods, classes and bodies.
#[derive(Drop)]
pub enum Definition<N> {
    /// The name, the body, and whether it is defined on `self`.
    Method(Name, Box<N>, bool),
    /// The superclass, the name and the body.
    Class(Option<Box<N>>, Name, Box<N>),
    Module(Name, Box<N>),
    /// The body of a method, a class, a module or a block.
    Body(Vec<Param<N>>, Box<N>),
}

/// A parameter of a method or a block.
#[derive(Drop)]
pub enum Param<N> {
    Required(Name),
    /// With what it is where no argument is given.
    Optional(Name, N),
    /// Takes the arguments that are left, as an array.
    Rest(Name),
    /// Takes the block.
    Block(Name),
}
