//! The instructions, after those of YARV.
use bs_outside::{Items, Text, Texts};

/// A value that stands in the code.
#[derive(Drop)]
pub enum Literal {
    True,
    False,
    Int(i64),
    Sym(Text),
}

/// An instruction with its operands. A jump's target is a place in the body, counted from 0; a
/// sequence is given by its number plus 1, or 0 for none; the places of splats count the arguments
/// from 0.
#[derive(Drop)]
pub enum Instr {
    Nop,
    /// Drops the top.
    Pop,
    /// Pushes the top again.
    Dup,
    /// Exchanges the two on top.
    Swap,
    /// Pushes the value that stands so far below the top, 0 for the top itself.
    TopN(u64),
    /// Stores the top so far below the top, and keeps it.
    SetN(u64),
    /// Drops so many.
    AdjustStack(u64),
    PutNil,
    PutSelf,
    PutObject(Literal),
    PutString(Text),
    /// Pushes a local: its slot, and its level.
    GetLocal(u64, u64),
    /// Takes the top into a local: its slot, and its level.
    SetLocal(u64, u64),
    GetInstanceVariable(Text),
    SetInstanceVariable(Text),
    GetGlobal(Text),
    SetGlobal(Text),
    SetConstant(Text),
    /// The names of a constant's path. The first is looked for lexically at 0, from the top at 1,
    /// and in the value on the stack at 2.
    OptGetConstantPath(u64, Texts),
    /// An array of so many values, and the places of those that are spread.
    NewArray(u64, Items<u64>),
    /// A hash of so many values, keys and values in turn.
    NewHash(u64),
    /// A range of two values, whose end is left out at 1.
    NewRange(u64),
    /// A text of so many texts.
    ConcatStrings(u64),
    /// The answer of `to_s`.
    ObjToString,
    /// Of an object and its text, the text if it is a String, else `#<Name>` with the name of the
    /// object's class.
    AnyToString,
    /// A call: the method's name, the number of arguments, those that are spread, flags (1 for a
    /// receiver `self`, 2 for a block value on top, 4 for a bare name), and the block's sequence.
    Send(Text, u64, Items<u64>, u64, u64),
    /// A call of the method above: the number of arguments, those that are spread, flags, and the
    /// block's sequence.
    InvokeSuper(u64, Items<u64>, u64, u64),
    /// A call of the block that was given: the number of arguments, and those that are spread.
    InvokeBlock(u64, Items<u64>),
    /// Defines a method: its name, its sequence, and 1 for a method of `self`.
    DefineMethod(Text, u64, u64),
    /// Opens a class or module: its name, its sequence, and 0 for a class, 1 for a class with a
    /// superclass, 2 for a module.
    DefineClass(Text, u64, u64),
    /// Of an exception and a class, whether it is one.
    CheckMatch,
    Jump(u64),
    BranchIf(u64),
    BranchUnless(u64),
    BranchNil(u64),
    /// Leaves with the top as value, but 0, which takes none and goes on with what was pending. 1 is
    /// return, 2 and 3 are break and next of a loop, 4 and 5 those of a block, 6 ends an ensured part,
    /// 7 is retry.
    Throw(u64),
    Leave,
    /// The first so many values of an array, the first on top, and nil for those that it lacks; any
    /// other value counts as an array of it alone.
    ExpandArray(u64),
}

impl Instr {
    ghost use Rattle.std.specs.Prelude.{◌≡◌, ◌<◌, ◌≤◌, ◌^◌};
    ghost use Rattle.iseq_types.specs.Instructions.{takes_of, leaves_of, needs_of, target_of, goes_on, is_ending};

    /// How many values it takes off the stack.
    pub(crate) fn takes(&self) -> u128
        ensures { result ≡ takes_of self.now }
    {
        match self {
            Instr::AdjustStack(count)
            | Instr::NewArray(count, _)
            | Instr::NewHash(count)
            | Instr::ConcatStrings(count)
            | Instr::InvokeBlock(count, _) => *count as u128,
            Instr::Send(_, count, _, flags, _) | Instr::InvokeSuper(count, _, flags, _) => {
                1 + *count as u128 + (*flags / 2 % 2) as u128
            }
            Instr::OptGetConstantPath(2, _) => 1,
            Instr::Throw(0) => 0,
            Instr::Pop
            | Instr::SetLocal(..)
            | Instr::SetInstanceVariable(_)
            | Instr::SetGlobal(_)
            | Instr::SetConstant(_)
            | Instr::ObjToString
            | Instr::DefineClass(..)
            | Instr::BranchIf(_)
            | Instr::BranchUnless(_)
            | Instr::BranchNil(_)
            | Instr::Throw(_)
            | Instr::Leave
            | Instr::ExpandArray(_) => 1,
            Instr::Swap | Instr::NewRange(_) | Instr::AnyToString | Instr::CheckMatch => 2,
            _ => 0,
        }
    }

    /// How many values it puts on the stack after that.
    pub(crate) fn leaves(&self) -> u128
        ensures count { result ≡ leaves_of self.now }
        ensures small { result < 2 ^ 64 }
    {
        match self {
            Instr::ExpandArray(count) => *count as u128,
            Instr::Swap => 2,
            Instr::Throw(0)
            | Instr::Nop
            | Instr::Pop
            | Instr::SetN(_)
            | Instr::AdjustStack(_)
            | Instr::SetLocal(..)
            | Instr::SetInstanceVariable(_)
            | Instr::SetGlobal(_)
            | Instr::SetConstant(_)
            | Instr::DefineMethod(..)
            | Instr::Jump(_)
            | Instr::BranchIf(_)
            | Instr::BranchUnless(_)
            | Instr::BranchNil(_)
            | Instr::Leave => 0,
            _ => 1,
        }
    }

    /// How many values have to be on the stack.
    pub(crate) fn needs(&self) -> u128
        ensures count { result ≡ needs_of self.now }
        ensures taken { takes_of self.now ≤ result }
    {
        match self {
            Instr::Dup => 1,
            Instr::TopN(below) | Instr::SetN(below) => *below as u128 + 1,
            _ => self.takes(),
        }
    }

    /// Where it may jump to.
    pub(crate) fn target(&self) -> Option<u64>
        ensures { result ≡ target_of self.now }
    {
        match self {
            Instr::Jump(target)
            | Instr::BranchIf(target)
            | Instr::BranchUnless(target)
            | Instr::BranchNil(target) => Some(*target),
            _ => None,
        }
    }

    /// Whether it leads to the instruction after it.
    pub(crate) fn goes_on(&self) -> bool
        ensures { result ≡ goes_on self.now }
    {
        !matches!(self, Instr::Jump(_) | Instr::Throw(0) | Instr::Leave)
    }

    /// Whether a body may end with it.
    pub(crate) fn is_ending(&self) -> bool
        ensures { result ≡ is_ending self.now }
    {
        matches!(self, Instr::Jump(_) | Instr::Throw(_) | Instr::Leave)
    }
}
