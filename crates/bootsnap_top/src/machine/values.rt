//! The machine's values, its stack and its locals.
ghost use Rattle.std.specs.Prelude.{◌≡◌, ◌∷◌, ◌<◌, [], ℤ, List, false, IsTrue, Some, None, IfOk, IfSome, OnOk, IsNone, MatchOption, length, map, replicate, slice_get, slice_set};
ghost use Rattle.std.specs.Option.{option_map};
ghost use Rattle.bootsnap_top.specs.Machine.{Datum, Nil, Main, Integer, Stepped, Ends, datum_of, first_state, with_integer, with_main, MachineState};

use crate::machine::steps::End;
use bs_outside::{Items, NoMemory};
use std::alloc::Global;
use std::marker::Model;

/// A value. A text is the code's own.
#[derive(Clone, Copy)]
pub enum Value<'a> {
    Nil,
    /// The self of a file.
    Main,
    Integer(i64),
    Text(&'a [u8]),
}

/// The values on the stack, the top last, and those of the locals, by slot.
#[derive(Drop)]
pub struct Machine<'a> {
    stack: Items<Value<'a>>,
    locals: Items<Value<'a>>,
}

impl<'a> Model for Machine<'a> {
    ghost use Rattle.std.specs.Prelude.{map, reverse};
    ghost use Rattle.bootsnap_top.specs.Machine.{MachineState, datum_of, state_with};

    ghost Value = { MachineState };

    ghost view = { λ m. state_with (reverse (map datum_of m.stack)) (map datum_of m.locals) };
}

impl<'a> Machine<'a> {
    /// A machine with nothing on the stack and so many locals, which are nil.
    pub fn new(alloc: Global, count: usize) -> Result<Machine<'a>, NoMemory>
        ensures { IfOk result (λ machine. machine ≡ first_state count) }
    {
        Ok(Machine {
            stack: Items::new(alloc),
            locals: nils(alloc, count)?,
        })
    }

    /// Puts the value on top.
    pub fn push(&mut self, value: Value<'a>) -> Result<(), NoMemory>
        ensures stack { OnOk result (self.new.stack ≡ datum_of value.entry ∷ self.old.stack) }
        ensures locals { self.new.locals ≡ self.old.locals }
    {
        self.stack.push(value)
    }

    /// Takes the top.
    pub fn pop(&mut self) -> Option<Value<'a>>
        ensures stack { MatchOption result (self.old.stack ≡ []) (λ top. self.old.stack ≡ datum_of top ∷ self.new.stack) }
        ensures locals { self.new.locals ≡ self.old.locals }
    {
        self.stack.pop()
    }

    /// Takes the top, where it is an Integer.
    pub fn pop_integer(&mut self) -> Option<i64>
        ensures integer { MatchOption result ((then : ℤ → List Datum → Stepped) → with_integer self.old.stack then ≡ Ends End.NotYet) (λ number. self.old.stack ≡ Integer number ∷ self.new.stack) }
        ensures locals { self.new.locals ≡ self.old.locals }
    {
        match self.pop() {
            Some(Value::Integer(number)) => Some(number),
            _ => None,
        }
    }

    /// Takes the top, and answers whether it was self.
    pub fn pop_main(&mut self) -> bool
        ensures main { IsTrue result → self.old.stack ≡ Main ∷ self.new.stack }
        ensures other { result ≡ false → (then : List Datum → Stepped) → with_main self.old.stack then ≡ Ends End.NotYet }
        ensures locals { self.new.locals ≡ self.old.locals }
    {
        matches!(self.pop(), Some(Value::Main))
    }

    /// The local's value.
    pub fn local(&self, slot: usize) -> Option<Value<'a>>
        ensures { option_map datum_of result ≡ slice_get self.now.locals slot }
    {
        self.locals.get(slot).copied()
    }

    /// How many locals there are.
    pub fn local_count(&self) -> usize
        ensures { result ≡ length self.now.locals }
    {
        self.locals.len()
    }

    /// Gives the local this value.
    pub fn set_local(&mut self, slot: usize, value: Value<'a>)
        requires { slot < length self.old.locals }
        ensures locals { self.new.locals ≡ slice_set self.old.locals slot (datum_of value.entry) }
        ensures stack { self.new.stack ≡ self.old.stack }
    {
        self.locals.set(slot, value);
    }
}

/// So many locals that are nil.
fn nils<'a>(alloc: Global, count: usize) -> Result<Items<Value<'a>>, NoMemory>
    ensures { IfOk result (λ locals. map datum_of locals ≡ replicate count Nil) }
{
    let mut locals = Items::new(alloc);
    'slots: for _slot in 0..count {
        locals.push(Value::Nil)?;
    }
    Ok(locals)
}
