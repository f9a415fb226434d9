//! The names that are locals at a place.
ghost use Rattle.std.specs.Prelude.{◌≡◌, ℕ, ◌-◌, ◌<◌, ◌≤◌, [], ◌∷◌, length, drop, map, get_or, slice_get, IfOk, OnOk, OnErr};
ghost use Rattle.std.specs.List.{IsDistinct};
ghost use Rattle.ruby_lexer.specs.Bytes.{is_in, same};
ghost use Rattle.ruby_tree.specs.Names.{Extends};

use bs_outside::NoMemory;
use indexmap::IndexSet;
use std::alloc::Global;
use std::marker::Model;

/// A name that became a local.
#[derive(Clone, Copy, Drop)]
struct Declared {
    /// The number of the name.
    number: usize,
    /// The place of the declaration of the same name before this one, counted from 1, or 0 where there was none.
    before: usize,
}

/// The names that are locals at a place. Contracts see them as a list, the newest first.
///
/// A name is found through an index, and what is declared is taken back in the reverse order.
#[derive(Drop)]
pub struct Locals {
    /// Each name that ever was a local, once.
    texts: IndexSet<Vec<u8>>,
    /// For each number of a name, the place of its newest declaration, counted from 1, or 0 where it is no local.
    newest: Vec<usize>,
    /// The locals, the newest last.
    declared: Vec<Declared>,
}

impl Model for Locals {
    ghost use Rattle.std.specs.Prelude.{ℕ, List};

    ghost Value = { List (List ℕ) };

    ghost use Rattle.token_lookahead.specs.LocalNames.{locals_of, IsIndexed};

    ghost view = { locals_of };

    ghost invariant = { IsIndexed };
}

impl Locals {
    /// No locals.
    pub fn new(alloc: Global) -> Locals
        ensures { result ≡ [] }
    {
        Locals {
            texts: IndexSet::new(alloc),
            newest: Vec::new(alloc),
            declared: Vec::new(alloc),
        }
    }

    /// How many there are, each declaration counted.
    pub fn len(&self) -> usize
        ensures { result ≡ length self.now }
    {
        self.declared.len()
    }

    /// Whether the name is a local.
    pub fn contains(&self, name: &[u8]) -> bool
        ensures { result ≡ is_in name.now self.now }
    {
        match self.texts.get_index_of(name) {
            Some(number) => match self.newest.get(number) {
                Some(place) => *place != 0,
                None => false,
            },
            None => false,
        }
    }

    /// The name becomes a local.
    pub fn declare(&mut self, alloc: Global, name: &[u8]) -> Result<(), NoMemory>
        ensures ok { OnOk result (self.new ≡ name.now ∷ self.old) }
        ensures err { OnErr result (self.new ≡ self.old) }
    {
        let number = number_of(&mut self.texts, alloc, name)?;
        make_room(&mut self.newest, number)?;
        let before = self.newest[number];
        self.declared.push(Declared { number, before })?;
        self.newest[number] = self.declared.len();
        Ok(())
    }

    /// Takes back what was declared since there were so many.
    pub fn close(&mut self, len: usize)
        requires { len ≤ length self.old }
        ensures { self.new ≡ drop (length self.old - len) self.old }
    {
        while self.declared.len() > len {
            let Some(last) = self.declared.pop() else {
                return;
            };
            self.newest[last.number] = last.before;
        }
    }
}

/// The number of the name, a new one where it had none.
fn number_of(texts: &mut IndexSet<Vec<u8>>, alloc: Global, name: &[u8]) -> Result<usize, NoMemory>
    requires { IsDistinct same (map (λ v. v.items) texts.old.keys) }
    ensures ok { IfOk result (λ number. slice_get (map (λ v. v.items) texts.new.keys) number ≡ Some name.now) }
    ensures apart { IsDistinct same (map (λ v. v.items) texts.new.keys) }
    ensures extends { Extends (map (λ v. v.items) texts.old.keys) (map (λ v. v.items) texts.new.keys) }
    ensures longer { length texts.old.keys ≤ length texts.new.keys }
{
    if let Some(number) = texts.get_index_of(name) {
        return Ok(number);
    }
    let text = Vec::from_slice(alloc, name)?;
    let (number, _) = texts.insert_full(text)?;
    Ok(number)
}

/// Zeros behind the places, till there is one of this number.
fn make_room(places: &mut Vec<usize>, number: usize) -> Result<(), NoMemory>
    ensures same { (n : ℕ) → get_or places.new.items n 0 ≡ get_or places.old.items n 0 }
    ensures within { OnOk result (number < length places.new.items) }
    ensures longer { length places.old.items ≤ length places.new.items }
    ensures fits { (n : ℕ) → number < n → length places.old.items ≤ n → length places.new.items ≤ n }
{
    while places.len() <= number {
        places.push(0)?;
    }
    Ok(())
}
