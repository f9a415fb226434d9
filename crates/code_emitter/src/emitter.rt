//! Where the nodes stand whose code is written.
ghost use Rattle.std.specs.Prelude.{◌≡◌, ◌+◌, true, IfOk, map};
ghost use Rattle.ruby_tree.specs.SourcePositions.{position_of};
ghost use Rattle.ruby_tree.specs.Read.{tree_of, text_of_name, goal_of};
ghost use Rattle.compile_table.specs.Shapes.{looped, line_at, own, start, get_local, set_local, set_goal, self_flag, number_of};
ghost use Rattle.code_emitter.specs.Emitting.{where_of, texts_of};

use bs_outside::{Items, NoMemory, Text, Texts};
use iseq_types::Instr;
use local_scopes::LocalScopes;
use ruby_tree::{Kind, Literal, Name, Node, SourcePosition, SymbolTable, Target};
use sequence_numbers::SequenceNumbers;
use std::alloc::{AllocError, Global};

/// Where nodes stand: in which file and which sequence, in a loop of it or not, and how deep their
/// values stand on the stack.
#[derive(Drop)]
pub struct Emitter<'s, 'a> {
    pub alloc: Global,
    /// The names in the file.
    pub symbols: &'a SymbolTable,
    /// The file's path.
    pub path: &'s Text,
    /// The numbers of the file's sequences.
    pub numbers: &'s SequenceNumbers,
    /// What is in sight within the sequence.
    pub scopes: &'s LocalScopes<'a>,
    pub in_loop: bool,
    /// The first line of the sequence.
    pub first: u64,
    pub depth: u64,
}

impl<'s, 'a> Emitter<'s, 'a> {
    /// In a loop, at the same depth.
    pub fn looped(&self) -> Emitter<'s, 'a>
        ensures place { where_of result ≡ looped (where_of self.now) }
        ensures texts { texts_of result ≡ texts_of self.now }
        ensures depth { result.depth ≡ self.now.depth }
        ensures inside { result.in_loop ≡ true }
    {
        Emitter {
            alloc: self.alloc,
            symbols: self.symbols,
            path: self.path,
            numbers: self.numbers,
            scopes: self.scopes,
            in_loop: true,
            first: self.first,
            depth: self.depth,
        }
    }

    /// The same, so much deeper on the stack. A depth that 64 bits cannot count wants more memory
    /// than there is.
    pub fn deeper(&self, by: u64) -> Result<Emitter<'s, 'a>, NoMemory>
        ensures place { IfOk result (λ deeper. where_of deeper ≡ where_of self.now) }
        ensures texts { IfOk result (λ deeper. texts_of deeper ≡ texts_of self.now) }
        ensures depth { IfOk result (λ deeper. deeper.depth ≡ self.now.depth + by) }
        ensures loops { IfOk result (λ deeper. deeper.in_loop ≡ self.now.in_loop) }
    {
        let Some(depth) = self.depth.checked_add(by) else {
            return Err(AllocError);
        };
        Ok(Emitter {
            alloc: self.alloc,
            symbols: self.symbols,
            path: self.path,
            numbers: self.numbers,
            scopes: self.scopes,
            in_loop: self.in_loop,
            first: self.first,
            depth,
        })
    }

    /// The line, or the first one of the sequence for what stands for no token.
    pub fn line(&self, line: u64) -> u64
        ensures { result ≡ line_at (where_of self.now) line }
    {
        if line == 0 { self.first } else { line }
    }

    /// The line of a node's name or operator.
    pub fn own(&self, at: SourcePosition) -> u64
        ensures { result ≡ own (where_of self.now) (position_of at) }
    {
        self.line(at.line)
    }

    /// The line of a node's first token.
    pub fn start(&self, at: SourcePosition) -> u64
        ensures { result ≡ start (where_of self.now) (position_of at) }
    {
        self.line(at.first)
    }

    /// The text of a name.
    pub fn text(&self, name: Name) -> Result<Text, NoMemory>
        ensures { IfOk result (λ text. text ≡ text_of_name (texts_of self.now) name) }
    {
        Text::new(self.alloc, self.symbols.text(name))
    }

    /// The texts of names.
    pub fn texts(&self, names: &[Name]) -> Result<Texts, NoMemory>
        ensures { IfOk result (λ texts. texts ≡ map (text_of_name (texts_of self.now)) names.now) }
    {
        let mut texts = Items::new(self.alloc);
        for name in names {
            texts.push(self.text(*name)?)?;
        }
        Ok(texts)
    }

    /// The places of arguments that are spread.
    pub fn splats(&self, places: &[u64]) -> Result<Items<u64>, NoMemory>
        ensures { IfOk result (λ splats. splats ≡ places.now) }
    {
        Ok(Items::from_vec(Vec::from_slice(self.alloc, places)?))
    }

    /// Reads a local.
    pub fn get_local(&self, name: Name) -> Instr
        ensures { result ≡ get_local (where_of self.now) (text_of_name (texts_of self.now) name) }
    {
        let local = self.scopes.find(self.symbols.text(name));
        Instr::GetLocal(local.slot as u64, local.level as u64)
    }

    /// Sets a local.
    pub fn set_local(&self, name: Name) -> Instr
        ensures { result ≡ set_local (where_of self.now) (text_of_name (texts_of self.now) name) }
    {
        let local = self.scopes.find(self.symbols.text(name));
        Instr::SetLocal(local.slot as u64, local.level as u64)
    }

    /// Sets a variable or a constant.
    pub fn set_target(&self, target: Target) -> Result<Instr, NoMemory>
        ensures { IfOk result (λ instr. instr ≡ set_goal (where_of self.now) (goal_of (texts_of self.now) target)) }
    {
        Ok(match target {
            Target::Local(name) => self.set_local(name),
            Target::Instance(name) => Instr::SetInstanceVariable(self.text(name)?),
            Target::Global(name) => Instr::SetGlobal(self.text(name)?),
            Target::Constant(name) => Instr::SetConstant(self.text(name)?),
        })
    }

    /// The number of the sequence of a body, a rescue part or an ensure part.
    #[tactic(auto, using(crate::proofs::Opened::place))]
    pub fn number_of(&self, tree: &Node) -> u64
        ensures { result ≡ number_of (where_of self.now) (tree_of (texts_of self.now) tree.now) }
    {
        self.numbers.number(tree.place) as u64
    }
}

/// The flag of a call whose receiver this is: 1 for `self`.
#[tactic(auto, using(crate::proofs::Opened::flag))]
pub fn self_flag(receiver: &Node) -> u64
    ensures { (texts : _) → result ≡ self_flag (tree_of texts receiver.now) }
{
    match &receiver.kind {
        Kind::Literal(Literal::SelfValue) => 1,
        _ => 0,
    }
}
