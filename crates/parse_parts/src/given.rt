//! What a call is given.
ghost use Rattle.std.specs.Prelude.{◌≡◌, IfOk};
ghost use Rattle.ruby_tree.specs.Names.{Texts};
ghost use Rattle.ruby_tree.specs.Build.{Given, nothing, has_block};
ghost use Rattle.reference_parser.specs.ReadItems.{Element, Passing, no_passing, with_element};
ghost use Rattle.tree_builder.specs.Subtrees.{trees_count};
ghost use Rattle.parse_parts.specs.Items.{given_then, only_passing, HoldsGiven, HoldsElement, HoldsPassing, HoldsHash};

use bs_outside::NoMemory;
use std::alloc::Global;
use tree_builder::{ElseSubtree, Subtree, Subtrees};

/// What a call is given: its arguments, the places of those that are spread, the block value, and the block that stands for `&:name`.
#[derive(Drop)]
pub struct ArgumentParts {
    /// The arguments.
    pub arguments: Subtrees,
    /// The places of the arguments that are spread, counted from 0.
    pub spread: Vec<u64>,
    /// The value behind `&`.
    pub value: ElseSubtree,
    /// The block that `&:name` stands for.
    pub block: ElseSubtree,
}

// An element, and whether it is spread.
#[derive(Drop)]
pub struct ElementPart {
    pub spread: bool,
    pub part: Subtree,
}

// What is passed behind `&`: a value, or the block of a symbol.
#[derive(Drop)]
pub struct PassingParts {
    pub value: ElseSubtree,
    pub block: ElseSubtree,
}

// The pairs of a call as one hash, and what is passed behind them.
#[derive(Drop)]
pub struct HashPart {
    pub hash: Subtree,
    pub passing: PassingParts,
}

impl PassingParts {
    // Nothing is passed.
    pub fn none() -> PassingParts
        ensures { (T : Texts) → HoldsPassing T result no_passing }
    {
        PassingParts {
            value: ElseSubtree::none(),
            block: ElseSubtree::none(),
        }
    }
}

impl ArgumentParts {
    /// Nothing is given.
    pub fn nothing(alloc: Global) -> ArgumentParts
        ensures { (T : Texts) → HoldsGiven T result nothing }
    {
        ArgumentParts {
            arguments: Subtrees::new(alloc),
            spread: Vec::new(alloc),
            value: ElseSubtree::none(),
            block: ElseSubtree::none(),
        }
    }

    /// Whether it has an argument with `&`.
    pub fn has_block(&self) -> bool
        ensures { (T : Texts) (g : Given) → HoldsGiven T self.now g → result ≡ has_block g }
    {
        self.value.is_some() || self.block.is_some()
    }

    // One more element, behind the others. What is passed would stand behind it, so nothing is passed yet.
    pub fn push(&mut self, element: ElementPart) -> Result<(), NoMemory>
        ensures { (T : Texts) (g : Given) (e : Element) → HoldsGiven T self.old g → HoldsElement T element e → IfOk result (λ _. HoldsGiven T self.new (given_then g (with_element e (trees_count g.trees) nothing))) }
    {
        let place = self.arguments.len() as u64;
        self.arguments.push(element.part)?;
        self.value = ElseSubtree::none();
        self.block = ElseSubtree::none();
        if element.spread {
            self.spread.push(place)?;
        }
        Ok(())
    }

    // The last one: what is passed.
    pub fn pass(&mut self, passing: PassingParts)
        ensures { (T : Texts) (g : Given) (p : Passing) → HoldsGiven T self.old g → HoldsPassing T passing p → HoldsGiven T self.new (given_then g (only_passing p)) }
    {
        self.value = passing.value;
        self.block = passing.block;
    }

    // The last one: pairs, and what is passed behind them.
    pub fn finish(&mut self, last: HashPart) -> Result<(), NoMemory>
        ensures { (T : Texts) (g h : Given) → HoldsGiven T self.old g → HoldsHash T last h → IfOk result (λ _. HoldsGiven T self.new (given_then g h)) }
    {
        self.arguments.push(last.hash)?;
        self.pass(last.passing);
        Ok(())
    }
}
