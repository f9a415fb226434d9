//! Lists of parts, and a part that may be missing.
ghost use Rattle.std.specs.Prelude.{◌≡◌, ◌≢◌, ◌==◌, Option, IfOk, IfErr, MatchOption};
ghost use Rattle.ruby_tree.specs.Names.{Texts, Bytes};
ghost use Rattle.ruby_tree.specs.Tree.{Tree, Trees, no_more, trees_then, Other, without, with, Pairs, no_pair, pair, Pieces, no_piece, plain_piece, code_piece, Whens, no_when, when, Rescues, no_clause, clause, Params, no_param, required, optional, rest_param, block_param};
ghost use Rattle.ruby_tree.specs.Build.{one, is_there};
ghost use Rattle.tree_builder.specs.Subtrees.{trees_count, pairs_then, pieces_then, whens_then, rescues_then, params_then, IsNamed, IsOtherName, Holds, HoldsAll, HoldsOther, HoldsPairs, HoldsPieces, HoldsWhens, HoldsRescues, HoldsParams};

use super::Subtree;
use super::kept::{boxed, deeper};
use bs_outside::{Bytes, NoMemory};
use ruby_tree::{Name, Node, Param, TextPart};
use std::alloc::Global;

/// Parts in a row.
#[derive(Drop)]
pub struct Subtrees {
    pub(super) nodes: Vec<Node>,
    pub(super) depth: u64,
}

impl Subtrees {
    /// No parts.
    pub fn new(alloc: Global) -> Subtrees
        ensures { (T : Texts) → HoldsAll T result no_more }
    {
        Subtrees {
            nodes: Vec::new(alloc),
            depth: 0,
        }
    }

    /// One part.
    pub fn one(alloc: Global, part: Subtree) -> Result<Subtrees, NoMemory>
        ensures { (T : Texts) (t : Tree) → Holds T part t → IfOk result (λ parts. HoldsAll T parts (one t)) }
    {
        let mut parts = Subtrees::new(alloc);
        parts.push(part)?;
        Ok(parts)
    }

    /// One more part, behind the others.
    pub fn push(&mut self, part: Subtree) -> Result<(), NoMemory>
        ensures { (T : Texts) (ts : Trees) (t : Tree) → HoldsAll T self.old ts → Holds T part t → IfOk result (λ _. HoldsAll T self.new (trees_then ts (one t))) }
    {
        self.depth = deeper(self.depth, part.depth);
        Ok(self.nodes.push(part.node)?)
    }

    /// How many parts there are.
    pub fn len(&self) -> usize
        ensures { (T : Texts) (ts : Trees) → HoldsAll T self.now ts → result ≡ trees_count ts }
    {
        self.nodes.len()
    }

    /// Whether there are no parts.
    pub fn is_empty(&self) -> bool
        ensures { (T : Texts) (ts : Trees) → HoldsAll T self.now ts → result ≡ (trees_count ts == 0) }
    {
        self.nodes.is_empty()
    }

    /// The only part, where there is one part; else the parts as they are.
    pub fn into_only(self) -> Result<Subtree, Subtrees>
        ensures only { (T : Texts) (ts : Trees) → HoldsAll T self ts → IfOk result (λ part. (t : Tree) × (ts ≡ one t) × Holds T part t) }
        ensures others { (T : Texts) (ts : Trees) → HoldsAll T self ts → IfErr result (λ parts. HoldsAll T parts ts × (trees_count ts ≢ 1)) }
    {
        let Subtrees { mut nodes, depth } = self;
        if nodes.len() != 1 {
            return Err(Subtrees { nodes, depth });
        }
        match nodes.pop() {
            Some(node) => Ok(Subtree { node, depth }),
            None => unreachable!(),
        }
    }
}

/// A part that may be missing.
#[derive(Drop)]
pub struct ElseSubtree {
    pub(super) node: Option<Box<Node>>,
    pub(super) depth: u64,
}

impl ElseSubtree {
    /// It is missing.
    pub fn none() -> ElseSubtree
        ensures { (T : Texts) → HoldsOther T result without }
    {
        ElseSubtree {
            node: None,
            depth: 0,
        }
    }

    /// It is there.
    pub fn some(alloc: Global, part: Subtree) -> Result<ElseSubtree, NoMemory>
        ensures { (T : Texts) (t : Tree) → Holds T part t → IfOk result (λ other. HoldsOther T other (with t)) }
    {
        let depth = part.depth;
        let node = boxed(alloc, part)?;
        Ok(ElseSubtree {
            node: Some(node),
            depth,
        })
    }

    /// Whether it is there.
    pub fn is_some(&self) -> bool
        ensures { (T : Texts) (o : Other) → HoldsOther T self.now o → result ≡ is_there o }
    {
        self.node.is_some()
    }

    /// The part, where it is there.
    pub fn into_part(self) -> Option<Subtree>
        ensures { (T : Texts) (o : Other) → HoldsOther T self o → MatchOption result (o ≡ without) (λ part. (t : Tree) × (o ≡ with t) × Holds T part t) }
    {
        let ElseSubtree { node, depth } = self;
        match node {
            Some(node) => Some(Subtree {
                node: Box::into_inner(node),
                depth,
            }),
            None => None,
        }
    }
}

/// Keys with their values.
#[derive(Drop)]
pub struct PairSubtrees {
    pub(super) pairs: Vec<(Node, Node)>,
    pub(super) depth: u64,
}

impl PairSubtrees {
    /// No pairs.
    pub fn new(alloc: Global) -> PairSubtrees
        ensures { (T : Texts) → HoldsPairs T result no_pair }
    {
        PairSubtrees {
            pairs: Vec::new(alloc),
            depth: 0,
        }
    }

    /// One more key with its value.
    pub fn push(&mut self, key: Subtree, value: Subtree) -> Result<(), NoMemory>
        ensures { (T : Texts) (ps : Pairs) (k v : Tree) → HoldsPairs T self.old ps → Holds T key k → Holds T value v → IfOk result (λ _. HoldsPairs T self.new (pairs_then ps (pair k v no_pair))) }
    {
        self.depth = deeper(self.depth, deeper(key.depth, value.depth));
        Ok(self.pairs.push((key.node, value.node))?)
    }
}

/// The parts of a text with code.
#[derive(Drop)]
pub struct PieceSubtrees {
    pub(super) pieces: Vec<TextPart<Node>>,
    pub(super) depth: u64,
}

impl PieceSubtrees {
    /// No parts.
    pub fn new(alloc: Global) -> PieceSubtrees
        ensures { (T : Texts) → HoldsPieces T result no_piece }
    {
        PieceSubtrees {
            pieces: Vec::new(alloc),
            depth: 0,
        }
    }

    /// Bytes that stand for themselves.
    pub fn push_plain(&mut self, bytes: Bytes) -> Result<(), NoMemory>
        ensures { (T : Texts) (ps : Pieces) → HoldsPieces T self.old ps → IfOk result (λ _. HoldsPieces T self.new (pieces_then ps (plain_piece bytes no_piece))) }
    {
        Ok(self.pieces.push(TextPart::Plain(bytes))?)
    }

    /// The statements of `#{..}`.
    pub fn push_code(&mut self, code: Subtree) -> Result<(), NoMemory>
        ensures { (T : Texts) (ps : Pieces) (t : Tree) → HoldsPieces T self.old ps → Holds T code t → IfOk result (λ _. HoldsPieces T self.new (pieces_then ps (code_piece t no_piece))) }
    {
        self.depth = deeper(self.depth, code.depth);
        Ok(self.pieces.push(TextPart::Code(code.node))?)
    }
}

/// The branches of a `case`.
#[derive(Drop)]
pub struct WhenSubtrees {
    pub(super) whens: Vec<(Vec<Node>, Node)>,
    pub(super) depth: u64,
}

impl WhenSubtrees {
    /// No branches.
    pub fn new(alloc: Global) -> WhenSubtrees
        ensures { (T : Texts) → HoldsWhens T result no_when }
    {
        WhenSubtrees {
            whens: Vec::new(alloc),
            depth: 0,
        }
    }

    /// One more branch: what the value is compared with, and the body.
    pub fn push(&mut self, values: Subtrees, body: Subtree) -> Result<(), NoMemory>
        ensures { (T : Texts) (ws : Whens) (ts : Trees) (t : Tree) → HoldsWhens T self.old ws → HoldsAll T values ts → Holds T body t → IfOk result (λ _. HoldsWhens T self.new (whens_then ws (when ts t no_when))) }
    {
        self.depth = deeper(self.depth, deeper(values.depth, body.depth));
        Ok(self.whens.push((values.nodes, body.node))?)
    }
}

/// The clauses of a `rescue`.
#[derive(Drop)]
pub struct RescueSubtrees {
    pub(super) clauses: Vec<(Vec<Node>, Option<Name>, Node)>,
    pub(super) depth: u64,
}

impl RescueSubtrees {
    /// No clauses.
    pub fn new(alloc: Global) -> RescueSubtrees
        ensures { (T : Texts) → HoldsRescues T result no_clause }
    {
        RescueSubtrees {
            clauses: Vec::new(alloc),
            depth: 0,
        }
    }

    /// One more clause: the classes, the name that the exception gets, and the body.
    pub fn push(
        &mut self,
        classes: Subtrees,
        name: Option<Name>,
        body: Subtree,
    ) -> Result<(), NoMemory>
        ensures { (T : Texts) (cs : Rescues) (ts : Trees) (x : Option Bytes) (t : Tree) → HoldsRescues T self.old cs → HoldsAll T classes ts → IsOtherName T name x → Holds T body t → IfOk result (λ _. HoldsRescues T self.new (rescues_then cs (clause ts x t no_clause))) }
    {
        self.depth = deeper(self.depth, deeper(classes.depth, body.depth));
        Ok(self.clauses.push((classes.nodes, name, body.node))?)
    }
}

/// The parameters of a method or a block.
#[derive(Drop)]
pub struct ParamSubtrees {
    pub(super) params: Vec<Param<Node>>,
    pub(super) depth: u64,
}

impl ParamSubtrees {
    /// No parameters.
    pub fn new(alloc: Global) -> ParamSubtrees
        ensures { (T : Texts) → HoldsParams T result no_param }
    {
        ParamSubtrees {
            params: Vec::new(alloc),
            depth: 0,
        }
    }

    /// One that is given always.
    pub fn push_required(&mut self, name: Name) -> Result<(), NoMemory>
        ensures { (T : Texts) (ps : Params) (f : Bytes) → HoldsParams T self.old ps → IsNamed T name f → IfOk result (λ _. HoldsParams T self.new (params_then ps (required f no_param))) }
    {
        Ok(self.params.push(Param::Required(name))?)
    }

    /// One with what it is where no argument is given.
    pub fn push_optional(&mut self, name: Name, value: Subtree) -> Result<(), NoMemory>
        ensures { (T : Texts) (ps : Params) (f : Bytes) (t : Tree) → HoldsParams T self.old ps → IsNamed T name f → Holds T value t → IfOk result (λ _. HoldsParams T self.new (params_then ps (optional f t no_param))) }
    {
        self.depth = deeper(self.depth, value.depth);
        Ok(self.params.push(Param::Optional(name, value.node))?)
    }

    /// One that takes the arguments that are left.
    pub fn push_rest(&mut self, name: Name) -> Result<(), NoMemory>
        ensures { (T : Texts) (ps : Params) (f : Bytes) → HoldsParams T self.old ps → IsNamed T name f → IfOk result (λ _. HoldsParams T self.new (params_then ps (rest_param f no_param))) }
    {
        Ok(self.params.push(Param::Rest(name))?)
    }

    /// One that takes the block.
    pub fn push_block(&mut self, name: Name) -> Result<(), NoMemory>
        ensures { (T : Texts) (ps : Params) (f : Bytes) → HoldsParams T self.old ps → IsNamed T name f → IfOk result (λ _. HoldsParams T self.new (params_then ps (block_param f no_param))) }
    {
        Ok(self.params.push(Param::Block(name))?)
    }
}
