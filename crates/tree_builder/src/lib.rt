//! Parts of a syntax tree, as a reader builds them.
//!
//! A part knows how deep it is. One that is deeper than [`MAX_DEPTH`] is not kept: it is a stub, and so is all that holds it, so that no
//! tree is ever too deep to be dropped, and the reader goes on to the end of its text.
#![tactic(auto)]

ghost use Rattle.std.specs.Prelude.{◌≡◌, ◌≤◌};
ghost use Rattle.ruby_tree.specs.Names.{Texts};
ghost use Rattle.ruby_tree.specs.Tree.{Tree};
ghost use Rattle.ruby_tree.specs.Depth.{depth};
ghost use Rattle.ruby_tree.specs.Build.{symbol_of, is_body};
ghost use Rattle.tree_builder.specs.Subtrees.{symbol_in, is_body_kind, Holds, IsOtherName};
ghost use Rattle.ruby_tree.specs.declared.node.Node.TheViews.{out-Node};

mod assignments;
mod builds;
mod calls;
mod controls;
mod definitions;
mod kept;
mod lists;
mod values;

pub use assignments::{
    and_attribute, and_index, assign, assign_all, assign_attribute, assign_index,
    operate_attribute, operate_index, or_attribute, or_index,
};
pub use builds::{
    alone, bare_form, binary, call_form, conjunction, disjunction, or_empty, path_with, read_form,
    rescued, sent, symbol_block, symbols_at, texts_at,
};
pub use calls::{bare_raise, bare_super, safe_send, send, super_with, yield_with};
pub use controls::{
    both, break_with, case_of, case_tests, either, if_else, negated, next_with, retry, return_with,
    statements, while_loop,
};
pub use definitions::{
    body, class, ensure, ensure_sequence, method, module_named, rescue, rescue_sequence,
};
pub use lists::{
    ElseSubtree, PairSubtrees, ParamSubtrees, PieceSubtrees, RescueSubtrees, Subtrees, WhenSubtrees,
};
use ruby_tree::{Control, Handler, Kind, Literal, Name, Node};
pub use values::{
    array, constant_path, false_value, file_name, folder_name, global, hash, instance, integer,
    joined, line_number, local, nil_value, range, self_value, symbol, text, true_value,
};

/// The depth of the deepest tree that is kept.
pub const MAX_DEPTH: u64 = 200;

/// A node with its depth, which is 1 for a leaf.
#[derive(Drop)]
pub struct Subtree {
    /// The node, or a stub where the depth is above [`MAX_DEPTH`].
    pub node: Node,
    /// The depth, or `MAX_DEPTH + 1` for all above [`MAX_DEPTH`].
    pub depth: u64,
}

/// The name of a symbol.
pub fn symbol_name(part: &Subtree) -> Option<Name>
    ensures { (T : Texts) (t : Tree) → Holds T part.now t → IsOtherName T result (symbol_of t) }
{
    if part.depth > MAX_DEPTH {
        return None;
    }
    symbol_in(&part.node)
}

/// Whether it is statements, with clauses or without.
pub fn is_body(part: &Subtree) -> bool
    ensures { (T : Texts) (t : Tree) → Holds T part.now t → depth t ≤ 200 → result ≡ is_body t }
{
    is_body_node(&part.node)
}

fn symbol_in(node: &Node) -> Option<Name>
    ensures { result ≡ symbol_in (out-Node node.now).kind }
{
    match node.kind {
        Kind::Literal(Literal::Symbol(name)) => Some(name),
        _ => None,
    }
}

fn is_body_node(node: &Node) -> bool
    ensures { result ≡ is_body_kind (out-Node node.now).kind }
{
    matches!(
        node.kind,
        Kind::Control(Control::Statements(_))
            | Kind::Handler(Handler::Rescue(_, _, _) | Handler::Ensure(_, _))
    )
}
