//! Where a parser stands.
use ruby_lexer::Token;
use ruby_tree::SymbolTable;
use std::alloc::Global;
use token_lookahead::Locals;

/// The text whose tokens are read, and where memory is asked for.
#[derive(Clone, Copy, Drop)]
pub struct Context<'a> {
    /// The whole text.
    pub source: &'a [u8],
    /// Where memory is asked for.
    pub alloc: Global,
}

/// Where a parser stands: the tokens and the locals there, and the names that it has met.
#[derive(Drop)]
pub struct Parser<'a> {
    /// The tokens that are left.
    pub rest: &'a [Token],
    /// The names that are locals.
    pub locals: Locals,
    /// Whether it stands directly in a rescue clause.
    pub in_clause: bool,
    /// The names of the nodes that were read.
    pub symbols: SymbolTable,
}
