//! The tokens of a text as statements, or the line of the fault in them.
ghost use Rattle.std.specs.Prelude.{◌≡◌, Err, IfOk, IfErr};
ghost use Rattle.ruby_lexer.specs.Pieces.{seen_all};
ghost use Rattle.ruby_lexer.specs.Tokens.{before_end, IsFront};
ghost use Rattle.ruby_tree.specs.Rules.{fresh};
ghost use Rattle.ruby_tree.specs.Read.{tree_of};
ghost use Rattle.parse_state.specs.Standing.{At};
ghost use Rattle.reference_parser.specs.HasFault.{text_end, end_line};
ghost use Rattle.reference_parser.specs.ReadingOf.{tree, reading_of, stop_line};
ghost use Rattle.ruby_reader.specs.Outcomes.{IsFaultOf};
ghost use Rattle.ruby_reader.specs.Parsing.{is_whole, IsTaken, Parses, IsWhole, Judges};
ghost use Rattle.ruby_reader.specs.declared.reading.ReadError.TheVariants as read_error;

use crate::{ReadError, SyntaxFault};
use bs_outside::NoMemory;
use parse_state::{Context, Failure, Parser};
use ruby_lexer::{Token, TokenPrefix, before_end, newlines};
use ruby_tree::{Program, SymbolTable, placement_fault};
use std::alloc::Global;
use token_lookahead::{DoBlockOwner, Locals};
use tree_builder::{MAX_DEPTH, Subtree};

/// What was taken of the tokens of a text.
#[derive(Drop)]
pub struct Parsed<'a> {
    /// The statements.
    pub part: Subtree,
    /// The names in them.
    pub symbols: SymbolTable,
    /// The tokens behind them.
    pub rest: &'a [Token],
}

/// The text up to a line `__END__`.
fn context_of(alloc: Global, text: &[u8]) -> Context<'_>
    ensures { result.source.now ≡ before_end text.now }
{
    Context {
        source: before_end(text),
        alloc,
    }
}

/// A parser before the tokens of a file.
fn parser_of(alloc: Global, tokens: &[Token]) -> Parser<'_>
    ensures { At result (seen_all tokens.now) fresh }
{
    Parser {
        rest: tokens,
        locals: Locals::new(alloc),
        in_clause: false,
        symbols: SymbolTable::new(alloc),
    }
}

/// The last line of the text.
fn last_line(text: &[u8]) -> u64
    ensures { result ≡ text_end text.now }
{
    let source = before_end(text);
    newlines(&source[..source.len().saturating_sub(1)]) as u64 + 1
}

/// The line behind the last token.
fn end_line(text: &[u8], stop: Option<u64>) -> u64
    ensures { result ≡ end_line text.now stop }
{
    match stop {
        Some(line) => line,
        None => last_line(text),
    }
}

/// The line at which the grammar stops.
fn stop_line(alloc: Global, text: &[u8], front: &TokenPrefix) -> Result<u64, NoMemory>
    ensures { IfOk result (λ line. line ≡ stop_line text.now (seen_all front.now.tokens) front.now.fault) }
{
    let context = context_of(alloc, text);
    let mut parser = parser_of(alloc, front.tokens.as_slice());
    let end = end_line(text, front.fault);
    // Statements nest as they do where the whole file is read, of which they are a part.
    let line = parse_program::stop_line(MAX_DEPTH - 1, context, &mut parser, end)?;
    Ok(line.unwrap_or(last_line(text)))
}

/// The statements of a file, as far as they go.
pub fn parse<'a>(alloc: Global, text: &[u8], tokens: &'a [Token]) -> Result<Parsed<'a>, Failure>
    ensures { Parses text.now (seen_all tokens.now) result }
{
    let mut parser = parser_of(alloc, tokens);
    let part = parse_program::statements(
        MAX_DEPTH,
        context_of(alloc, text),
        &mut parser,
        DoBlockOwner::Own,
    )?;
    Ok(Parsed {
        part,
        symbols: parser.symbols,
        rest: parser.rest,
    })
}

fn syntax(line: u64) -> ReadError
    ensures { result ≡ read_error.Syntax (record { line = line }) }
{
    ReadError::Syntax(SyntaxFault { line })
}

/// Why the tokens were not taken.
pub fn failed(alloc: Global, text: &[u8], front: &TokenPrefix, failure: Failure) -> ReadError
    requires front { IsFront text.now (seen_all front.now.tokens) front.now.fault }
    requires failed { Parses text.now (seen_all front.now.tokens) (Err failure) }
    ensures { IsFaultOf text.now result }
{
    match failure {
        Failure::Memory => ReadError::NoMemory,
        Failure::TooDeep => syntax(last_line(text)),
        Failure::Syntax => match stop_line(alloc, text, front) {
            Ok(line) => syntax(line),
            Err(_) => ReadError::NoMemory,
        },
    }
}

/// Whether all of the text was taken.
fn is_whole(front: &TokenPrefix, parsed: &Parsed<'_>) -> bool
    ensures { result ≡ is_whole (seen_all parsed.now.rest.now) front.now.fault }
{
    match parsed.rest {
        [] => front.fault.is_none(),
        [_, ..] => false,
    }
}

/// The line of the fault, if what was taken is not the whole text, too deep, or has something where
/// it may not stand.
fn fault_in(
    alloc: Global,
    text: &[u8],
    front: &TokenPrefix,
    parsed: &Parsed<'_>,
) -> Result<Option<u64>, NoMemory>
    requires front { IsFront text.now (seen_all front.now.tokens) front.now.fault }
    requires taken { IsTaken text.now (seen_all front.now.tokens) parsed.now }
    ensures { IfOk result (Judges text.now parsed.now) }
{
    if !is_whole(front, parsed) {
        return Ok(Some(stop_line(alloc, text, front)?));
    }
    if parsed.part.depth > MAX_DEPTH {
        return Ok(Some(last_line(text)));
    }
    match placement_fault(alloc, &parsed.symbols, &parsed.part.node)? {
        Some(fault) => Ok(Some(fault.line)),
        None => Ok(None),
    }
}

/// What was taken, as a program.
fn program_of(text: &[u8], parsed: Parsed<'_>) -> Program
    requires { IsWhole text.now parsed }
    ensures { reading_of text.now ≡ tree (tree_of result.symbols result.root) }
{
    Program {
        root: parsed.part.node,
        symbols: parsed.symbols,
    }
}

/// The program, or the fault in what was taken.
pub fn judged(
    alloc: Global,
    text: &[u8],
    front: &TokenPrefix,
    parsed: Parsed<'_>,
) -> Result<Program, ReadError>
    requires front { IsFront text.now (seen_all front.now.tokens) front.now.fault }
    requires taken { IsTaken text.now (seen_all front.now.tokens) parsed }
    ensures program { IfOk result (λ program. reading_of text.now ≡ tree (tree_of program.symbols program.root)) }
    ensures fault { IfErr result (IsFaultOf text.now) }
{
    match fault_in(alloc, text, front, &parsed)? {
        None => Ok(program_of(text, parsed)),
        Some(line) => Err(syntax(line)),
    }
}
