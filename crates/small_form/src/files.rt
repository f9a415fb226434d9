//! The lines of a file.
ghost use Rattle.std.specs.Prelude.{◌≡◌, ◌-◌, ◌++◌, suc, length, replicate, IfOk, OnOk};
ghost use Rattle.std.specs.FinMap as map;
ghost use Rattle.ruby_tree.specs.Read.{tree_of};
ghost use Rattle.ruby_tree.specs.Views.{read_all};
ghost use Rattle.small_form.specs.SmallForm.{is_next, lines_from, IsPushed};
ghost use Rattle.small_form.specs.declared.tree.Line.TheVariants as line;

use crate::sites::{Names, Site};
use crate::statements::note_name;
use crate::{LINE_LIMIT, Line};
use bs_outside::{Items, NoMemory, TextMap};
use ruby_tree::{Node, SymbolTable};
use std::alloc::Global;

/// The lines that the statements are, from line 1 on.
#[tactic(auto, using(crate::proofs::Behind::going, std::proofs::lemmas::Grind::common_steps))]
pub fn lines_of(
    alloc: Global,
    symbols: &SymbolTable,
    statements: &[Node],
) -> Result<Option<Items<Line>>, NoMemory>
    ensures { IfOk result (λ lines. lines ≡ lines_from 1 map.empty (read_all symbols.now statements.now)) }
{
    let mut lines = Items::new(alloc);
    let mut names = TextMap::new(alloc);
    for statement in statements {
        if !push_line(alloc, symbols, &mut names, &mut lines, statement)? {
            return Ok(None);
        }
    }
    Ok(Some(lines))
}

/// Puts the line that the statement is, behind empty ones, if it has the form of one. The lines go on behind it as it says.
#[tactic(auto, using(crate::proofs::Behind::pushed, std::proofs::lemmas::Grind::common_steps))]
fn push_line(
    alloc: Global,
    symbols: &SymbolTable,
    names: &mut Names,
    lines: &mut Items<Line>,
    statement: &Node,
) -> Result<bool, NoMemory>
    ensures { IfOk result (λ is_line. IsPushed lines.old lines.new names.old names.new (tree_of symbols.now statement.now) is_line) }
{
    if !is_next(lines, statement.first) {
        return Ok(false);
    }
    let site = Site {
        alloc,
        symbols,
        names,
        line: statement.first,
    };
    let Some(line) = site.statement(statement)? else {
        return Ok(false);
    };
    push_empty(lines, statement.first)?;
    note_name(alloc, names, &line)?;
    lines.push(line)?;
    Ok(true)
}

/// Whether the line of this number is one behind the lines, and not behind the last one that may be.
fn is_next(lines: &Items<Line>, number: u64) -> bool
    ensures { result ≡ is_next (length lines.now) number }
{
    (lines.len() as u64) < number && number <= LINE_LIMIT
}

/// Puts empty lines, up to the line of this number.
#[tactic(auto, using(crate::proofs::Behind::emptied, std::proofs::lemmas::Grind::common_steps))]
fn push_empty(lines: &mut Items<Line>, number: u64) -> Result<(), NoMemory>
    ensures { OnOk result (lines.new ≡ lines.old ++ replicate (number - suc (length lines.old)) line.Empty) }
{
    while number > 0 && (lines.len() as u64) < number - 1 {
        lines.push(Line::Empty)?;
    }
    Ok(())
}
