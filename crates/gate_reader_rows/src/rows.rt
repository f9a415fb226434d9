//! Rows: texts, and what the reader gives for them.

use crate::escapes::{escaped, unescaped};
use crate::outline::outline;
use crate::pieces::Pieces;
use crate::repeats::repeated;
use anyhow::{Result, bail};
use ruby_reader::{ReadError, read_program};
use std::alloc::Global;

/// What a row shows.
#[derive(Clone, Copy)]
pub enum Form {
    /// The tree, or `!` and the line of the fault.
    Trees,
    /// The same, with where each node stands.
    SourcePositions,
    /// The tree, or `line` and the line of the fault.
    Lines,
}

impl Form {
    /// What the rows behind a line of the input show that is no row itself.
    pub fn behind(self, line: &str) -> Form {
        match line {
            "# with trees" => Form::Trees,
            "# with positions" => Form::SourcePositions,
            "# with lines" => Form::Lines,
            _ => self,
        }
    }

    /// Whether it shows where each node stands.
    fn has_positions(self) -> bool {
        matches!(self, Form::SourcePositions)
    }

    /// What stands before the line of a fault.
    fn before_line(self) -> &'static str {
        match self {
            Form::Lines => "line ",
            Form::Trees | Form::SourcePositions => "!",
        }
    }
}

/// What is printed for a row: its text as it stands, and behind it what the reader gives for it.
///
/// # Errors
///
/// Where the row is no string of Rust, or there is not memory enough.
pub fn answer(alloc: Global, form: Form, row: &str) -> Result<Vec<u8>> {
    let Some(text) = unescaped(alloc, row)? else {
        bail!("no string: {row}");
    };
    let given = match read_program(alloc, text.as_bytes()) {
        Ok(program) => {
            let tree = outline(alloc, &program, form.has_positions())?;
            escaped(alloc, tree.as_slice())?
        }
        Err(error) => fault(alloc, form, error)?,
    };
    line_of(alloc, row, given.as_slice())
}

/// What is printed for a row whose text repeats a part: the row as it stands, and behind it that its text has a tree, or the line of its
/// fault.
///
/// # Errors
///
/// Where the row has another form, or there is not memory enough.
pub fn repeated_answer(alloc: Global, form: Form, row: &str) -> Result<Vec<u8>> {
    let Some(text) = repeated(alloc, row)? else {
        bail!("no text that repeats a part: {row}");
    };
    let given = match read_program(alloc, text.as_slice()) {
        Ok(_) => Vec::from_slice(alloc, b"tree")?,
        Err(error) => fault(alloc, form, error)?,
    };
    line_of(alloc, row, given.as_slice())
}

/// A row, and what the reader gives for its text.
fn line_of(alloc: Global, row: &str, given: &[u8]) -> Result<Vec<u8>> {
    let mut line = Vec::from_slice(alloc, row.as_bytes())?;
    line.extend_from_slice(b"  ->  ")?;
    line.extend_from_slice(given)?;
    Ok(line)
}

/// The line of a fault.
fn fault(alloc: Global, form: Form, error: ReadError) -> Result<Vec<u8>> {
    match error {
        ReadError::Syntax(fault) => {
            let mut pieces = Pieces::new(alloc);
            pieces.put(form.before_line());
            pieces.number(fault.line);
            Ok(pieces.whole()?)
        }
        ReadError::NoMemory => bail!("out of memory"),
    }
}
