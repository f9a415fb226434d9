//! Prints texts of Ruby with what the reader gives for them: a table whose rows are compared as text.
//!
//! A line of the input that begins with `"` is a row, a text as a string of Rust. It is printed with its tree, or the line of its fault,
//! behind it. So is one that begins with `repeat "`, a text that repeats a part; where it has a tree, that is not printed whole. Each
//! other line is printed as it stands; some say what the rows behind them show (`Form`).
#![tactic(auto)]

mod escapes;
mod outline;
mod pieces;
mod repeats;
mod rows;

use anyhow::bail;
use rows::{Form, answer, repeated_answer};
use std::io;
use std::io::{BufRead, BufReader, BufWriter, Write};
use std::thread::Builder;

/// The stack of the thread in which the texts are read, in bytes: four times what the deepest of them takes.
const STACK: usize = 64 << 20;

/// Prints the rows.
fn print_rows(rt: &HostRuntime) -> anyhow::Result<()> {
    let alloc = rt.alloc();
    let mut out = BufWriter::new(alloc, io::writer(rt))?;
    let mut form = Form::Trees;
    for line in BufReader::new(alloc, rt.reader())?.lines(alloc) {
        let line = line?;
        if line.as_str().starts_with('"') {
            out.write_all(answer(alloc, form, line.as_str())?.as_slice())?;
        } else if line.as_str().starts_with("repeat \"") {
            out.write_all(repeated_answer(alloc, form, line.as_str())?.as_slice())?;
        } else {
            form = form.behind(line.as_str());
            out.write_all(line.as_bytes())?;
        }
        out.write_all(b"\n")?;
    }
    out.flush()?;
    Ok(())
}

fn main(rt: HostRuntime) -> anyhow::Result<()> {
    let printed = Builder::new()
        .stack_size(STACK)
        .spawn(&rt, move || print_rows(&rt).is_ok())?
        .join(&rt);
    if !printed {
        bail!("a row could not be printed");
    }
    Ok(())
}
