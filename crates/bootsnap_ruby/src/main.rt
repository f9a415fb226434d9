//! The program: real files and streams for the top call.
#![tactic(auto)]

ghost use Rattle.std.specs.Prelude.{◌≡◌, IfOk, vec_len};

mod faults;
mod folder;
#[cfg(test)]
mod run_tests;
mod shelf;
mod streams;
#[cfg(test)]
mod tests;

use bootsnap_top::{Desk, Ending, bootsnap, status};
use bs_outside::{Input, Sink, Steps, Text};
use folder::FolderTree;
use shelf::FolderShelf;
use std::alloc::{AllocError, Global};
use std::io::Stdin;
use std::marker::Brand;
use std::process::ExitCode;
use std::rt::{Env, Files};
use std::sync::ledger::{Blank, Ledger};
use std::thread::{Builder, Threads};
use std::{env, io};
use streams::{Standard, StreamInput, StreamSink};

/// How many workers there may be.
const DESKS: usize = 16;

/// The words behind the program's name.
fn words<R: Env + AllocGlobal>(rt: &R, alloc: Global) -> io::Result<Vec<Text>> {
    let mut words = Vec::new(alloc);
    for word in env::args(rt)?.skip(1) {
        words.push(Text::new(alloc, word.as_bytes())?)?;
    }
    Ok(words)
}

/// One worker's sight of the folder and of the cache in it.
type FolderDesk<'a, R> = Desk<FolderTree<'a, R>, FolderShelf<'a, R>>;

/// One desk for each worker, all over one folder.
fn desks<R: Files>(rt: &R, alloc: Global) -> Result<Vec<FolderDesk<'_, R>>, AllocError>
    ensures { IfOk result (λ desks. vec_len desks ≡ 16) }
{
    let mut desks = Vec::new(alloc);
    for _ in 0..DESKS {
        let desk = Desk {
            tree: FolderTree::new(rt),
            shelf: FolderShelf::new(rt, alloc),
        };
        desks.push(desk)?;
    }
    Ok(desks)
}

/// Where the input comes from, and where the output, the error text and the notes go.
#[derive(Drop)]
struct CallStreams<I, O> {
    input: I,
    out: O,
    err: O,
    note: O,
}

/// Does what the words ask for, in the folder in which the program runs. The blank ledger is the one that `L` names.
fn start<H: Threads + Sync, I: Input, O: Sink, L: Ledger>(
    threads: &H,
    rt: &HostRuntime,
    alloc: Global,
    words: &[Text],
    streams: &mut CallStreams<I, O>,
    blank: Blank,
) -> Result<Ending, AllocError>
    requires name { blank.name ≡ L.name }
    requires parts { blank.parts ≡ L.parts }
    requires some { blank.parts ≡ 1 }
{
    let mut desks = desks(rt, alloc)?;
    let mut steps = Steps::<L>::new(blank);
    let done = bootsnap(
        threads,
        alloc,
        words,
        &mut desks,
        &mut streams.input,
        &mut streams.out,
        &mut streams.err,
        &mut streams.note,
        &mut steps,
    );
    Ok(done.ending)
}

/// The stack of the thread in which the program runs, in bytes: four times what the deepest text takes.
const STACK: usize = 64 << 20;

/// Runs the program, and answers its status.
fn run<H: Threads + Sync>(threads: &H, rt: &HostRuntime) -> u8 {
    let alloc = rt.alloc();
    let words = match words(rt, alloc) {
        Ok(words) => words,
        Err(error) if error.kind() == io::ErrorKind::OutOfMemory => {
            return status(&Ending::NoMemory);
        }
        Err(_) => {
            let _ = eprintln!(rt; "bootsnap: a word is not UTF-8");
            return status(&Ending::Usage(1));
        }
    };
    // The notes go to standard error too.
    let mut streams = CallStreams {
        input: StreamInput::new(rt.stdin()),
        out: StreamSink::new(Standard::Output(rt.stdout())),
        err: StreamSink::new(Standard::Error(rt.stderr())),
        note: StreamSink::new(Standard::Error(rt.stderr())),
    };
    let blank = Blank::new(1);
    match start::<H, StreamInput<Stdin>, StreamSink<Standard>, Brand>(
        threads,
        rt,
        alloc,
        &words,
        &mut streams,
        blank,
    ) {
        Ok(ending) => status(&ending),
        Err(_) => status(&Ending::NoMemory),
    }
}

fn main(rt: HostRuntime) -> ExitCode {
    // A text of a kilobyte can nest so deep that the stack of a main thread, 8 MiB mostly, does not hold it.
    match Builder::new()
        .stack_size(STACK)
        .spawn(&rt, move || run(&rt, &rt))
    {
        Ok(thread) => ExitCode::from(thread.join(&rt)),
        Err(_) => ExitCode::from(status(&Ending::NoMemory)),
    }
}
