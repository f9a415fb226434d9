//! Runs over a real folder, which the test writes itself.
use crate::tests::{enter, leave};
use crate::{CallStreams, start};
use bootsnap_top::status;
use bs_outside::{Bytes, Text};
use mem_outside::{SureInput, SureSink};
use std::alloc::{AllocError, Global};
use std::fs;
use std::marker::Brand;
use std::sync::ledger::Blank;
use std::thread::Threads;

/// What a run left.
#[derive(Drop)]
struct Left {
    status: u8,
    streams: CallStreams<SureInput, SureSink>,
}

impl Left {
    /// Whether the run printed 5, and noted this.
    fn is_five(&self, notes: &str) -> bool {
        self.status == 0
            && self.streams.out.bytes() == b"5\n".as_slice()
            && self.streams.note.bytes() == notes.as_bytes()
    }
}

/// Runs `main.rb` in the folder in which the test is, and notes what its look-up came to.
fn run<H: Threads + Sync>(
    threads: &H,
    rt: &HostRuntime,
    alloc: Global,
) -> Result<Left, AllocError> {
    let mut words = Vec::new(alloc);
    for word in [b"run".as_slice(), b"--instrument", b"main.rb"] {
        words.push(Text::new(alloc, word)?)?;
    }
    let mut streams = CallStreams {
        input: SureInput::new(Bytes::new(alloc, b"")?),
        out: SureSink::new(alloc),
        err: SureSink::new(alloc),
        note: SureSink::new(alloc),
    };
    let blank = Blank::new(1);
    let ending = start::<H, SureInput, SureSink, Brand>(
        threads,
        rt,
        alloc,
        &words,
        &mut streams,
        blank,
    )?;
    Ok(Left {
        status: status(&ending),
        streams,
    })
}

#[test]
fn runs_keep_their_file(rt: HostRuntime) -> anyhow::Result<()> {
    enter(&rt, "runs_of_the_test")?;
    let alloc = rt.alloc();
    fs::write(&rt, "main.rb", "puts 2 + 3\n")?;
    let place = ".bootsnap/iseq/c8/bdc3f866683a8b";
    for event in ["miss", "hit"] {
        let notes = format!(in alloc; "[Bootsnap] {event} /main.rb\n")?;
        assert!(rt; run(&rt, &rt, alloc)?.is_five(&notes), "{event}");
    }
    // The entry is cut, as by a crash, and then written again whole.
    let whole = fs::read(&rt, place)?;
    fs::write(&rt, place, &whole[..whole.len() / 2])?;
    for event in ["stale", "hit"] {
        let notes = format!(in alloc; "[Bootsnap] {event} /main.rb\n")?;
        assert!(rt; run(&rt, &rt, alloc)?.is_five(&notes), "{event}");
        assert!(rt; fs::read(&rt, place)? == whole);
    }
    // A file in the folder's place: none can be made, and nothing written.
    fs::remove_dir_all(&rt, ".bootsnap")?;
    fs::write(&rt, ".bootsnap", "no folder")?;
    let left = run(&rt, &rt, alloc)?;
    assert!(rt; left.is_five("[Bootsnap] miss /main.rb\n"));
    leave(&rt, "runs_of_the_test")?;
    Ok(())
}
