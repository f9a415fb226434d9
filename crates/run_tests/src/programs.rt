//! Programs, words and faults, with what they come to.
use crate::outcomes::{Outcome, Outside, Source, outcome_of, outcome_over, shelf_of, tree_of};
use bs_outside::NoMemory;
use mem_outside::MemSink;
use std::alloc::Global;
use std::test::Fail;
use std::thread::Threads;

/// A file `/main.rb` with this text.
fn main_file(text: &[u8]) -> Source<'_> {
    Source {
        path: "/main.rb",
        text,
        mtime: 100,
    }
}

/// What a run of the file `/main.rb` with this text comes to, where no cache file stands.
fn run_main<H: Threads + Sync>(threads: &H, alloc: Global, text: &[u8]) -> Result<Outcome, Fail> {
    let shelf = shelf_of(alloc, Vec::new(alloc));
    outcome_over(threads, alloc, "run main.rb", &main_file(text), shelf)
}

#[test]
fn programs_come_to(rt: HostRuntime) -> Result<(), Fail> {
    for (text, status, output, errors) in [
        ("puts 2 + 3\n", 0, "5\n", ""),
        ("puts 2 + 3", 0, "5\n", ""),
        ("", 0, "", ""),
        ("\n\nputs 0\n", 0, "0\n", ""),
        ("puts 10 - 3 - 4\n", 0, "3\n", ""),
        ("puts 3 - 10\n", 0, "-7\n", ""),
        ("x = 1\nx = x + x\ny = x + x - 1\nputs y\n", 0, "3\n", ""),
        ("puts \"a b ~!'\"\n", 0, "a b ~!'\n", ""),
        ("puts \"\"", 0, "\n", ""),
        ("puts 9223372036854775807\n", 0, "9223372036854775807\n", ""),
        (
            "puts 0 - 9223372036854775807 - 1\n",
            0,
            "-9223372036854775808\n",
            "",
        ),
        (
            "x = 9223372036854775807\nputs x + 1\n",
            1,
            "",
            "/main.rb:2: integer out of range (RangeError)\n",
        ),
        (
            "puts 1\n\nx = 0 - 9223372036854775807 - 2\nputs 2",
            1,
            "1\n",
            "/main.rb:3: integer out of range (RangeError)\n",
        ),
        ("puts  1\n", 0, "1\n", ""),
        ("puts 1 \n", 0, "1\n", ""),
        ("puts 1+2", 0, "3\n", ""),
        ("x=1 # one\nputs(x)\n", 0, "1\n", ""),
        ("puts 1\r\n", 0, "1\n", ""),
        ("puts = 1\n", 0, "", ""),
        ("_x9 = 1\nputs _x9", 0, "1\n", ""),
    ] {
        let outcome = run_main(&rt, rt.alloc(), text.as_bytes())?;
        assert!(rt; outcome.is(status, output, errors, ""), "{text}");
        assert!(rt; outcome.asked(1, 1, 1), "{text}");
    }
    Ok(())
}

#[test]
fn programs_that_are_no_small_files(rt: HostRuntime) -> Result<(), Fail> {
    for text in [
        "puts 2 * 3\n",
        "puts -1\n",
        "puts x\nx = 1\n",
        "puts x",
        "x = x\n",
        "X = 1\n",
        "puts \"a#b\"\n",
        "puts \"a\\n\"\n",
        "puts\n",
        "x = 1; puts x\n",
        "puts 1; puts 2",
        "puts 1 +\n2\n",
        "def f\nend\n",
    ] {
        let outcome = run_main(&rt, rt.alloc(), text.as_bytes())?;
        assert!(rt;
            outcome.is(207, "", "", "") && outcome.asked(1, 1, 0),
            "{text}"
        );
    }
    Ok(())
}

#[test]
fn syntax_errors_have_their_line(rt: HostRuntime) -> Result<(), Fail> {
    for (text, line) in [
        ("puts 1\nend", 2),
        ("puts 1\n\nbreak\n", 3),
        ("\nbreak", 2),
        ("def f\n  puts 1\n", 2),
        ("puts 01\n", 1),
        ("puts 1\nputs 9223372036854775808\n", 2),
        ("puts 1 +\n", 1),
        ("end = 1\n", 1),
    ] {
        let outcome = run_main(&rt, rt.alloc(), text.as_bytes())?;
        let errors = format!(in rt.alloc(); "/main.rb:{line}: syntax error (SyntaxError)\n")?;
        assert!(rt;
            outcome.is(1, "", errors.as_str(), "") && outcome.asked(1, 1, 0),
            "{text}"
        );
    }
    Ok(())
}

/// So many newlines, and then `puts` with a sum of so many ones.
fn sum_behind(alloc: Global, newlines: usize, ones: usize) -> Result<Vec<u8>, NoMemory> {
    let mut text = Vec::new(alloc);
    for _ in 0..newlines {
        text.push(b'\n')?;
    }
    text.extend_from_slice(b"puts 1")?;
    for _ in 1..ones {
        text.extend_from_slice(b" + 1")?;
    }
    text.push(b'\n')?;
    Ok(text)
}

#[test]
fn limits_of_the_small_form(rt: HostRuntime) -> Result<(), Fail> {
    for (newlines, ones, status, output, errors) in [
        (0, 100, 0, "100\n", ""),
        (0, 101, 207, "", ""),
        (0, 198, 207, "", ""),
        (2, 199, 1, "", "/main.rb:3: syntax error (SyntaxError)\n"),
        (4, 300, 1, "", "/main.rb:5: syntax error (SyntaxError)\n"),
        (999, 7, 0, "7\n", ""),
        (1_000, 7, 207, "", ""),
    ] {
        let text = sum_behind(rt.alloc(), newlines, ones)?;
        let outcome = run_main(&rt, rt.alloc(), &text)?;
        assert!(rt; outcome.is(status, output, errors, ""), "{newlines} {ones}");
    }
    Ok(())
}

/// What a call with these words comes to over a file `/main.rb` with this text, if there is one. The calls of the tree, the output and
/// the error text with these numbers fail.
fn run_failing<H: Threads + Sync>(
    threads: &H,
    alloc: Global,
    line: &str,
    text: Option<&[u8]>,
    fail: [u64; 3],
) -> Result<Outcome, Fail> {
    let [tree, output, errors] = fail;
    let tree = match text {
        Some(text) => tree_of(alloc, &[main_file(text)], tree)?,
        None => tree_of(alloc, &[], tree)?,
    };
    let outside = Outside {
        tree,
        shelf: shelf_of(alloc, Vec::new(alloc)),
        output: MemSink::new(alloc, vec![in alloc; output]?),
        errors: MemSink::new(alloc, vec![in alloc; errors]?),
    };
    outcome_of(threads, alloc, line, outside)
}

#[test]
fn words_and_faults(rt: HostRuntime) -> Result<(), Fail> {
    let text = Some(b"puts 1\nputs 2".as_slice());
    let fault = Some(b"end".as_slice());
    let missing = "cannot load such file -- /main.rb (LoadError)\n";
    let root = "cannot load such file -- / (LoadError)\n";
    for (line, file, fail, status, output, errors) in [
        ("run main.rb", None, [0, 0, 0], 1, "", missing),
        ("run .", None, [0, 0, 0], 1, "", root),
        ("run lib/../main.rb", text, [0, 0, 0], 0, "1\n2\n", ""),
        ("", text, [0, 0, 0], 200, "", "bootsnap: word 1\n"),
        ("walk", text, [0, 0, 0], 200, "", "bootsnap: word 1\n"),
        ("run", text, [0, 0, 0], 200, "", "bootsnap: word 2\n"),
        ("run -x", text, [0, 0, 0], 200, "", "bootsnap: word 2\n"),
        (
            "run main.rb a",
            text,
            [0, 0, 0],
            200,
            "",
            "bootsnap: word 3\n",
        ),
        ("run main.rb", text, [1, 0, 0], 203, "", ""),
        ("run main.rb", text, [2, 0, 0], 203, "", ""),
        ("run main.rb", text, [0, 1, 0], 205, "", ""),
        ("run main.rb", None, [0, 0, 1], 205, "", ""),
        ("run main.rb", fault, [0, 0, 1], 205, "", ""),
        ("run", text, [0, 0, 1], 205, "", ""),
    ] {
        let outcome = run_failing(&rt, rt.alloc(), line, file, fail)?;
        assert!(rt; outcome.is(status, output, errors, ""), "{line} {fail:?}");
    }
    Ok(())
}

#[test]
fn a_failing_output_took_a_prefix(rt: HostRuntime) -> Result<(), Fail> {
    let mut text = Vec::new(rt.alloc());
    let mut whole = Vec::new(rt.alloc());
    for _ in 0..900 {
        text.extend_from_slice(b"puts \"0123456789012345678901234567890123456789\"\n")?;
        whole.extend_from_slice(b"0123456789012345678901234567890123456789\n")?;
    }
    for (fail, status, length) in [
        (0, 0, 36_900),
        (1, 205, 0),
        (3, 205, 16_400),
        (5, 205, 32_800),
        (6, 0, 36_900),
    ] {
        let outcome = run_failing(&rt, rt.alloc(), "run main.rb", Some(&text), [0, fail, 0])?;
        assert_eq!(rt; outcome.status, status);
        assert_eq!(rt; outcome.output.bytes().len(), length);
        assert!(rt; whole.starts_with(outcome.output.bytes()));
    }
    Ok(())
}
