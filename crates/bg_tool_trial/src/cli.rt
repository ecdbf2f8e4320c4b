//! Which words are taken.
use crate::made::words;
use bg_cli::{LineError, read_line};
use std::alloc::{AllocError, Global};
use std::test::Fail;

/// Words, and the files, workers, nodes and rows that they ask for, if they are taken.
type Case = (
    &'static [&'static str],
    Option<(&'static str, u32, u32, u32)>,
);

const WORDS: [Case; 39] = [
    (
        &["bg", "generate", "4294967295", "1000"],
        Some(("", 4, 20_000, 20_000)),
    ),
    (&["bg", "generate", "1", "1001"], None),
    (&["bg", "generate", "1", "0"], None),
    (&["bg", "generate", "4294967296", "1"], None),
    (&["bg", "generate", "1"], None),
    (&["bg", "generate", "1", "2", "3"], None),
    (&["bg", "bench", "1", "4"], Some(("", 4, 20_000, 20_000))),
    (&["bg", "bench", "1", "--nodes", "7", "4"], None),
    (
        &["bg", "verify", "a.bpl"],
        Some(("a.bpl", 4, 20_000, 20_000)),
    ),
    (
        &["bg", "verify", "a", "b", "help"],
        Some(("a b help", 4, 20_000, 20_000)),
    ),
    (
        &["bg", "verify", "--nodes", "7", "a"],
        Some(("a", 4, 7, 20_000)),
    ),
    (
        &["bg", "verify", "--rows", "7", "a"],
        Some(("a", 4, 20_000, 7)),
    ),
    (
        &["bg", "verify", "--rows", "8", "a", "--nodes", "9"],
        Some(("a", 4, 9, 8)),
    ),
    (
        &["bg", "verify", "a", "--nodes", "1000000"],
        Some(("a", 4, 1_000_000, 20_000)),
    ),
    (
        &["bg", "verify", "--nodes=1", "--", "-a"],
        Some(("-a", 4, 1, 20_000)),
    ),
    (
        &["bg", "verify", "--workers", "16", "a"],
        Some(("a", 16, 20_000, 20_000)),
    ),
    (
        &["bg", "verify", "--guess", "--history", "a"],
        Some(("a", 4, 20_000, 20_000)),
    ),
    (
        &["bg", "annotate", "--guess", "--nodes", "7", "a"],
        Some(("a", 4, 7, 20_000)),
    ),
    (&["bg", "annotate", "--history", "a"], None),
    (&["bg", "verify", "--guess", "--guess", "a"], None),
    (&["bg", "verify", "--workers", "17", "a"], None),
    (&["bg", "verify", "--workers", "0", "a"], None),
    (&["bg", "verify", "--rows", "1000001", "a"], None),
    (&["bg", "verify", "--nodes", "1000001", "a"], None),
    (&["bg", "verify", "--nodes", "0", "a"], None),
    (&["bg", "verify", "--nodes", "x", "a"], None),
    (&["bg", "verify", "--nodes", "1", "--nodes", "2", "a"], None),
    (&["bg", "verify"], None),
    (&["bg"], None),
    (&[], None),
    (
        &["bg", "certify", "--workers", "2", "a"],
        Some(("a", 2, 20_000, 20_000)),
    ),
    (&["bg", "certify", "--guess", "a"], None),
    (
        &["bg", "check", "--cert", "c", "a", "b"],
        Some(("a b", 4, 20_000, 20_000)),
    ),
    (&["bg", "check", "--cert", "c"], None),
    (&["bg", "check", "a"], None),
    (&["bg", "verify", "-x", "a"], None),
    (&["bg", "help"], None),
    (&["bg", "--version"], None),
    (&["bg", "verify", "--help"], None),
];

fn is_told(alloc: Global, case: &Case) -> Result<bool, AllocError> {
    match (read_line(alloc, &words(alloc, case.0)?), case.1) {
        (Ok(line), Some((files, workers, nodes, rows))) => Ok(
            line.files.join(alloc, " ")?.as_str() == files
                && line.workers == workers
                && line.nodes == nodes
                && line.rows == rows,
        ),
        (Err(LineError::Usage), None) => Ok(true),
        _ => Ok(false),
    }
}

#[test]
fn words_are_taken_or_not(rt: HostRuntime) -> Result<(), Fail> {
    for case in &WORDS {
        assert!(rt; is_told(rt.alloc(), case)?);
    }
    Ok(())
}

/// Whether these words are taken and ask for guesses and for the history, or don't.
fn asks(alloc: Global, texts: &[&str], guess: bool, history: bool) -> Result<bool, AllocError> {
    match read_line(alloc, &words(alloc, texts)?) {
        Ok(line) => Ok(line.guess == guess && line.history == history),
        Err(_) => Ok(false),
    }
}

#[test]
fn flags_ask_for_guesses_and_for_the_history(rt: HostRuntime) -> Result<(), Fail> {
    let alloc = rt.alloc();
    assert!(rt; asks(alloc, &["bg", "verify", "--history", "a"], false, true)?);
    assert!(rt; asks(alloc, &["bg", "verify", "a", "--history", "b"], false, true)?);
    assert!(rt; asks(alloc, &["bg", "verify", "a", "--guess"], true, false)?);
    assert!(rt;
        asks(
            alloc,
            &["bg", "verify", "--history", "--guess", "a"],
            true,
            true
        )?
    );
    assert!(rt; asks(alloc, &["bg", "verify", "a"], false, false)?);
    assert!(rt; !asks(alloc, &["bg", "verify", "--history=true", "a"], false, true)?);
    Ok(())
}
