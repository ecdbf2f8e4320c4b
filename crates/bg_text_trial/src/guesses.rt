//! How many guesses texts have, and the limit on them.
use crate::line::says;
use bg_front::read_program;
use bg_guess::{count, guess};
use std::alloc::{AllocError, Global};
use std::test::Fail;

/// Texts without candidates, how many guesses each has, and the name of the last one.
const TEXTS: [(&[u8], usize, &[u8]); 6] = [
    (
        b"procedure Count(n: int) returns (i: int) requires 0 <= n; ensures i == n; { i := 0; while (i < n) { i := i + 1; } }",
        8,
        b"guess:8",
    ),
    (
        b"var g: int; procedure P(); modifies g; procedure Q() modifies g; { call P(); } procedure R() { }",
        4,
        b"guess:4",
    ),
    (
        b"var g: bool; procedure P(); modifies g; implementation P() { while (*) { while (*) { } } }",
        3,
        b"guess:3",
    ),
    (
        b"var g: int; procedure P(g: int) { while (*) { } }",
        2,
        b"guess:2",
    ),
    (b"procedure P(x: int) { call P(x); }", 1, b"guess:1"),
    (b"procedure P(a, b, c, d: int) { }", 16, b"guess:16"),
];

/// Whether a text has so many guesses, and the last of them is called so.
fn tells(alloc: Global, text: &[u8], wanted: usize, last: &[u8]) -> Result<bool, AllocError> {
    let Ok(typed) = read_program(alloc, text, false) else {
        return Ok(false);
    };
    let counted = count(alloc, &typed.program)?;
    let made = guess(alloc, typed.program)?;
    let named = match made.candidates.last() {
        Some(name) => name.text.as_slice() == last,
        None => false,
    };
    Ok(named && counted == wanted && made.candidates.len() == wanted)
}

#[test]
fn each_text_has_so_many_guesses(rt: HostRuntime) -> Result<(), Fail> {
    for (text, wanted, last) in TEXTS {
        assert!(rt; tells(rt.alloc(), text, wanted, last)?);
    }
    Ok(())
}

/// A text with one global of type int more than so many, and an implementation: it has a guess for each two of them, and for each.
fn globals(alloc: Global, front: &[u8], others: u32) -> Result<Vec<u8>, AllocError> {
    let mut text = Vec::from_slice(alloc, front)?;
    text.extend_from_slice(b"var g")?;
    for i in 0..others {
        let name = format!(in alloc; ", g{i}")?;
        text.extend_from_slice(name.as_bytes())?;
    }
    text.extend_from_slice(b": int; procedure P() { }")?;
    Ok(text)
}

/// What stands in front, how many other globals there are, and the lines without guesses and with them.
const LARGE: [(&[u8], u32, &[u8], &[u8]); 4] = [
    (b"", 63, b"", b""),
    (b"", 64, b"", b"error: limit candidates 4225\n"),
    (
        b"const {:existential true} b: bool; ",
        63,
        b"",
        b"error: limit candidates 4097\n",
    ),
    (b"", 1999, b"", b"error: limit candidates 4000000\n"),
];

#[test]
fn guesses_are_counted_before_they_are_made(rt: HostRuntime) -> Result<(), Fail> {
    for (front, others, without, with) in LARGE {
        let text = globals(rt.alloc(), front, others)?;
        assert!(rt;
            says(rt.alloc(), &text, false, without)? && says(rt.alloc(), &text, true, with)?
        );
    }
    Ok(())
}
