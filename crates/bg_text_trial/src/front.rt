//! What is judged, and how large a text may be.
use crate::line::say;
use std::alloc::{AllocError, Global};
use std::test::Fail;

/// Texts of which verdicts are given.
const JUDGED: [&[u8]; 25] = [
    b"procedure {:n 1} P(x: [int]int) { }",
    b"procedure P() { assert 12 == 13; } const unique c: [int]int;",
    b"function f(x: bool): bool; type T = [int]bool; function g(T): bool;",
    b"var g: bool; function f(x: bool): [int]bool;",
    b"type T = [int]int;",
    b"procedure P(m: [int]bool);",
    b"axiom true; function f(): bool { true } function g(): int; function h([int]int): int;",
    b"function f(m: [int]int): bool; axiom true;",
    b"const unique a, b: int; const unique c: bool; procedure P() { assert a != b; }",
    b"const {:existential true} b, c: bool; procedure P(a: bool); requires b ==> a ==> !a; ensures (c) ==> a;",
    b"procedure {:n 1} P(x: int) { }",
    b"procedure P() { assert 12 == 13; }",
    b"procedure P() { while (true) invariant false; { break; } }",
    b"procedure P() { if (*) { goto A; } else { return; } A: }",
    b"procedure P() { } var g: bool;",
    b"procedure P(a: bool) returns (b: bool); requires a; free ensures b == old(a);",
    b"var g: bool; procedure P(); modifies g; procedure Q() modifies g; { call P(); }",
    b"procedure P(); implementation P() { } implementation P() { assert true; }",
    b"procedure P() { } procedure Q(); requires true; axiom true;",
    b"const {:existential true} b: bool; const c: bool;",
    b"const {:existential false} b: bool; axiom b;",
    b"function f(x: int): int { x + 1 } const c: int; axiom f(c) == 1 && 0 < f(f(c));",
    b"function f(x: bool): bool; const unique c: bool;",
    b"var g: bool; function f(int, b: bool) returns (c: int); axiom f(0, true) == 1;",
    b"axiom true; function f(): bool { true } function g(): int; function h(): int { g() }",
];

#[test]
fn each_construct_is_judged(rt: HostRuntime) -> Result<(), Fail> {
    for text in &JUDGED {
        assert!(rt; say(rt.alloc(), &[(*text, 1)], b"")?);
    }
    Ok(())
}

/// Pieces, each so many times, and the line of their text.
type Large = (&'static [(&'static [u8], u32)], &'static [u8]);

/// Brackets, but not comments and signs.
const NESTED: [Large; 6] = [
    (
        &[
            (b"procedure P() { assert ", 1),
            (b"(", 199),
            (b"true", 1),
            (b")", 199),
            (b"; }", 1),
        ],
        b"",
    ),
    (
        &[
            (b"procedure P() { assert ", 1),
            (b"(", 200),
            (b"true", 1),
            (b")", 200),
            (b"; }", 1),
        ],
        b"error: limit nesting 201\n",
    ),
    (&[(b"var m: ", 1), (b"[", 200)], b"error: 1:208 syntax\n"),
    (
        &[(b"var m: ", 1), (b"[", 201)],
        b"error: limit nesting 201\n",
    ),
    (&[(b"/*", 100000), (b"*/", 100000)], b""),
    (
        &[
            (b"procedure P() { assert ", 1),
            (b"!", 100000),
            (b"true; }", 1),
        ],
        b"",
    ),
];

/// Bytes and implementations.
const LONG: [Large; 4] = [
    (&[(b" ", 4194304)], b""),
    (&[(b" ", 4194305)], b"error: limit bytes 4194305\n"),
    (
        &[(b"procedure P();", 1), (b"implementation P() { }\n", 10000)],
        b"",
    ),
    (
        &[(b"procedure P();", 1), (b"implementation P() { }\n", 10001)],
        b"error: limit implementations 10001\n",
    ),
];

/// 255 calls with 257 places each, and others.
const PLACES: [Large; 3] = [
    (
        &[
            (b"procedure Q(); ", 1),
            (b"requires true;", 257),
            (b" procedure P() free ensures true; { ", 1),
            (b"call Q();", 255),
            (b" }", 1),
        ],
        b"",
    ),
    (
        &[
            (b"procedure Q(); ", 1),
            (b"requires true;", 257),
            (b" procedure P() { assert true; ", 1),
            (b"call Q();", 255),
            (b" }", 1),
        ],
        b"error: limit places 65536\n",
    ),
    (
        &[
            (b"procedure Q(); ", 1),
            (b"requires true;", 257),
            (b" procedure P() ensures true; { ", 1),
            (b"call Q();", 255),
            (b" while (true) invariant true; { } }", 1),
        ],
        b"error: limit places 65538\n",
    ),
];

/// 1,001 calls with 999 nodes each, and others.
const EXPANDED: [Large; 3] = [
    (
        &[
            (b"procedure Q(); ", 1),
            (b"free requires true;", 999),
            (b" procedure P() { ", 1),
            (b"call Q();", 1001),
            (b"assume (true); }", 1),
        ],
        b"",
    ),
    (
        &[
            (b"procedure Q(); ", 1),
            (b"free requires true;", 999),
            (b" procedure P() { ", 1),
            (b"call Q();", 1001),
            (b"assume !true; }", 1),
        ],
        b"error: limit expanded 1000001\n",
    ),
    (
        &[
            (b"procedure Q(); ", 1),
            (b"free requires true;", 999),
            (b" procedure P() ensures true; { ", 1),
            (b"call Q();", 1001),
            (b"assume true; }", 1),
        ],
        b"error: limit expanded 1000001\n",
    ),
];

/// 1,000 and 998 applications with 1,001 nodes each, in an axiom and in none.
const OPENED: [Large; 4] = [
    (
        &[
            (b"function f(x: int): int { x", 1),
            (b" + x", 999),
            (b" } function g(x: int): int { f(x)", 1),
            (b" + f(x)", 999),
            (b" }", 1),
        ],
        b"",
    ),
    (
        &[
            (b"function f(x: int): int { x", 1),
            (b" + x", 999),
            (b" } function g(x: int): int { f(x)", 1),
            (b" + f(x)", 999),
            (b" } axiom g(1) == 1;", 1),
        ],
        b"error: limit expanded 1000001\n",
    ),
    (
        &[
            (b"function f(x: int): int { x", 1),
            (b" + x", 999),
            (b" } axiom f(1)", 1),
            (b" + f(1)", 997),
            (b" == 1;", 1),
        ],
        b"",
    ),
    (
        &[
            (b"function f(x: int): int { x", 1),
            (b" + x", 999),
            (b" } procedure P() { assert f(1)", 1),
            (b" + f(1)", 999),
            (b" == 1; }", 1),
        ],
        b"error: limit expanded 1000001\n",
    ),
];

/// Adds the function with this number, with this body.
fn put_function(
    alloc: Global,
    text: &mut Vec<u8>,
    number: u32,
    body: &[u8],
) -> Result<(), AllocError> {
    let head = format!(in alloc; "function f{number}(x: int): int ")?;
    text.extend_from_slice(head.as_bytes())?;
    text.extend_from_slice(b"{ ")?;
    text.extend_from_slice(body)?;
    text.extend_from_slice(b" }\n")
}

/// A text with a function that applies none, and before it so many, each of which applies the next.
fn chain(alloc: Global, others: u32) -> Result<Vec<u8>, AllocError> {
    let mut text = Vec::new(alloc);
    for i in 0..others {
        let next = i + 1;
        let body = format!(in alloc; "f{next}(x)")?;
        put_function(alloc, &mut text, i, body.as_bytes())?;
    }
    put_function(alloc, &mut text, others, b"x")?;
    Ok(text)
}

#[test]
fn at_most_16_bodies_stand_in_a_chain(rt: HostRuntime) -> Result<(), Fail> {
    let most = chain(rt.alloc(), 15)?;
    assert!(rt; say(rt.alloc(), &[(&most, 1)], b"")?);
    let more = chain(rt.alloc(), 16)?;
    assert!(rt; say(rt.alloc(), &[(&more, 1)], b"error: limit bodies 17\n")?);
    Ok(())
}

/// A text with one candidate more than so many.
fn candidates(alloc: Global, others: u32) -> Result<Vec<u8>, AllocError> {
    let mut text = Vec::new(alloc);
    text.extend_from_slice(b"const {:existential true} c")?;
    for i in 0..others {
        let name = format!(in alloc; ", c{i}")?;
        text.extend_from_slice(name.as_bytes())?;
    }
    text.extend_from_slice(b": bool;")?;
    Ok(text)
}

#[test]
fn at_most_4096_candidates_are_declared(rt: HostRuntime) -> Result<(), Fail> {
    let most = candidates(rt.alloc(), 4095)?;
    assert!(rt; say(rt.alloc(), &[(&most, 1)], b"")?);
    let more = candidates(rt.alloc(), 4096)?;
    assert!(rt; say(rt.alloc(), &[(&more, 1)], b"error: limit candidates 4097\n")?);
    Ok(())
}

#[test]
fn each_limit_is_that_of_its_line(rt: HostRuntime) -> Result<(), Fail> {
    for table in [
        &NESTED[..],
        &LONG[..],
        &PLACES[..],
        &EXPANDED[..],
        &OPENED[..],
    ] {
        for (pieces, line) in table {
            assert!(rt; say(rt.alloc(), pieces, line)?);
        }
    }
    Ok(())
}
