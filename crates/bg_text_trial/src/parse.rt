//! What is a program and what is none, and where.
use crate::line::say;
use std::test::Fail;

/// Texts, and the lines that refuse them, which name the first token with which no program goes on. Maps are read, and only
/// then refused.
const TEXTS: [(&[u8], &[u8]); 29] = [
    (b"procedure P() {", b"error: 1:16 syntax\n"),
    (b"procedure P() {\n // c\n", b"error: 3:1 syntax\n"),
    (b"procedure\n  procedure", b"error: 2:3 syntax\n"),
    (
        b"procedure P(a: bool, b: bool, c: bool) { assert a && b || c; }",
        b"error: 1:56 syntax\n",
    ),
    (b"axiom true;)", b"error: 1:12 syntax\n"),
    (b"axiom true", b"error: 1:11 syntax\n"),
    (b"axiom", b"error: 1:6 syntax\n"),
    (b"true", b"error: 1:1 syntax\n"),
    (b"const n unique: bool;", b"error: 1:9 syntax\n"),
    (b"var n, {:n} m: int;", b"error: 1:8 syntax\n"),
    (b"var n: []int;", b"error: 1:9 syntax\n"),
    (b"function n(n:)", b"error: 1:14 syntax\n"),
    (b"procedure n() free modifies n;", b"error: 1:20 syntax\n"),
    (b"procedure n()", b"error: 1:14 syntax\n"),
    (
        b"procedure n() { if (*) { } else { } else { } }",
        b"error: 1:37 syntax\n",
    ),
    (b"procedure n() { if (true); }", b"error: 1:26 syntax\n"),
    (
        b"procedure n() { while (true) free requires true; { } }",
        b"error: 1:35 syntax\n",
    ),
    (b"procedure n() { assert true }", b"error: 1:29 syntax\n"),
    (
        b"procedure n() { n := true; var n: int; }",
        b"error: 1:28 syntax\n",
    ),
    (b"axiom true; axiom {:n}{:n true, n} true;", b""),
    (b"type a; type b, c = int, d;", b""),
    (
        b"const unique a, b: bool; const {:a true} c: [int, int][int](bool);",
        b"",
    ),
    (b"var {:n} n, m: int, o: bool;", b""),
    (
        b"type n; function f(n, m: int, [int]bool) returns (r: bool); function g(): bool { true }",
        b"",
    ),
    (
        b"var g: int; procedure P() returns (n: int); requires true; free ensures true; modifies g, g; modifies; ensures true;",
        b"",
    ),
    (
        b"procedure P(n: int) requires true; { } procedure Q(); implementation Q() returns () { var n: int; var m: bool; a: b: m := true; c: }",
        b"",
    ),
    (
        b"procedure P() { if (*) { } if (true) { assert true; } else if (true) { } else { return; } }",
        b"",
    ),
    (
        b"procedure P() { var x: bool; L: while (true) free invariant true; invariant true; { break; break L; goto M, N; havoc x; } M: N: }",
        b"",
    ),
    (
        b"var m: [int, int][int]bool; function f(bool): bool; procedure Q(a: bool, b: bool); procedure R() returns (a: bool, b: bool); procedure P() modifies m; { var a: bool; var b: bool; call Q(true, a); call {:n} a, b := R(); m[1, 2][3] := true; a, b := true, f(m[1, 2][4]); }",
        b"",
    ),
];

#[test]
fn each_text_is_read_or_refused_at_its_token(rt: HostRuntime) -> Result<(), Fail> {
    for (text, line) in &TEXTS {
        assert!(rt; say(rt.alloc(), &[(*text, 1)], line)?);
    }
    Ok(())
}
