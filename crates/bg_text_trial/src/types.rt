//! Faults of types, and texts that have none.
use crate::line::say;
use std::test::Fail;

/// What stands above the expressions.
const NAMED: &[u8] =
    b"type E; type A = [int]int; type B = [int, E][int]bool;\nconst i: int; const b: bool; const e: E; const m: A; const n: B; function f(int): bool;\n";

/// Axioms, and the lines that refuse them; those without a fault of types have none.
const EXPRESSIONS: [(&[u8], &[u8]); 24] = [
    (
        b"axiom !(i * 1 + -(1) == m[i]); axiom (n[i, e][1] ==> true) && b; axiom m[i := 1] == m && f(i);",
        b"",
    ),
    (b"axiom i;", b"error: 3:7 type bool int\n"),
    (b"axiom 1 + true == i;", b"error: 3:11 type int bool\n"),
    (b"axiom i && 1 < (true);", b"error: 3:16 type int bool\n"),
    (b"axiom !i;", b"error: 3:8 type bool int\n"),
    (b"axiom -i;", b"error: 3:7 type bool int\n"),
    (b"axiom b == i;", b"error: 3:12 type bool int\n"),
    (
        b"axiom m == n;",
        b"error: 3:12 type [int]int [int,E][int]bool\n",
    ),
    (b"axiom m[e] == 1;", b"error: 3:9 type int E\n"),
    (b"axiom i[e];", b"error: 3:7 type map int\n"),
    (b"axiom m[i, i] == 1;", b"error: 3:8 arity\n"),
    (b"axiom n[i] == b;", b"error: 3:8 arity\n"),
    (b"axiom m[i := b] == m;", b"error: 3:14 type int bool\n"),
    (b"axiom f(i, i);", b"error: 3:7 arity\n"),
    (b"axiom f(e);", b"error: 3:9 type int E\n"),
    (b"axiom i * i == 1;", b"error: 3:9 nonlinear\n"),
    (b"axiom i * -(1 + 1) * (1) == 1;", b""),
    (b"axiom i * (i + 1) == 1;", b"error: 3:9 nonlinear\n"),
    (b"axiom n[i, e];", b"error: 3:7 type bool [int]bool\n"),
    (
        b"axiom i; axiom 1 + true == 1;",
        b"error: 3:7 type bool int\n",
    ),
    (
        b"axiom 1 + true == 1; axiom i;",
        b"error: 3:11 type int bool\n",
    ),
    (b"axiom true; axiom i * i == 1;", b"error: 3:21 nonlinear\n"),
    (
        b"axiom i * i == 1; axiom f(i, i);",
        b"error: 3:9 nonlinear\n",
    ),
    (b"axiom f(i, i); axiom i * i == 1;", b"error: 3:7 arity\n"),
];

/// Declarations with types, and statements.
const WRITTEN: [(&[u8], &[u8]); 20] = [
    (b"const c: [([int]int)]int;", b"error: 1:11 index\n"),
    (b"type E; const c: [E][int]int;", b""),
    (b"const c: int; const d: [bool]int;", b"error: 1:25 index\n"),
    (
        b"type A = [int]int; const c: [A]int;",
        b"error: 1:30 index\n",
    ),
    (
        b"type A = [int]int; const c: [int, (A)]int;",
        b"error: 1:35 index\n",
    ),
    (b"type A = bool; const c: [A]int;", b"error: 1:26 index\n"),
    (b"type E; type A = E; type B = A; const c: [B]int;", b""),
    (b"type A = A; const c: int;", b"error: 1:6 cyclic A\n"),
    (
        b"type A = B;\ntype B = [int]C;\ntype C = [B]int;",
        b"error: 2:6 cyclic B\n",
    ),
    (
        b"type A = B;\ntype B = [bool]int;\nconst c: [bool]int;",
        b"error: 2:11 index\n",
    ),
    (
        b"type A = [bool]int;\ntype B = B;\nconst c: [bool]int;",
        b"error: 2:6 cyclic B\n",
    ),
    (b"type A = A;", b"error: 1:6 cyclic A\n"),
    (b"var m: [bool]int;", b"error: 1:9 index\n"),
    (
        b"procedure P() { var a: int; a := 1, 2; }",
        b"error: 1:31 arity\n",
    ),
    (
        b"procedure P(x: int, y: int) { assume x * y == 0; }",
        b"error: 1:40 nonlinear\n",
    ),
    (
        b"procedure P(x: bool) { assume x == 1; }",
        b"error: 1:36 type bool int\n",
    ),
    (
        b"procedure P(x: int) { assume x[1] == 1; }",
        b"error: 1:30 type map int\n",
    ),
    (
        b"type T; procedure P(x: [int,T]T) { assert x; }",
        b"error: 1:43 type bool [int,T]T\n",
    ),
    (
        b"procedure P() { assert 1; }",
        b"error: 1:24 type bool int\n",
    ),
    (
        b"var g: bool; type A = A; procedure P() { assert 1; }",
        b"error: 1:19 cyclic A\n",
    ),
];

/// What stands above the implementations.
const CALLED: &[u8] = b"type E; const e: E; procedure P(x: int, y: E) returns (r: int);\n";

const BODIES: [(&[u8], &[u8]); 14] = [
    (
        b"implementation P(x: int, y: E) returns (r: int) { var l: bool; r, l := 1, true; }",
        b"",
    ),
    (
        b"implementation P(x: int, y: E) returns (r: int) { var l: bool; r := 1, 1; }",
        b"error: 2:66 arity\n",
    ),
    (
        b"implementation P(x: int, y: E) returns (r: int) { var l: bool; r, l := 1; }",
        b"error: 2:69 arity\n",
    ),
    (
        b"implementation P(x: int, y: E) returns (r: int) { var l: bool; r := true; }",
        b"error: 2:69 type int bool\n",
    ),
    (
        b"implementation P(x: int, y: E) returns (r: int) { var l: bool; r, l := 1, 1; }",
        b"error: 2:75 type bool int\n",
    ),
    (
        b"implementation P(x: int, y: E) returns (r: int) { var l: bool; r, l := true, 1; }",
        b"error: 2:72 type int bool\n",
    ),
    (
        b"implementation P(x: int, y: E) returns (r: int) { var l: bool; call r := P(1, e); }",
        b"",
    ),
    (
        b"implementation P(x: int, y: E) returns (r: int) { var l: bool; call r := P(1); }",
        b"error: 2:74 arity\n",
    ),
    (
        b"implementation P(x: int, y: E) returns (r: int) { var l: bool; call P(1, e); }",
        b"error: 2:69 arity\n",
    ),
    (
        b"implementation P(x: int, y: E) returns (r: int) { var l: bool; call l := P(1, e); }",
        b"error: 2:69 type bool int\n",
    ),
    (
        b"implementation P(x: int, y: E) returns (r: int) { var l: bool; call r := P(e, true); }",
        b"error: 2:76 type int E\n",
    ),
    (
        b"implementation P(x: int) returns (r: int) { }",
        b"error: 2:16 arity\n",
    ),
    (
        b"implementation P(x: int, y: E) returns (r: int, s: int) { }",
        b"error: 2:16 arity\n",
    ),
    (
        b"implementation P(x: int, y: bool) returns (r: int) { }",
        b"error: 2:26 type E bool\n",
    ),
];

#[test]
fn each_fault_of_types_has_its_line(rt: HostRuntime) -> Result<(), Fail> {
    for (text, line) in &EXPRESSIONS {
        assert!(rt; say(rt.alloc(), &[(NAMED, 1), (*text, 1)], line)?);
    }
    for (text, line) in &WRITTEN {
        assert!(rt; say(rt.alloc(), &[(*text, 1)], line)?);
    }
    for (text, line) in &BODIES {
        assert!(rt; say(rt.alloc(), &[(CALLED, 1), (*text, 1)], line)?);
    }
    Ok(())
}
