//! Faults of names, and the numbers that names stand for.
use crate::line::say;
use bg_ast::resolved::{Expr, Implementation, Procedure, Resolved, Stmt, Variable, WrittenType};
use bg_lex::lex;
use bg_parse::parse;
use bg_resolve::resolve;
use std::alloc::Global;
use std::test::Fail;

/// Texts, and the lines that refuse them: each fault at its place, and the first of two.
const TEXTS: [(&[u8], &[u8]); 29] = [
    (b"procedure P() { x := true; }", b"error: 1:17 unknown x\n"),
    (
        b"const c: int;\nprocedure P();\n  modifies c;",
        b"error: 3:12 unknown c\n",
    ),
    (
        b"procedure P();\nimplementation Q() { }",
        b"error: 2:16 unknown Q\n",
    ),
    (b"var a: int; const a: bool;", b"error: 1:19 duplicate a\n"),
    (
        b"procedure P() {\n  var a: int;\n  a, a := 1, 2;\n}",
        b"error: 3:6 duplicate a\n",
    ),
    (
        b"procedure P() { var a: int; var a: bool; }",
        b"error: 1:33 duplicate a\n",
    ),
    (b"procedure P(x: int) { x := 1; }", b"error: 1:23 input x\n"),
    (
        b"procedure P(x: int) { havoc x; }",
        b"error: 1:29 input x\n",
    ),
    (
        b"const c: int;\nprocedure P() { c := 1; }",
        b"error: 2:17 input c\n",
    ),
    (
        b"var g: int; procedure P() { g := 1; }",
        b"error: 1:29 modifies g\n",
    ),
    (
        b"var g: int; var h: int;\nprocedure Q(); modifies h, g;\nprocedure P() { call Q(); }",
        b"error: 3:22 modifies g\n",
    ),
    (b"procedure P() { break; }", b"error: 1:17 target break\n"),
    (b"procedure P() { A: goto A; }", b"error: 1:25 target A\n"),
    (
        b"procedure P() {\n  while (*) { }\n  break;\n}",
        b"error: 3:3 target break\n",
    ),
    (
        b"const {:existential true} b: bool;\naxiom b;",
        b"error: 2:7 candidate b\n",
    ),
    (
        b"const {:existential true} b: int;",
        b"error: 1:27 candidate b\n",
    ),
    (b"axiom old(true);", b"error: 1:7 old\n"),
    (
        b"var g: int;\nprocedure P();\n  requires old(g) == 1;",
        b"error: 3:12 old\n",
    ),
    (
        b"function f(x: int): int { f(x) }",
        b"error: 1:10 recursive f\n",
    ),
    (
        b"function f(x: int): int { g(x) }\nfunction g(x: int): int { h(x) }\nfunction h(x: int): int { g(x) }",
        b"error: 2:10 recursive g\n",
    ),
    (b"function f(int): int { 1 }", b"error: 1:12 unnamed\n"),
    (
        b"function f(x: int,\n  [int]bool): int { x }",
        b"error: 2:3 unnamed\n",
    ),
    (b"axiom x;\naxiom old(true);", b"error: 1:7 unknown x\n"),
    (b"axiom old(true);\naxiom x;", b"error: 1:7 old\n"),
    (
        b"function f(y: int): int { x }\nfunction g(y: int): int { g(y) }",
        b"error: 1:27 unknown x\n",
    ),
    (
        b"function g(y: int): int { g(y) }\nfunction f(y: int): int { x }",
        b"error: 1:10 recursive g\n",
    ),
    (
        b"const a: bool;\nconst {:existential true} a: int;",
        b"error: 2:27 duplicate a\n",
    ),
    (
        b"procedure P() { assert 1; x := true; }",
        b"error: 1:27 unknown x\n",
    ),
    (b"procedure P() { x := true; } @", b"error: 1:30 bad byte\n"),
];

#[test]
fn each_fault_of_names_has_its_line(rt: HostRuntime) -> Result<(), Fail> {
    for (text, line) in &TEXTS {
        assert!(rt; say(rt.alloc(), &[(*text, 1)], line)?);
    }
    Ok(())
}

const RIGHT: &[u8] = b"type T; type S = T;
const c: int; const {:existential true} b: bool; const d: S;
var g: int; var h: T;
function f(x: int): int { x + c }
procedure P(n: int) returns (r: int)
  requires n >= 0;
  modifies h, g;
  ensures b ==> r == f(n);
{
  var i: int;
  i := d;
  while (i > 0)
    invariant h == c;
  { break; }
  call r := P(i);
}
procedure Q();";

/// The program of a text; none where it has none, or memory ran out.
fn program(alloc: Global, text: &[u8]) -> Option<Resolved> {
    if text.len() >= 1000 {
        return None;
    }
    let tokens = lex(alloc, text).ok()?;
    if tokens.list.len() >= 1000 {
        return None;
    }
    let tree = parse(alloc, &tokens.list).ok()?;
    resolve(alloc, &tree.decls).ok()
}

/// Whether the body assigns the local 2, loops under the number 2, and calls under the number 4.
fn is_body(m: &Implementation) -> bool {
    let [
        Stmt::Assign(_, targets, values),
        Stmt::While(2, _, _, clauses, block),
        Stmt::Invoke(call),
    ] = m.body.as_slice()
    else {
        return false;
    };
    matches!(targets.as_slice(), [t] if t.placed.variable == Variable::Local(2))
        && matches!(values.as_slice(), [Expr::Constant(_, 1)])
        && matches!(clauses.as_slice(), [k] if k.id == 3)
        && matches!(block.as_slice(), [Stmt::Break(2)])
        && call.site == 4
        && call.procedure == 0
        && matches!(call.takes.as_slice(), [x] if x.variable == Variable::Local(1))
}

/// Whether the clauses have the numbers 0 and 1, of which the second has a candidate, and both globals are modified.
fn is_specified(p: &Procedure) -> bool {
    p.modifies.as_slice() == &[0, 1][..]
        && matches!(p.requires_.as_slice(), [k] if k.id == 0 && k.candidate.is_none())
        && matches!(p.ensures_.as_slice(), [k] if k.id == 1 && k.candidate.is_some())
}

/// Whether a body is the sum of the argument and the constant 0.
fn is_sum(body: &Option<Expr>) -> bool {
    match body {
        Some(Expr::Chain(first, links)) => {
            matches!(**first, Expr::Read(_, Variable::Local(0)))
                && matches!(links.as_slice(), [l] if matches!(l.operand, Expr::Constant(_, 0)))
        }
        _ => false,
    }
}

/// Whether all of the program is numbered as it stands in the text.
fn is_numbered(p: &Resolved) -> bool {
    (p.constants.len(), p.candidates.len(), p.globals.len()) == (2, 1, 2)
        && matches!(p.types.as_slice(), [_, s] if matches!(s.synonym, Some(WrittenType::Declared(_, 0))))
        && matches!(p.functions.as_slice(), [f] if is_sum(&f.body))
        && matches!(p.procedures.as_slice(), [q, _] if is_specified(q))
        && matches!(p.implementations.as_slice(), [m] if is_body(m))
}

#[test]
fn names_become_numbers(rt: HostRuntime) {
    assert!(rt; program(rt.alloc(), RIGHT).is_some_and(|p| is_numbered(&p)));
}
