//! The verdicts of small programs, looked at again with ample memory.
ghost use Rattle.std.specs.Prelude.{◌≡◌, true};
ghost use Rattle.bg_ast.specs.Meaning.{meaning_of};
ghost use Rattle.bg_ast.specs.Views.{program_of};
ghost use Rattle.bg_sense.specs.Typed.{IsTyped};
ghost use Rattle.bg_sense.specs.Resolved.{IsResolved};
ghost use Rattle.bg_fits.specs.Valued.{is_over_values};
ghost use Rattle.bg_blocks.specs.Callees.{IsModified};

use crate::{are_there, judged_program};
use bg_ast::resolved::{Resolved, Variable};
use bg_blocks::callees_of;
use bg_cert::accepts;
use bg_check::{Cause, Effort, Judged, Proof, Verdict, judge_ordinary};
use bg_model::Counterexample;
use bg_replay::{Choice, Code, Ending, Start, replay};
use bg_task::{Made, Prepared, Question, cut_down, place_clauses, prepare};
use bg_tree::Budget;
use std::alloc::{AllocError, Global};
use std::test::Fail;

const EFFORT: Effort = Effort {
    budget: Budget {
        nodes: 1000,
        rows: 1000,
    },
    keeps: true,
};

const LOOP: &str =
    "procedure P() { var x: bool; x := true; while (*) invariant x; { havoc x; } assert x; }";

const LEFT: &str =
    "procedure P(a: bool) { var x: bool; x := a; while (true) invariant x == a; { if (*) { x := !x; break; } } assert x == a; }";

const CALLS: &str =
    "procedure Q(a: bool) returns (r: bool); requires a; ensures r; procedure P(b: bool) { var c: bool; call c := Q(b); assert c; call c := Q(!c); }";

const FLIPS: &str =
    "var g: bool; procedure Q(); modifies g; ensures g == !old(g); procedure P() modifies g; { call Q(); assert g; call Q(); assert g == old(g); }";

const TWO: &str =
    "var g: bool; procedure P(); modifies g; ensures g == old(g); implementation P() { g := !g; g := !g; } implementation P() { havoc g; }";

const JUMPS: &str =
    "procedure P(a: bool) { goto L, M; L: assert a; return; M: assert !a || a; goto N; N: assert !a; }";

const COUNT: &str =
    "procedure P(n: int) returns (i: int) requires 0 <= n; ensures i == n; { i := 0; while (i < n) invariant i <= n; invariant 0 <= i; { i := i + 1; } assert i != 3; }";

const PARITY: &str =
    "procedure P(x: int, y: int, z: int) { assume x == 2 * y; assert x != 2 * z + 1; assert x != 2 * z + 2; }";

const MIXED: &str =
    "var g: int; procedure Q(a: bool, n: int) returns (r: int); modifies g; requires a <==> n > 0; ensures r == g + n; procedure P(b: bool) modifies g; { var k: int; k := 0; if (b) { k := 1; } call k := Q(b, k); assert k == g || k == g + 1; assert k > old(g); }";

const GUARDED: &str =
    "const {:existential true} b, c: bool; procedure Q(x: bool); requires b ==> x; ensures c ==> x; procedure P(x: bool) { assert b ==> x; call Q(x); assert x; assert x || !x; }";

const FAR: &str =
    "procedure P(x: int) { assume x == 170141183460469231731687303715884105727; assert x - 1 < 0; } procedure Q(x: int, y: int) { assume x >= 170141183460469231731687303715884105727; assume y == 1; assert x + y < 0; } procedure R(x: int) { assert 2 * (x + 100000000000000000000000000000000000000) >= x; }";

const LATER: &str =
    "procedure P(x: int) { assume x == 170141183460469231731687303715884105727; assert x - 1 < 0; assert x + 1 < 0; }";

const FUNCTIONS: &str =
    "function f(int): int; procedure P(x: int, y: int) { assert f(x) != f(y) ==> x != y; assert f(x) == f(y); assert f(x) == f(x); }";

const NESTED: &str =
    "function f(int): int; function g(bool, int): bool; procedure P(a: bool, x: int) { assert g(a, f(x)) ==> g(a, f(x + 0)); assert g(a, x) == g(!a, x); }";

const OPENED: &str =
    "const c: int; function h(x: int): int { f(x) + c } function f(int): int; axiom f(c) == c; procedure P(x: int) { assert x == c ==> h(x) == c + c; assert h(x) > c; }";

const ARGUMENT: &str =
    "function f(int): int; procedure P(x: int) { assume x >= 170141183460469231731687303715884105727; assert f(x + 1) == 0; }";

const ELEMENTS: &str =
    "type T; type S = T; const unique a, b: T; var x: S; function next(t: T): S; procedure P(t: S) modifies x; { assert a != b; assert next(a) != next(b); havoc x; assert x == t ==> next(next(x)) == next(next(t)); assert x != t; }";

const APART: &str =
    "type T; type U; function f(t: T, u: U): int; procedure P(t, s: T, u, v: U) { assert f(t, u) == f(s, u) || t != s; assert f(t, u) == f(t, v); assert t == s || u != v; }";

const MAPS: &str =
    "var m: [int]int; procedure P(i: int, j: int) modifies m; { m[i] := 1; assert m[i] == 1; assert i != j ==> m[j] == old(m[j]); assert m[j] == old(m)[j]; havoc m; assert m == old(m) ==> m[i] == old(m[i]); assert m[i] == old(m[i]); }";

const NESTS: &str =
    "type T; var n: [T,int][int]bool; procedure P(t: T, i: int) modifies n; { n[t,i][i] := true; assert n[t,i][i]; assert n[t,i] == old(n)[t,i]; }";

/// Whether the certificate of a place is accepted behind its lines.
fn is_accepted(
    alloc: Global,
    program: &Resolved,
    callees: &[Vec<Variable>],
    judged: &Judged,
    proof: &Proof,
) -> Result<bool, AllocError>
    requires typed { IsTyped (meaning_of (program_of program.now)) }
    requires scalars { is_over_values (meaning_of (program_of program.now)) ≡ true }
    requires modified { IsModified (program_of program.now) callees.now }
{
    let number = judged.place.implementation;
    if number >= program.implementations.len() {
        return Ok(false);
    }
    let prepared = prepare(alloc, program, callees, number)?;
    if !are_there(alloc, program, &prepared, &proof.lines)? {
        return Ok(false);
    }
    let cut = cut_down(alloc, program, &prepared, &judged.place, &proof.lines)?;
    let question = Question {
        program,
        prepared: &prepared,
        place: &judged.place,
        set: &[],
    };
    match place_clauses(alloc, question, &cut)? {
        Made::Outside(_) => Ok(false),
        Made::Clauses(f) => accepts(alloc, &f, &[], &proof.cert),
    }
}

/// How the run ends with the counterexample's values and these choices.
fn ending<'x>(
    alloc: Global,
    program: &'x Resolved,
    prepared: &'x Prepared<'x>,
    judged: &Judged,
    cex: &'x Counterexample,
    choices: &'x [Choice],
) -> Result<Ending, AllocError> {
    let code = Code {
        program,
        blocks: &prepared.blocks,
        set: &[],
    };
    let start = Start {
        tables: &cex.tables,
        globals: &cex.globals,
        frame: &cex.frame,
        choices,
    };
    replay(alloc, code, judged.place.implementation, start)
}

/// Whether the counterexample of a place replays to it, and has no choice too many.
fn is_replayed(
    alloc: Global,
    program: &Resolved,
    prepared: &Prepared<'_>,
    judged: &Judged,
    cex: &Counterexample,
) -> Result<bool, AllocError> {
    let whole = ending(alloc, program, prepared, judged, cex, &cex.choices)?;
    let Some((_, front)) = cex.choices.split_last() else {
        return Ok(whole == Ending::Failed(judged.place.spot));
    };
    let short = ending(alloc, program, prepared, judged, cex, front)?;
    Ok(whole == Ending::Failed(judged.place.spot) && short == Ending::BadChoice)
}

/// Whether the replay of a counterexample ends at an operation that leaves 128 bits.
fn leaves(
    alloc: Global,
    program: &Resolved,
    prepared: &Prepared<'_>,
    judged: &Judged,
    cex: &Counterexample,
) -> Result<bool, AllocError> {
    let whole = ending(alloc, program, prepared, judged, cex, &cex.choices)?;
    Ok(matches!(whole, Ending::OutOfRange(_)))
}

/// `p` for a certificate that is accepted, `r` for a counterexample that replays, `o` for one that leaves the range, `f` for clauses
/// that do, `a` for arguments that do, `x` for anything else.
fn letter(
    alloc: Global,
    program: &Resolved,
    callees: &[Vec<Variable>],
    prepared: &Prepared<'_>,
    judged: &Judged,
) -> Result<&'static str, AllocError>
    requires typed { IsTyped (meaning_of (program_of program.now)) }
    requires scalars { is_over_values (meaning_of (program_of program.now)) ≡ true }
    requires modified { IsModified (program_of program.now) callees.now }
{
    match &judged.verdict {
        Verdict::Proved(None) => Ok("x"),
        Verdict::Proved(Some(proof)) => {
            let is_right = is_accepted(alloc, program, callees, judged, proof)?;
            Ok(if is_right { "p" } else { "x" })
        }
        Verdict::Refuted(cex) => {
            let is_right = is_replayed(alloc, program, prepared, judged, cex)?;
            Ok(if is_right { "r" } else { "x" })
        }
        Verdict::Unknown(_, Cause::Replay(cex, _)) => {
            let is_right = leaves(alloc, program, prepared, judged, cex)?;
            Ok(if is_right { "o" } else { "x" })
        }
        Verdict::Unknown(_, Cause::Form(_)) => Ok("f"),
        Verdict::Unknown(_, Cause::Argument(_, _)) => Ok("a"),
        Verdict::Unknown(_, Cause::Rounds) => Ok("x"),
        Verdict::Unknown(_, Cause::Search(_)) => Ok("x"),
        Verdict::Left(_) => Ok("x"),
    }
}

/// The letters of all ordinary places under the empty set, with `;` behind those of each implementation.
fn letters(alloc: Global, program: &Resolved) -> Result<String, Fail>
    requires typed { IsTyped (meaning_of (program_of program.now)) }
    requires resolved { IsResolved (meaning_of (program_of program.now)) }
    requires scalars { is_over_values (meaning_of (program_of program.now)) ≡ true }
{
    let callees = callees_of(alloc, program)?;
    let mut found = String::new(alloc);
    for number in 0..program.implementations.len() {
        let prepared = prepare(alloc, program, &callees, number)?;
        let made = judge_ordinary(alloc, program, &prepared, number, &[], EFFORT)?;
        for judged in &made {
            found.push_str(letter(alloc, program, &callees, &prepared, judged)?)?;
        }
        found.push_str(";")?;
    }
    Ok(found)
}

#[test]
fn each_verdict_holds_when_it_is_looked_at_again(rt: HostRuntime) -> Result<(), Fail> {
    let alloc = rt.alloc();
    let table: [(&str, &str); 20] = [
        (LOOP, "prp;"),
        (LEFT, "ppr;"),
        (CALLS, "rpr;"),
        (FLIPS, "rp;"),
        (TWO, "p;r;"),
        (JUMPS, "rpr;"),
        (COUNT, "pppprp;"),
        (PARITY, "pr;"),
        (MIXED, "ppr;"),
        (GUARDED, "rp;"),
        (FAR, "r;o;f;"),
        (LATER, "rp;"),
        (FUNCTIONS, "prp;"),
        (NESTED, "pr;"),
        (OPENED, "pr;"),
        (ARGUMENT, "a;"),
        (ELEMENTS, "prpr;"),
        (APART, "prr;"),
        (MAPS, "pprpr;"),
        (NESTS, "pr;"),
    ];
    for (text, want) in table {
        let Some(program) = judged_program(alloc, text) else {
            return Err("no program".into());
        };
        let found = letters(alloc, &program)?;
        assert!(rt; found.as_str() == want);
    }
    Ok(())
}
