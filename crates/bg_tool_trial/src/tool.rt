//! What the top call writes and how it ends, over files and sinks in memory.
use crate::made::{stored, words};
use bg_claims::FreeGate;
use bg_ends::Status;
use bg_io::{MemFiles, MemSink};
use bg_tool::run;
use std::alloc::AllocError;
use std::test::Fail;
use std::thread::Threads;

const VERIFY: &[&str] = &["bg", "verify", "a.bpl"];

const ONE_NODE: &[&str] = &["bg", "verify", "--nodes", "1", "a.bpl"];

const COPY: &str = "procedure P(a: bool) { var b: bool; b := a; assert b == a; }";

const COPY_REPORT: &str =
    "axioms: consistent\nretained set: greatest\nimplementation P 1:1 verified\nsummary: 0 retained, 0 dropped; 1 verified, 0 refuted, 0 unknown\n";

const EMPTY_REPORT: &str =
    "axioms: consistent\nretained set: greatest\nsummary: 0 retained, 0 dropped; 0 verified, 0 refuted, 0 unknown\n";

const FOUR_CLAUSES: &str =
    "procedure P(a: bool, b: bool) {\n  assume (a || b) && (a || !b) && (!a || b) && (!a || !b);\n  assert false; }";

const BAD: &str = "procedure P(a: bool, b: bool, c: bool) { assert a && b || c; }";

const USAGE: &str = "usage: bg verify|annotate|certify|check|generate|bench ..\n";

/// The program of seed 1 and size 2.
const MADE: &str =
    "const {:existential true} a0: bool;\nconst {:existential true} d0: bool;\nconst {:existential true} e0: bool;\nprocedure G0(n: int) returns (i: int)\n  requires 0 <= n;\n  ensures i == n + 8;\n{\n  i := 8;\n  while (i < n + 8)\n    invariant a0 ==> i >= 8;\n    invariant e0 ==> i <= n + 8;\n    invariant d0 ==> i >= 9;\n  {\n    i := i + 1;\n  }\n}\n\
    const {:existential true} a1: bool;\nconst {:existential true} d1: bool;\nconst {:existential true} e1: bool;\nprocedure G1(n: int) returns (i: int)\n  requires 0 <= n;\n  ensures i == n + 3;\n{\n  var j: int;\n  call j := G0(n);\n  assert j == n + 8;\n  i := 3;\n  while (i < n + 3)\n    invariant a1 ==> i >= 3;\n    invariant e1 ==> i <= n + 3;\n    invariant d1 ==> i >= 4;\n  {\n    i := i + 1;\n  }\n}\n";

/// The 201st bracket is open.
const TOO_DEEP: &str =
    "var m: [[[[[[[[[[[[[[[[[[[[[[[[[[[[[[[[[[[[[[[[[[[[[[[[[[[[[[[[[[[[[[[[[[[[[[[[[[[[[[[[[[[[[[[[[[\
    [[[[[[[[[[[[[[[[[[[[[[[[[[[[[[[[[[[[[[[[[[[[[[[[[[[[[[[[[[[[[[[[[[[[[[[[[[[[[[[[[[[[[[[[[[[[[[[[[[[[[[[[[[[[[[[";

/// Whether these words end so and write this, where `a.bpl` has this text, calls with these numbers fail of the files, of the
/// output, which takes so many bytes a call, and of the errors.
fn ends<R: AllocGlobal + Threads + Sync>(
    rt: &R,
    given: (&[&str], &str),
    fails: [u64; 3],
    most: Option<usize>,
    wanted: (Status, &str, &str),
) -> Result<bool, AllocError> {
    let alloc = rt.alloc();
    let mut files = MemFiles::new(
        stored(alloc, &[("a.bpl", given.1)])?,
        vec![in alloc; fails[0]]?,
    );
    let mut out = MemSink::new(alloc, 10_000, most, vec![in alloc; fails[1]]?)?;
    let mut err = MemSink::new(alloc, 10_000, None, vec![in alloc; fails[2]]?)?;
    let words = words(alloc, given.0)?;
    let status = run(rt, &words, &mut files, &mut out, &mut err, &FreeGate);
    Ok(
        status == wanted.0
            && out.bytes() == wanted.1.as_bytes()
            && err.bytes() == wanted.2.as_bytes(),
    )
}

/// Words, a text, the status, and what is written to the output and to the errors.
type Case = (
    &'static [&'static str],
    &'static str,
    Status,
    &'static str,
    &'static str,
);

const TEXTS: [Case; 34] = [
    (
        &["bg", "generate", "1", "2"],
        "",
        Status::Verified,
        MADE,
        "",
    ),
    (
        &["bg", "generate", "4294967295", "0"],
        "",
        Status::Usage,
        "",
        USAGE,
    ),
    (
        &["bg", "bench", "1", "4"],
        "",
        Status::Verified,
        "bench 1 4\nretained set: greatest\nsummary: 9 retained, 3 dropped; 4 verified, 0 refuted, 0 unknown\n",
        "",
    ),
    (VERIFY, COPY, Status::Verified, COPY_REPORT, ""),
    (VERIFY, "", Status::Verified, EMPTY_REPORT, ""),
    (VERIFY, "// forall", Status::Verified, EMPTY_REPORT, ""),
    (
        VERIFY,
        "procedure P() { assert false; }",
        Status::Refuted,
        "axioms: consistent\nretained set: greatest\nimplementation P 1:1 refuted\n  refuted assert 1:17\nsummary: 0 retained, 0 dropped; 0 verified, 1 refuted, 0 unknown\n",
        "",
    ),
    (
        VERIFY,
        "procedure P() { assume false; assert false; }",
        Status::Verified,
        COPY_REPORT,
        "",
    ),
    (
        VERIFY,
        "procedure P() returns (r: bool) { havoc r; assert r; }",
        Status::Refuted,
        "axioms: consistent\nretained set: greatest\nimplementation P 1:1 refuted\n  refuted assert 1:44\n    var r = false\n    choice false\nsummary: 0 retained, 0 dropped; 0 verified, 1 refuted, 0 unknown\n",
        "",
    ),
    (VERIFY, FOUR_CLAUSES, Status::Verified, COPY_REPORT, ""),
    (
        VERIFY,
        "procedure P() { assert a != b && c != d; } const unique a, b: int; const unique c, d: bool;",
        Status::Verified,
        COPY_REPORT,
        "",
    ),
    (
        VERIFY,
        "const unique a, b, c: bool;",
        Status::Refuted,
        "axioms: contradictory\nretained set: greatest\nsummary: 0 retained, 0 dropped; 0 verified, 0 refuted, 0 unknown\n",
        "",
    ),
    (
        VERIFY,
        "function f(int): int; procedure P(x: int, y: int) { assert f(x) != f(y) ==> x != y; }",
        Status::Verified,
        "axioms: consistent\nretained set: greatest\nimplementation P 1:23 verified\nsummary: 0 retained, 0 dropped; 1 verified, 0 refuted, 0 unknown\n",
        "",
    ),
    (
        VERIFY,
        "function f(int): int; procedure P() { assert f(3) != 5; }",
        Status::Refuted,
        "axioms: consistent\nretained set: greatest\nimplementation P 1:23 refuted\n  refuted assert 1:39\n    function f = [3 := 5, else 0]\nsummary: 0 retained, 0 dropped; 0 verified, 1 refuted, 0 unknown\n",
        "",
    ),
    (
        VERIFY,
        "function f(int): bool; axiom f(1 + 1); axiom !f(2);",
        Status::Refuted,
        "axioms: contradictory\nretained set: greatest\nsummary: 0 retained, 0 dropped; 0 verified, 0 refuted, 0 unknown\n",
        "",
    ),
    (
        &["bg", "verify", "--history", "a.bpl"],
        "const c: int; function g(x: int): int { x } function f(int): int; axiom f(g(c)) == 2;",
        Status::Verified,
        "axioms: consistent\nretained set: greatest\nsummary: 0 retained, 0 dropped; 0 verified, 0 refuted, 0 unknown\nhistory:\ninterpretation:\n    const c = 1\n    function f = [1 := 2, else 0]\n",
        "",
    ),
    (
        ONE_NODE,
        FOUR_CLAUSES,
        Status::Unknown,
        "axioms: consistent\nretained set: greatest\nimplementation P 1:1 unknown\n  unknown assert 3:3 nodes\n    kept 1\nsummary: 0 retained, 0 dropped; 0 verified, 0 refuted, 1 unknown\n",
        "",
    ),
    (
        VERIFY,
        TOO_DEEP,
        Status::Limit,
        "",
        "error: limit nesting 201\n",
    ),
    (VERIFY, BAD, Status::Text, "", "error: 1:56 syntax\n"),
    (
        VERIFY,
        "procedure P() { assert (forall x: int :: x == x); }",
        Status::Text,
        "",
        "error: 1:25 unsupported forall\n",
    ),
    (
        VERIFY,
        "procedure P() { x := true; }",
        Status::Text,
        "",
        "error: 1:17 unknown x\n",
    ),
    (
        VERIFY,
        "procedure P() { assert 1; }",
        Status::Text,
        "",
        "error: 1:24 type bool int\n",
    ),
    (
        VERIFY,
        "procedure P() { assert 1 == 1; }",
        Status::Verified,
        COPY_REPORT,
        "",
    ),
    (
        VERIFY,
        "procedure P(x: int) {\n  assume x == 170141183460469231731687303715884105727;\n  assert x + 1 < 0; }",
        Status::Unknown,
        "axioms: consistent\nretained set: greatest\nimplementation P 1:1 unknown\n  unknown assert 3:3 range\n    kept + 170141183460469231731687303715884105727 1\nsummary: 0 retained, 0 dropped; 0 verified, 0 refuted, 1 unknown\n",
        "",
    ),
    (
        VERIFY,
        "procedure P(m: [int]int, i: int) { assert m[i := m[i]] == m; }",
        Status::Verified,
        "axioms: consistent\nretained set: greatest\nimplementation P 1:1 verified\nsummary: 0 retained, 0 dropped; 1 verified, 0 refuted, 0 unknown\n",
        "",
    ),
    (&["bg", "verify"], COPY, Status::Usage, "", USAGE),
    (
        &["bg", "verify", "--workers", "0", "a.bpl"],
        COPY,
        Status::Usage,
        "",
        USAGE,
    ),
    (&["bg", "verify", "-x"], COPY, Status::Usage, "", USAGE),
    (&["bg", "check", "a.bpl"], COPY, Status::Usage, "", USAGE),
    (
        &["bg", "verify", "--nodes", "many", "a.bpl"],
        COPY,
        Status::Usage,
        "",
        USAGE,
    ),
    (
        &["bg", "verify", "a.bpl", "a.bpl"],
        " ",
        Status::Verified,
        EMPTY_REPORT,
        "",
    ),
    (
        &["bg", "verify", "a.bpl", "a.bpl"],
        "procedure P();",
        Status::Text,
        "",
        "error: 2:11 duplicate P\n",
    ),
    (
        &["bg", "verify", "a.bpl", "b.bpl"],
        COPY,
        Status::Read,
        "",
        "error: cannot read b.bpl\n",
    ),
    (
        &["bg", "verify", "b.bpl"],
        COPY,
        Status::Read,
        "",
        "error: cannot read b.bpl\n",
    ),
];

#[test]
fn each_text_gets_its_report_or_its_line(rt: HostRuntime) -> Result<(), Fail> {
    for (words, text, status, out, err) in &TEXTS {
        let wanted = (*status, *out, *err);
        assert!(rt; ends(&rt, (*words, *text), [0; 3], None, wanted)?);
    }
    Ok(())
}

/// A text, the calls that fail, the status, and what is written to the output before.
const FAULTS: [(&str, [u64; 3], Status, &str, &str); 7] = [
    (
        COPY,
        [1, 0, 0],
        Status::Read,
        "",
        "error: cannot read a.bpl\n",
    ),
    (
        COPY,
        [2, 0, 0],
        Status::Read,
        "",
        "error: cannot read a.bpl\n",
    ),
    (
        COPY,
        [3, 0, 0],
        Status::Read,
        "",
        "error: cannot read a.bpl\n",
    ),
    (COPY, [0, 1, 0], Status::Write, "", ""),
    (COPY, [0, 2, 0], Status::Write, "axioms: consiste", ""),
    (
        COPY,
        [0, 3, 0],
        Status::Write,
        "axioms: consistent\nretained set:",
        "",
    ),
    (BAD, [0, 0, 1], Status::Write, "", ""),
];

#[test]
fn each_fault_has_its_status_and_leaves_a_front(rt: HostRuntime) -> Result<(), Fail> {
    for (text, fails, status, out, err) in &FAULTS {
        let wanted = (*status, *out, *err);
        assert!(rt; ends(&rt, (VERIFY, *text), *fails, Some(16), wanted)?);
    }
    Ok(())
}
