//! What the top call writes of programs with candidates, whatever the number of workers.
use crate::made::{stored, words};
use bg_claims::{FreeGate, Gate, MeetGate};
use bg_ends::Status;
use bg_io::{MemFiles, MemSink};
use bg_rounds_trial::CountGate;
use bg_tool::run;
use std::alloc::AllocError;
use std::test::Fail;
use std::thread::Threads;

const COUNT: &str = "const {:existential true} b0: bool;\n\
const {:existential true} b1: bool;\n\
const {:existential true} b2: bool;\n\
procedure Count(n: int) returns (i: int)\n\
\x20 requires 0 <= n;\n\
\x20 ensures i == n;\n\
{\n\
\x20 i := 0;\n\
\x20 while (i < n)\n\
\x20   invariant b0 ==> i >= 0;\n\
\x20   invariant b1 ==> i >= 1;\n\
\x20   invariant b2 ==> i <= n;\n\
\x20 { i := i + 1; }\n\
}\n";

const COUNT_REPORT: &str = "axioms: consistent\n\
candidate b0 retained\n\
candidate b1 dropped\n\
candidate b2 retained\n\
retained set: greatest\n\
implementation Count 4:1 verified\n\
summary: 2 retained, 1 dropped; 1 verified, 0 refuted, 0 unknown\n";

const TWO: &str = "const {:existential true} b0: bool;\n\
const {:existential true} b1: bool;\n\
procedure P(x: int) { assert b0 ==> x == 0; assert b1 ==> x == 1; }\n";

const TWO_REPORT: &str = "axioms: consistent\n\
candidate b0 dropped\n\
candidate b1 dropped\n\
retained set: greatest\n\
implementation P 3:1 verified\n\
summary: 0 retained, 2 dropped; 1 verified, 0 refuted, 0 unknown\n";

const ONE_NODE: &str = "const {:existential true} c: bool;\n\
procedure P(a: bool, b: bool) {\n\
\x20 assume (a || b) && (a || !b) && (!a || b) && (!a || !b);\n\
\x20 assert c ==> false;\n\
\x20 assert false;\n\
}\n";

const ONE_NODE_REPORT: &str = "axioms: consistent\n\
candidate c dropped unknown nodes\n\
retained set: inductive\n\
implementation P 2:1 unknown\n\
\x20 unknown assert 5:3 nodes\n\
\x20   kept 1\n\
summary: 0 retained, 1 dropped; 0 verified, 0 refuted, 1 unknown\n";

const UNCHECKED: &str = "const {:existential true} b: bool;\n\
procedure Q() returns (r: int); ensures b ==> r == 1;\n\
procedure C() { var a: int; call a := Q(); assert a == 1; }\n";

const UNCHECKED_REPORT: &str = "axioms: consistent\n\
candidate b retained unchecked\n\
retained set: greatest\n\
implementation C 3:1 verified\n\
summary: 1 retained, 0 dropped; 1 verified, 0 refuted, 0 unknown\n";

/// `b0` goes at its first check; the proof of the place of `b1` uses no candidate.
const KEPT: &str = "const {:existential true} b0: bool;\n\
const {:existential true} b1: bool;\n\
procedure P(x: int) { assert b0 ==> x == 0; }\n\
procedure Q(x: int) { assume x == 1; assert b1 ==> x == 1; }\n";

const KEPT_REPORT: &str = "axioms: consistent\n\
candidate b0 dropped\n\
candidate b1 retained\n\
retained set: greatest\n\
implementation P 3:1 verified\n\
implementation Q 4:1 verified\n\
summary: 1 retained, 1 dropped; 2 verified, 0 refuted, 0 unknown\n";

/// The place of `b1` is the first, and its first proof uses `b0`, which goes behind it.
const FALLS: &str = "const {:existential true} b0: bool;\n\
const {:existential true} b1: bool;\n\
procedure Q() { var x: int; call x := R(); assert b1 ==> x == 0; }\n\
procedure R() returns (x: int); ensures b0 ==> x == 0;\n\
implementation R() returns (x: int) { havoc x; }\n";

const FALLS_REPORT: &str = "axioms: consistent\n\
candidate b0 dropped\n\
candidate b1 dropped\n\
retained set: greatest\n\
implementation Q 3:1 verified\n\
implementation R 5:1 verified\n\
summary: 0 retained, 2 dropped; 2 verified, 0 refuted, 0 unknown\n";

/// A text and its report, how many workers, how many checks of places of candidates begin, and how many those of one place are.
type Looks = (&'static str, &'static str, &'static str, (u64, u64));

/// Of `FALLS` the first place is checked once more when `b0` went.
const LOOKS: [Looks; 4] = [
    (KEPT, KEPT_REPORT, "1", (2, 1)),
    (KEPT, KEPT_REPORT, "2", (2, 1)),
    (KEPT, KEPT_REPORT, "16", (2, 1)),
    (FALLS, FALLS_REPORT, "1", (3, 2)),
];

/// `COUNT` without candidates, and so without an invariant of its own.
const BARE: &str = "procedure Count(n: int) returns (i: int)\n\
\x20 requires 0 <= n;\n\
\x20 ensures i == n;\n\
{\n\
\x20 i := 0;\n\
\x20 while (i < n)\n\
\x20 { i := i + 1; }\n\
}\n";

const BARE_REPORT: &str = "axioms: consistent\n\
candidate guess:1 retained\n\
candidate guess:2 retained\n\
candidate guess:3 retained\n\
candidate guess:4 retained\n\
candidate guess:5 retained\n\
candidate guess:6 retained\n\
candidate guess:7 dropped\n\
candidate guess:8 retained\n\
retained set: greatest\n\
implementation Count 1:1 verified\n\
summary: 7 retained, 1 dropped; 1 verified, 0 refuted, 0 unknown\n";

/// What stands behind the report of `COUNT` with `--history`.
const COUNT_HISTORY: &str = "history:\n\
drop 0 b1 in Count 4:1 at invariant entry 11:5: refuted\n\
\x20 snapshot b0 b1 b2\n\
\x20   var n = 0\n\
\x20   var i = 0\n\
interpretation:\n";

/// Whether `verify` with this option, of this text, ends so and writes this report.
fn tells<R: AllocGlobal + Threads + Sync, G: Gate>(
    rt: &R,
    option: [&str; 2],
    text: &str,
    gate: &G,
    wanted: (Status, &str),
) -> Result<bool, AllocError> {
    let alloc = rt.alloc();
    let mut files = MemFiles::new(stored(alloc, &[("a.bpl", text)])?, vec![in alloc; 0]?);
    let mut out = MemSink::new(alloc, 10_000, None, vec![in alloc; 0]?)?;
    let mut err = MemSink::new(alloc, 10_000, None, vec![in alloc; 0]?)?;
    let words = words(alloc, &["bg", "verify", option[0], option[1], "a.bpl"])?;
    let status = run(rt, &words, &mut files, &mut out, &mut err, gate);
    Ok(status == wanted.0 && out.bytes() == wanted.1.as_bytes() && err.bytes().is_empty())
}

#[test]
fn the_report_is_that_of_any_number_of_workers(rt: HostRuntime) -> Result<(), Fail> {
    let verified = (Status::Verified, COUNT_REPORT);
    for workers in ["1", "2", "16"] {
        assert!(rt; tells(&rt, ["--workers", workers], COUNT, &FreeGate, verified)?);
    }
    Ok(())
}

#[test]
fn two_workers_meet_at_a_gate(rt: HostRuntime) -> Result<(), Fail> {
    let verified = (Status::Verified, TWO_REPORT);
    for (workers, met) in [("2", true), ("1", false)] {
        let gate = MeetGate::new(10_000_000);
        assert!(rt; tells(&rt, ["--workers", workers], TWO, &gate, verified)? && gate.met() == met);
    }
    Ok(())
}

#[test]
fn a_place_is_checked_again_where_its_proof_falls(rt: HostRuntime) -> Result<(), Fail> {
    for (text, report, workers, counts) in &LOOKS {
        let gate = CountGate::new(rt.alloc(), 8)?;
        let wanted = (Status::Verified, *report);
        assert!(rt; tells(&rt, ["--workers", *workers], *text, &gate, wanted)?);
        assert!(rt; gate.counts() == *counts);
    }
    Ok(())
}

#[test]
fn a_candidate_goes_for_a_budget_or_has_no_place(rt: HostRuntime) -> Result<(), Fail> {
    let unknown = (Status::Unknown, ONE_NODE_REPORT);
    assert!(rt; tells(&rt, ["--nodes", "1"], ONE_NODE, &FreeGate, unknown)?);
    let verified = (Status::Verified, UNCHECKED_REPORT);
    assert!(rt; tells(&rt, ["--workers", "3"], UNCHECKED, &FreeGate, verified)?);
    Ok(())
}

#[test]
fn guesses_find_what_a_loop_keeps(rt: HostRuntime) -> Result<(), Fail> {
    let verified = (Status::Verified, BARE_REPORT);
    for workers in ["--workers=1", "--workers=3"] {
        assert!(rt; tells(&rt, [workers, "--guess"], BARE, &FreeGate, verified)?);
    }
    Ok(())
}

#[test]
fn a_history_stands_behind_the_report(rt: HostRuntime) -> Result<(), Fail> {
    let text = format!(in rt.alloc(); "{COUNT_REPORT}{COUNT_HISTORY}")?;
    let wanted = (Status::Verified, text.as_str());
    assert!(rt; tells(&rt, ["--workers=1", "--history"], COUNT, &FreeGate, wanted)?);
    Ok(())
}
