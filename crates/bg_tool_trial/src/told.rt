//! What an outcome keeps, and its report, which is the same whatever is kept.
use bg_check::{Effort, Judged, Proof, Verdict};
use bg_claims::FreeGate;
use bg_front::read_program;
use bg_houdini::Reason;
use bg_inference::{Outcome, infer};
use bg_judged::laws::judged_programs_are_openable;
use bg_told::{Word, bench_text, history_text, result_text, word_of};
use bg_tree::Budget;
use std::alloc::{AllocError, Global};
use std::thread::Threads;

type Inferred = bg_rounds::Outcome<Option<Proof>, Reason>;

/// Places that are proved, and places that aren't with one node, each with a candidate and without.
const TEXT: &str = "const {:existential true} kept, left: bool;\n\
procedure P(a: bool, b: bool)\n\
{\n\
\x20 assert kept ==> a == a;\n\
\x20 assume (a || b) && (a || !b) && (!a || b) && (!a || !b);\n\
\x20 assert left ==> false;\n\
\x20 assert false;\n\
}\n\
procedure Q(x: int) { assume x == 1; assert x > 0; }\n";

const REPORT: &str = "axioms: consistent\n\
candidate kept retained\n\
candidate left dropped unknown nodes\n\
retained set: inductive\n\
implementation P 2:1 unknown\n\
\x20 unknown assert 7:3 nodes\n\
\x20   kept 1\n\
implementation Q 9:1 verified\n\
summary: 1 retained, 1 dropped; 1 verified, 0 refuted, 1 unknown\n";

const HISTORY: &str = "history:\n\
drop 0 left in P 2:1 at assert 6:3: unknown nodes\n\
\x20 snapshot kept left\n\
\x20   kept 1\n\
interpretation:\n";

const BENCH: &str = "bench 1 2\n\
retained set: inductive\n\
summary: 1 retained, 1 dropped; 1 verified, 0 refuted, 1 unknown\n";

const ONE_NODE: Budget = Budget {
    nodes: 1,
    rows: 1000,
};

/// What the inference of that program comes to, if memory is enough.
fn outcome<R: AllocGlobal + Threads + Sync>(rt: &R, keeps: bool) -> Option<Outcome> {
    judged_programs_are_openable();
    match read_program(rt.alloc(), TEXT.as_bytes(), false) {
        Ok(typed) => {
            let effort = Effort {
                budget: ONE_NODE,
                keeps,
            };
            infer(rt, rt.alloc(), typed.program, effort, 1, &FreeGate).ok()
        }
        Err(_) => None,
    }
}

/// Whether the certificate or the cause of a verdict is kept, or isn't.
fn is_held(verdict: &Verdict, keeps: bool) -> bool {
    match verdict {
        Verdict::Proved(proof) => proof.is_some() == keeps,
        Verdict::Refuted(_) => false,
        Verdict::Unknown(_, _) => keeps,
        Verdict::Left(_) => !keeps,
    }
}

/// Whether the first of these places is as `is_held` says.
fn first_is_held(row: &[Judged], keeps: bool) -> bool {
    match row.first() {
        Some(judged) => is_held(&judged.verdict, keeps),
        None => false,
    }
}

/// Whether what is known of the place of each implementation is kept, or isn't.
fn are_held(rows: &[Vec<Judged>], keeps: bool) -> bool {
    for row in rows {
        if !first_is_held(row, keeps) {
            return false;
        }
    }
    rows.len() == 2
}

/// Whether the certificate of the first candidate's place is kept, or isn't.
fn is_proof_held(inferred: &Inferred, keeps: bool) -> bool {
    match inferred.kept.first() {
        Some(Some(kept)) => kept.proof.is_some() == keeps,
        _ => false,
    }
}

/// Whether the cause for which a candidate went is kept, or isn't.
fn is_cause_held(inferred: &Inferred, keeps: bool) -> bool {
    match inferred.removals.first() {
        Some(removal) => match &removal.told {
            Reason::Refuted(_) => false,
            Reason::Unknown(_, _) => keeps,
            Reason::Left(_) => !keeps,
        },
        None => false,
    }
}

fn is_text(made: Result<Vec<u8>, AllocError>, wanted: &str) -> bool {
    match made {
        Ok(text) => text.as_slice() == wanted.as_bytes(),
        Err(_) => false,
    }
}

/// Whether the texts and the word of the outcome are these.
fn is_told(alloc: Global, outcome: &Outcome) -> bool {
    is_text(result_text(alloc, outcome), REPORT)
        && is_text(history_text(alloc, outcome), HISTORY)
        && is_text(bench_text(alloc, 1, 2, outcome), BENCH)
        && word_of(outcome) == Word::Unknown
}

/// Whether the outcome keeps what it should, and its texts are these.
fn is_kept_and_told<R: AllocGlobal + Threads + Sync>(rt: &R, keeps: bool) -> bool {
    match outcome(rt, keeps) {
        Some(outcome) => {
            are_held(&outcome.judged.verdicts, keeps)
                && is_proof_held(&outcome.judged.inferred, keeps)
                && is_cause_held(&outcome.judged.inferred, keeps)
                && is_told(rt.alloc(), &outcome)
        }
        None => false,
    }
}

#[test]
fn certificates_and_causes_are_kept_where_they_are_asked_for(rt: HostRuntime) {
    assert!(rt; is_kept_and_told(&rt, true));
    assert!(rt; is_kept_and_told(&rt, false));
}
