//! Programs with their retained annotations, as the top call writes them, and reads them again.
use crate::made::words;
use bg_claims::FreeGate;
use bg_ends::Status;
use bg_io::{MemFiles, MemSink, StoredFile};
use bg_tool::run;
use std::alloc::AllocError;
use std::test::Fail;
use std::thread::Threads;

const VERIFY: &[&str] = &["bg", "verify", "a.bpl"];

const ANNOTATE: &[&str] = &["bg", "annotate", "a.bpl"];

const GUESS: &[&str] = &["bg", "annotate", "--guess", "a.bpl"];

const ONE_NODE: &[&str] = &["bg", "annotate", "--nodes", "1", "a.bpl"];

const COUNT: &str = "const {:existential true} b0, b1, b2: bool;
procedure Count(n: int) returns (i: int) requires 0 <= n; ensures i == n;
{ i := 0; while (i < n) invariant b0 ==> i >= 0; invariant b1 ==> i >= 1; invariant b2 ==> i <= n; { i := i + 1; } }";

const COUNTED: &str = "procedure Count(n: int) returns (i: int)\n\
     \x20 requires 0 <= n;\n\
     \x20 ensures i == n;\n\
     {\n\
     \x20 i := 0;\n\
     \x20 while (i < n)\n\
     \x20   invariant i >= 0;\n\
     \x20   invariant i <= n;\n\
     \x20 {\n\
     \x20   i := i + 1;\n\
     \x20 }\n\
     }\n";

const COUNT_REPORT: &str =
    "axioms: consistent\nretained set: greatest\nimplementation Count 1:1 verified\nsummary: 0 retained, 0 dropped; 1 verified, 0 refuted, 0 unknown\n";

/// A caller and what it calls, whose implementation has names of its own, one of them that of a global.
const CALLS: &str = "var g, h: int;
procedure Add(n: int) returns (r: int); requires true; modifies g; ensures r == n + 1;
implementation Add(h: int) returns (s: int) { var k: int; k := h; while (*) { k := k; } s := h + 1; g := 2; }
procedure Main() modifies g; { var a: int; call a := Add(3); assert a == 4; }";

const CALLED: &str = "var g, h: int;\n\
     procedure Add(n: int) returns (r: int);\n\
     \x20 requires true;\n\
     \x20 modifies g;\n\
     \x20 ensures r == n + 1;\n\
     \x20 requires n >= 0;\n\
     \x20 ensures g >= 0;\n\
     \x20 ensures n >= 0;\n\
     \x20 ensures r >= 0;\n\
     \x20 ensures n <= r;\n\
     implementation Add(h: int) returns (s: int)\n\
     {\n\
     \x20 var k: int;\n\
     \x20 k := h;\n\
     \x20 while (*)\n\
     \x20   invariant h >= 0;\n\
     \x20   invariant k >= 0;\n\
     \x20   invariant h <= k;\n\
     \x20   invariant k <= h;\n\
     \x20   invariant g == old(g);\n\
     \x20 {\n\
     \x20   k := k;\n\
     \x20 }\n\
     \x20 s := h + 1;\n\
     \x20 g := 2;\n\
     }\n\
     procedure Main()\n\
     \x20 modifies g;\n\
     \x20 ensures g >= 0;\n\
     {\n\
     \x20 var a: int;\n\
     \x20 call a := Add(3);\n\
     \x20 assert a == 4;\n\
     }\n";

const FOUR_CLAUSES: &str = "const {:existential true} c: bool;
procedure P(a: bool, b: bool) {
  assume (a || b) && (a || !b) && (!a || b) && (!a || !b);
  L: assert c ==> false;
  assert false; }";

const FALSE: &str = "procedure P(a: bool, b: bool)\n\
     {\n\
     \x20 assume (a || b) && (a || !b) && (!a || b) && (!a || !b);\n\
     \x20 L:\n\
     \x20 assert false;\n\
     }\n";

/// How these words end over this text in `a.bpl`, and what is written to the output.
fn written<R: AllocGlobal + Threads + Sync>(
    rt: &R,
    given: &[&str],
    text: &[u8],
) -> Result<(Status, Vec<u8>), AllocError> {
    let alloc = rt.alloc();
    let name = String::from_str(alloc, "a.bpl")?;
    let bytes = text.to_vec(alloc)?;
    let mut files = MemFiles::new(vec![in alloc; StoredFile { name, bytes }]?, Vec::new(alloc));
    let mut out = MemSink::new(alloc, 10_000, None, Vec::new(alloc))?;
    let mut err = MemSink::new(alloc, 10_000, None, Vec::new(alloc))?;
    let words = words(alloc, given)?;
    let status = run(rt, &words, &mut files, &mut out, &mut err, &FreeGate);
    Ok((status, out.bytes().to_vec(alloc)?))
}

/// Whether these words end so and write this.
fn writes<R: AllocGlobal + Threads + Sync>(
    rt: &R,
    given: &[&str],
    text: &str,
    wanted: (Status, &str),
) -> bool {
    match written(rt, given, text.as_bytes()) {
        Ok((status, found)) => status == wanted.0 && found.as_slice() == wanted.1.as_bytes(),
        Err(_) => false,
    }
}

#[test]
fn retained_annotations_stand_in_the_text(rt: HostRuntime) {
    assert!(rt; writes(&rt, ANNOTATE, COUNT, (Status::Verified, COUNTED)));
    assert!(rt; writes(&rt, ONE_NODE, FOUR_CLAUSES, (Status::Unknown, FALSE)));
    assert!(rt; writes(&rt, ANNOTATE, "", (Status::Verified, "")));
}

#[test]
fn retained_guesses_stand_behind_the_clauses_of_their_places(rt: HostRuntime) {
    assert!(rt; writes(&rt, GUESS, CALLS, (Status::Verified, CALLED)));
}

#[test]
fn what_is_annotated_is_verified_as_before(rt: HostRuntime) {
    assert!(rt; writes(&rt, VERIFY, COUNTED, (Status::Verified, COUNT_REPORT)));
    assert!(rt; writes(&rt, ANNOTATE, COUNTED, (Status::Verified, COUNTED)));
    assert!(rt; writes(&rt, ANNOTATE, CALLED, (Status::Verified, CALLED)));
}
