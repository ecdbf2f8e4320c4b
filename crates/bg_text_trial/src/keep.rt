//! Programs with their retained annotations.
use bg_base::CandId;
use bg_keep::keep;
use bg_lex::lex;
use bg_parse::parse;
use bg_print::print;
use bg_resolve::resolve;
use bg_words::CandSet;
use std::alloc::Global;

/// A loop with three candidates.
const COUNT: &[u8] = b"const {:existential true} b0: bool;
const {:existential true} b1: bool;
const {:existential true} b2: bool;
procedure Count(n: int) returns (i: int)
  requires 0 <= n;
  ensures i == n;
{
  i := 0;
  while (i < n)
    invariant b0 ==> i >= 0;
    invariant b1 ==> i >= 1;
    invariant b2 ==> i <= n;
  { i := i + 1; }
}";

/// It without the second.
const COUNTED: &str = "procedure Count(n: int) returns (i: int)\n\
     \x20 requires 0 <= n;\n\
     \x20 ensures i == n;\n\
     {\n\
     \x20 i := 0;\n\
     \x20 while (i < n)\n\
     \x20   invariant i >= 0;\n\
     \x20   invariant i <= n;\n\
     \x20 {\n\
     \x20   i := i + 1;\n\
     \x20 }\n\
     }\n";

/// Clauses of each kind, with parentheses and longer chains, and a parameter that hides a candidate.
const CLAUSES: &[u8] = b"const {:existential true} b, c: bool;
procedure P(b: bool) returns (r: bool)
  requires b ==> b; requires ((c)) ==> (b ==> b); ensures (c ==> r == b ==> true); free ensures b ==> r;
{ L: assert {:a} c ==> r;
  while (*) invariant c ==> b; { if (b) { assert c ==> b; } else if (r) { assert b ==> r; } else { M: assert (c) ==> r; } } }";

/// They with the candidate c.
const RETAINED: &str = "procedure P(b: bool) returns (r: bool)\n\
     \x20 requires b ==> b;\n\
     \x20 requires (b ==> b);\n\
     \x20 ensures r == b ==> true;\n\
     \x20 free ensures b ==> r;\n\
     {\n\
     \x20 L:\n\
     \x20 assert {:a} r;\n\
     \x20 while (*)\n\
     \x20   invariant b;\n\
     \x20 {\n\
     \x20   if (b) {\n\
     \x20     assert b;\n\
     \x20   } else if (r) {\n\
     \x20     assert b ==> r;\n\
     \x20   } else {\n\
     \x20     M:\n\
     \x20     assert r;\n\
     \x20   }\n\
     \x20 }\n\
     }\n";

/// They without it: labels stay.
const DROPPED: &str = "procedure P(b: bool) returns (r: bool)\n\
     \x20 requires b ==> b;\n\
     \x20 free ensures b ==> r;\n\
     {\n\
     \x20 L:\n\
     \x20 while (*)\n\
     \x20 {\n\
     \x20   if (b) {\n\
     \x20   } else if (r) {\n\
     \x20     assert b ==> r;\n\
     \x20   } else {\n\
     \x20     M:\n\
     \x20   }\n\
     \x20 }\n\
     }\n";

/// So many candidates without this one.
fn all_but(alloc: Global, count: usize, dropped: u32) -> Option<CandSet> {
    let count = u32::try_from(count).ok()?;
    let mut set = CandSet::new(alloc, count, true).ok()?;
    if dropped < set.declared() {
        set.remove(CandId(dropped));
    }
    Some(set)
}

/// The printed text of what is kept of a text without this candidate.
fn annotated(alloc: Global, text: &[u8], dropped: u32) -> Option<Vec<u8>> {
    if text.len() >= 1000 {
        return None;
    }
    let tokens = lex(alloc, text).ok()?;
    if tokens.list.len() >= 1000 {
        return None;
    }
    let tree = parse(alloc, &tokens.list).ok()?;
    let Ok(program) = resolve(alloc, &tree.decls) else {
        return None;
    };
    let set = all_but(alloc, program.candidates.len(), dropped)?;
    let kept = keep(alloc, tree.decls, &program, &set).ok()?;
    print(alloc, &kept).ok()
}

/// Whether this text is what is printed.
fn is(found: Option<Vec<u8>>, wanted: &str) -> bool {
    found.is_some_and(|t| t.as_slice() == wanted.as_bytes())
}

#[test]
fn clauses_of_dropped_candidates_are_not_there(rt: HostRuntime) {
    assert!(rt; is(annotated(rt.alloc(), COUNT, 1), COUNTED));
    assert!(rt; is(annotated(rt.alloc(), CLAUSES, 1), DROPPED));
}

#[test]
fn clauses_of_retained_candidates_are_their_right_sides(rt: HostRuntime) {
    assert!(rt; is(annotated(rt.alloc(), CLAUSES, 0), RETAINED));
}
