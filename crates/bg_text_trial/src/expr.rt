//! What is read of an expression at a place where 198 brackets are open.
use bg_expr::expr;
use bg_lex::lex;
use bg_reader::Refusal;
use std::alloc::Global;

/// The token behind the expression, or the one that is refused, and why.
#[derive(Clone, Copy)]
enum Told {
    Read(usize),
    Syntax(usize),
    TooDeep(usize),
}

const TEXTS: [(&[u8], Told); 19] = [
    (b"a<a<a", Told::Read(3)),
    (b"a&&a||a", Told::Read(3)),
    (b"a==>a==>a<==>true", Told::Read(7)),
    (b"a-a--!a", Told::Read(7)),
    (b"a[a:=a][a,a]<==>!a", Told::Read(14)),
    (b"a(a,(a))", Told::Read(8)),
    (b"a()", Told::Read(3)),
    (b"old(a)", Told::Read(4)),
    (b"a)", Told::Read(1)),
    (b"", Told::Syntax(0)),
    (b"a&&", Told::Syntax(2)),
    (b"(a,", Told::Syntax(2)),
    (b"old a", Told::Syntax(1)),
    (b"a[]", Told::Syntax(2)),
    (b"a[a,]", Told::Syntax(4)),
    (b"((a))", Told::Read(5)),
    (b"(((a", Told::TooDeep(2)),
    (b"a[old(a(a))]", Told::TooDeep(5)),
    (b"a[(a[a])]", Told::TooDeep(4)),
];

fn tells(alloc: Global, text: &[u8], wanted: Told) -> bool {
    if text.len() >= 1000 {
        return false;
    }
    let Ok(tokens) = lex(alloc, text) else {
        return false;
    };
    match (expr(alloc, &tokens.list, 0, 198), wanted) {
        (Ok((_, next)), Told::Read(i)) => next == i,
        (Err(Refusal::Syntax(next)), Told::Syntax(i)) => next == i,
        (Err(Refusal::TooDeep(next)), Told::TooDeep(i)) => next == i,
        _ => false,
    }
}

#[test]
fn each_answer_names_its_token(rt: HostRuntime) {
    for (text, wanted) in &TEXTS {
        assert!(rt; tells(rt.alloc(), text, *wanted));
    }
}
