//! The tokens of texts, and the lines of texts that have none.
use crate::line::say;
use bg_lex::lex;
use bg_text::Kind;
use std::alloc::Global;
use std::test::Fail;

/// A text, its tokens with their lines and columns, and where it ends.
type Case = (&'static [u8], &'static [(Kind, u32, u32)], (u32, u32));

const TOKENS: [Case; 4] = [
    (
        b"axiom true // c\n",
        &[(Kind::Axiom, 1, 1), (Kind::True, 1, 7)],
        (2, 1),
    ),
    (
        b"/* /* */ \" */\t\r\nbv<==>bvx1'",
        &[(Kind::Name, 2, 1), (Kind::Iff, 2, 3), (Kind::Name, 2, 7)],
        (2, 12),
    ),
    (
        b"007 170141183460469231731687303715884105727",
        &[
            (Kind::Number(7), 1, 1),
            (Kind::Number(170141183460469231731687303715884105727), 1, 5),
        ],
        (1, 44),
    ),
    (
        b"{:a \"\\\" /* \"}!!-==>a:=b",
        &[
            (Kind::OpenBrace, 1, 1),
            (Kind::Colon, 1, 2),
            (Kind::Name, 1, 3),
            (Kind::Quoted, 1, 5),
            (Kind::CloseBrace, 1, 13),
            (Kind::Not, 1, 14),
            (Kind::Not, 1, 15),
            (Kind::Minus, 1, 16),
            (Kind::Implies, 1, 17),
            (Kind::Name, 1, 20),
            (Kind::Becomes, 1, 21),
            (Kind::Name, 1, 23),
        ],
        (1, 24),
    ),
];

/// Whether a text holds the wanted tokens at their places, and ends where it says.
fn holds(alloc: Global, case: &Case) -> bool {
    let (text, wanted, end) = *case;
    if text.len() > 1000 {
        return false;
    }
    match lex(alloc, text) {
        Ok(tokens) => {
            tokens.list.len() == wanted.len()
                && (tokens.end.line, tokens.end.column) == end
                && tokens.list.iter().zip(wanted).all(|(t, w)| t.kind == w.0
                    && (t.pos.line, t.pos.column) == (w.1, w.2))
        }
        Err(_) => false,
    }
}

#[test]
fn each_text_has_its_tokens(rt: HostRuntime) {
    for case in &TOKENS {
        assert!(rt; holds(rt.alloc(), case));
    }
}

/// Texts, and the lines that refuse them; comments and spaces alone are a program.
const TEXTS: [(&[u8], &[u8]); 25] = [
    (
        b"{ assert (forall x: int :: x == x); }",
        b"error: 1:11 unsupported forall\n",
    ),
    (b"a\n bv32", b"error: 2:2 unsupported bv32\n"),
    (b"12x @", b"error: 1:1 unsupported number\n"),
    (
        b"170141183460469231731687303715884105728_",
        b"error: 1:1 unsupported number\n",
    ),
    (b"a ** b", b"error: 1:3 unsupported **\n"),
    (b"a::b", b"error: 1:2 unsupported ::\n"),
    (b"\\", b"error: 1:1 unsupported \\\n"),
    (b"a / b", b"error: 1:3 unsupported /\n"),
    (
        b"170141183460469231731687303715884105728 @",
        b"error: 1:1 number too big\n",
    ),
    (b"x /* /* */ @", b"error: 1:3 open comment\n"),
    (b"\t\"a\n\"", b"error: 1:2 bad byte\n"),
    (b"\"a\\", b"error: 1:1 bad byte\n"),
    (b"a | b", b"error: 1:3 bad byte\n"),
    (b"a\n&", b"error: 2:1 bad byte\n"),
    (b"\xff", b"error: 1:1 bad byte\n"),
    (b"", b""),
    (b"// forall", b""),
    (
        b"procedure P(a: bool) { var x: bool; x := a; assert x; }",
        b"",
    ),
    (b"procedure {:n 1, old(x)} P(a: bool) { }", b""),
    (b"x /*", b"error: 1:3 open comment\n"),
    (b"@ /*", b"error: 1:1 bad byte\n"),
    (b"/* @", b"error: 1:1 open comment\n"),
    (b"procedure ; @", b"error: 1:13 bad byte\n"),
    (
        b"170141183460469231731687303715884105728",
        b"error: 1:1 number too big\n",
    ),
    (b"a 1a", b"error: 1:3 unsupported number\n"),
];

#[test]
fn each_text_without_tokens_has_its_line(rt: HostRuntime) -> Result<(), Fail> {
    for (text, line) in &TEXTS {
        assert!(rt; say(rt.alloc(), &[(*text, 1)], line)?);
    }
    Ok(())
}
