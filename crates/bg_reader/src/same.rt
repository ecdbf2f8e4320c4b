//! When two kinds are one.
ghost use Rattle.std.specs.Prelude.{◌≡◌};
ghost use Rattle.bg_reader.specs.Kinds.{number, is_kind};

use bg_text::Kind;

fn number(kind: Kind) -> u8
    ensures { result ≡ number kind }
{
    match kind {
        Kind::Name => 0,
        Kind::Number(_) => 1,
        Kind::Quoted => 2,
        Kind::Assert => 3,
        Kind::Assume => 4,
        Kind::Axiom => 5,
        Kind::Bool => 6,
        Kind::Break => 7,
        Kind::Call => 8,
        Kind::Const => 9,
        Kind::Else => 10,
        Kind::Ensures => 11,
        Kind::False => 12,
        Kind::Free => 13,
        Kind::Function => 14,
        Kind::Goto => 15,
        Kind::Havoc => 16,
        Kind::If => 17,
        Kind::Implementation => 18,
        Kind::Int => 19,
        Kind::Invariant => 20,
        Kind::Modifies => 21,
        Kind::Old => 22,
        Kind::Procedure => 23,
        Kind::Requires => 24,
        Kind::Return => 25,
        Kind::Returns => 26,
        Kind::True => 27,
        Kind::Type => 28,
        Kind::Unique => 29,
        Kind::Var => 30,
        Kind::While => 31,
        Kind::Open => 32,
        Kind::Close => 33,
        Kind::OpenBracket => 34,
        Kind::CloseBracket => 35,
        Kind::OpenBrace => 36,
        Kind::CloseBrace => 37,
        Kind::Comma => 38,
        Kind::Semicolon => 39,
        Kind::Colon => 40,
        Kind::Becomes => 41,
        Kind::Sets => 42,
        Kind::Less => 43,
        Kind::AtMost => 44,
        Kind::Greater => 45,
        Kind::AtLeast => 46,
        Kind::Equal => 47,
        Kind::Unequal => 48,
        Kind::Implies => 49,
        Kind::Explies => 50,
        Kind::Iff => 51,
        Kind::And => 52,
        Kind::Or => 53,
        Kind::Not => 54,
        Kind::Plus => 55,
        Kind::Minus => 56,
        Kind::Times => 57,
    }
}

/// Whether the second kind is the first, numbers of any value being of one kind.
pub fn is_kind(kind: Kind, other: Kind) -> bool
    ensures { result ≡ is_kind kind other }
{
    number(other) == number(kind)
}
