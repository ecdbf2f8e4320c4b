//! What a text is made of.
ghost use Rattle.std.specs.Prelude.{◌≡◌, Some};
ghost use Rattle.bg_text.specs.Pieces.{piece_of, Piece};

use bg_base::Pos;

/// What a token is.
#[derive(Clone, Copy, PartialEq, Eq, Debug)]
pub enum Kind {
    Name,
    Number(i128),
    Quoted,
    // the keywords
    Assert,
    Assume,
    Axiom,
    Bool,
    Break,
    Call,
    Const,
    Else,
    Ensures,
    False,
    Free,
    Function,
    Goto,
    Havoc,
    If,
    Implementation,
    Int,
    Invariant,
    Modifies,
    Old,
    Procedure,
    Requires,
    Return,
    Returns,
    True,
    Type,
    Unique,
    Var,
    While,
    // the signs
    Open,
    Close,
    OpenBracket,
    CloseBracket,
    OpenBrace,
    CloseBrace,
    Comma,
    Semicolon,
    Colon,
    Becomes,
    Sets,
    Less,
    AtMost,
    Greater,
    AtLeast,
    Equal,
    Unequal,
    Implies,
    Explies,
    Iff,
    And,
    Or,
    Not,
    Plus,
    Minus,
    Times,
}

/// A token, with its text.
#[derive(Clone, Copy)]
pub struct Token<'a> {
    pub kind: Kind,
    pub pos: Pos,
    pub text: &'a [u8],
    ghost is_token: { piece_of text.now ≡ Some (Piece.Token kind) },
}
