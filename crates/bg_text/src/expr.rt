//! Expressions as they are written: parentheses, positions and names are kept.

use bg_base::Pos;

/// A sign between two operands.
#[derive(Clone, Copy, PartialEq, Eq, Debug)]
pub enum InfixSign {
    Iff,
    Implies,
    Explies,
    And,
    Or,
    Equal,
    Unequal,
    Less,
    AtMost,
    Greater,
    AtLeast,
    Plus,
    Minus,
    Times,
}

/// A sign before an operand.
#[derive(Clone, Copy, PartialEq, Eq, Debug)]
pub enum PrefixSign {
    Not,
    Minus,
}

/// A name as it is written, and where.
#[derive(Drop)]
pub struct Name {
    pub pos: Pos,
    pub text: Vec<u8>,
}

/// An expression. A chain of one level, a row of prefix signs and a row of postfix brackets are one node each, so that a
/// tree is no deeper than its open brackets.
#[derive(Drop)]
#[cycle(tree_expr)]
pub enum TreeExpr {
    Number(Pos, i128),
    Truth(Pos, bool),
    Named(Name),
    Apply(Name, Vec<TreeExpr>),
    Old(Pos, Box<TreeExpr>),
    Parens(Pos, Box<TreeExpr>),
    Prefix(Vec<TreePrefix>, Box<TreeExpr>),
    Postfix(Box<TreeExpr>, Vec<TreeBracket>),
    Chain(Box<TreeExpr>, Vec<TreeLink>),
}

/// A prefix sign, and where it stands.
#[derive(Clone, Copy, PartialEq, Eq, Debug)]
pub struct TreePrefix {
    pub pos: Pos,
    pub sign: PrefixSign,
}

/// One more operand of a chain, with the sign before it.
#[derive(Drop)]
#[cycle(tree_expr)]
pub struct TreeLink {
    pub pos: Pos,
    pub sign: InfixSign,
    pub operand: TreeExpr,
}

/// A bracket behind an expression, with the value that an update has.
#[derive(Drop)]
#[cycle(tree_expr)]
pub enum TreeBracket {
    Select(Pos, Vec<TreeExpr>),
    Update(Pos, Vec<TreeExpr>, TreeExpr),
}
