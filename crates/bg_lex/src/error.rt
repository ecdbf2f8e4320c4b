//! Why a text holds no tokens.

use bg_base::Pos;
use thiserror::Error;

/// What stands in a text and in no token list.
#[derive(Clone, Copy, PartialEq, Eq, Debug)]
pub enum Fault<'a> {
    /// No token, layout, reserved word or reserved sign begins here.
    BadByte,
    /// The outermost comment that begins here isn't closed.
    OpenComment,
    /// The number that begins here is above 2^127 - 1.
    NumberTooBig,
    /// A reserved word or sign, by its bytes, or `number`: digits with an identifier byte behind them.
    Unsupported(&'a [u8]),
}

/// Why there are no tokens.
#[derive(Debug, Drop, Error)]
pub enum LexError<'a> {
    /// The first fault of the text, and the position of its first byte.
    #[error("no tokens: a fault at line {}, column {}", .0.line, .0.column)]
    Refused(Pos, Fault<'a>),
    /// Memory ran out.
    #[error("out of memory")]
    Memory,
}
