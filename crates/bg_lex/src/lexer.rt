//! From bytes to tokens.
ghost use Rattle.std.specs.Prelude.{◌≡◌, ◌-◌, ◌^◌, ◌<◌, length, Some, IfErr, IfOk, OnOk};
ghost use Rattle.bg_text.specs.Pieces.{piece_of};
ghost use Rattle.bg_text.specs.Text.{Text, after_bytes, start};
ghost use Rattle.bg_text.specs.Tokens.{views};
ghost use Rattle.bg_lex.specs.Fronts.{Adds, piece_for};
ghost use Rattle.bg_lex.specs.Faults.{IsRefusal};

use crate::error::LexError;
use crate::front::{Front, front_of};
use crate::place::after_bytes;
use bg_base::Pos;
use bg_text::{Kind, Token};
use std::alloc::Global;

/// The tokens of a text, and the position behind its last byte.
#[derive(Drop)]
pub struct Tokens<'a> {
    pub list: Vec<Token<'a>>,
    pub end: Pos,
}

// One more token, where there is a kind.
fn add<'a>(
    list: &mut Vec<Token<'a>>,
    kind: Option<Kind>,
    pos: Pos,
    text: &'a [u8],
) -> Result<(), LexError<'a>>
    requires { piece_of text.now ≡ Some (piece_for kind) }
    ensures ok { OnOk result (Adds kind pos text.entry.now (views list.old.items) (views list.new.items)) }
    ensures err { IfErr result (λ e. e ≡ LexError.Memory) }
{
    let Some(kind) = kind else {
        return Ok(());
    };
    match list.push(Token { kind, pos, text }) {
        Ok(()) => Ok(()),
        Err(_) => Err(LexError::Memory),
    }
}

/// The tokens of a text of fewer than 2^32 - 1 bytes: layout and tokens alternate, and each piece is the longest that
/// stands at its place.
///
/// # Errors
/// `Refused` with the first fault by position where the text holds no tokens, and `Memory` where memory ran out.
pub fn lex<'a>(alloc: Global, bytes: &'a [u8]) -> Result<Tokens<'a>, LexError<'a>>
    requires { length bytes.now < 2 ^ 32 - 1 }
    ensures text { IfOk result (λ t. Text bytes.now (views t.list.items)) }
    ensures end { IfOk result (λ t. t.end ≡ after_bytes bytes.now start) }
    ensures refused { IfErr result (λ e. IsRefusal bytes.now e) }
{
    let mut list = Vec::new(alloc);
    let mut at = Pos { line: 1, column: 1 };
    let mut rest = bytes;
    while !rest.is_empty() {
        let Front { kind, len } = match front_of(rest) {
            Ok(front) => front,
            Err(fault) => return Err(LexError::Refused(at, fault)),
        };
        let (text, after) = rest.split_at(len);
        add(&mut list, kind, at, text)?;
        at = after_bytes(text, at);
        rest = after;
    }
    Ok(Tokens { list, end: at })
}
