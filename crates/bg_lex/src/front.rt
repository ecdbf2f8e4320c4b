//! What stands in front of bytes: the longest piece, or a fault.
ghost use Rattle.std.specs.Prelude.{◌≡◌, ◌<◌, ◌==◌, length, slice_index, true, false};
ghost use Rattle.bg_text.specs.Pieces.{is_digit, is_ident, is_space};
ghost use Rattle.bg_lex.specs.Fronts.{IsFront};

use crate::byte::{begins_ident, digits_in, is_digit, is_ident, is_space, line_in, word_in};
use crate::comment::comment_end;
use crate::error::Fault;
use crate::number::number_of;
use crate::quote::quote_end;
use crate::sign::sign_at;
use crate::word::word_kind;
use bg_text::Kind;

/// A piece that a token list may have: its kind, none for layout, and its length.
pub(crate) struct Front {
    pub(crate) kind: Option<Kind>,
    pub(crate) len: usize,
}

fn number<'a>(bytes: &'a [u8]) -> Result<Front, Fault<'a>>
    requires some { 0 < length bytes.now }
    requires digit { is_digit (slice_index bytes.now 0) ≡ true }
    ensures { IsFront bytes.now result }
{
    let len = digits_in(bytes);
    let (digits, after) = bytes.split_at(len);
    if begins_ident(after) {
        return Err(Fault::Unsupported(b"number".as_slice()));
    }
    match number_of(digits) {
        Some(kind) => Ok(Front {
            kind: Some(kind),
            len,
        }),
        None => Err(Fault::NumberTooBig),
    }
}

fn word<'a>(bytes: &'a [u8]) -> Result<Front, Fault<'a>>
    requires some { 0 < length bytes.now }
    requires space { is_space (slice_index bytes.now 0) ≡ false }
    requires digit { is_digit (slice_index bytes.now 0) ≡ false }
    requires ident { is_ident (slice_index bytes.now 0) ≡ true }
    ensures { IsFront bytes.now result }
{
    let len = word_in(bytes);
    let (text, _after) = bytes.split_at(len);
    match word_kind(text) {
        Some(kind) => Ok(Front {
            kind: Some(kind),
            len,
        }),
        None => Err(Fault::Unsupported(text)),
    }
}

fn quote<'a>(bytes: &'a [u8]) -> Result<Front, Fault<'a>>
    requires some { 0 < length bytes.now }
    requires quote { slice_index bytes.now 0 ≡ 34 }
    ensures { IsFront bytes.now result }
{
    match quote_end(&bytes[1..]) {
        Some(len) => Ok(Front {
            kind: Some(Kind::Quoted),
            len: len + 1,
        }),
        None => Err(Fault::BadByte),
    }
}

fn slash<'a>(bytes: &'a [u8]) -> Result<Front, Fault<'a>>
    requires some { 0 < length bytes.now }
    requires slash { slice_index bytes.now 0 ≡ 47 }
    ensures { IsFront bytes.now result }
{
    if bytes.len() < 2 {
        return Err(Fault::Unsupported(b"/".as_slice()));
    }
    let rest = &bytes[2..];
    let second = bytes[1];
    if second == b'/' {
        Ok(Front {
            kind: None,
            len: line_in(rest) + 2,
        })
    } else if second == b'*' {
        match comment_end(rest) {
            Some(len) => Ok(Front {
                kind: None,
                len: len + 2,
            }),
            None => Err(Fault::OpenComment),
        }
    } else {
        Err(Fault::Unsupported(b"/".as_slice()))
    }
}

fn sign<'a>(bytes: &'a [u8]) -> Result<Front, Fault<'a>>
    requires some { 0 < length bytes.now }
    requires space { is_space (slice_index bytes.now 0) ≡ false }
    requires digit { is_digit (slice_index bytes.now 0) ≡ false }
    requires ident { is_ident (slice_index bytes.now 0) ≡ false }
    requires quote { (slice_index bytes.now 0 == 34) ≡ false }
    requires slash { (slice_index bytes.now 0 == 47) ≡ false }
    ensures { IsFront bytes.now result }
{
    let Some(found) = sign_at(bytes) else {
        return Err(Fault::BadByte);
    };
    match found.kind {
        Some(kind) => Ok(Front {
            kind: Some(kind),
            len: found.len,
        }),
        None => Err(Fault::Unsupported(&bytes[..found.len])),
    }
}

/// The longest piece in front, or the fault that stands there.
pub(crate) fn front_of<'a>(bytes: &'a [u8]) -> Result<Front, Fault<'a>>
    requires { 0 < length bytes.now }
    ensures { IsFront bytes.now result }
{
    let first = bytes[0];
    if is_space(first) {
        Ok(Front { kind: None, len: 1 })
    } else if is_digit(first) {
        number(bytes)
    } else if is_ident(first) {
        word(bytes)
    } else if first == b'"' {
        quote(bytes)
    } else if first == b'/' {
        slash(bytes)
    } else {
        sign(bytes)
    }
}
