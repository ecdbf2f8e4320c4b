//! Words: names, keywords and reserved words.
ghost use Rattle.std.specs.Prelude.{◌≡◌};
ghost use Rattle.std.specs.List.{list_all};
ghost use Rattle.bg_text.specs.Pieces.{is_digit, is_bit_vector};
ghost use Rattle.bg_lex.specs.Words.{look_up, word_kind, a_reserved, a_keywords, b_reserved, b_keywords, c_reserved, c_keywords, de_reserved, de_keywords, f_reserved, f_keywords, ghi_reserved, ghi_keywords, lmo_reserved, lmo_keywords, pr_reserved, pr_keywords, t_reserved, t_keywords, uvwy_reserved, uvwy_keywords};

use crate::byte::is_digit;
use bg_text::Kind;

fn are_digits(bytes: &[u8]) -> bool
    ensures { result ≡ list_all is_digit bytes.now }
{
    bytes.iter().all(|b| is_digit(*b))
}

fn is_bit_vector(text: &[u8]) -> bool
    ensures { result ≡ is_bit_vector text.now }
{
    match text {
        [b, v, d, rest @ ..] => *b == b'b' && *v == b'v' && is_digit(*d) && are_digits(rest),
        _ => false,
    }
}

fn a_word(text: &[u8]) -> Option<Kind>
    ensures { result ≡ look_up a_reserved a_keywords text.now }
{
    if text == b"async".as_slice() {
        None
    } else if text == b"assert".as_slice() {
        Some(Kind::Assert)
    } else if text == b"assume".as_slice() {
        Some(Kind::Assume)
    } else if text == b"axiom".as_slice() {
        Some(Kind::Axiom)
    } else {
        Some(Kind::Name)
    }
}

fn b_word(text: &[u8]) -> Option<Kind>
    ensures { result ≡ look_up b_reserved b_keywords text.now }
{
    if text == b"bool".as_slice() {
        Some(Kind::Bool)
    } else if text == b"break".as_slice() {
        Some(Kind::Break)
    } else {
        Some(Kind::Name)
    }
}

fn c_word(text: &[u8]) -> Option<Kind>
    ensures { result ≡ look_up c_reserved c_keywords text.now }
{
    if text == b"complete".as_slice() {
        None
    } else if text == b"call".as_slice() {
        Some(Kind::Call)
    } else if text == b"const".as_slice() {
        Some(Kind::Const)
    } else {
        Some(Kind::Name)
    }
}

fn de_word(text: &[u8]) -> Option<Kind>
    ensures { result ≡ look_up de_reserved de_keywords text.now }
{
    if text == b"datatype".as_slice() {
        None
    } else if text == b"div".as_slice() {
        None
    } else if text == b"exists".as_slice() {
        None
    } else if text == b"extends".as_slice() {
        None
    } else if text == b"else".as_slice() {
        Some(Kind::Else)
    } else if text == b"ensures".as_slice() {
        Some(Kind::Ensures)
    } else {
        Some(Kind::Name)
    }
}

fn f_word(text: &[u8]) -> Option<Kind>
    ensures { result ≡ look_up f_reserved f_keywords text.now }
{
    if text == b"finite".as_slice() {
        None
    } else if text == b"forall".as_slice() {
        None
    } else if text == b"false".as_slice() {
        Some(Kind::False)
    } else if text == b"free".as_slice() {
        Some(Kind::Free)
    } else if text == b"function".as_slice() {
        Some(Kind::Function)
    } else {
        Some(Kind::Name)
    }
}

fn ghi_word(text: &[u8]) -> Option<Kind>
    ensures { result ≡ look_up ghi_reserved ghi_keywords text.now }
{
    if text == b"goto".as_slice() {
        Some(Kind::Goto)
    } else if text == b"havoc".as_slice() {
        Some(Kind::Havoc)
    } else if text == b"if".as_slice() {
        Some(Kind::If)
    } else if text == b"implementation".as_slice() {
        Some(Kind::Implementation)
    } else if text == b"int".as_slice() {
        Some(Kind::Int)
    } else if text == b"invariant".as_slice() {
        Some(Kind::Invariant)
    } else {
        Some(Kind::Name)
    }
}

fn lmo_word(text: &[u8]) -> Option<Kind>
    ensures { result ≡ look_up lmo_reserved lmo_keywords text.now }
{
    if text == b"lambda".as_slice() {
        None
    } else if text == b"mod".as_slice() {
        None
    } else if text == b"modifies".as_slice() {
        Some(Kind::Modifies)
    } else if text == b"old".as_slice() {
        Some(Kind::Old)
    } else {
        Some(Kind::Name)
    }
}

fn pr_word(text: &[u8]) -> Option<Kind>
    ensures { result ≡ look_up pr_reserved pr_keywords text.now }
{
    if text == b"par".as_slice() {
        None
    } else if text == b"real".as_slice() {
        None
    } else if text == b"procedure".as_slice() {
        Some(Kind::Procedure)
    } else if text == b"requires".as_slice() {
        Some(Kind::Requires)
    } else if text == b"return".as_slice() {
        Some(Kind::Return)
    } else if text == b"returns".as_slice() {
        Some(Kind::Returns)
    } else {
        Some(Kind::Name)
    }
}

fn t_word(text: &[u8]) -> Option<Kind>
    ensures { result ≡ look_up t_reserved t_keywords text.now }
{
    if text == b"then".as_slice() {
        None
    } else if text == b"true".as_slice() {
        Some(Kind::True)
    } else if text == b"type".as_slice() {
        Some(Kind::Type)
    } else {
        Some(Kind::Name)
    }
}

fn uvwy_word(text: &[u8]) -> Option<Kind>
    ensures { result ≡ look_up uvwy_reserved uvwy_keywords text.now }
{
    if text == b"where".as_slice() {
        None
    } else if text == b"yield".as_slice() {
        None
    } else if text == b"unique".as_slice() {
        Some(Kind::Unique)
    } else if text == b"var".as_slice() {
        Some(Kind::Var)
    } else if text == b"while".as_slice() {
        Some(Kind::While)
    } else {
        Some(Kind::Name)
    }
}

/// The kind of a word, or nothing where it is reserved.
pub(crate) fn word_kind(text: &[u8]) -> Option<Kind>
    ensures { result ≡ word_kind text.now }
{
    let [first, ..] = text else {
        return Some(Kind::Name);
    };
    match *first {
        b'a' => a_word(text),
        b'b' if is_bit_vector(text) => None,
        b'b' => b_word(text),
        b'c' => c_word(text),
        b'd' | b'e' => de_word(text),
        b'f' => f_word(text),
        b'g' | b'h' | b'i' => ghi_word(text),
        b'l' | b'm' | b'o' => lmo_word(text),
        b'p' | b'r' => pr_word(text),
        b't' => t_word(text),
        b'u' | b'v' | b'w' | b'y' => uvwy_word(text),
        _ => Some(Kind::Name),
    }
}
