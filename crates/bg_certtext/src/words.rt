//! Lines and words that are read.
ghost use Rattle.std.specs.Prelude.{◌≡◌, ◌++◌, ◌∷◌, drop, map, option_map, true, OnOk, IfSome, IfNone};
ghost use Rattle.std.specs.Str.{bytes_eq};
ghost use Rattle.std.specs.List.{list_all};
ghost use Rattle.bg_certtext.specs.Words.{is_in_line, is_in_word, line_in, word_in, words_of};
ghost use Rattle.bg_certtext.specs.Machine.{behind};
ghost use Rattle.bg_certtext.specs.Spellable.{is_inside_word, is_name, is_inside_type, is_type};

use std::alloc::AllocError;

#[tactic(auto, unfolding(crate::specs::Words::is_in_line))]
fn is_in_line(b: u8) -> bool
    ensures { result ≡ is_in_line b }
{
    b != b'\n'
}

#[tactic(auto, unfolding(crate::specs::Words::is_in_word))]
fn is_in_word(b: u8) -> bool
    ensures { result ≡ is_in_word b }
{
    b != b' '
}

#[tactic(auto, unfolding(crate::specs::Spellable::is_inside_word))]
fn is_inside_word(b: u8) -> bool
    ensures { result ≡ is_inside_word b }
{
    b != b' ' && b != b'\n'
}

fn are_inside_word(word: &[u8]) -> bool
    ensures { result ≡ list_all is_inside_word word.now }
{
    word.iter().all(|b| is_inside_word(*b))
}

/// Whether a word is this one.
pub(crate) fn is_word(word: &[u8], key: &[u8]) -> bool
    ensures { result ≡ bytes_eq word.now key.now }
{
    word == key
}

/// Whether a word is a name.
pub(crate) fn is_name(word: &[u8]) -> bool
    ensures { result ≡ is_name word.now }
{
    match word {
        [] => false,
        _ => are_inside_word(word),
    }
}

#[tactic(auto, unfolding(crate::specs::Spellable::is_inside_type))]
fn is_inside_type(b: u8) -> bool
    ensures { result ≡ is_inside_type b }
{
    b != b'!' && (b != b',' && (b != b'[' && b != b']'))
}

fn are_inside_type(word: &[u8]) -> bool
    ensures { result ≡ list_all is_inside_type word.now }
{
    word.iter().all(|b| is_inside_type(*b))
}

/// Whether a word may be the name of a value's type.
pub(crate) fn is_type(word: &[u8]) -> bool
    ensures { result ≡ is_type word.now }
{
    is_name(word) && are_inside_type(word)
}

/// What stands behind these bytes, where they stand in front.
pub(crate) fn behind<'a>(key: &[u8], bytes: &'a [u8]) -> Option<&'a [u8]>
    ensures { option_map (λ w. w.now) result ≡ behind key.now bytes.entry.now }
{
    let mut rest = bytes;
    for k in key {
        let [b, more @ ..] = rest else {
            return None;
        };
        if *b != *k {
            return None;
        }
        rest = more;
    }
    Some(rest)
}

/// How many bytes stand in front of the first newline.
fn line_in(bytes: &[u8]) -> usize
    ensures { result ≡ line_in bytes.now }
{
    bytes.iter().take_while(|b| is_in_line(**b)).count()
}

/// How many bytes stand in front of the first space.
pub(crate) fn word_in(bytes: &[u8]) -> usize
    ensures { result ≡ word_in bytes.now }
{
    bytes.iter().take_while(|b| is_in_word(**b)).count()
}

#[tactic(auto, using(crate::proofs::Newlines::line_is_inside))]
/// The first line without its newline byte, and what stands behind that; none where no newline is.
pub(crate) fn line_of(bytes: &[u8]) -> Option<(&[u8], &[u8])>
    ensures cut { IfSome result (λ p. bytes.now ≡ p.0.now ++ (10 ∷ p.1.now)) }
    ensures line { IfSome result (λ p. list_all is_in_line p.0.now ≡ true) }
    ensures none { IfNone result (list_all is_in_line bytes.now ≡ true) }
{
    let (line, behind) = bytes.split_at(line_in(bytes));
    match behind {
        [] => None,
        [_, rest @ ..] => Some((line, rest)),
    }
}

/// The words of a line in place of those that are there.
pub(crate) fn split<'a>(words: &mut Vec<&'a [u8]>, line: &'a [u8]) -> Result<(), AllocError>
    ensures { OnOk result (map (λ w. w.now) words.new.items ≡ words_of line.entry.now) }
{
    words.clear();
    let mut rest = line;
    let mut end = word_in(rest);
    while end < rest.len() {
        let (word, behind) = rest.split_at(end);
        words.push(word)?;
        rest = &behind[1..];
        end = word_in(rest);
    }
    words.push(rest)?;
    Ok(())
}

/// What stands behind the first word of a line and its space; nothing where it has no other.
pub(crate) fn behind_word(line: &[u8]) -> &[u8]
    ensures { result.now ≡ drop 1 (drop (word_in line.now) line.now) }
{
    let (_, behind) = line.split_at(word_in(line));
    match behind {
        [] => behind,
        [_, rest @ ..] => rest,
    }
}
