//! Words that are no maps: values, and parts of indices.
ghost use Rattle.std.specs.Prelude.{◌≡◌, map, IfOk, OnOk, option_map};
ghost use Rattle.bg_certtext.specs.Spellable as spell;
ghost use Rattle.bg_certtext.specs.Words.{is_in_part, part_in, parts_of, is_in_type, is_in_value, type_in, value_end, integer};
ghost use Rattle.bg_certtext.specs.Views.{AtElement, part_of, value_of};
ghost use Rattle.bg_certtext.specs.Machine as machine;
ghost use Rattle.bg_certtext.specs.Machine.{then_, when, marked_in, as_value, value_in, index_in, plain_from, index_from};
ghost use Rattle.bg_certtext.specs.Got.{value_got, index_got};

use crate::numeral::integer;
use crate::text::{Part, Value};
use crate::words::{is_type, is_word, word_in};
use std::alloc::{AllocError, Global};

#[tactic(auto, unfolding(crate::specs::Words::is_in_part))]
fn is_in_part(b: u8) -> bool
    ensures { result ≡ is_in_part b }
{
    b != b','
}

/// How many bytes stand in front of the first comma.
fn part_in(bytes: &[u8]) -> usize
    ensures { result ≡ part_in bytes.now }
{
    bytes.iter().take_while(|b| is_in_part(**b)).count()
}

/// The parts of a word between its commas, in place of those that are there.
fn split_parts<'a>(parts: &mut Vec<&'a [u8]>, word: &'a [u8]) -> Result<(), AllocError>
    ensures { OnOk result (map (λ w. w.now) parts.new.items ≡ parts_of word.entry.now) }
{
    parts.clear();
    let mut rest = word;
    let mut end = part_in(rest);
    while end < rest.len() {
        let (front, behind) = rest.split_at(end);
        parts.push(front)?;
        rest = &behind[1..];
        end = part_in(rest);
    }
    parts.push(rest)?;
    Ok(())
}

#[tactic(auto, unfolding(crate::specs::Words::is_in_type))]
fn is_in_type(b: u8) -> bool
    ensures { result ≡ is_in_type b }
{
    b != b'!'
}

/// How many bytes stand in front of the first exclamation mark.
fn type_in(bytes: &[u8]) -> usize
    ensures { result ≡ type_in bytes.now }
{
    bytes.iter().take_while(|b| is_in_type(**b)).count()
}

/// The element of this type with the number that a word is.
fn element_in<'a>(t: &'a [u8], number: &[u8]) -> Option<Part<'a>>
    ensures { option_map part_of result ≡ then_ (integer number.now) (λ k. when (spell.is_type t.entry.now) (AtElement t.entry.now k)) }
{
    let number = integer(number)?;
    if is_type(t) {
        Some(Part::Element(t, number))
    } else {
        None
    }
}

/// A number, or an element, by what stands in front of an exclamation mark and what stands from there on.
fn marked_in<'a>(t: &'a [u8], behind: &[u8]) -> Option<Part<'a>>
    ensures { option_map part_of result ≡ marked_in t.entry.now behind.now }
{
    match behind {
        [] => Some(Part::Number(integer(t)?)),
        [_, number @ ..] => element_in(t, number),
    }
}

/// The part of an index that a word is.
fn part_of_index<'a>(word: &'a [u8]) -> Option<Part<'a>>
    ensures { option_map part_of result ≡ machine.part_in word.entry.now }
{
    let (front, behind) = word.split_at(type_in(word));
    marked_in(front, behind)
}

fn as_value(part: Part<'_>) -> Value<'_>
    ensures { value_of result ≡ as_value (part_of part.entry) }
{
    match part {
        Part::Number(k) => Value::Number(k),
        Part::Element(t, k) => Value::Element(t, k),
    }
}

/// The value, no map, that a word is.
fn value_in<'a>(word: &'a [u8]) -> Option<Value<'a>>
    ensures { option_map value_of result ≡ value_in word.entry.now }
{
    if is_word(word, b"true") {
        Some(Value::Truth(true))
    } else if is_word(word, b"false") {
        Some(Value::Truth(false))
    } else {
        Some(as_value(part_of_index(word)?))
    }
}

/// The parts that words are.
fn index_in<'a>(alloc: Global, words: &[&'a [u8]]) -> Result<Option<Vec<Part<'a>>>, AllocError>
    ensures { IfOk result (λ o. option_map (λ v. map part_of v.items) o ≡ index_in (map (λ w. w.now) words.entry.now)) }
{
    let mut made = Vec::with_capacity(alloc, words.len())?;
    for word in words {
        let Some(part) = part_of_index(word) else {
            return Ok(None);
        };
        made.push(part)?;
    }
    Ok(Some(made))
}

/// An index, and what stands from the first space on.
pub(crate) fn index_from<'a>(
    alloc: Global,
    bytes: &'a [u8],
) -> Result<Option<(Vec<Part<'a>>, &'a [u8])>, AllocError>
    ensures { IfOk result (λ o. option_map index_got o ≡ index_from bytes.entry.now) }
{
    let (word, rest) = bytes.split_at(word_in(bytes));
    let mut parts = Vec::new(alloc);
    split_parts(&mut parts, word)?;
    match index_in(alloc, &parts)? {
        None => Ok(None),
        Some(index) => Ok(Some((index, rest))),
    }
}

#[tactic(auto, unfolding(crate::specs::Words::is_in_value))]
fn is_in_value(b: u8) -> bool
    ensures { result ≡ is_in_value b }
{
    b != b' ' && (b != b',' && b != b']')
}

/// How many bytes stand in front of the first space, comma or closing bracket.
fn value_end(bytes: &[u8]) -> usize
    ensures { result ≡ value_end bytes.now }
{
    bytes.iter().take_while(|b| is_in_value(**b)).count()
}

/// A value that is no map, and what stands behind it.
pub(crate) fn plain_from<'a>(bytes: &'a [u8]) -> Option<(Value<'a>, &'a [u8])>
    ensures { option_map value_got result ≡ plain_from bytes.entry.now }
{
    let (word, rest) = bytes.split_at(value_end(bytes));
    Some((value_in(word)?, rest))
}
