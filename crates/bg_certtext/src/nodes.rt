//! Nodes that are read.
ghost use Rattle.std.specs.Prelude.{◌≡◌, map, IfOk, option_map};
ghost use Rattle.bg_certtext.specs.Machine.{node_in, plain_in};
ghost use Rattle.bg_certtext.specs.Views.{node_of};

use crate::parts::{literals_in, name_in, one, with_sign};
use crate::text::TextNode;
use crate::words::is_word;
use std::alloc::{AllocError, Global};

/// A node whose line has no list.
fn plain_in<'a>(key: &[u8], rest: &[&'a [u8]]) -> Option<TextNode<'a>>
    ensures { option_map node_of result ≡ plain_in key.now (map (λ w. w.now) rest.entry.now) }
{
    if is_word(key, b"split") {
        Some(TextNode::Split(one(rest)?))
    } else if is_word(key, b"bound") {
        let (x, k) = with_sign(rest)?;
        Some(TextNode::Bound(x, k))
    } else if is_word(key, b"cut") {
        Some(TextNode::Cut(one(rest)?))
    } else if is_word(key, b"clause") {
        Some(TextNode::Clause(one(rest)?))
    } else if is_word(key, b"unit") {
        Some(TextNode::Unit(name_in(rest)?))
    } else if is_word(key, b"known") {
        Some(TextNode::Known(one(rest)?))
    } else {
        None
    }
}

/// A node that no steps follow.
pub(crate) fn node_in<'a>(
    alloc: Global,
    words: &[&'a [u8]],
) -> Result<Option<TextNode<'a>>, AllocError>
    ensures { IfOk result (λ o. option_map node_of o ≡ node_in (map (λ w. w.now) words.entry.now)) }
{
    let [key, rest @ ..] = words else {
        return Ok(None);
    };
    if !is_word(key, b"lemma") {
        return Ok(plain_in(key, rest));
    }
    match literals_in(alloc, rest)? {
        Some(literals) => Ok(Some(TextNode::Lemma(literals))),
        None => Ok(None),
    }
}
