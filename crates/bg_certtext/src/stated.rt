//! Lines of terms and instances, read and written.
ghost use Rattle.std.specs.Prelude.{◌≡◌, ◌++◌, ◌∷◌, [], OnOk, map, flat_map};
ghost use Rattle.std.specs.Fmt.{decimal};
ghost use Rattle.bg_certtext.specs.Lines.{line};
ghost use Rattle.bg_certtext.specs.Texts.{stated_words};
ghost use Rattle.bg_certtext.specs.Machine.{triple_in, instance_in, stated_in};
ghost use Rattle.bg_certtext.specs.declared.text.Stated.TheVariants as said;

use crate::numeral::natural;
use crate::parts::two;
use crate::put::put_number;
use crate::text::Stated;
use crate::words::is_word;
use std::alloc::AllocError;

/// An instance of three numbers.
fn elsewhere_in(words: &[&[u8]]) -> Option<Stated>
    ensures { result ≡ triple_in said.Elsewhere (map (λ w. w.now) words.now) }
{
    match words {
        [a, b, c] => Some(Stated::Elsewhere(natural(a)?, natural(b)?, natural(c)?)),
        _ => None,
    }
}

/// An instance, by the words behind the first one.
fn instance_in(words: &[&[u8]]) -> Option<Stated>
    ensures { result ≡ instance_in (map (λ w. w.now) words.now) }
{
    let [key, rest @ ..] = words else {
        return None;
    };
    if is_word(key, b"c") {
        let (a, b) = two(rest)?;
        Some(Stated::Congruent(a, b))
    } else if is_word(key, b"s") {
        let (u, a) = two(rest)?;
        Some(Stated::AtIndex(u, a))
    } else if is_word(key, b"d") {
        elsewhere_in(rest)
    } else if is_word(key, b"x") {
        let (a, b) = two(rest)?;
        Some(Stated::Apart(a, b))
    } else {
        None
    }
}

/// A line of terms and instances.
pub(crate) fn stated_in(words: &[&[u8]]) -> Option<Stated>
    ensures { result ≡ stated_in (map (λ w. w.now) words.now) }
{
    let [key, rest @ ..] = words else {
        return None;
    };
    if is_word(key, b"inst") {
        instance_in(rest)
    } else if is_word(key, b"pick") {
        let (m, a) = two(rest)?;
        Some(Stated::Pick(m, a))
    } else if is_word(key, b"names") {
        let (m, n) = two(rest)?;
        Some(Stated::Names(m, n))
    } else if is_word(key, b"apart") {
        let (a, b) = two(rest)?;
        Some(Stated::Unequal(a, b))
    } else {
        None
    }
}

/// A line of a word and two numbers.
pub(crate) fn put_two(out: &mut Vec<u8>, key: &[u8], a: u128, b: u128) -> Result<(), AllocError>
    ensures { OnOk result (out.new.items ≡ out.old.items ++ line (key.now ∷ decimal a ∷ decimal b ∷ [])) }
{
    out.extend_from_slice(key)?;
    put_number(out, a)?;
    put_number(out, b)?;
    out.extend_from_slice(b"\n")
}

/// A line of a word and three numbers.
fn put_three(out: &mut Vec<u8>, key: &[u8], a: u128, b: u128, c: u128) -> Result<(), AllocError>
    ensures { OnOk result (out.new.items ≡ out.old.items ++ line (key.now ∷ decimal a ∷ decimal b ∷ decimal c ∷ [])) }
{
    out.extend_from_slice(key)?;
    put_number(out, a)?;
    put_number(out, b)?;
    put_number(out, c)?;
    out.extend_from_slice(b"\n")
}

/// A line of terms and instances.
fn put_one(out: &mut Vec<u8>, stated: Stated) -> Result<(), AllocError>
    ensures { OnOk result (out.new.items ≡ out.old.items ++ line (stated_words stated)) }
{
    match stated {
        Stated::Pick(m, a) => put_two(out, b"pick", m, a),
        Stated::Names(m, n) => put_two(out, b"names", m, n),
        Stated::Congruent(a, b) => put_two(out, b"inst c", a, b),
        Stated::AtIndex(u, a) => put_two(out, b"inst s", u, a),
        Stated::Elsewhere(u, a, b) => put_three(out, b"inst d", u, a, b),
        Stated::Apart(a, b) => put_two(out, b"inst x", a, b),
        Stated::Unequal(a, b) => put_two(out, b"apart", a, b),
    }
}

/// The lines of terms and instances.
pub(crate) fn put_stated(out: &mut Vec<u8>, stated: &[Stated]) -> Result<(), AllocError>
    ensures { OnOk result (out.new.items ≡ out.old.items ++ flat_map line (map stated_words stated.now)) }
{
    for one in stated {
        put_one(out, *one)?;
    }
    Ok(())
}
