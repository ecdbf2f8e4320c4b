//! Parts of a line.
ghost use Rattle.std.specs.Prelude.{◌≡◌, ◌++◌, OnOk, filter, slice_get};
ghost use Rattle.std.specs.Fmt.{signed_decimal};
ghost use Rattle.bg_told.specs.Lines.{text_or_none, is_printed, word_text};
ghost use Rattle.bg_told.specs.ValueTexts.{truth_text, element_text};
ghost use Rattle.bg_told.specs.Entries.{types_in};
ghost use Rattle.bg_told.specs.Views.{told_word};

use crate::word::Word;
use bg_ast::resolved::TypeName;
use itoa::Buffer;
use std::alloc::AllocError;

/// A whole number, with its sign.
pub fn put_integer(out: &mut Vec<u8>, n: i128) -> Result<(), AllocError>
    ensures { OnOk result (out.new.items ≡ out.old.items ++ signed_decimal n) }
{
    let mut buffer = Buffer::new();
    out.extend_from_slice(buffer.format(n).as_bytes())
}

pub fn put_truth(out: &mut Vec<u8>, value: bool) -> Result<(), AllocError>
    ensures { OnOk result (out.new.items ≡ out.old.items ++ truth_text value) }
{
    if value {
        out.extend_from_slice(b"true")
    } else {
        out.extend_from_slice(b"false")
    }
}

/// The bytes of a name that aren't below that of a space. A name in a text has no other bytes.
fn put_printed(out: &mut Vec<u8>, name: &[u8]) -> Result<(), AllocError>
    ensures { OnOk result (out.new.items ≡ out.old.items ++ filter is_printed name.now) }
{
    for b in name {
        if *b >= 32 {
            out.push(*b)?;
        }
    }
    Ok(())
}

/// The name of the type with this number, where there is one.
fn put_type(out: &mut Vec<u8>, types: &[TypeName], t: u32) -> Result<(), AllocError>
    ensures { OnOk result (out.new.items ≡ out.old.items ++ filter is_printed (text_or_none (slice_get (types_in types.now) t))) }
{
    match types.get(t as usize) {
        None => Ok(()),
        Some(d) => put_printed(out, &d.name.text),
    }
}

/// The element with a number of the type with a number, where these types are declared.
pub fn put_element(out: &mut Vec<u8>, types: &[TypeName], t: u32, z: i128) -> Result<(), AllocError>
    ensures { OnOk result (out.new.items ≡ out.old.items ++ element_text (types_in types.now) t z) }
{
    put_type(out, types, t)?;
    out.extend_from_slice(b"!")?;
    put_integer(out, z)
}

pub fn put_word(out: &mut Vec<u8>, word: Word) -> Result<(), AllocError>
    ensures { OnOk result (out.new.items ≡ out.old.items ++ word_text (told_word word)) }
{
    match word {
        Word::Verified => out.extend_from_slice(b"verified"),
        Word::Refuted => out.extend_from_slice(b"refuted"),
        Word::Unknown => out.extend_from_slice(b"unknown"),
    }
}
