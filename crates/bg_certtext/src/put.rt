//! Words and lines that are written.
ghost use Rattle.std.specs.Prelude.{◌≡◌, ◌++◌, ◌∷◌, [], OnOk};
ghost use Rattle.std.specs.Fmt.{decimal, signed_decimal};
ghost use Rattle.bg_certtext.specs.Lines.{line, behind_space};

use itoa::Buffer;
use std::alloc::AllocError;

/// A word behind a space.
pub(crate) fn put_word(out: &mut Vec<u8>, word: &[u8]) -> Result<(), AllocError>
    ensures { OnOk result (out.new.items ≡ out.old.items ++ behind_space word.now) }
{
    out.push(b' ')?;
    out.extend_from_slice(word)
}

/// A number behind a space.
pub(crate) fn put_number(out: &mut Vec<u8>, n: u128) -> Result<(), AllocError>
    ensures { OnOk result (out.new.items ≡ out.old.items ++ behind_space (decimal n)) }
{
    let mut buffer = Buffer::new();
    put_word(out, buffer.format(n).as_bytes())
}

/// A whole number behind a space.
pub(crate) fn put_integer(out: &mut Vec<u8>, n: i128) -> Result<(), AllocError>
    ensures { OnOk result (out.new.items ≡ out.old.items ++ behind_space (signed_decimal n)) }
{
    let mut buffer = Buffer::new();
    put_word(out, buffer.format(n).as_bytes())
}

/// A line of one word.
pub(crate) fn put_line(out: &mut Vec<u8>, key: &[u8]) -> Result<(), AllocError>
    ensures { OnOk result (out.new.items ≡ out.old.items ++ line (key.now ∷ [])) }
{
    out.extend_from_slice(key)?;
    out.extend_from_slice(b"\n")
}

/// A line of two words.
pub(crate) fn put_pair(out: &mut Vec<u8>, key: &[u8], word: &[u8]) -> Result<(), AllocError>
    ensures { OnOk result (out.new.items ≡ out.old.items ++ line (key.now ∷ word.now ∷ [])) }
{
    out.extend_from_slice(key)?;
    put_word(out, word)?;
    out.extend_from_slice(b"\n")
}

/// A line of a word and a number.
pub(crate) fn put_numbered(out: &mut Vec<u8>, key: &[u8], n: u128) -> Result<(), AllocError>
    ensures { OnOk result (out.new.items ≡ out.old.items ++ line (key.now ∷ decimal n ∷ [])) }
{
    let mut buffer = Buffer::new();
    put_pair(out, key, buffer.format(n).as_bytes())
}
