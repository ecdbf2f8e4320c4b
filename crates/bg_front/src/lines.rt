//! Parts of a line.
ghost use Rattle.std.specs.Prelude.{◌≡◌, ◌++◌, ◌∷◌, [], OnOk};
ghost use Rattle.std.specs.Fmt.{decimal};
ghost use Rattle.bg_front.specs.Lines.{position_text, fault_start, fault_line, limit_line};

use bg_base::Pos;
use itoa::Buffer;
use std::alloc::AllocError;

fn put_number(out: &mut Vec<u8>, n: usize) -> Result<(), AllocError>
    ensures { OnOk result (out.new.items ≡ out.old.items ++ decimal n) }
{
    let mut buffer = Buffer::new();
    out.extend_from_slice(buffer.format(n).as_bytes())
}

fn put_position(out: &mut Vec<u8>, pos: Pos) -> Result<(), AllocError>
    ensures { OnOk result (out.new.items ≡ out.old.items ++ position_text pos) }
{
    put_number(out, pos.line as usize)?;
    out.push(b':')?;
    put_number(out, pos.column as usize)
}

/// Adds what the line of a fault begins with.
pub(crate) fn put_start(out: &mut Vec<u8>, pos: Pos) -> Result<(), AllocError>
    ensures { OnOk result (out.new.items ≡ out.old.items ++ fault_start pos) }
{
    out.extend_from_slice(b"error: ")?;
    put_position(out, pos)?;
    out.extend_from_slice(b" ")
}

/// Ends the line.
pub(crate) fn put_end(out: &mut Vec<u8>) -> Result<(), AllocError>
    ensures { OnOk result (out.new.items ≡ out.old.items ++ 10 ∷ []) }
{
    out.push(b'\n')?;
    Ok(())
}

/// Adds the line of a fault with these words.
pub(crate) fn put_fault(out: &mut Vec<u8>, pos: Pos, words: &[u8]) -> Result<(), AllocError>
    ensures { OnOk result (out.new.items ≡ out.old.items ++ fault_line pos words.now) }
{
    put_start(out, pos)?;
    out.extend_from_slice(words)?;
    put_end(out)
}

/// Adds the line of a fault with this word and a name.
pub(crate) fn put_named(
    out: &mut Vec<u8>,
    pos: Pos,
    word: &[u8],
    name: &[u8],
) -> Result<(), AllocError>
    ensures { OnOk result (out.new.items ≡ out.old.items ++ fault_line pos (word.now ++ name.now)) }
{
    put_start(out, pos)?;
    out.extend_from_slice(word)?;
    out.extend_from_slice(name)?;
    put_end(out)
}

/// Adds the line of a limit with the number that exceeds it.
pub(crate) fn put_limit(out: &mut Vec<u8>, word: &[u8], number: usize) -> Result<(), AllocError>
    ensures { OnOk result (out.new.items ≡ out.old.items ++ limit_line word.now number) }
{
    out.extend_from_slice(b"error: limit ")?;
    out.extend_from_slice(word)?;
    out.extend_from_slice(b" ")?;
    put_number(out, number)?;
    put_end(out)
}
