//! Numbers and positions.
ghost use Rattle.std.specs.Prelude.{◌≡◌, ◌++◌, OnOk};
ghost use Rattle.std.specs.Fmt.{decimal};
ghost use Rattle.bg_lines.specs.Lines.{position_text};

use bg_base::Pos;
use itoa::Buffer;
use std::alloc::AllocError;

/// A number in decimal digits.
pub fn put_number(out: &mut Vec<u8>, n: u128) -> Result<(), AllocError>
    ensures { OnOk result (out.new.items ≡ out.old.items ++ decimal n) }
{
    let mut buffer = Buffer::new();
    out.extend_from_slice(buffer.format(n).as_bytes())
}

/// A position as `line:column`, both from 1.
pub fn put_position(out: &mut Vec<u8>, pos: Pos) -> Result<(), AllocError>
    ensures { OnOk result (out.new.items ≡ out.old.items ++ position_text pos) }
{
    put_number(out, u128::from(pos.line))?;
    out.push(b':')?;
    put_number(out, u128::from(pos.column))
}
