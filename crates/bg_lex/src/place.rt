//! Positions behind bytes.
ghost use Rattle.std.specs.Prelude.{◌≡◌, ◌+◌, ◌-◌, ◌<◌, ◌≤◌, ◌^◌, length};
ghost use Rattle.bg_text.specs.Text.{after_byte, after_bytes};

use bg_base::Pos;

/// The position behind a byte.
fn after_byte(b: u8, at: Pos) -> Pos
    requires line { at.line < 2 ^ 32 - 1 }
    requires column { at.column < 2 ^ 32 - 1 }
    ensures { result ≡ after_byte b at }
{
    if b == b'\n' {
        Pos {
            line: at.line + 1,
            column: 1,
        }
    } else {
        Pos {
            line: at.line,
            column: at.column + 1,
        }
    }
}

/// The position behind bytes of which the first stands at `start`.
pub(crate) fn after_bytes(bytes: &[u8], start: Pos) -> Pos
    requires line { start.line + length bytes.now < 2 ^ 32 }
    requires column { start.column + length bytes.now < 2 ^ 32 }
    ensures place { result ≡ after_bytes bytes.now start }
    ensures line { result.line ≤ start.line + length bytes.now }
    ensures column { result.column ≤ start.column + length bytes.now }
{
    let mut at = start;
    for b in bytes {
        at = after_byte(*b, at);
    }
    at
}
