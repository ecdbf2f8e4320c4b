//! Classes of bytes.
ghost use Rattle.std.specs.Prelude.{◌≡◌};
ghost use Rattle.bg_text.specs.Pieces.{is_space, is_digit, is_ident};
ghost use Rattle.bg_text.specs.Text.{begins_ident};
ghost use Rattle.bg_lex.specs.Bytes.{digits_in, word_in, line_in, is_inside_line};

#[tactic(auto, unfolding(bg_text::specs::Pieces::is_space))]
pub(crate) fn is_space(b: u8) -> bool
    ensures { result ≡ is_space b }
{
    matches!(b, b' ' | b'\t' | b'\r' | b'\n')
}

#[tactic(auto, unfolding(bg_text::specs::Pieces::is_digit))]
pub(crate) fn is_digit(b: u8) -> bool
    ensures { result ≡ is_digit b }
{
    b >= b'0' && b <= b'9'
}

/// Whether the byte may stand in an identifier.
#[tactic(auto, unfolding(bg_text::specs::Pieces::is_ident))]
pub(crate) fn is_ident(b: u8) -> bool
    ensures { result ≡ is_ident b }
{
    (b >= b'a' && b <= b'z')
        || (b >= b'A' && b <= b'Z')
        || is_digit(b)
        || matches!(
            b,
            b'\'' | b'~' | b'#' | b'$' | b'^' | b'_' | b'.' | b'?' | b'`'
        )
}

pub(crate) fn begins_ident(bytes: &[u8]) -> bool
    ensures { result ≡ begins_ident bytes.now }
{
    match bytes {
        [first, ..] => is_ident(*first),
        [] => false,
    }
}

/// How many digits stand in front.
pub(crate) fn digits_in(bytes: &[u8]) -> usize
    ensures { result ≡ digits_in bytes.now }
{
    bytes.iter().take_while(|b| is_digit(**b)).count()
}

/// How many bytes of a word stand in front.
pub(crate) fn word_in(bytes: &[u8]) -> usize
    ensures { result ≡ word_in bytes.now }
{
    bytes.iter().take_while(|b| is_ident(**b)).count()
}

#[tactic(auto, unfolding(crate::specs::Bytes::is_inside_line))]
fn is_inside_line(b: u8) -> bool
    ensures { result ≡ is_inside_line b }
{
    b != b'\n'
}

/// How many bytes stand in front of the line's end.
pub(crate) fn line_in(bytes: &[u8]) -> usize
    ensures { result ≡ line_in bytes.now }
{
    bytes.iter().take_while(|b| is_inside_line(**b)).count()
}
