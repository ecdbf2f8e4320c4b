//! Strings.
ghost use Rattle.std.specs.Prelude.{◌≡◌, ◌≤◌, length, false, IfSome};
ghost use Rattle.bg_lex.specs.Ends.{quote_step, quote_end};

/// What a byte of a string does.
pub(crate) enum Quoting {
    /// It ends the string.
    Ends,
    /// It may not stand there.
    Breaks,
    /// It goes on, perhaps with a byte that a backslash stands before.
    Goes(bool),
}

fn quote_step(escaped: bool, b: u8) -> Quoting
    ensures { result ≡ quote_step escaped b }
{
    if !escaped && b == b'"' {
        Quoting::Ends
    } else if !escaped && b == b'\\' {
        Quoting::Goes(true)
    } else if b == b'\n' {
        Quoting::Breaks
    } else {
        Quoting::Goes(false)
    }
}

/// How many bytes a string has from behind its first quote on, the last one included, where it ends.
pub(crate) fn quote_end(bytes: &[u8]) -> Option<usize>
    ensures end { result ≡ quote_end 0 false bytes.now }
    ensures within { IfSome result (λ n. n ≤ length bytes.now) }
{
    let mut escaped = false;
    for (i, b) in bytes.iter().enumerate() {
        match quote_step(escaped, *b) {
            Quoting::Ends => return Some(i + 1),
            Quoting::Breaks => return None,
            Quoting::Goes(next) => escaped = next,
        }
    }
    None
}
