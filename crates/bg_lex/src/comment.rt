//! Comments that nest.
ghost use Rattle.std.specs.Prelude.{◌≡◌, ◌≤◌, ◌<◌, ◌^◌, length, IfSome};
ghost use Rattle.bg_lex.specs.Ends.{begun_by, comment_step, comment_end};

/// What the byte before may begin.
#[derive(Clone, Copy, PartialEq, Eq)]
pub(crate) enum Half {
    Nothing,
    Opening,
    Closing,
}

/// Where a comment stands behind a byte: how many more than one are open, and what the byte may begin.
#[derive(Clone, Copy)]
pub(crate) struct Inside {
    depth: usize,
    half: Half,
}

fn begun_by(b: u8) -> Half
    ensures { result ≡ begun_by b }
{
    if b == b'/' {
        Half::Opening
    } else if b == b'*' {
        Half::Closing
    } else {
        Half::Nothing
    }
}

/// The next place in a comment, or nothing where the byte closes the outermost one.
fn comment_step(inside: Inside, b: u8) -> Option<Inside>
    requires { inside.depth < 2 ^ 63 }
    ensures { result ≡ comment_step inside b }
{
    let Inside { depth, half } = inside;
    if half == Half::Opening && b == b'*' {
        Some(Inside {
            depth: depth + 1,
            half: Half::Nothing,
        })
    } else if half == Half::Closing && b == b'/' {
        if depth == 0 {
            None
        } else {
            Some(Inside {
                depth: depth - 1,
                half: Half::Nothing,
            })
        }
    } else {
        Some(Inside {
            depth,
            half: begun_by(b),
        })
    }
}

/// How many bytes a comment has from behind its opening on, its closing included, where it is closed.
pub(crate) fn comment_end(bytes: &[u8]) -> Option<usize>
    ensures end { result ≡ comment_end 0 (record { depth = 0; half = Half.Nothing }) bytes.now }
    ensures within { IfSome result (λ n. n ≤ length bytes.now) }
{
    let mut inside = Inside {
        depth: 0,
        half: Half::Nothing,
    };
    for (i, b) in bytes.iter().enumerate() {
        match comment_step(inside, *b) {
            None => return Some(i + 1),
            Some(next) => inside = next,
        }
    }
    None
}
