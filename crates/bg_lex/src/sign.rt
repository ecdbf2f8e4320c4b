//! Signs.
ghost use Rattle.std.specs.Prelude.{◌≡◌, ◌≤◌, length, None, Some, IfSome};
ghost use Rattle.bg_text.specs.declared.token.Kind.TheVariants as kinds;
ghost use Rattle.bg_lex.specs.Signs.{one, sign_at, sign_in, colon_signs, equals_signs, less_signs, greater_signs, bang_signs, ampersand_signs, bar_signs, plus_signs, star_signs};

use bg_text::Kind;

/// A sign in front, with its length; without a kind it is reserved.
#[derive(Drop)]
pub(crate) struct Sign {
    pub(crate) kind: Option<Kind>,
    pub(crate) len: usize,
}

fn one(kind: Option<Kind>) -> Option<Sign>
    ensures { result ≡ one kind }
{
    Some(Sign { kind, len: 1 })
}

fn colon(bytes: &[u8]) -> Option<Sign>
    ensures { result ≡ sign_in colon_signs (one (Some kinds.Colon)) bytes.now }
{
    if bytes.starts_with(b":=".as_slice()) {
        Some(Sign {
            kind: Some(Kind::Becomes),
            len: 2,
        })
    } else if bytes.starts_with(b"::".as_slice()) {
        Some(Sign { kind: None, len: 2 })
    } else {
        one(Some(Kind::Colon))
    }
}

fn equals(bytes: &[u8]) -> Option<Sign>
    ensures { result ≡ sign_in equals_signs (one (Some kinds.Sets)) bytes.now }
{
    if bytes.starts_with(b"==>".as_slice()) {
        Some(Sign {
            kind: Some(Kind::Implies),
            len: 3,
        })
    } else if bytes.starts_with(b"==".as_slice()) {
        Some(Sign {
            kind: Some(Kind::Equal),
            len: 2,
        })
    } else {
        one(Some(Kind::Sets))
    }
}

fn less(bytes: &[u8]) -> Option<Sign>
    ensures { result ≡ sign_in less_signs (one (Some kinds.Less)) bytes.now }
{
    if bytes.starts_with(b"<==>".as_slice()) {
        Some(Sign {
            kind: Some(Kind::Iff),
            len: 4,
        })
    } else if bytes.starts_with(b"<==".as_slice()) {
        Some(Sign {
            kind: Some(Kind::Explies),
            len: 3,
        })
    } else if bytes.starts_with(b"<=".as_slice()) {
        Some(Sign {
            kind: Some(Kind::AtMost),
            len: 2,
        })
    } else if bytes.starts_with(b"<:".as_slice()) {
        Some(Sign { kind: None, len: 2 })
    } else {
        one(Some(Kind::Less))
    }
}

fn greater(bytes: &[u8]) -> Option<Sign>
    ensures { result ≡ sign_in greater_signs (one (Some kinds.Greater)) bytes.now }
{
    if bytes.starts_with(b">=".as_slice()) {
        Some(Sign {
            kind: Some(Kind::AtLeast),
            len: 2,
        })
    } else {
        one(Some(Kind::Greater))
    }
}

fn bang(bytes: &[u8]) -> Option<Sign>
    ensures { result ≡ sign_in bang_signs (one (Some kinds.Not)) bytes.now }
{
    if bytes.starts_with(b"!=".as_slice()) {
        Some(Sign {
            kind: Some(Kind::Unequal),
            len: 2,
        })
    } else {
        one(Some(Kind::Not))
    }
}

fn ampersand(bytes: &[u8]) -> Option<Sign>
    ensures { result ≡ sign_in ampersand_signs None bytes.now }
{
    if bytes.starts_with(b"&&".as_slice()) {
        Some(Sign {
            kind: Some(Kind::And),
            len: 2,
        })
    } else {
        None
    }
}

fn bar(bytes: &[u8]) -> Option<Sign>
    ensures { result ≡ sign_in bar_signs None bytes.now }
{
    if bytes.starts_with(b"||".as_slice()) {
        Some(Sign {
            kind: Some(Kind::Or),
            len: 2,
        })
    } else {
        None
    }
}

fn plus(bytes: &[u8]) -> Option<Sign>
    ensures { result ≡ sign_in plus_signs (one (Some kinds.Plus)) bytes.now }
{
    if bytes.starts_with(b"++".as_slice()) {
        Some(Sign { kind: None, len: 2 })
    } else {
        one(Some(Kind::Plus))
    }
}

fn star(bytes: &[u8]) -> Option<Sign>
    ensures { result ≡ sign_in star_signs (one (Some kinds.Times)) bytes.now }
{
    if bytes.starts_with(b"**".as_slice()) {
        Some(Sign { kind: None, len: 2 })
    } else {
        one(Some(Kind::Times))
    }
}

/// The longest sign in front, reserved or not.
pub(crate) fn sign_at(bytes: &[u8]) -> Option<Sign>
    ensures sign { result ≡ sign_at bytes.now }
    ensures within { IfSome result (λ s. s.len ≤ length bytes.now) }
{
    let [first, ..] = bytes else {
        return None;
    };
    match *first {
        b'(' => one(Some(Kind::Open)),
        b')' => one(Some(Kind::Close)),
        b'[' => one(Some(Kind::OpenBracket)),
        b']' => one(Some(Kind::CloseBracket)),
        b'{' => one(Some(Kind::OpenBrace)),
        b'}' => one(Some(Kind::CloseBrace)),
        b',' => one(Some(Kind::Comma)),
        b';' => one(Some(Kind::Semicolon)),
        b'-' => one(Some(Kind::Minus)),
        b'%' => one(None),
        b'\\' => one(None),
        b':' => colon(bytes),
        b'=' => equals(bytes),
        b'<' => less(bytes),
        b'>' => greater(bytes),
        b'!' => bang(bytes),
        b'&' => ampersand(bytes),
        b'|' => bar(bytes),
        b'+' => plus(bytes),
        b'*' => star(bytes),
        _ => None,
    }
}
