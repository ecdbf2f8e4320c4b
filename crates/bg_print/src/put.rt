//! The least parts of a text.
ghost use Rattle.std.specs.Prelude.{◌≡◌, ◌+◌, ◌++◌, OnOk, IfOk};
ghost use Rattle.std.specs.Fmt.{signed_decimal};
ghost use Rattle.bg_text.specs.Spelling.{truth_kind, infix_kind, prefix_kind};
ghost use Rattle.bg_print.specs.Docs.{word, text, gap, margin};

use bg_text::{InfixSign, PrefixSign};
use itoa::Buffer;
use std::alloc::AllocError;

pub fn put_number(out: &mut Vec<u8>, n: i128) -> Result<(), AllocError>
    ensures { OnOk result (out.new.items ≡ out.old.items ++ signed_decimal n) }
{
    let mut buffer = Buffer::new();
    out.extend_from_slice(buffer.format(n).as_bytes())
}

pub fn put_truth(out: &mut Vec<u8>, b: bool) -> Result<(), AllocError>
    ensures { OnOk result (out.new.items ≡ out.old.items ++ word (truth_kind b)) }
{
    if b {
        out.extend_from_slice(b"true")
    } else {
        out.extend_from_slice(b"false")
    }
}

pub fn put_prefix(out: &mut Vec<u8>, sign: PrefixSign) -> Result<(), AllocError>
    ensures { OnOk result (out.new.items ≡ out.old.items ++ word (prefix_kind sign)) }
{
    match sign {
        PrefixSign::Not => out.extend_from_slice(b"!"),
        PrefixSign::Minus => out.extend_from_slice(b"-"),
    }
}

pub fn put_infix(out: &mut Vec<u8>, sign: InfixSign) -> Result<(), AllocError>
    ensures { OnOk result (out.new.items ≡ out.old.items ++ word (infix_kind sign)) }
{
    match sign {
        InfixSign::Iff => out.extend_from_slice(b"<==>"),
        InfixSign::Implies => out.extend_from_slice(b"==>"),
        InfixSign::Explies => out.extend_from_slice(b"<=="),
        InfixSign::And => out.extend_from_slice(b"&&"),
        InfixSign::Or => out.extend_from_slice(b"||"),
        InfixSign::Equal => out.extend_from_slice(b"=="),
        InfixSign::Unequal => out.extend_from_slice(b"!="),
        InfixSign::Less => out.extend_from_slice(b"<"),
        InfixSign::AtMost => out.extend_from_slice(b"<="),
        InfixSign::Greater => out.extend_from_slice(b">"),
        InfixSign::AtLeast => out.extend_from_slice(b">="),
        InfixSign::Plus => out.extend_from_slice(b"+"),
        InfixSign::Minus => out.extend_from_slice(b"-"),
        InfixSign::Times => out.extend_from_slice(b"*"),
    }
}

/// What stands before a part of a list where another part stands before it.
pub fn put_gap(out: &mut Vec<u8>, behind: bool) -> Result<(), AllocError>
    ensures { OnOk result (out.new.items ≡ out.old.items ++ text (gap behind)) }
{
    if behind {
        out.extend_from_slice(b", ")
    } else {
        Ok(())
    }
}

/// So many spaces.
pub fn put_margin(out: &mut Vec<u8>, n: usize) -> Result<(), AllocError>
    ensures { OnOk result (out.new.items ≡ out.old.items ++ text (margin n)) }
{
    for i in 0..n {
        out.extend_from_slice(b" ")?;
    }
    Ok(())
}

/// Two more. No memory holds a text that is indented by more than a machine number.
pub fn deeper(n: usize) -> Result<usize, AllocError>
    ensures { IfOk result (λ m. m ≡ n + 2) }
{
    match n.checked_add(2) {
        Some(m) => Ok(m),
        None => Err(AllocError),
    }
}
