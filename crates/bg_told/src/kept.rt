//! What is kept of a place that is left unknown.
ghost use Rattle.std.specs.Prelude.{◌≡◌, ◌++◌, OnOk};
ghost use Rattle.bg_check.specs.Kept.{told_kept};
ghost use Rattle.bg_told.specs.Kept.{operator_text, operation_text, why_text, kept_text, kept_line, cause_text};

use crate::put::put_integer;
use bg_base::{Op, OutOfRange};
use bg_check::Kept;
use bg_lines::put_number;
use std::alloc::AllocError;

fn put_operator(out: &mut Vec<u8>, op: Op) -> Result<(), AllocError>
    ensures { OnOk result (out.new.items ≡ out.old.items ++ operator_text op) }
{
    match op {
        Op::Plus => out.extend_from_slice(b"+"),
        Op::Minus => out.extend_from_slice(b"-"),
        Op::Times => out.extend_from_slice(b"*"),
        Op::Negate => out.extend_from_slice(b"neg"),
    }
}

/// An operation, then its operands.
fn put_operation(out: &mut Vec<u8>, operation: OutOfRange) -> Result<(), AllocError>
    ensures { OnOk result (out.new.items ≡ out.old.items ++ operation_text operation) }
{
    put_operator(out, operation.op)?;
    out.push(b' ')?;
    put_integer(out, operation.a)?;
    out.push(b' ')?;
    put_integer(out, operation.b)
}

/// The cause's word.
pub fn put_cause_word(out: &mut Vec<u8>, kept: Kept) -> Result<(), AllocError>
    ensures { OnOk result (out.new.items ≡ out.old.items ++ why_text (told_kept kept)) }
{
    match kept {
        Kept::Nodes(_) => out.extend_from_slice(b"nodes"),
        Kept::Rows(_) => out.extend_from_slice(b"rows"),
        Kept::Range(_) => out.extend_from_slice(b"range"),
    }
}

/// What is kept of a cause.
fn put_kept(out: &mut Vec<u8>, kept: Kept) -> Result<(), AllocError>
    ensures { OnOk result (out.new.items ≡ out.old.items ++ kept_text (told_kept kept)) }
{
    match kept {
        Kept::Nodes(n) => put_number(out, n),
        Kept::Rows(n) => put_number(out, n),
        Kept::Range(operation) => put_operation(out, operation),
    }
}

/// The line of what is kept.
pub fn put_kept_line(out: &mut Vec<u8>, kept: Kept) -> Result<(), AllocError>
    ensures { OnOk result (out.new.items ≡ out.old.items ++ kept_line (told_kept kept)) }
{
    out.extend_from_slice(b"    kept ")?;
    put_kept(out, kept)?;
    out.extend_from_slice(b"\n")
}

/// The cause's word, and in the next line what is kept.
pub fn put_cause(out: &mut Vec<u8>, kept: Kept) -> Result<(), AllocError>
    ensures { OnOk result (out.new.items ≡ out.old.items ++ cause_text (told_kept kept)) }
{
    out.push(b' ')?;
    put_cause_word(out, kept)?;
    out.push(b'\n')?;
    put_kept_line(out, kept)
}
