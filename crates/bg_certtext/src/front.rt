//! The lines in front of the places.
ghost use Rattle.std.specs.Prelude.{◌≡◌, ◌++◌, OnOk, map, flat_map, option_map};
ghost use Rattle.bg_certtext.specs.Lines.{line};
ghost use Rattle.bg_certtext.specs.Texts.{given_words, interp_lines, retain_words};
ghost use Rattle.bg_certtext.specs.Views.{given_of, interp_of};

use crate::functions::{put_functions, put_value};
use crate::put::{put_line, put_pair, put_word};
use crate::text::{Given, Interp};
use std::alloc::AllocError;

/// The line of a constant.
fn put_given(out: &mut Vec<u8>, given: &Given<'_>) -> Result<(), AllocError>
    ensures { OnOk result (out.new.items ≡ out.old.items ++ line (given_words (given_of given.now))) }
{
    out.extend_from_slice(b"const")?;
    put_word(out, given.name)?;
    out.extend_from_slice(b" ")?;
    put_value(out, &given.value)?;
    out.push(b'\n')?;
    Ok(())
}

fn put_givens(out: &mut Vec<u8>, givens: &[Given<'_>]) -> Result<(), AllocError>
    ensures { OnOk result (out.new.items ≡ out.old.items ++ flat_map line (map given_words (map given_of givens.now))) }
{
    for given in givens {
        put_given(out, given)?;
    }
    Ok(())
}

/// The lines of an interpretation, or the one that says there is none.
pub(crate) fn put_interp(out: &mut Vec<u8>, interp: &Option<Interp<'_>>) -> Result<(), AllocError>
    ensures { OnOk result (out.new.items ≡ out.old.items ++ flat_map line (interp_lines (option_map interp_of interp.now))) }
{
    match interp {
        None => put_pair(out, b"no", b"interp"),
        Some(interp) => {
            put_line(out, b"interp")?;
            put_givens(out, &interp.constants)?;
            put_functions(out, &interp.functions)
        }
    }
}

/// The lines of the retained candidates.
pub(crate) fn put_retained(out: &mut Vec<u8>, names: &[&[u8]]) -> Result<(), AllocError>
    ensures { OnOk result (out.new.items ≡ out.old.items ++ flat_map line (map retain_words (map (λ name. name.now) names.now))) }
{
    for name in names {
        put_pair(out, b"retain", name)?;
    }
    Ok(())
}
