//! The names of candidates.
ghost use Rattle.std.specs.Prelude.{◌≡◌, map, length, IfOk};
ghost use Rattle.bg_text.specs.Views.{id_of};
ghost use Rattle.bg_certify.specs.Names.{names_in, name_at};

use bg_base::CandId;
use bg_text::Name;
use bg_words::CandSet;
use std::alloc::{AllocError, Global};

/// The name of a candidate; none where it isn't there.
pub(crate) fn name_at<'p>(names: &'p [Name], c: u128) -> &'p [u8]
    ensures { result.now ≡ name_at (map id_of names.now) c }
{
    if c < names.len() as u128 {
        names[c as usize].text.as_slice()
    } else {
        b"".as_slice()
    }
}

/// The names of the candidates that are in the set, in order.
pub(crate) fn retained_names<'p>(
    alloc: Global,
    names: &'p [Name],
    set: &CandSet,
) -> Result<Vec<&'p [u8]>, AllocError>
    requires { length set.now ≡ length names.now }
    ensures { IfOk result (λ made. map (λ n. n.now) made.items ≡ names_in set.now (map id_of names.now)) }
{
    let mut made = Vec::new(alloc);
    for c in 0..set.declared() {
        if set.has(CandId(c)) {
            made.push(names[c as usize].text.as_slice())?;
        }
    }
    Ok(made)
}
