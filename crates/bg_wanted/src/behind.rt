//! The values behind the scalars of incarnations and terms.
ghost use Rattle.std.specs.Prelude.{◌≡◌, ◌<◌, List, length, slice_get, IfOk};
ghost use Rattle.bg_ast.specs.Syntax.{Fun};
ghost use Rattle.bg_terms.specs.Built.{built};
ghost use Rattle.bg_terms.specs.Typed.{types_with};
ghost use Rattle.bg_numbered.specs.Put.{ty_or};
ghost use Rattle.bg_term_table.specs.Views.{terms_in, incs_of, GiveThese};
ghost use Rattle.bg_scalar.specs.declared.scalar.Scalar as kept;
ghost use Rattle.bg_scalar.specs.Values.{val_of, value_of};
ghost use Rattle.bg_scalar.specs.Views.{vals_in};
ghost use Rattle.bg_wanted.specs.Scalars.{scalars_in};
ghost use Rattle.bg_wanted.specs.Asked.{IsLooked};
ghost use Rattle.bg_wanted.specs.Answers.{AreBehind};

use crate::class::number;
use crate::looked::Looked;
use crate::tables::{built, built_map};
use bg_scalar::{Scalar, Value};
use bg_term_table::{Around, Seen, read_type};
use std::alloc::{AllocError, Global};

/// What stands behind the scalar of the incarnation or the term with this number.
fn value_behind(
    alloc: Global,
    around: Around<'_>,
    looked: Looked<'_>,
    j: u32,
    scalar: Scalar,
) -> Result<Value, AllocError>
    ensures { IfOk result (λ made. (fs : List Fun) (values : List kept.Scalar) → GiveThese fs around.entry → IsLooked fs (incs_of around.entry) values looked.entry → value_of made ≡ built (scalars_in values) (length (incs_of around.entry)) (terms_in fs looked.entry.terms.now) (ty_or (slice_get (types_with (incs_of around.entry) (terms_in fs looked.entry.terms.now)) j)) (val_of scalar)) }
{
    match read_type(around, looked.terms, j) {
        Seen::Whole(t) => built(alloc, looked, t, scalar),
        Seen::Map(keys, gives) => built_map(alloc, looked, keys, gives, scalar),
    }
}

/// What stands behind the scalars of all incarnations and terms.
pub fn values_behind(
    alloc: Global,
    around: Around<'_>,
    looked: Looked<'_>,
    scalars: &[Scalar],
) -> Result<Vec<Value>, AllocError>
    ensures { IfOk result (λ made. (fs : List Fun) → GiveThese fs around.entry → IsLooked fs (incs_of around.entry) scalars.now looked.entry → length scalars.now ≡ length (types_with (incs_of around.entry) (terms_in fs looked.entry.terms.now)) → AreBehind (incs_of around.entry) (terms_in fs looked.entry.terms.now) (scalars_in scalars.now) (vals_in made.items)) }
{
    let mut made = Vec::new(alloc);
    let mut j = 0;
    while j < scalars.len() {
        let place = number(j)?;
        let value = value_behind(alloc, around, looked, place, scalars[j])?;
        made.push(value)?;
        j += 1;
    }
    Ok(made)
}
