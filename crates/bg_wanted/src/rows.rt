//! What the terms of a leaf come to, over the numbers and truth values that stand for values.
ghost use Rattle.std.specs.Prelude.{◌≡◌, List, true, drop, slice_get, IfOk, MatchOption};
ghost use Rattle.bg_ast.specs.Syntax.{Fun};
ghost use Rattle.bg_term_table.specs.Views.{term_of, terms_in};
ghost use Rattle.bg_scalar.specs.Worths.{is_table};
ghost use Rattle.bg_scalar.specs.Values.{val_of, value_of};
ghost use Rattle.bg_scalar.specs.Views.{vals_in};
ghost use Rattle.bg_scalar.specs.declared.scalar.Scalar as kept;
ghost use Rattle.bg_wanted.specs.Scalars.{scalars_in, has_table};
ghost use Rattle.bg_wanted.specs.Rows.{IsOne, one_with, IsRows};

use crate::class::{Class, class_of, number};
use crate::row::{One, Row, Rows};
use bg_scalar::{ListWorth, Scalar, Sight, Value, worths};
use bg_term_table::Term;
use std::alloc::{AllocError, Global};

/// The scalar of the term at a place behind so many incarnations.
fn scalar_at(values: &[Scalar], count: usize, place: usize) -> Option<Scalar>
    ensures { result ≡ slice_get (drop count values.now) place }
{
    if count > values.len() {
        return None;
    }
    values[count..].get(place).copied()
}

/// Scalars as values.
fn plain_values(alloc: Global, scalars: &[Scalar]) -> Result<Vec<Value>, AllocError>
    ensures { IfOk result (λ made. vals_in made.items ≡ scalars_in scalars.now) }
{
    let mut made = Vec::new(alloc);
    for s in scalars {
        made.push(Value::Plain(*s))?;
    }
    Ok(made)
}

/// The scalar that a value is, unless it is a map.
fn scalar_in(value: &Value) -> Option<Scalar>
    ensures { MatchOption result (is_table (value_of value.now) ≡ true) (λ s. val_of s ≡ value_of value.now) }
{
    match value {
        Value::Plain(s) => Some(*s),
        Value::Map(_, _) => None,
    }
}

/// The scalars that values are, unless one is a map.
fn plain_scalars(alloc: Global, values: &[Value]) -> Result<Option<Vec<Scalar>>, AllocError>
    ensures { IfOk result (λ made. MatchOption made (has_table (vals_in values.now) ≡ true) (λ ss. scalars_in ss.items ≡ vals_in values.now)) }
{
    let mut made = Vec::new(alloc);
    for v in values {
        match scalar_in(v) {
            None => return Ok(None),
            Some(s) => made.push(s)?,
        }
    }
    Ok(Some(made))
}

/// A term of this class with these arguments and this scalar, if it has them.
fn valued(class: Class, args: Option<Vec<Scalar>>, value: Option<Scalar>) -> One
    ensures { result ≡ one_with class args value }
{
    match args {
        None => One::NoRow,
        Some(args) => match value {
            None => One::NoRow,
            Some(value) => One::Is(Row { class, args, value }),
        },
    }
}

/// A term of this class with this scalar, if it has one, where incarnations and terms have these values.
fn row(
    alloc: Global,
    frame: &[Value],
    class: Class,
    value: Option<Scalar>,
    term: &Term,
) -> Result<One, AllocError>
    ensures { IfOk result (λ made. (fs : List Fun) (values : List kept.Scalar) → vals_in frame.now ≡ scalars_in values → IsOne values (term_of fs term.now) class value made) }
{
    let sight = Sight {
        tables: &[],
        globals: &[],
        before: &[],
        frame,
    };
    let made = worths(alloc, sight, &term.args)?;
    match made {
        ListWorth::Leave(o) => Ok(One::Leaves(o)),
        ListWorth::NoValues => Ok(One::NoRow),
        ListWorth::Are(args) => {
            let scalars = plain_scalars(alloc, &args)?;
            Ok(valued(class, scalars, value))
        }
    }
}

/// What the terms come to whose scalars stand behind those of so many incarnations.
pub fn leaf_rows(
    alloc: Global,
    count: usize,
    terms: &[Term],
    values: &[Scalar],
) -> Result<Rows, AllocError>
    ensures { IfOk result (λ made. (fs : List Fun) → IsRows values.now count (terms_in fs terms.now) made) }
{
    let frame = plain_values(alloc, values)?;
    let mut met = Vec::new(alloc);
    let mut made = Vec::new(alloc);
    let mut i = 0;
    while i < terms.len() {
        let place = number(i)?;
        let term = &terms[i];
        let made_by = class_of(&mut met, terms, place, &term.head)?;
        let one = row(alloc, &frame, made_by, scalar_at(values, count, i), term)?;
        match one {
            One::Leaves(o) => return Ok(Rows::Leave(o)),
            One::NoRow => return Ok(Rows::NoRows),
            One::Is(r) => made.push(r)?,
        }
        i += 1;
    }
    Ok(Rows::Are(made, met))
}
