//! What is wanted at a leaf.
ghost use Rattle.std.specs.Prelude.{◌≡◌, true, List, length, IfOk};
ghost use Rattle.bg_ast.specs.Values.{Val, Ty};
ghost use Rattle.bg_ast.specs.Syntax.{Fun};
ghost use Rattle.bg_terms.specs.Terms as meant;
ghost use Rattle.bg_terms.specs.Typed.{types_with};
ghost use Rattle.bg_numbered.specs.Indexed.{are_indexed};
ghost use Rattle.bg_term_table.specs.Lines.{lines_of};
ghost use Rattle.bg_wanted.specs.Alike.{IsAlike};
ghost use Rattle.bg_wanted.specs.Asked.{IsLooked};
ghost use Rattle.bg_wanted.specs.Chased.{IsSighted};
ghost use Rattle.bg_wanted.specs.Wanting.{IsWanting};
ghost use Rattle.bg_term_table.specs.Views.{terms_in, incs_of, GiveThese};
ghost use Rattle.bg_wanted.specs.Scalars.{scalars_in};
ghost use Rattle.bg_wanted.specs.Answers.{IsNumberLeaf, IsTold, IsAnswer, AreRowsOf};

use crate::behind::values_behind;
use crate::chased::chased;
use crate::class::number;
use crate::first::first_rows;
use crate::guessed::guessed;
use crate::hints::Hints;
use crate::looked::Looked;
use crate::maps::all_selects;
use crate::named::{named_first, names_of};
use crate::names::{Pair, alike};
use crate::row::{Row, Rows};
use crate::rows::leaf_rows;
use crate::updates::ask_all;
use crate::wants::nothing;
use crate::way::Sighted;
use bg_base::OutOfRange;
use bg_scalar::{Scalar, Value};
use bg_term_table::{Around, Line, Term};
use std::alloc::{AllocError, Global};

/// What is wanted at a leaf: nothing, as it is finished, where the terms have these rows, and these values stand behind the scalars of
/// incarnations and terms; lines, with rows and values that are guessed; or neither, since this operation of the terms' arguments, the first that does, leaves 128 bits, or since
/// something is no scalar or isn't there.
#[derive(Drop)]
pub enum Wanted {
    Nothing(Vec<Row>, Vec<Value>),
    Lines(Vec<Line>, Vec<Row>, Vec<Value>),
    Leaves(OutOfRange),
    NoScalars,
}

/// The same of what is looked at: lines, or values where nothing is wanted.
#[derive(Drop)]
pub enum Told {
    Done(Vec<Value>),
    Lines(Vec<Line>),
}

/// The names of an index at which two maps with one table differ, and that they do there, behind so many terms.
fn apart(alloc: Global, count: usize, pair: Pair) -> Result<Vec<Line>, AllocError>
    ensures { IfOk result (λ made. (incs : List Ty) (ts : List meant.Term) (s : List Val) → count ≡ length ts → are_indexed (types_with incs ts) ≡ true → IsAlike s (length incs) ts (types_with incs ts) pair → IsWanting incs ts s (lines_of made.items)) }
{
    names_of(alloc, count, pair.first, pair.second, pair.parts)
}

/// What is wanted of what is looked at, where no congruence is false.
fn of_looked(
    alloc: Global,
    around: Around<'_>,
    looked: Looked<'_>,
    values: &[Scalar],
) -> Result<Told, AllocError>
    ensures { IfOk result (λ made. (fs : List Fun) → GiveThese fs around.entry → IsNumberLeaf fs (incs_of around.entry) (terms_in fs looked.entry.terms.now) (scalars_in values.now) → IsLooked fs (incs_of around.entry) values.now looked.entry → IsTold (incs_of around.entry) (terms_in fs looked.entry.terms.now) (scalars_in values.now) made) }
{
    let mut wants = nothing(alloc, looked.terms.len())?;
    ask_all(alloc, looked, &mut wants)?;
    if !wants.made.is_empty() {
        return Ok(Told::Lines(wants.made));
    }
    let found = alike(alloc, around, looked, values)?;
    match found {
        None => {
            let made = values_behind(alloc, around, looked, values)?;
            Ok(Told::Done(made))
        }
        Some(pair) => {
            let lines = apart(alloc, looked.terms.len(), pair)?;
            Ok(Told::Lines(lines))
        }
    }
}

/// What is wanted of these rows.
fn of_rows(
    alloc: Global,
    around: Around<'_>,
    terms: &[Term],
    values: &[Scalar],
    rows: &[Row],
    met: &[u32],
) -> Result<Told, AllocError>
    ensures { IfOk result (λ made. (fs : List Fun) → GiveThese fs around.entry → IsNumberLeaf fs (incs_of around.entry) (terms_in fs terms.now) (scalars_in values.now) → AreRowsOf (incs_of around.entry) (terms_in fs terms.now) values.now rows.now met.now → IsTold (incs_of around.entry) (terms_in fs terms.now) (scalars_in values.now) made) }
{
    let firsts = first_rows(alloc, rows)?;
    if !firsts.wrong.is_empty() {
        return Ok(Told::Lines(firsts.wrong));
    }
    let selects = all_selects(alloc, rows)?;
    let count = number(around.incarnations.len())?;
    let looked = Looked {
        count,
        terms,
        rows,
        met,
        firsts: &firsts,
        selects: &selects,
    };
    of_looked(alloc, around, looked, values)
}

/// What is told first of what is wanted.
fn told_first(
    alloc: Global,
    around: Around<'_>,
    sight: Sighted<'_>,
    lines: Vec<Line>,
) -> Result<Vec<Line>, AllocError>
    ensures { IfOk result (λ made. (fs : List Fun) → GiveThese fs around.entry → are_indexed (types_with (incs_of around.entry) (terms_in fs sight.entry.terms.now)) ≡ true → IsSighted fs (incs_of around.entry) sight.entry → IsWanting (incs_of around.entry) (terms_in fs sight.entry.terms.now) (scalars_in sight.entry.values.now) (lines_of lines.items) → IsWanting (incs_of around.entry) (terms_in fs sight.entry.terms.now) (scalars_in sight.entry.values.now) (lines_of made.items)) }
{
    let first = named_first(alloc, around, sight)?;
    match first {
        Some(made) => Ok(made),
        None => chased(alloc, sight, lines),
    }
}

/// What is wanted at a leaf at which incarnations, and the terms behind them, have these scalars: congruences that are false; where none
/// is, of each update its select at its index, and its selects and those of its map at other indices, where selects there don't say what
/// they should; and where nothing of this is wanted, names of an index at which two maps differ that have one table. Where the leaf is
/// finished, the values behind the scalars: a map is what the selects from its number say, the first at an index, and else its type's
/// default.
///
/// Only want of memory is an error; 2^32 incarnations and terms count as such.
pub fn lines_wanted(
    alloc: Global,
    around: Around<'_>,
    terms: &[Term],
    values: &[Scalar],
    hints: Hints<'_>,
) -> Result<Wanted, AllocError>
    ensures { IfOk result (λ made. (fs : List Fun) → GiveThese fs around.entry → IsNumberLeaf fs (incs_of around.entry) (terms_in fs terms.now) (scalars_in values.now) → IsAnswer (incs_of around.entry) (terms_in fs terms.now) values.now made) }
{
    let all = leaf_rows(alloc, around.incarnations.len(), terms, values)?;
    match all {
        Rows::Leave(o) => Ok(Wanted::Leaves(o)),
        Rows::NoRows => Ok(Wanted::NoScalars),
        Rows::Are(rows, met) => {
            let told = of_rows(alloc, around, terms, values, &rows, &met)?;
            match told {
                Told::Lines(made) => {
                    let count = number(around.incarnations.len())?;
                    let sight = Sighted {
                        count,
                        terms,
                        values,
                        rows: &rows,
                        hints,
                    };
                    let lines = told_first(alloc, around, sight, made)?;
                    let (tried, guesses) = guessed(alloc, around, terms, values)?;
                    Ok(Wanted::Lines(lines, tried, guesses))
                }
                Told::Done(made) => Ok(Wanted::Nothing(rows, made)),
            }
        }
    }
}
