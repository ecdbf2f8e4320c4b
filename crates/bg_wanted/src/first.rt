//! The first row of each key, and congruences that are false.
ghost use Rattle.std.specs.Prelude.{◌≡◌, ◌∷◌, [], ◌++◌, if◌then◌else◌, List, length, IfOk, OnOk};
ghost use Rattle.bg_term_table.specs.declared.line.Line.TheVariants.{Congruent};
ghost use Rattle.bg_ast.specs.Values.{val_eq};
ghost use Rattle.bg_scalar.specs.Values.{val_of};
ghost use Rattle.bg_wanted.specs.Rows.{RowOf, row_of, rows_of};
ghost use Rattle.bg_wanted.specs.Firsts.{IsSoFar};

use crate::class::{Class, number};
use crate::row::Row;
use bg_scalar::Scalar;
use bg_term_table::Line;
use std::alloc::{AllocError, Global};
use std::collections::BTreeMap;

/// What makes a term, and what its arguments are worth.
pub type Key = (Class, Vec<Scalar>);

/// The place and the scalar of the first row of each key; and the congruences of each row with the first one of its key, where their
/// scalars differ.
#[derive(Drop)]
pub struct Firsts {
    pub known: BTreeMap<Key, (u32, Scalar)>,
    pub wrong: Vec<Line>,
}

/// The key of a row.
fn key(alloc: Global, row: &Row) -> Result<Key, AllocError>
    ensures class { IfOk result (λ k. k.0 ≡ row.now.class) }
    ensures args { IfOk result (λ k. k.1.items ≡ row.now.args.items) }
{
    let args = row.args.to_vec(alloc)?;
    Ok((row.class, args))
}

/// Whether two scalars are one.
pub fn is_same(x: Scalar, y: Scalar) -> bool
    ensures { result ≡ val_eq (val_of x) (val_of y) }
{
    match x {
        Scalar::Truth(a) => match y {
            Scalar::Truth(b) => a == b,
            Scalar::Number(_) => false,
            Scalar::Element(_, _) => false,
        },
        Scalar::Number(a) => match y {
            Scalar::Truth(_) => false,
            Scalar::Number(b) => a == b,
            Scalar::Element(_, _) => false,
        },
        Scalar::Element(t, a) => match y {
            Scalar::Truth(_) => false,
            Scalar::Number(_) => false,
            Scalar::Element(u, b) => t == u && a == b,
        },
    }
}

/// The congruence of these terms, unless they are the same.
fn tell(made: &mut Vec<Line>, a: u32, b: u32, same: bool) -> Result<(), AllocError>
    ensures { OnOk result (made.new.items ≡ (if same then made.old.items else made.old.items ++ Congruent a b ∷ [])) }
{
    if same {
        return Ok(());
    }
    made.push(Line::Congruent(a, b))?;
    Ok(())
}

/// Compares the row at this place with the first one that has its key, and keeps it where it is the first.
fn compare(
    alloc: Global,
    known: &mut BTreeMap<Key, (u32, Scalar)>,
    wrong: &mut Vec<Line>,
    b: u32,
    row: &Row,
) -> Result<(), AllocError>
    ensures { OnOk result ((rs : List RowOf) → length rs ≡ b → IsSoFar known.old wrong.old.items rs → IsSoFar known.new wrong.new.items (rs ++ row_of row.now ∷ [])) }
{
    let at = key(alloc, row)?;
    let first = known.get(&at).copied();
    match first {
        None => {
            known.insert(at, (b, row.value))?;
            Ok(())
        }
        Some((a, value)) => tell(wrong, a, b, is_same(value, row.value)),
    }
}

/// The first row of each key, and the rows that differ from it.
pub fn first_rows(alloc: Global, rows: &[Row]) -> Result<Firsts, AllocError>
    ensures { IfOk result (λ made. IsSoFar made.known made.wrong.items (rows_of rows.now)) }
{
    let mut known = BTreeMap::new(alloc);
    let mut wrong = Vec::new(alloc);
    let mut i = 0;
    while i < rows.len() {
        let b = number(i)?;
        compare(alloc, &mut known, &mut wrong, b, &rows[i])?;
        i += 1;
    }
    Ok(Firsts { known, wrong })
}
