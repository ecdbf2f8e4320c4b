//! Forms of which each number is changed.
ghost use Rattle.std.specs.Prelude.{◌≡◌, ◌∷◌, ◌++◌, []};
ghost use Rattle.bg_rows.specs.Rows.{Told, after, put};
ghost use Rattle.bg_linear.specs.Lins.{each, throughout};
ghost use Rattle.bg_linear.specs.Views.{lin_of, changing};

use crate::lin::Lin;
use bg_base::{OutOfRange, mul, neg};
use bg_rows::{Entry, Refused};
use std::alloc::Global;

/// What is done to a number: it is negated, or taken times another that stands on its left or on its right.
#[derive(Clone, Copy, PartialEq, Eq, Debug)]
pub enum Change {
    Negated,
    TimesLeft(i128),
    TimesRight(i128),
}

fn changed(how: Change, c: i128) -> Result<i128, OutOfRange>
    ensures { result ≡ changing how c }
{
    match how {
        Change::Negated => neg(c),
        Change::TimesLeft(k) => mul(k, c),
        Change::TimesRight(k) => mul(c, k),
    }
}

/// An entry behind those made, unless it is zero.
fn push_entry(made: &mut Vec<Entry>, variable: u32, by: i128) -> Result<(), Refused>
    ensures { Told (λ _. made.new.items) result (Ok (made.old.items ++ put variable by [])) }
{
    if by != 0 {
        made.push(Entry { variable, by })?;
    }
    Ok(())
}

/// A changed entry, behind those made.
fn push_changed(made: &mut Vec<Entry>, how: Change, t: &Entry) -> Result<(), Refused>
    ensures { Told (λ _. made.new.items) result (after made.old.items (each (changing how) (t.now ∷ []))) }
{
    let c = changed(how, t.by)?;
    push_entry(made, t.variable, c)
}

/// Each coefficient changed.
fn each(alloc: Global, how: Change, entries: &[Entry]) -> Result<Vec<Entry>, Refused>
    ensures { Told (λ v. v.items) result (each (changing how) entries.now) }
{
    let mut made = Vec::new(alloc);
    for t in entries {
        push_changed(&mut made, how, t)?;
    }
    Ok(made)
}

/// Each number of a form changed: the coefficients, then the constant. Refused at the first operation that leaves the range.
#[tactic(auto, using(crate::proofs::Normal::each_stay))]
pub fn throughout(alloc: Global, how: Change, f: &Lin) -> Result<Lin, Refused>
    ensures { Told lin_of result (throughout (changing how) (lin_of f.now)) }
{
    let entries = each(alloc, how, &f.entries)?;
    let constant = changed(how, f.constant)?;
    Ok(Lin { entries, constant })
}
