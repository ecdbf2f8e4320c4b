//! Maps from variables to coefficients.
ghost use Rattle.std.specs.Prelude.{◌≡◌, ◌∷◌, [], true, OnOk, IfOk};
ghost use Rattle.bg_rows.specs.Entries.{coefficient, rising};
ghost use Rattle.bg_rows.specs.Rows.{Told};
ghost use Rattle.bg_linear.specs.Lins.{listed, operate, with_coefficient, joined};

use bg_base::{Op, OutOfRange, add, mul, neg, sub};
use bg_rows::{Entry, Refused};
use std::alloc::{AllocError, Global};
use std::collections::BTreeMap;

/// An operation on two numbers; a negation is one of the first.
pub fn operate(op: Op, a: i128, b: i128) -> Result<i128, OutOfRange>
    ensures { result ≡ operate op a b }
{
    match op {
        Op::Plus => add(a, b),
        Op::Minus => sub(a, b),
        Op::Times => mul(a, b),
        Op::Negate => neg(a),
    }
}

/// The coefficient of a variable.
#[tactic(auto, using(crate::proofs::Mapped::found, crate::proofs::Mapped::missing))]
fn coefficient(terms: &BTreeMap<u32, i128>, x: u32) -> i128
    ensures { result ≡ coefficient x (listed terms.now.entries) }
{
    match terms.get(&x) {
        Some(c) => *c,
        None => 0,
    }
}

/// The coefficient of a variable is this one from now on.
#[tactic(auto, using(crate::proofs::Mapped::removed, crate::proofs::Mapped::inserted))]
fn set(terms: &mut BTreeMap<u32, i128>, x: u32, c: i128) -> Result<(), AllocError>
    ensures { OnOk result (listed terms.new.entries ≡ with_coefficient x c (listed terms.old.entries)) }
{
    if c == 0 {
        terms.remove(&x);
    } else {
        terms.insert(x, c)?;
    }
    Ok(())
}

/// An operation on the coefficient of a variable.
fn put(terms: &mut BTreeMap<u32, i128>, op: Op, u: &Entry) -> Result<(), Refused>
    ensures { Told (λ _. listed terms.new.entries) result (joined op (listed terms.old.entries) (u.now ∷ [])) }
{
    let c = operate(op, coefficient(terms, u.variable), u.by)?;
    set(terms, u.variable, c)?;
    Ok(())
}

/// An operation on the coefficients of the variables of some entries.
pub fn put_all(terms: &mut BTreeMap<u32, i128>, op: Op, entries: &[Entry]) -> Result<(), Refused>
    ensures { Told (λ _. listed terms.new.entries) result (joined op (listed terms.old.entries) entries.now) }
{
    for u in entries {
        put(terms, op, u)?;
    }
    Ok(())
}

/// The map of entries whose variables rise.
#[tactic(auto, using(crate::proofs::Inserting::map_more))]
pub fn map_of(alloc: Global, entries: &[Entry]) -> Result<BTreeMap<u32, i128>, AllocError>
    requires { rising 0 entries.now ≡ true }
    ensures { IfOk result (λ terms. listed terms.entries ≡ entries.now) }
{
    let mut terms = BTreeMap::new(alloc);
    for t in entries {
        terms.insert(t.variable, t.by)?;
    }
    Ok(terms)
}

/// The entries that a map holds.
pub fn list_of(alloc: Global, terms: &BTreeMap<u32, i128>) -> Result<Vec<Entry>, AllocError>
    ensures { IfOk result (λ v. v.items ≡ listed terms.now.entries) }
{
    let mut made = Vec::new(alloc);
    for (variable, by) in terms {
        made.push(Entry {
            variable: *variable,
            by: *by,
        })?;
    }
    Ok(made)
}
