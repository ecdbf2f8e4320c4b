//! What expressions are worth.
ghost use Rattle.std.specs.Prelude.{◌≡◌, IfOk};
ghost use Rattle.bg_scalar.specs.Values.{value_of};
ghost use Rattle.bg_scalar.specs.Views.{lent_in, found_in, worth_in, truth_in};

use crate::scalar::Scalar;
use crate::value::{Value, copy};
use bg_base::OutOfRange;
use std::alloc::{AllocError, Global};

/// A value that is kept elsewhere, or one that was made.
#[derive(Drop)]
pub enum Lent<'a> {
    Kept(&'a Value),
    Made(Value),
}

/// A value that is kept elsewhere; or what is wrong.
#[derive(Clone, Copy)]
pub enum Found<'a> {
    Is(&'a Value),
    Leaves(OutOfRange),
    NoValue,
}

/// What an expression is worth: a value; none, since this operation leaves 128 bits, the first that does; or none, since something in it
/// has another type than it should.
#[derive(Drop)]
pub enum Worth<'a> {
    Is(Lent<'a>),
    Leaves(OutOfRange),
    NoValue,
}

/// What a list of expressions is worth: values; or what comes first, an operation that leaves the range or what has no value.
#[derive(Drop)]
pub enum ListWorth {
    Are(Vec<Value>),
    Leave(OutOfRange),
    NoValues,
}

/// The same as a worth.
pub fn as_worth<'a>(x: Found<'a>) -> Worth<'a>
    ensures { worth_in result ≡ found_in x.entry }
{
    match x {
        Found::Is(v) => Worth::Is(Lent::Kept(v)),
        Found::Leaves(o) => Worth::Leaves(o),
        Found::NoValue => Worth::NoValue,
    }
}

/// The value.
pub fn shown<'a>(x: &'a Lent<'_>) -> &'a Value
    ensures { value_of result.now ≡ lent_in x.now }
{
    match x {
        Lent::Kept(v) => v,
        Lent::Made(v) => v,
    }
}

/// The value, as one's own: a copy of one that is kept elsewhere.
pub fn owned(alloc: Global, x: Lent<'_>) -> Result<Value, AllocError>
    ensures { IfOk result (λ v. value_of v ≡ lent_in x.entry) }
{
    match x {
        Lent::Kept(v) => copy(alloc, v),
        Lent::Made(v) => Ok(v),
    }
}

/// The truth value, if it is one.
#[tactic(auto, using(crate::proofs::Operands::map_has_no_truth))]
fn truth_of(v: &Value) -> Option<bool>
    ensures { result ≡ truth_in (value_of v.now) }
{
    match v {
        Value::Plain(Scalar::Truth(b)) => Some(*b),
        Value::Plain(Scalar::Number(_)) => None,
        Value::Plain(Scalar::Element(_, _)) => None,
        Value::Map(_, _) => None,
    }
}

/// The truth value, if it is one.
pub fn truth(x: &Lent<'_>) -> Option<bool>
    ensures { result ≡ truth_in (lent_in x.now) }
{
    truth_of(shown(x))
}
