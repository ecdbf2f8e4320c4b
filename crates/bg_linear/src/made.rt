//! What is made of an expression so far.
ghost use Rattle.std.specs.Prelude.{◌≡◌, IfOk};
ghost use Rattle.bg_rows.specs.Rows.{Told, and_then};
ghost use Rattle.bg_linear.specs.Lins.{together, negative, product};
ghost use Rattle.bg_linear.specs.Views.{lin_of, sum_in, made_of};
ghost use Rattle.bg_linear.specs.declared.scaled.Change.TheVariants.{TimesLeft, TimesRight};
ghost use Rattle.bg_linear.specs.Chains.{sign_form, prefix_form};

use crate::leaf::number;
use crate::lin::Lin;
use crate::scaled::{Change, throughout};
use crate::sum::Sum;
use bg_base::{Op, OutOfRange};
use bg_rows::Refused;
use bg_text::{InfixSign, PrefixSign};
use std::alloc::{AllocError, Global};

/// A form, as a list or as a map, or the first operation that left the range.
#[derive(Drop)]
pub enum Made {
    Listed(Lin),
    Summed(Sum),
    Outside(OutOfRange),
}

impl Made {
    /// The form, as a list.
    pub fn list(self, alloc: Global) -> Result<Lin, Refused>
        ensures { Told lin_of result (made_of self) }
    {
        match self {
            Made::Listed(f) => Ok(f),
            Made::Summed(s) => {
                let f = s.list(alloc)?;
                Ok(f)
            }
            Made::Outside(e) => Err(Refused::Range(e)),
        }
    }

    /// The form, as a map.
    fn sum(self, alloc: Global) -> Result<Sum, Refused>
        ensures { Told sum_in result (made_of self) }
    {
        match self {
            Made::Listed(f) => {
                let s = Sum::of(alloc, &f)?;
                Ok(s)
            }
            Made::Summed(s) => Ok(s),
            Made::Outside(e) => Err(Refused::Range(e)),
        }
    }
}

/// A sum or a difference.
fn together(alloc: Global, op: Op, left: Made, right: Made) -> Result<Sum, Refused>
    ensures { Told sum_in result (and_then (made_of left) (λ f. and_then (made_of right) (λ g. together op f g))) }
{
    let f = left.sum(alloc)?;
    let g = right.list(alloc)?;
    f.join(op, &g)
}

/// Times the constant of a form that stands on the right.
fn right_of(g: &Lin) -> Change
    ensures { result ≡ TimesRight (lin_of g.now).constant }
{
    Change::TimesRight(g.constant)
}

/// Times the constant of a form that stands on the left.
fn left_of(f: &Lin) -> Change
    ensures { result ≡ TimesLeft (lin_of f.now).constant }
{
    Change::TimesLeft(f.constant)
}

/// The product of two forms, of which one is a number.
fn times(alloc: Global, f: &Lin, g: &Lin) -> Result<Lin, Refused>
    ensures { Told lin_of result (product (lin_of f.now) (lin_of g.now)) }
{
    if g.entries.is_empty() {
        throughout(alloc, right_of(g), f)
    } else {
        throughout(alloc, left_of(f), g)
    }
}

fn product(alloc: Global, left: Made, right: Made) -> Result<Lin, Refused>
    ensures { Told lin_of result (and_then (made_of left) (λ f. and_then (made_of right) (λ g. product f g))) }
{
    let f = left.list(alloc)?;
    let g = right.list(alloc)?;
    times(alloc, &f, &g)
}

fn negative(alloc: Global, made: Made) -> Result<Lin, Refused>
    ensures { Told lin_of result (and_then (made_of made) (λ f. negative f)) }
{
    let f = made.list(alloc)?;
    throughout(alloc, Change::Negated, &f)
}

fn sum_made(alloc: Global, op: Op, left: Made, right: Made) -> Result<Made, AllocError>
    ensures { IfOk result (λ x. made_of x ≡ and_then (made_of left) (λ f. and_then (made_of right) (λ g. together op f g))) }
{
    match together(alloc, op, left, right) {
        Ok(s) => Ok(Made::Summed(s)),
        Err(Refused::Range(e)) => Ok(Made::Outside(e)),
        Err(Refused::Memory) => Err(AllocError),
    }
}

fn product_made(alloc: Global, left: Made, right: Made) -> Result<Made, AllocError>
    ensures { IfOk result (λ x. made_of x ≡ and_then (made_of left) (λ f. and_then (made_of right) (λ g. product f g))) }
{
    match product(alloc, left, right) {
        Ok(f) => Ok(Made::Listed(f)),
        Err(Refused::Range(e)) => Ok(Made::Outside(e)),
        Err(Refused::Memory) => Err(AllocError),
    }
}

fn negative_made(alloc: Global, made: Made) -> Result<Made, AllocError>
    ensures { IfOk result (λ x. made_of x ≡ and_then (made_of made) (λ f. negative f)) }
{
    match negative(alloc, made) {
        Ok(f) => Ok(Made::Listed(f)),
        Err(Refused::Range(e)) => Ok(Made::Outside(e)),
        Err(Refused::Memory) => Err(AllocError),
    }
}

/// Two forms with a sign between them; of what is no number, the form is 0.
pub fn joined(alloc: Global, sign: InfixSign, left: Made, right: Made) -> Result<Made, AllocError>
    ensures { IfOk result (λ x. made_of x ≡ sign_form sign (made_of left) (made_of right)) }
{
    match sign {
        InfixSign::Plus => sum_made(alloc, Op::Plus, left, right),
        InfixSign::Minus => sum_made(alloc, Op::Minus, left, right),
        InfixSign::Times => product_made(alloc, left, right),
        InfixSign::Iff => Ok(Made::Listed(number(alloc, 0))),
        InfixSign::Implies => Ok(Made::Listed(number(alloc, 0))),
        InfixSign::Explies => Ok(Made::Listed(number(alloc, 0))),
        InfixSign::And => Ok(Made::Listed(number(alloc, 0))),
        InfixSign::Or => Ok(Made::Listed(number(alloc, 0))),
        InfixSign::Equal => Ok(Made::Listed(number(alloc, 0))),
        InfixSign::Unequal => Ok(Made::Listed(number(alloc, 0))),
        InfixSign::Less => Ok(Made::Listed(number(alloc, 0))),
        InfixSign::AtMost => Ok(Made::Listed(number(alloc, 0))),
        InfixSign::Greater => Ok(Made::Listed(number(alloc, 0))),
        InfixSign::AtLeast => Ok(Made::Listed(number(alloc, 0))),
    }
}

/// A form behind a prefix sign.
pub fn prefixed(alloc: Global, sign: PrefixSign, made: Made) -> Result<Made, AllocError>
    ensures { IfOk result (λ x. made_of x ≡ prefix_form sign (made_of made)) }
{
    match sign {
        PrefixSign::Not => Ok(Made::Listed(number(alloc, 0))),
        PrefixSign::Minus => negative_made(alloc, made),
    }
}
