//! Signs between values, and before them.
ghost use Rattle.std.specs.Prelude.{◌≡◌};
ghost use Rattle.bg_scalar.specs.Worths as spec;
ghost use Rattle.bg_scalar.specs.Worths.{exact, is_truth, is_number, on_truths, on_numbers, by_equality, operate, takes};
ghost use Rattle.bg_scalar.specs.Values.{val_of, value_of};
ghost use Rattle.bg_scalar.specs.Views.{worth_in};
ghost use Rattle.bg_scalar.specs.Signs.{op_of, between, prefix_on, prefixed};

use crate::held::{Lent, Worth, shown};
use crate::scalar::Scalar;
use crate::value::{Value, is_same};
use bg_base::{OutOfRange, add, mul, neg, sub};
use bg_text::{InfixSign, PrefixSign};

/// A scalar that was made.
pub fn plain<'a>(s: Scalar) -> Worth<'a>
    ensures { worth_in result ≡ spec.Is (val_of s) }
{
    Worth::Is(Lent::Made(Value::Plain(s)))
}

fn truth<'a>(b: bool) -> Worth<'a>
    ensures { worth_in result ≡ spec.truth b }
{
    plain(Scalar::Truth(b))
}

/// The result of an operation, or that it leaves the range.
fn exact<'a>(made: Result<i128, OutOfRange>) -> Worth<'a>
    ensures { worth_in result ≡ exact made }
{
    match made {
        Ok(z) => plain(Scalar::Number(z)),
        Err(o) => Worth::Leaves(o),
    }
}

/// The operator of a sign between truth values.
fn on_truths<'a>(sign: InfixSign, a: bool, b: bool) -> Worth<'a>
    ensures { worth_in result ≡ on_truths (op_of sign) a b }
{
    match sign {
        InfixSign::Iff => truth(a == b),
        InfixSign::Implies => truth(!a || b),
        InfixSign::Explies => truth(!a || b),
        InfixSign::And => truth(a && b),
        InfixSign::Or => truth(a || b),
        InfixSign::Equal => truth(a == b),
        InfixSign::Unequal => truth(a != b),
        InfixSign::Less => Worth::NoValue,
        InfixSign::AtMost => Worth::NoValue,
        InfixSign::Greater => Worth::NoValue,
        InfixSign::AtLeast => Worth::NoValue,
        InfixSign::Plus => Worth::NoValue,
        InfixSign::Minus => Worth::NoValue,
        InfixSign::Times => Worth::NoValue,
    }
}

/// The operator of a sign between whole numbers.
fn on_numbers<'a>(sign: InfixSign, x: i128, y: i128) -> Worth<'a>
    ensures { worth_in result ≡ on_numbers (op_of sign) x y }
{
    match sign {
        InfixSign::Iff => Worth::NoValue,
        InfixSign::Implies => Worth::NoValue,
        InfixSign::Explies => Worth::NoValue,
        InfixSign::And => Worth::NoValue,
        InfixSign::Or => Worth::NoValue,
        InfixSign::Equal => truth(x == y),
        InfixSign::Unequal => truth(x != y),
        InfixSign::Less => truth(x < y),
        InfixSign::AtMost => truth(x <= y),
        InfixSign::Greater => truth(y < x),
        InfixSign::AtLeast => truth(y <= x),
        InfixSign::Plus => exact(add(x, y)),
        InfixSign::Minus => exact(sub(x, y)),
        InfixSign::Times => exact(mul(x, y)),
    }
}

/// The operator of a sign between values that are the same or not.
fn by_equality<'a>(sign: InfixSign, same: bool) -> Worth<'a>
    ensures { worth_in result ≡ by_equality (op_of sign) same }
{
    match sign {
        InfixSign::Iff => Worth::NoValue,
        InfixSign::Implies => Worth::NoValue,
        InfixSign::Explies => Worth::NoValue,
        InfixSign::And => Worth::NoValue,
        InfixSign::Or => Worth::NoValue,
        InfixSign::Equal => truth(same),
        InfixSign::Unequal => truth(!same),
        InfixSign::Less => Worth::NoValue,
        InfixSign::AtMost => Worth::NoValue,
        InfixSign::Greater => Worth::NoValue,
        InfixSign::AtLeast => Worth::NoValue,
        InfixSign::Plus => Worth::NoValue,
        InfixSign::Minus => Worth::NoValue,
        InfixSign::Times => Worth::NoValue,
    }
}

fn on_scalars<'a>(sign: InfixSign, a: Scalar, b: Scalar) -> Worth<'a>
    ensures { worth_in result ≡ operate (op_of sign) (val_of a) (val_of b) }
{
    match a {
        Scalar::Truth(a) => match b {
            Scalar::Truth(b) => on_truths(sign, a, b),
            Scalar::Number(_) => Worth::NoValue,
            Scalar::Element(_, _) => Worth::NoValue,
        },
        Scalar::Number(x) => match b {
            Scalar::Truth(_) => Worth::NoValue,
            Scalar::Number(y) => on_numbers(sign, x, y),
            Scalar::Element(_, _) => Worth::NoValue,
        },
        Scalar::Element(t, x) => match b {
            Scalar::Truth(_) => Worth::NoValue,
            Scalar::Number(_) => Worth::NoValue,
            Scalar::Element(u, y) => {
                if t == u {
                    by_equality(sign, x == y)
                } else {
                    Worth::NoValue
                }
            }
        },
    }
}

/// The operator of a sign between two values: maps are the same where they agree everywhere.
#[tactic(auto, using(crate::proofs::Operands::operand_forms))]
fn operate<'a>(sign: InfixSign, a: &Value, b: &Value) -> Worth<'a>
    ensures { worth_in result ≡ operate (op_of sign) (value_of a.now) (value_of b.now) }
{
    match a {
        Value::Plain(x) => match b {
            Value::Plain(y) => on_scalars(sign, *x, *y),
            Value::Map(_, _) => Worth::NoValue,
        },
        Value::Map(_, _) => match b {
            Value::Plain(_) => Worth::NoValue,
            Value::Map(_, _) => by_equality(sign, is_same(a, b)),
        },
    }
}

#[tactic(auto, using(crate::proofs::Operands::map_is_no_truth))]
fn is_truth(a: &Value) -> bool
    ensures { result ≡ is_truth (value_of a.now) }
{
    match a {
        Value::Plain(Scalar::Truth(_)) => true,
        Value::Plain(Scalar::Number(_)) => false,
        Value::Plain(Scalar::Element(_, _)) => false,
        Value::Map(_, _) => false,
    }
}

#[tactic(auto, using(crate::proofs::Operands::map_is_no_number))]
fn is_number(a: &Value) -> bool
    ensures { result ≡ is_number (value_of a.now) }
{
    match a {
        Value::Plain(Scalar::Truth(_)) => false,
        Value::Plain(Scalar::Number(_)) => true,
        Value::Plain(Scalar::Element(_, _)) => false,
        Value::Map(_, _) => false,
    }
}

/// Whether the operator of a sign may stand behind this operand.
fn takes(sign: InfixSign, a: &Value) -> bool
    ensures { result ≡ takes (op_of sign) (value_of a.now) }
{
    match sign {
        InfixSign::Iff => is_truth(a),
        InfixSign::Implies => is_truth(a),
        InfixSign::Explies => is_truth(a),
        InfixSign::And => is_truth(a),
        InfixSign::Or => is_truth(a),
        InfixSign::Equal => true,
        InfixSign::Unequal => true,
        InfixSign::Less => is_number(a),
        InfixSign::AtMost => is_number(a),
        InfixSign::Greater => is_number(a),
        InfixSign::AtLeast => is_number(a),
        InfixSign::Plus => is_number(a),
        InfixSign::Minus => is_number(a),
        InfixSign::Times => is_number(a),
    }
}

/// The value of a sign's operator between two operands; what is wrong with the left one comes first.
fn operated<'a>(sign: InfixSign, a: Worth<'a>, b: Worth<'a>) -> Worth<'a>
    ensures { worth_in result ≡ spec.joined (op_of sign) (worth_in a.entry) (worth_in b.entry) }
{
    match a {
        Worth::Leaves(o) => Worth::Leaves(o),
        Worth::NoValue => Worth::NoValue,
        Worth::Is(x) => {
            if !takes(sign, shown(&x)) {
                return Worth::NoValue;
            }
            match b {
                Worth::Leaves(o) => Worth::Leaves(o),
                Worth::NoValue => Worth::NoValue,
                Worth::Is(y) => operate(sign, shown(&x), shown(&y)),
            }
        }
    }
}

/// The value of a sign between two operands. What is wrong with the left one comes first; but `a <== b` is `b ==> a`, where b comes
/// first.
pub fn joined<'a>(sign: InfixSign, a: Worth<'a>, b: Worth<'a>) -> Worth<'a>
    ensures { worth_in result ≡ between sign (worth_in a.entry) (worth_in b.entry) }
{
    match sign {
        InfixSign::Explies => operated(InfixSign::Implies, b, a),
        _ => operated(sign, a, b),
    }
}

#[tactic(auto, using(crate::proofs::Operands::no_prefix))]
fn prefix_on<'a>(sign: PrefixSign, a: &Value) -> Worth<'a>
    ensures { worth_in result ≡ prefix_on sign (value_of a.now) }
{
    match a {
        Value::Plain(Scalar::Truth(b)) => match sign {
            PrefixSign::Not => truth(!*b),
            PrefixSign::Minus => Worth::NoValue,
        },
        Value::Plain(Scalar::Number(z)) => match sign {
            PrefixSign::Not => Worth::NoValue,
            PrefixSign::Minus => exact(neg(*z)),
        },
        Value::Plain(Scalar::Element(_, _)) => match sign {
            PrefixSign::Not => Worth::NoValue,
            PrefixSign::Minus => Worth::NoValue,
        },
        Value::Map(_, _) => Worth::NoValue,
    }
}

/// The value of a prefix sign before an operand.
pub fn prefixed<'a>(sign: PrefixSign, a: Worth<'a>) -> Worth<'a>
    ensures { worth_in result ≡ prefixed sign (worth_in a.entry) }
{
    match a {
        Worth::Leaves(o) => Worth::Leaves(o),
        Worth::NoValue => Worth::NoValue,
        Worth::Is(x) => prefix_on(sign, shown(&x)),
    }
}
