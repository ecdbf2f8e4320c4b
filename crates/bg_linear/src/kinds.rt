//! Kinds under operators.
ghost use Rattle.std.specs.Prelude.{◌≡◌, Some};
ghost use Rattle.bg_linear.specs.Sorts.{kind_at, is_truth, is_number, is_constant, number_only, truth_if, both_truths, related_kind, equal_kind, sum_kind, product_kind};
ghost use Rattle.bg_linear.specs.ChainKinds.{sign_kind, prefix_kind, all_so_far};

use crate::scalar::{Kind, Sort};
use bg_text::{InfixSign, PrefixSign};

/// The kind of an incarnation.
pub fn kind_at(sort: Option<Sort>) -> Option<Kind>
    ensures { result ≡ kind_at sort }
{
    match sort {
        Some(Sort::Truth) => Some(Kind::Truth),
        Some(Sort::Number) => Some(Kind::Number),
        Some(Sort::Other) => None,
        None => None,
    }
}

pub fn is_truth(kind: Option<Kind>) -> bool
    ensures { result ≡ is_truth kind }
{
    match kind {
        Some(Kind::Truth) => true,
        Some(Kind::Constant) => false,
        Some(Kind::Number) => false,
        None => false,
    }
}

fn is_number(kind: Option<Kind>) -> bool
    ensures { result ≡ is_number kind }
{
    match kind {
        Some(Kind::Truth) => false,
        Some(Kind::Constant) => true,
        Some(Kind::Number) => true,
        None => false,
    }
}

fn is_constant(kind: Option<Kind>) -> bool
    ensures { result ≡ is_constant kind }
{
    match kind {
        Some(Kind::Truth) => false,
        Some(Kind::Constant) => true,
        Some(Kind::Number) => false,
        None => false,
    }
}

fn number_only(kind: Option<Kind>) -> Option<Kind>
    ensures { result ≡ number_only kind }
{
    if is_number(kind) { kind } else { None }
}

pub fn truth_if(b: bool) -> Option<Kind>
    ensures { result ≡ truth_if b }
{
    if b { Some(Kind::Truth) } else { None }
}

fn both_truths(a: Option<Kind>, b: Option<Kind>) -> Option<Kind>
    ensures { result ≡ both_truths a b }
{
    truth_if(is_truth(a) && is_truth(b))
}

fn related_kind(a: Option<Kind>, b: Option<Kind>) -> Option<Kind>
    ensures { result ≡ related_kind a b }
{
    truth_if(is_number(a) && is_number(b))
}

fn equal_kind(a: Option<Kind>, b: Option<Kind>) -> Option<Kind>
    ensures { result ≡ equal_kind a b }
{
    if is_truth(a) {
        both_truths(a, b)
    } else {
        related_kind(a, b)
    }
}

fn sum_kind(a: Option<Kind>, b: Option<Kind>) -> Option<Kind>
    ensures { result ≡ sum_kind a b }
{
    if is_constant(a) {
        number_only(b)
    } else if is_number(a) && is_number(b) {
        Some(Kind::Number)
    } else {
        None
    }
}

fn product_kind(a: Option<Kind>, b: Option<Kind>) -> Option<Kind>
    ensures { result ≡ product_kind a b }
{
    if is_constant(a) {
        number_only(b)
    } else if is_number(a) && is_constant(b) {
        Some(Kind::Number)
    } else {
        None
    }
}

/// Two kinds with a sign between them.
pub fn sign_kind(sign: InfixSign, a: Option<Kind>, b: Option<Kind>) -> Option<Kind>
    ensures { result ≡ sign_kind sign a b }
{
    match sign {
        InfixSign::Iff => both_truths(a, b),
        InfixSign::Implies => both_truths(a, b),
        InfixSign::Explies => both_truths(b, a),
        InfixSign::And => both_truths(a, b),
        InfixSign::Or => both_truths(a, b),
        InfixSign::Equal => equal_kind(a, b),
        InfixSign::Unequal => equal_kind(a, b),
        InfixSign::Less => related_kind(a, b),
        InfixSign::AtMost => related_kind(a, b),
        InfixSign::Greater => related_kind(a, b),
        InfixSign::AtLeast => related_kind(a, b),
        InfixSign::Plus => sum_kind(a, b),
        InfixSign::Minus => sum_kind(a, b),
        InfixSign::Times => product_kind(a, b),
    }
}

/// A kind behind a prefix sign.
pub fn prefix_kind(sign: PrefixSign, kind: Option<Kind>) -> Option<Kind>
    ensures { result ≡ prefix_kind sign kind }
{
    match sign {
        PrefixSign::Not => truth_if(is_truth(kind)),
        PrefixSign::Minus => number_only(kind),
    }
}

/// Whether all that waits is truth values.
pub fn all_so_far(waiting: Option<bool>) -> bool
    ensures { result ≡ all_so_far waiting }
{
    match waiting {
        Some(all) => all,
        None => true,
    }
}
