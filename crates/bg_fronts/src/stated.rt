//! What congruences say.
ghost use Rattle.std.specs.Prelude.{◌≡◌, ◌⊎◌, ◌+◌, ◌≤◌, List, Some, slice_get, IfOk};
ghost use Rattle.bg_ast.specs.Syntax.{Fun};
ghost use Rattle.bg_terms.specs.Instances.{equal, all_equal, congruent};
ghost use Rattle.bg_term_table.specs.Views.{meaning, meanings, listed, term_of, terms_in};

use crate::build::{NOWHERE, both, equal, implied, reads};
use bg_ast::resolved::Expr;
use bg_term_table::{Term, copy, is_one_head};
use std::alloc::{AllocError, Global};

/// What says that both are equal.
pub fn equal_pair(alloc: Global, x: &Expr, y: &Expr) -> Result<Expr, AllocError>
    ensures { IfOk result (λ z. meaning z ≡ equal (meaning x.now) (meaning y.now)) }
{
    let a = copy(alloc, x)?;
    let b = copy(alloc, y)?;
    equal(alloc, a, b)
}

/// The lesser one.
pub fn lesser(m: usize, n: usize) -> usize
    ensures first { result ≤ m }
    ensures second { result ≤ n }
    ensures one { (result ≡ m) ⊎ (result ≡ n) }
{
    if m < n { m } else { n }
}

/// What says that all are equal, one by one.
pub fn pairs_equal(alloc: Global, xs: &[Expr], ys: &[Expr]) -> Result<Expr, AllocError>
    ensures { IfOk result (λ z. meaning z ≡ all_equal (listed (meanings xs.now)) (listed (meanings ys.now))) }
{
    let mut k = lesser(xs.len(), ys.len());
    let mut made = Expr::Truth(NOWHERE, xs.len() == ys.len());
    while k > 0 {
        k -= 1;
        let one = equal_pair(alloc, &xs[k], &ys[k])?;
        made = both(alloc, one, made)?;
    }
    Ok(made)
}

/// The number of a term behind so many incarnations; 2^32 count as want of memory.
pub fn number_of(count: u32, term: u32) -> Result<u32, AllocError>
    ensures { IfOk result (λ j. j ≡ count + term) }
{
    match count.checked_add(term) {
        Some(j) => Ok(j),
        None => Err(AllocError),
    }
}

/// What says that equal arguments of two terms give equal terms, where they have one head.
fn congruence(
    alloc: Global,
    count: u32,
    a: u32,
    b: u32,
    s: &Term,
    t: &Term,
) -> Result<Expr, AllocError>
    ensures { IfOk result (λ z. (fs : List Fun) → meaning z ≡ congruent count a b (Some (term_of fs s.now)) (Some (term_of fs t.now))) }
{
    if !is_one_head(&s.head, &t.head) {
        return Ok(Expr::Truth(NOWHERE, true));
    }
    let premise = pairs_equal(alloc, &s.args, &t.args)?;
    let i = number_of(count, a)?;
    let j = number_of(count, b)?;
    let left = reads(i);
    let right = reads(j);
    let conclusion = equal(alloc, left, right)?;
    implied(alloc, premise, conclusion)
}

/// The same of terms with these numbers; of a term that isn't there, nothing is said.
pub fn numbered(
    alloc: Global,
    count: u32,
    terms: &[Term],
    a: u32,
    b: u32,
) -> Result<Expr, AllocError>
    ensures { IfOk result (λ z. (fs : List Fun) → meaning z ≡ congruent count a b (slice_get (terms_in fs terms.now) a) (slice_get (terms_in fs terms.now) b)) }
{
    let Some(s) = terms.get(a as usize) else {
        return Ok(Expr::Truth(NOWHERE, true));
    };
    let Some(t) = terms.get(b as usize) else {
        return Ok(Expr::Truth(NOWHERE, true));
    };
    congruence(alloc, count, a, b, s, t)
}
