//! What is said of selects and updates.
ghost use Rattle.std.specs.Prelude.{◌≡◌, List, slice_get, IfOk};
ghost use Rattle.bg_ast.specs.Syntax.{Fun, Binary, And, Not};
ghost use Rattle.bg_terms.specs.Instances.{all_equal, at_index, at_index_of, elsewhere, elsewhere_of, equal, term};
ghost use Rattle.bg_term_table.specs.Views.{meaning, meanings, listed, terms_in};

use crate::build::{both, equal, fact, implied, negated, reads};
use crate::shape::{Arguments, Behind};
use crate::stated::{equal_pair, number_of, pairs_equal};
use bg_ast::resolved::Expr;
use bg_term_table::{accesses, copy};
use std::alloc::{AllocError, Global};

/// What says that an expression is the term with this number behind so many incarnations.
fn is_term(alloc: Global, count: u32, x: &Expr, a: u32) -> Result<Expr, AllocError>
    ensures { IfOk result (λ z. meaning z ≡ equal (meaning x.now) (term count a)) }
{
    let number = number_of(count, a)?;
    let made = copy(alloc, x)?;
    equal(alloc, made, reads(number))
}

/// What says that the term with this number is what an expression is.
fn term_is(alloc: Global, count: u32, a: u32, x: &Expr) -> Result<Expr, AllocError>
    ensures { IfOk result (λ z. meaning z ≡ equal (term count a) (meaning x.now)) }
{
    let number = number_of(count, a)?;
    let made = copy(alloc, x)?;
    equal(alloc, reads(number), made)
}

/// What says that both terms are equal.
pub fn terms_equal(alloc: Global, count: u32, a: u32, b: u32) -> Result<Expr, AllocError>
    ensures { IfOk result (λ z. meaning z ≡ equal (term count a) (term count b)) }
{
    let i = number_of(count, a)?;
    let j = number_of(count, b)?;
    equal(alloc, reads(i), reads(j))
}

/// What says that a select of an update at its index is the new value, by the arguments of both.
fn value_there(
    alloc: Global,
    count: u32,
    u: Arguments<'_>,
    s: Arguments<'_>,
) -> Result<Expr, AllocError>
    ensures { IfOk result (λ z. meaning z ≡ at_index_of count u.entry.number s.entry.number (listed (meanings u.entry.args.now)) (listed (meanings s.entry.args.now))) }
{
    let Some((_, behind)) = u.args.split_first() else {
        return Ok(fact(true));
    };
    let Some((v, keys)) = behind.split_first() else {
        return Ok(fact(true));
    };
    let Some((x, index)) = s.args.split_first() else {
        return Ok(fact(true));
    };
    let of_update = is_term(alloc, count, x, u.number)?;
    let there = pairs_equal(alloc, keys, index)?;
    let premise = both(alloc, of_update, there)?;
    let conclusion = term_is(alloc, count, s.number, v)?;
    implied(alloc, premise, conclusion)
}

/// The premise that the index is the same of both selects, and another than the update's.
fn at_another(
    alloc: Global,
    keys: &[Expr],
    index: &[Expr],
    others: &[Expr],
) -> Result<Expr, AllocError>
    ensures { IfOk result (λ z. meaning z ≡ Binary And (all_equal (listed (meanings index.now)) (listed (meanings others.now))) (Not (all_equal (listed (meanings keys.now)) (listed (meanings index.now))))) }
{
    let one = pairs_equal(alloc, index, others)?;
    let there = pairs_equal(alloc, keys, index)?;
    let elsewhere = negated(alloc, there)?;
    both(alloc, one, elsewhere)
}

/// The premise that one select is of an update, and the other of its map.
fn of_both(
    alloc: Global,
    count: u32,
    u: u32,
    m: &Expr,
    x: &Expr,
    y: &Expr,
) -> Result<Expr, AllocError>
    ensures { IfOk result (λ z. meaning z ≡ Binary And (equal (meaning x.now) (term count u)) (equal (meaning y.now) (meaning m.now))) }
{
    let of_update = is_term(alloc, count, x, u)?;
    let of_map = equal_pair(alloc, y, m)?;
    both(alloc, of_update, of_map)
}

/// What says that a select of an update elsewhere is the select of its map there, by the arguments of the three.
fn value_elsewhere(
    alloc: Global,
    count: u32,
    u: Arguments<'_>,
    s: Arguments<'_>,
    r: Arguments<'_>,
) -> Result<Expr, AllocError>
    ensures { IfOk result (λ z. meaning z ≡ elsewhere_of count u.entry.number s.entry.number r.entry.number (listed (meanings u.entry.args.now)) (listed (meanings s.entry.args.now)) (listed (meanings r.entry.args.now))) }
{
    let Some((m, behind)) = u.args.split_first() else {
        return Ok(fact(true));
    };
    let Some((_, keys)) = behind.split_first() else {
        return Ok(fact(true));
    };
    let Some((x, index)) = s.args.split_first() else {
        return Ok(fact(true));
    };
    let Some((y, others)) = r.args.split_first() else {
        return Ok(fact(true));
    };
    let of_maps = of_both(alloc, count, u.number, m, x, y)?;
    let at = at_another(alloc, keys, index, others)?;
    let premise = both(alloc, of_maps, at)?;
    let conclusion = terms_equal(alloc, count, s.number, r.number)?;
    implied(alloc, premise, conclusion)
}

/// What says that a select of an update at its index is the new value; of terms that aren't there or no such ones, nothing is said.
pub fn at_index(alloc: Global, at: Behind<'_>, u: u32, s: u32) -> Result<Expr, AllocError>
    ensures { IfOk result (λ z. (fs : List Fun) → meaning z ≡ at_index at.entry.count u s (slice_get (terms_in fs at.entry.terms.now) u) (slice_get (terms_in fs at.entry.terms.now) s)) }
{
    let Some(t) = at.terms.get(u as usize) else {
        return Ok(fact(true));
    };
    let Some(a) = at.terms.get(s as usize) else {
        return Ok(fact(true));
    };
    if !accesses(&t.head, &a.head) {
        return Ok(fact(true));
    }
    let update = Arguments {
        number: u,
        args: &t.args,
    };
    let select = Arguments {
        number: s,
        args: &a.args,
    };
    value_there(alloc, at.count, update, select)
}

/// What says that a select of an update elsewhere is the select of its map there.
pub fn elsewhere(alloc: Global, at: Behind<'_>, u: u32, s: u32, r: u32) -> Result<Expr, AllocError>
    ensures { IfOk result (λ z. (fs : List Fun) → meaning z ≡ elsewhere at.entry.count u s r (slice_get (terms_in fs at.entry.terms.now) u) (slice_get (terms_in fs at.entry.terms.now) s) (slice_get (terms_in fs at.entry.terms.now) r)) }
{
    let Some(t) = at.terms.get(u as usize) else {
        return Ok(fact(true));
    };
    let Some(a) = at.terms.get(s as usize) else {
        return Ok(fact(true));
    };
    let Some(b) = at.terms.get(r as usize) else {
        return Ok(fact(true));
    };
    if !accesses(&t.head, &a.head) {
        return Ok(fact(true));
    }
    if !accesses(&t.head, &b.head) {
        return Ok(fact(true));
    }
    let update = Arguments {
        number: u,
        args: &t.args,
    };
    let first = Arguments {
        number: s,
        args: &a.args,
    };
    let second = Arguments {
        number: r,
        args: &b.args,
    };
    value_elsewhere(alloc, at.count, update, first, second)
}
