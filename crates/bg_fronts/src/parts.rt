//! What is said of selects at the index at which their maps differ.
ghost use Rattle.std.specs.Prelude.{◌≡◌, List, None, Some, slice_get, IfOk, MatchOption};
ghost use Rattle.bg_ast.specs.Syntax.{Fun, NoMore, More};
ghost use Rattle.bg_kinds.specs.Views.{keys_of, ref_in};
ghost use Rattle.bg_terms.specs.Terms.{Differs, head_eq};
ghost use Rattle.bg_terms.specs.Instances.{all_equal, apart, apart_of, are_parts, is_part, read_at};
ghost use Rattle.bg_term_table.specs.Views.{meaning, meanings, listed, head_of, term_of, terms_in};

use crate::build::{both, fact, implied};
use crate::selects::terms_equal;
use crate::shape::{Arguments, Behind, Maps};
use crate::stated::{equal_pair, lesser, pairs_equal};
use bg_ast::resolved::Expr;
use bg_kinds::{Keys, ValueType};
use bg_term_table::{Head, Term, are_same_maps, copy, is_one_head, local};
use std::alloc::{AllocError, Global};

/// Whether a head makes part j of an index at which maps with these index types and this result type differ.
fn makes_part(head: &Head, keys: &Keys, gives: &ValueType, j: usize) -> bool
    ensures { result ≡ head_eq (head_of head.now) (Differs (keys_of keys.now) (ref_in gives.now) j) }
{
    match head {
        Head::Function(_) => false,
        Head::Selects(_, _) => false,
        Head::Updates(_, _) => false,
        Head::Differs(k, t, i) => are_same_maps(k, t, keys, gives) && *i as usize == j,
    }
}

/// What says that these are two maps.
fn are_these(alloc: Global, xs: &[Expr], m: &Expr, o: &Expr) -> Result<Expr, AllocError>
    ensures { IfOk result (λ z. meaning z ≡ all_equal (listed (meanings xs.now)) (More (meaning m.now) (More (meaning o.now) NoMore))) }
{
    let mut maps = Vec::new(alloc);
    let first = copy(alloc, m)?;
    maps.push(first)?;
    let second = copy(alloc, o)?;
    maps.push(second)?;
    pairs_equal(alloc, xs, &maps)
}

/// The term that an expression reads behind so many incarnations, if it reads one.
fn term_read<'a>(count: u32, terms: &'a [Term], q: &Expr) -> Option<&'a Term>
    ensures { MatchOption result ((fs : List Fun) → read_at count (terms_in fs terms.now) (meaning q.now) ≡ None) (λ t. (fs : List Fun) → read_at count (terms_in fs terms.now) (meaning q.now) ≡ Some (term_of fs t.now)) }
{
    match local(q) {
        None => None,
        Some(k) => match k.checked_sub(count) {
            None => None,
            Some(a) => match terms.get(a as usize) {
                None => None,
                Some(t) => Some(t),
            },
        },
    }
}

/// What says that an expression is part j of the index at which two maps differ.
fn is_part(
    alloc: Global,
    at: Behind<'_>,
    maps: Maps<'_>,
    j: usize,
    q: &Expr,
) -> Result<Expr, AllocError>
    ensures { IfOk result (λ z. (fs : List Fun) → meaning z ≡ is_part (keys_of maps.entry.keys.now) (ref_in maps.entry.gives.now) j (meaning maps.entry.first.now) (meaning maps.entry.second.now) (read_at at.entry.count (terms_in fs at.entry.terms.now) (meaning q.now))) }
{
    let Some(d) = term_read(at.count, at.terms, q) else {
        return Ok(fact(false));
    };
    if !makes_part(&d.head, maps.keys, maps.gives, j) {
        return Ok(fact(false));
    }
    are_these(alloc, &d.args, maps.first, maps.second)
}

/// What says that these are the parts of the index at which two maps differ.
fn are_parts(alloc: Global, at: Behind<'_>, maps: Maps<'_>, qs: &[Expr]) -> Result<Expr, AllocError>
    ensures { IfOk result (λ z. (fs : List Fun) → meaning z ≡ are_parts at.entry.count (terms_in fs at.entry.terms.now) (keys_of maps.entry.keys.now) (ref_in maps.entry.gives.now) 0 (meaning maps.entry.first.now) (meaning maps.entry.second.now) (keys_of maps.entry.keys.now) (listed (meanings qs.now))) }
{
    let mut j = lesser(maps.keys.keys.len(), qs.len());
    let mut made = fact(maps.keys.keys.len() == qs.len());
    while j > 0 {
        j -= 1;
        let one = is_part(alloc, at, maps, j, &qs[j])?;
        made = both(alloc, one, made)?;
    }
    Ok(made)
}

/// What says that maps with equal selects at the index at which they differ are equal, by the arguments of both selects.
fn one_map(
    alloc: Global,
    at: Behind<'_>,
    keys: &Keys,
    gives: &ValueType,
    s: Arguments<'_>,
    r: Arguments<'_>,
) -> Result<Expr, AllocError>
    ensures { IfOk result (λ z. (fs : List Fun) → meaning z ≡ apart_of at.entry.count (terms_in fs at.entry.terms.now) s.entry.number r.entry.number (keys_of keys.now) (ref_in gives.now) (listed (meanings s.entry.args.now)) (listed (meanings r.entry.args.now))) }
{
    let Some((first, index)) = s.args.split_first() else {
        return Ok(fact(true));
    };
    let Some((second, others)) = r.args.split_first() else {
        return Ok(fact(true));
    };
    let maps = Maps {
        keys,
        gives,
        first,
        second,
    };
    let there = are_parts(alloc, at, maps, index)?;
    let same = pairs_equal(alloc, index, others)?;
    let there = both(alloc, there, same)?;
    let alike = terms_equal(alloc, at.count, s.number, r.number)?;
    let premise = both(alloc, there, alike)?;
    let conclusion = equal_pair(alloc, first, second)?;
    implied(alloc, premise, conclusion)
}

/// What says that maps with equal selects at the index at which they differ are equal; of terms that aren't there or no such ones, nothing
/// is said.
pub fn apart(alloc: Global, at: Behind<'_>, s: u32, r: u32) -> Result<Expr, AllocError>
    ensures { IfOk result (λ z. (fs : List Fun) → meaning z ≡ apart at.entry.count (terms_in fs at.entry.terms.now) s r (slice_get (terms_in fs at.entry.terms.now) s) (slice_get (terms_in fs at.entry.terms.now) r)) }
{
    let Some(a) = at.terms.get(s as usize) else {
        return Ok(fact(true));
    };
    let Some(b) = at.terms.get(r as usize) else {
        return Ok(fact(true));
    };
    if !is_one_head(&a.head, &b.head) {
        return Ok(fact(true));
    }
    let first = Arguments {
        number: s,
        args: &a.args,
    };
    let second = Arguments {
        number: r,
        args: &b.args,
    };
    match &a.head {
        Head::Function(_) => Ok(fact(true)),
        Head::Selects(keys, gives) => one_map(alloc, at, keys, gives, first, second),
        Head::Updates(_, _) => Ok(fact(true)),
        Head::Differs(_, _, _) => Ok(fact(true)),
    }
}
