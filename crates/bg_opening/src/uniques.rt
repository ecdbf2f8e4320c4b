//! Unique constants, and that they differ.
ghost use Rattle.std.specs.Prelude.{◌≡◌, ◌<◌, ◌+◌, ℕ, suc, ◌++◌, ◌∷◌, [], if◌then◌else◌, length, get_or, drop, map, IfOk, OnOk};
ghost use Rattle.bg_ast.specs.Meaning.{named_of, type_in};
ghost use Rattle.bg_ast.specs.Views as v;
ghost use Rattle.bg_kinds.specs.Views.{ref_in};
ghost use Rattle.bg_opened.specs.Unique.{uniques, pair_of, pairs_with, pairs, unique_pairs};
ghost use Rattle.bg_opened.specs.Written as w;
ghost use Rattle.bg_opening.specs.Constants.{constants_in, unique_of};
ghost use Rattle.bg_opening.specs.Nexts.{code_of, AreNexts};

use crate::axioms::NOWHERE;
use crate::nexts::{next_of, nexts_of};
use bg_ast::resolved::{Constant, Expr, Link, TypeName};
use bg_fits::written_kind;
use bg_kinds::{ValueType, is_same_type};
use bg_text::InfixSign;
use std::alloc::{AllocError, Global};

/// A unique constant: its number, and its type.
#[derive(Drop)]
pub struct Unique {
    pub number: u32,
    pub kind: ValueType,
}

/// Adds the number and the type of a constant, where it is unique.
fn push_unique(
    alloc: Global,
    made: &mut Vec<Unique>,
    types: &[TypeName],
    number: u32,
    c: &Constant,
) -> Result<(), AllocError>
    ensures { OnOk result (map unique_of made.new.items ≡ map unique_of made.old.items ++ (if c.now.is_unique then (number, type_in (named_of (map v.type_name_of types.now)) (v.type_of c.now.ty)) ∷ [] else [])) }
{
    if c.is_unique {
        let kind = written_kind(alloc, types, &c.ty)?;
        made.push(Unique { number, kind })?;
    }
    Ok(())
}

/// One more; 2^32 count as want of memory.
fn next(number: u32) -> Result<u32, AllocError>
    ensures { IfOk result (λ n. n ≡ suc number) }
{
    let Some(more) = number.checked_add(1) else {
        return Err(AllocError);
    };
    Ok(more)
}

/// The numbers of the unique constants, and the type of each.
///
/// Only want of memory is an error; 2^32 constants count as such.
pub fn uniques_of(
    alloc: Global,
    types: &[TypeName],
    constants: &[Constant],
) -> Result<Vec<Unique>, AllocError>
    ensures { IfOk result (λ made. map unique_of made.items ≡ uniques 0 (constants_in types.now constants.now)) }
{
    let mut made = Vec::new(alloc);
    let mut number = 0u32;
    for c in constants {
        push_unique(alloc, &mut made, types, number, c)?;
        let after = next(number)?;
        number = after;
    }
    Ok(made)
}

/// Two constants are different.
fn apart(alloc: Global, k: u32, j: u32) -> Result<Expr, AllocError>
    ensures { IfOk result (λ e. v.ex_of e ≡ w.apart (k, j)) }
{
    let first = Box::new(alloc, Expr::Constant(NOWHERE, k))?;
    let mut links = Vec::new(alloc);
    links.push(Link {
        pos: NOWHERE,
        sign: InfixSign::Unequal,
        operand: Expr::Constant(NOWHERE, j),
    })?;
    Ok(Expr::Chain(first, links))
}

/// Adds that two constants are different, where they are of one type.
fn push_pair(
    alloc: Global,
    out: &mut Vec<Expr>,
    first: &Unique,
    second: &Unique,
) -> Result<(), AllocError>
    ensures { OnOk result (map v.ex_of out.new.items ≡ map v.ex_of out.old.items ++ map w.apart (pair_of first.now.number (ref_in first.now.kind) (unique_of second.now))) }
{
    if is_same_type(first.kind.as_ref(), second.kind.as_ref()) {
        let e = apart(alloc, first.number, second.number)?;
        out.push(e)?;
    }
    Ok(())
}

/// Adds that a constant is different from each behind it that is of the same type. Time is linear in the number of those whose types
/// have the same code.
fn push_apart(
    alloc: Global,
    out: &mut Vec<Expr>,
    first: &Unique,
    told: &[Unique],
    nexts: &[usize],
    place: usize,
) -> Result<(), AllocError>
    requires nexts { AreNexts (map code_of told.now) nexts.now }
    requires place { place < length told.now }
    requires first { first.now ≡ get_or told.now place first.now }
    ensures { OnOk result (map v.ex_of out.new.items ≡ map v.ex_of out.old.items ++ map w.apart (pairs_with first.now.number (ref_in first.now.kind) (map unique_of (drop (place + 1) told.now)))) }
{
    let mut at = next_of(nexts, place);
    while at < told.len() {
        push_pair(alloc, out, first, &told[at])?;
        at = next_of(nexts, at);
    }
    Ok(())
}

/// Adds that each is different from each later one of the same type.
fn push_pairs(
    alloc: Global,
    out: &mut Vec<Expr>,
    told: &[Unique],
    nexts: &[usize],
) -> Result<(), AllocError>
    requires { AreNexts (map code_of told.now) nexts.now }
    ensures { OnOk result (map v.ex_of out.new.items ≡ map v.ex_of out.old.items ++ map w.apart (pairs (map unique_of told.now))) }
{
    for place in 0..told.len() {
        push_apart(alloc, out, &told[place], told, nexts, place)?;
    }
    Ok(())
}

/// That the unique constants of each type are pairwise different.
pub fn told_apart(
    alloc: Global,
    types: &[TypeName],
    constants: &[Constant],
) -> Result<Vec<Expr>, AllocError>
    ensures { IfOk result (λ made. map v.ex_of made.items ≡ map w.apart (unique_pairs (constants_in types.now constants.now))) }
{
    let told = uniques_of(alloc, types, constants)?;
    let nexts = nexts_of(alloc, &told)?;
    let mut made = Vec::new(alloc);
    push_pairs(alloc, &mut made, &told, &nexts)?;
    Ok(made)
}

/// What is claimed of the constants: that unique ones differ, and the axioms, which are taken.
pub fn claims(
    alloc: Global,
    types: &[TypeName],
    constants: &[Constant],
    axioms: &mut Vec<Expr>,
) -> Result<Vec<Expr>, AllocError>
    ensures { IfOk result (λ made. map v.ex_of made.items ≡ map w.apart (unique_pairs (constants_in types.now constants.now)) ++ map v.ex_of axioms.old.items) }
{
    let mut made = told_apart(alloc, types, constants)?;
    made.append(axioms)?;
    Ok(made)
}
