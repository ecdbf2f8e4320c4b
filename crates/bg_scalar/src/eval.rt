//! The evaluation of expressions, from left to right.
ghost use Rattle.std.specs.Prelude.{◌≡◌, map, slice_get, None, Some, IfOk};
ghost use Rattle.bg_ast.specs.Meaning as m;
ghost use Rattle.bg_ast.specs.Views as view;
ghost use Rattle.bg_ast.specs.Meaning.{exs_of};
ghost use Rattle.bg_ast.specs.Views.{link_view, bracket_view, var_of, exs_in};
ghost use Rattle.bg_sense.specs.Eval.{look_up};
ghost use Rattle.bg_scalar.specs.Worths as spec;
ghost use Rattle.bg_scalar.specs.Worths.{Is, known, read_in, and_then_all, worth, worths};
ghost use Rattle.bg_scalar.specs.Signs.{signed};
ghost use Rattle.bg_scalar.specs.Along as way;
ghost use Rattle.bg_scalar.specs.Along.{under, along, bracketed, behind};
ghost use Rattle.bg_scalar.specs.Lists.{listed};
ghost use Rattle.bg_scalar.specs.Views.{seen_of, tables_in, vals_in, found_in, worth_in, premise_in};

use crate::brackets::{selected, updated};
use crate::held::{Found, ListWorth, Worth, as_worth, owned};
use crate::joined::{joined, plain, prefixed};
use crate::scalar::Scalar;
use crate::table::{Table, told};
use crate::value::Value;
use bg_ast::resolved::{Bracket, Expr, Link, Variable};
use bg_text::{InfixSign, TreePrefix};
use std::alloc::{AllocError, Global};

/// The tables of functions, and the values of variables: the globals now and at entry, and the frame.
#[derive(Clone, Copy)]
pub struct Sight<'a> {
    pub tables: &'a [Table],
    pub globals: &'a [Value],
    pub before: &'a [Value],
    pub frame: &'a [Value],
}

/// The value at a place, if there is one.
#[tactic(auto, using(crate::proofs::Kept::nowhere))]
fn known<'a>(values: &'a [Value], place: u32) -> Found<'a>
    ensures { found_in result ≡ known (slice_get (vals_in values.now) place) }
{
    match values.get(place as usize) {
        None => Found::NoValue,
        Some(x) => Found::Is(x),
    }
}

/// The value of a variable.
pub fn read<'a>(sight: Sight<'a>, x: Variable) -> Found<'a>
    ensures { found_in result ≡ read_in (seen_of sight.entry) (var_of x) }
{
    match x {
        Variable::Global(k) => known(sight.globals, k),
        Variable::Local(k) => known(sight.frame, k),
    }
}

/// What is seen at entry.
fn entry<'a>(sight: Sight<'a>) -> Sight<'a>
    ensures { seen_of result ≡ spec.at_entry (seen_of sight.entry) }
{
    Sight {
        tables: sight.tables,
        globals: sight.before,
        before: sight.before,
        frame: sight.frame,
    }
}

/// A row of prefix signs, of which the last is the innermost.
#[tactic(auto, using(crate::proofs::Chains::innermost))]
fn signed<'a>(signs: &[TreePrefix], value: Worth<'a>) -> Worth<'a>
    ensures { worth_in result ≡ signed signs.now (worth_in value.entry) }
{
    let mut value = value;
    let mut left = signs;
    while let Some((last, rest)) = left.split_last() {
        value = prefixed(last.sign, value);
        left = rest;
    }
    value
}

/// A chain up to an operand: what stands before `==>` is a premise of all that follows; and the operand that is at hand.
#[derive(Drop)]
struct Along<'a> {
    premise: Option<Worth<'a>>,
    operand: Worth<'a>,
}

/// One more premise.
fn and_premise<'a>(premise: Option<Worth<'a>>, a: Worth<'a>) -> Worth<'a>
    ensures { premise_in (Some result) ≡ way.and_premise (premise_in premise.entry) (worth_in a.entry) }
{
    match premise {
        None => a,
        Some(p) => joined(InfixSign::And, p, a),
    }
}

/// The chain with one more sign and operand.
fn with_link<'a>(held: Along<'a>, sign: InfixSign, next: Worth<'a>) -> Along<'a>
    ensures premise { premise_in result.premise ≡ way.premise_after sign (premise_in held.entry.premise) (worth_in held.entry.operand) }
    ensures operand { worth_in result.operand ≡ way.operand_after sign (worth_in held.entry.operand) (worth_in next.entry) }
{
    let Along { premise, operand } = held;
    if matches!(sign, InfixSign::Implies) {
        Along {
            premise: Some(and_premise(premise, operand)),
            operand: next,
        }
    } else {
        Along {
            premise,
            operand: joined(sign, operand, next),
        }
    }
}

/// The value of a chain.
fn under<'a>(held: Along<'a>) -> Worth<'a>
    ensures { worth_in result ≡ under (premise_in held.entry.premise) (worth_in held.entry.operand) }
{
    let Along { premise, operand } = held;
    match premise {
        None => operand,
        Some(p) => joined(InfixSign::Implies, p, operand),
    }
}

/// What a function's table says for these arguments, if they have values.
fn applied<'a>(tables: &'a [Table], function: u32, args: ListWorth) -> Worth<'a>
    ensures { worth_in result ≡ and_then_all (listed args) (λ xs. Is (look_up (slice_get (tables_in tables.now) function) xs)) }
{
    match args {
        ListWorth::Leave(o) => Worth::Leaves(o),
        ListWorth::NoValues => Worth::NoValue,
        ListWorth::Are(xs) => Worth::Is(told(tables, function, &xs)),
    }
}

/// What an expression is worth where functions have these tables and variables these values, evaluated from left to right; but `a <== b`
/// is `b ==> a`, where b comes first.
///
/// Only want of memory is an error.
#[cycle(worth)]
pub fn worth<'a>(alloc: Global, sight: Sight<'a>, e: &Expr) -> Result<Worth<'a>, AllocError>
    ensures { IfOk result (λ x. worth_in x ≡ worth (m.ex_of (view.ex_of e.now)) (seen_of sight.entry)) }
{
    match e {
        Expr::Number(_, z) => Ok(plain(Scalar::Number(*z))),
        Expr::Truth(_, b) => Ok(plain(Scalar::Truth(*b))),
        Expr::Read(_, x) => Ok(as_worth(read(sight, *x))),
        Expr::Parens(_, e) => worth(alloc, sight, e),
        Expr::Prefix(signs, e) => {
            let value = worth(alloc, sight, e)?;
            Ok(signed(signs, value))
        }
        Expr::Chain(first, links) => {
            let first = worth(alloc, sight, first)?;
            chain(alloc, sight, first, links)
        }
        Expr::Old(_, e) => worth(alloc, entry(sight), e),
        Expr::Constant(_, _) => Ok(Worth::NoValue),
        Expr::Apply(_, f, args) => {
            let values = worths(alloc, sight, args)?;
            Ok(applied(sight.tables, *f, values))
        }
        Expr::Postfix(e, brackets) => {
            let value = worth(alloc, sight, e)?;
            behind(alloc, sight, brackets, value)
        }
    }
}

/// The value of a chain behind its first operand.
#[cycle(worth)]
fn chain<'a>(
    alloc: Global,
    sight: Sight<'a>,
    first: Worth<'a>,
    links: &[Link],
) -> Result<Worth<'a>, AllocError>
    ensures { IfOk result (λ x. worth_in x ≡ along None (worth_in first.entry) (map link_view links.now) (seen_of sight.entry)) }
{
    let mut held = Along {
        premise: None,
        operand: first,
    };
    for link in links {
        let next = worth(alloc, sight, &link.operand)?;
        held = with_link(held, link.sign, next);
    }
    Ok(under(held))
}

/// The value behind a row of brackets.
#[cycle(worth)]
fn behind<'a>(
    alloc: Global,
    sight: Sight<'a>,
    brackets: &[Bracket],
    first: Worth<'a>,
) -> Result<Worth<'a>, AllocError>
    ensures { IfOk result (λ x. worth_in x ≡ behind (worth_in first.entry) (map bracket_view brackets.now) (seen_of sight.entry)) }
{
    let mut value = first;
    for b in brackets {
        value = bracketed(alloc, sight, b, value)?;
    }
    Ok(value)
}

/// The value behind a bracket: the index comes first, then the new value.
#[cycle(worth)]
fn bracketed<'a>(
    alloc: Global,
    sight: Sight<'a>,
    bracket: &Bracket,
    value: Worth<'a>,
) -> Result<Worth<'a>, AllocError>
    ensures { IfOk result (λ x. worth_in x ≡ bracketed (worth_in value.entry) (bracket_view bracket.now).1 (bracket_view bracket.now).2 (seen_of sight.entry)) }
{
    match bracket {
        Bracket::Select(_, es) => {
            let index = worths(alloc, sight, es)?;
            selected(alloc, value, &index)
        }
        Bracket::Update(_, es, e) => {
            let index = worths(alloc, sight, es)?;
            let new = worth(alloc, sight, e)?;
            updated(alloc, value, &index, new)
        }
    }
}

/// What expressions are worth, evaluated from left to right.
///
/// Only want of memory is an error.
#[cycle(worth)]
#[tactic(auto, using(crate::proofs::Listing::list_forms))]
pub fn worths(alloc: Global, sight: Sight<'_>, es: &[Expr]) -> Result<ListWorth, AllocError>
    ensures { IfOk result (λ made. listed made ≡ worths (exs_of (exs_in es.now)) (seen_of sight.entry)) }
{
    let mut made = Vec::new(alloc);
    for e in es {
        let value = worth(alloc, sight, e)?;
        match value {
            Worth::Leaves(o) => return Ok(ListWorth::Leave(o)),
            Worth::NoValue => return Ok(ListWorth::NoValues),
            Worth::Is(x) => made.push(owned(alloc, x)?)?,
        }
    }
    Ok(ListWorth::Are(made))
}
