//! Expressions made flat.
ghost use Rattle.std.specs.Prelude.{◌≡◌, ◌≤◌, ◌<◌, ◌+◌, List, length, drop, reverse, IfOk, OnOk};
ghost use Rattle.bg_ast.specs.Syntax.{Ex, Fun};
ghost use Rattle.bg_numbered.specs.Numbered.{behind, numbered, all_behind, all_numbered};
ghost use Rattle.bg_ast.specs.Syntax.{More};
ghost use Rattle.bg_numbered.specs.Put.{with_term, place_term};
ghost use Rattle.bg_terms.specs.Terms.{Term, Head};
ghost use Rattle.bg_term_table.specs.Views.{meaning, meanings, operands, signs, listed, head_of, terms_in, incs_of, GiveThese};
ghost use Rattle.bg_term_table.specs.Brackets.{bracketed, all_bracketed};
ghost use Rattle.bg_term_table.specs.Linked.{first_of, others_of};
ghost use Rattle.bg_term_table.specs.Made.{IsMade, AreMade, IsTurned, AreTurned, IsBegun, IsStep, AreLinked};

use crate::around::Around;
use crate::signs::{copied, is_explies, is_implies, until_implies};
use crate::table::Head;
use crate::terms::Terms;
use crate::types::{select_head, update_head};
use bg_ast::resolved::{Bracket, Expr, Link, Variable};
use bg_base::Pos;
use std::alloc::{AllocError, Global};

/// Takes the last one away; `false` where there is none.
fn last(pos: Pos, made: &mut Vec<Expr>) -> Expr
    ensures first { meaning result ≡ first_of (reverse (meanings made.old.items)) }
    ensures others { reverse (meanings made.new.items) ≡ others_of (reverse (meanings made.old.items)) }
{
    match made.pop() {
        Some(x) => x,
        None => Expr::Truth(pos, false),
    }
}

/// What stands behind a link's sign on top of what was made, if the sign is `<==`.
#[cycle(flatten)]
fn turn(
    alloc: Global,
    around: Around<'_>,
    terms: &mut Terms,
    l: &Link,
    made: &mut Vec<Expr>,
) -> Result<(), AllocError>
    ensures { OnOk result ((fs : List Fun) → GiveThese fs around.entry → IsTurned fs (incs_of around.entry) l.now (reverse (meanings made.old.items)) (terms_in fs terms.old.terms.items) (reverse (meanings made.new.items)) (terms_in fs terms.new.terms.items)) }
{
    if !is_explies(l.sign) {
        return Ok(());
    }
    let x = expr(alloc, around, terms, &l.operand)?;
    made.push(x)?;
    Ok(())
}

/// What stands behind each `<==` from this link on and before the next `==>`, from the last one on: `a <== b` means `b ==> a`, so what b
/// has comes first.
#[cycle(flatten)]
fn turned(
    alloc: Global,
    around: Around<'_>,
    terms: &mut Terms,
    links: &[Link],
    from: usize,
) -> Result<Vec<Expr>, AllocError>
    requires { from ≤ length links.now }
    ensures { IfOk result (λ made. (fs : List Fun) → GiveThese fs around.entry → AreTurned fs (incs_of around.entry) (drop from links.now) (terms_in fs terms.old.terms.items) (reverse (meanings made.items)) (terms_in fs terms.new.terms.items)) }
{
    let mut made = Vec::new(alloc);
    let mut i = from + until_implies(&links[from..]);
    while i > from {
        i -= 1;
        turn(alloc, around, terms, &links[i], &mut made)?;
    }
    Ok(made)
}

/// Where link i is `==>`, which begins a chain anew, what stands behind each `<==` from there on and before the next `==>`; else what was
/// made before.
#[cycle(flatten)]
fn begin(
    alloc: Global,
    around: Around<'_>,
    terms: &mut Terms,
    links: &[Link],
    i: usize,
    made: &mut Vec<Expr>,
) -> Result<(), AllocError>
    requires { i < length links.now }
    ensures { OnOk result ((fs : List Fun) → GiveThese fs around.entry → IsBegun fs (incs_of around.entry) i links.now (reverse (meanings made.old.items)) (terms_in fs terms.old.terms.items) (reverse (meanings made.new.items)) (terms_in fs terms.new.terms.items)) }
{
    if !is_implies(links[i].sign) {
        return Ok(());
    }
    *made = turned(alloc, around, terms, links, i + 1)?;
    Ok(())
}

/// The operand of link i; behind `<==` it was made before.
#[cycle(flatten)]
fn operand(
    alloc: Global,
    around: Around<'_>,
    terms: &mut Terms,
    links: &[Link],
    i: usize,
    made: &mut Vec<Expr>,
) -> Result<Expr, AllocError>
    requires { i < length links.now }
    ensures { IfOk result (λ x. (fs : List Fun) → GiveThese fs around.entry → IsStep fs (incs_of around.entry) (drop i links.now) (drop (i + 1) links.now) (reverse (meanings made.old.items)) (terms_in fs terms.old.terms.items) (meaning x) (reverse (meanings made.new.items)) (terms_in fs terms.new.terms.items)) }
{
    let l = &links[i];
    if is_explies(l.sign) {
        return Ok(last(l.pos, made));
    }
    begin(alloc, around, terms, links, i, made)?;
    expr(alloc, around, terms, &l.operand)
}

/// The links of a chain made flat, where what stands behind each `<==` before the next `==>` is made already.
#[cycle(flatten)]
fn links_behind(
    alloc: Global,
    around: Around<'_>,
    terms: &mut Terms,
    links: &[Link],
    before: Vec<Expr>,
) -> Result<Vec<Link>, AllocError>
    ensures operands { IfOk result (λ made. (fs : List Fun) → GiveThese fs around.entry → AreLinked fs (incs_of around.entry) links.now (reverse (meanings before.items)) (terms_in fs terms.old.terms.items) (operands made.items) (terms_in fs terms.new.terms.items)) }
    ensures signs { IfOk result (λ made. signs made.items ≡ signs links.now) }
{
    let mut before = before;
    let mut made = Vec::new(alloc);
    let mut i = 0;
    while i < links.len() {
        let l = &links[i];
        let operand = operand(alloc, around, terms, links, i, &mut before)?;
        made.push(Link {
            pos: l.pos,
            sign: l.sign,
            operand,
        })?;
        i += 1;
    }
    Ok(made)
}

/// How many incarnations there are; 2^32 count as want of memory.
fn counted(around: Around<'_>) -> Result<u32, AllocError>
    ensures { IfOk result (λ n. n ≡ length (incs_of around.entry)) }
{
    match u32::try_from(around.incarnations.len()) {
        Ok(n) => Ok(n),
        Err(_) => Err(AllocError),
    }
}

/// An expression in front of others.
fn onto(alloc: Global, x: Expr, xs: Vec<Expr>) -> Result<Vec<Expr>, AllocError>
    ensures { IfOk result (λ made. listed (meanings made.items) ≡ More (meaning x) (listed (meanings xs.items))) }
{
    let mut xs = xs;
    let mut made = Vec::new(alloc);
    made.push(x)?;
    made.append(&mut xs)?;
    Ok(made)
}

/// What is flat behind a bracket: the read of a select, or of an update.
#[cycle(flatten)]
fn bracket(
    alloc: Global,
    around: Around<'_>,
    terms: &mut Terms,
    b: &Bracket,
    x: Expr,
) -> Result<Expr, AllocError>
    ensures { IfOk result (λ y. (fs : List Fun) → GiveThese fs around.entry → (e : Ex) (before : List Term) → IsMade fs (incs_of around.entry) e before (meaning x) (terms_in fs terms.old.terms.items) → IsMade fs (incs_of around.entry) (bracketed e b.now) before (meaning y) (terms_in fs terms.new.terms.items)) }
{
    let count = counted(around)?;
    match b {
        Bracket::Select(pos, indices) => {
            let indices = exprs(alloc, around, terms, indices)?;
            let head = select_head(alloc, around, &terms.terms, &x)?;
            let args = onto(alloc, x, indices)?;
            let j = terms.put(alloc, count, head, args)?;
            Ok(Expr::Read(*pos, Variable::Local(j)))
        }
        Bracket::Update(pos, indices, value) => {
            let indices = exprs(alloc, around, terms, indices)?;
            let value = expr(alloc, around, terms, value)?;
            let head = update_head(alloc, around, &terms.terms, &x)?;
            let behind = onto(alloc, value, indices)?;
            let args = onto(alloc, x, behind)?;
            let j = terms.put(alloc, count, head, args)?;
            Ok(Expr::Read(*pos, Variable::Local(j)))
        }
    }
}

/// What is flat behind brackets, one after the other.
#[cycle(flatten)]
fn brackets(
    alloc: Global,
    around: Around<'_>,
    terms: &mut Terms,
    bs: &[Bracket],
    first: Expr,
) -> Result<Expr, AllocError>
    ensures { IfOk result (λ y. (fs : List Fun) → GiveThese fs around.entry → (e : Ex) (before : List Term) → IsMade fs (incs_of around.entry) e before (meaning first) (terms_in fs terms.old.terms.items) → IsMade fs (incs_of around.entry) (all_bracketed e bs.now) before (meaning y) (terms_in fs terms.new.terms.items)) }
{
    let mut made = first;
    for b in bs {
        made = bracket(alloc, around, terms, b, made)?;
    }
    Ok(made)
}

/// An expression over incarnations made flat, form by form.
#[cycle(flatten)]
fn expr(alloc: Global, around: Around<'_>, terms: &mut Terms, e: &Expr) -> Result<Expr, AllocError>
    ensures { IfOk result (λ x. (fs : List Fun) → GiveThese fs around.entry → IsMade fs (incs_of around.entry) (meaning e.now) (terms_in fs terms.old.terms.items) (meaning x) (terms_in fs terms.new.terms.items)) }
{
    match e {
        Expr::Number(pos, n) => Ok(Expr::Number(*pos, *n)),
        Expr::Truth(pos, b) => Ok(Expr::Truth(*pos, *b)),
        Expr::Constant(pos, k) => Ok(Expr::Constant(*pos, *k)),
        Expr::Read(pos, x) => Ok(Expr::Read(*pos, *x)),
        Expr::Apply(pos, function, args) => {
            let args = exprs(alloc, around, terms, args)?;
            let count = counted(around)?;
            let j = terms.put(alloc, count, Head::Function(*function), args)?;
            Ok(Expr::Read(*pos, Variable::Local(j)))
        }
        Expr::Old(_, e) => expr(alloc, around, terms, e),
        Expr::Parens(_, e) => expr(alloc, around, terms, e),
        Expr::Prefix(signs, e) => {
            let signs = copied(alloc, signs)?;
            let made = expr(alloc, around, terms, e)?;
            Ok(Expr::Prefix(signs, Box::new(alloc, made)?))
        }
        Expr::Postfix(inner, behind) => {
            let first = expr(alloc, around, terms, inner)?;
            brackets(alloc, around, terms, behind, first)
        }
        Expr::Chain(e, links) => {
            let before = turned(alloc, around, terms, links, 0)?;
            let made = expr(alloc, around, terms, e)?;
            let behind = links_behind(alloc, around, terms, links, before)?;
            Ok(Expr::Chain(Box::new(alloc, made)?, behind))
        }
    }
}

/// The expressions of a list made flat.
#[cycle(flatten)]
fn exprs(
    alloc: Global,
    around: Around<'_>,
    terms: &mut Terms,
    es: &[Expr],
) -> Result<Vec<Expr>, AllocError>
    ensures { IfOk result (λ made. (fs : List Fun) → GiveThese fs around.entry → AreMade fs (incs_of around.entry) (meanings es.now) (terms_in fs terms.old.terms.items) (meanings made.items) (terms_in fs terms.new.terms.items)) }
{
    let mut made = Vec::new(alloc);
    for e in es {
        let e = expr(alloc, around, terms, e)?;
        made.push(e)?;
    }
    Ok(made)
}

/// An expression over incarnations made flat: for each application, select and update in it a term is read, which is in the table from now
/// on.
///
/// Only want of memory is an error; 2^32 incarnations and terms count as such.
pub fn flat(
    alloc: Global,
    around: Around<'_>,
    terms: &mut Terms,
    e: &Expr,
) -> Result<Expr, AllocError>
    ensures made { IfOk result (λ x. (fs : List Fun) → GiveThese fs around.entry → meaning x ≡ numbered fs (incs_of around.entry) (meaning e.now) (terms_in fs terms.old.terms.items)) }
    ensures table { OnOk result ((fs : List Fun) → GiveThese fs around.entry → terms_in fs terms.new.terms.items ≡ behind fs (incs_of around.entry) (meaning e.now) (terms_in fs terms.old.terms.items)) }
{
    expr(alloc, around, terms, e)
}

/// The expressions of a list made flat.
pub fn all_flat(
    alloc: Global,
    around: Around<'_>,
    terms: &mut Terms,
    es: &[Expr],
) -> Result<Vec<Expr>, AllocError>
    ensures made { IfOk result (λ made. (fs : List Fun) → GiveThese fs around.entry → listed (meanings made.items) ≡ all_numbered fs (incs_of around.entry) (listed (meanings es.now)) (terms_in fs terms.old.terms.items)) }
    ensures table { OnOk result ((fs : List Fun) → GiveThese fs around.entry → terms_in fs terms.new.terms.items ≡ all_behind fs (incs_of around.entry) (listed (meanings es.now)) (terms_in fs terms.old.terms.items)) }
{
    exprs(alloc, around, terms, es)
}
