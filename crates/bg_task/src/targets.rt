//! The targets of incarnations and terms.
ghost use Rattle.std.specs.Prelude.{◌≡◌, ◌==◌, List, ℤ, false, if◌then◌else◌, length, slice_get, unwrap_or, pos, ◌+ℤ◌, [], ◌∷◌, ◌++◌, map, IfOk, OnOk};
ghost use Rattle.std.specs.List.{list_any};
ghost use Rattle.bg_ast.specs.Syntax.{Read, Fun};
ghost use Rattle.bg_ast.specs.Views.{var_of};
ghost use Rattle.bg_slice.specs.Marks.{marked};
ghost use Rattle.bg_term_table.specs.Views.{meaning, meanings, listed, terms_in};
ghost use Rattle.bg_task.specs.Targets.{reads, is_spread, literal, passed, past, past_all, spread_from, targets_of};
ghost use Rattle.bg_ast.specs.Values.{BoolTy};
ghost use Rattle.bg_kinds.specs.Views.{base_of, ref_in, ref_of};
ghost use Rattle.bg_task.specs.Spread.{both, apart_at};

use bg_ast::resolved::{Expr, Link, Variable};
use bg_fits::base_in;
use bg_kinds::{Base, TypeRef, ValueType, plain};
use bg_term_table::Term;
use std::alloc::{AllocError, Global};

/// The incarnation or term with this number is marked, where it has a mark.
fn mark_one(marks: &mut [bool], j: u32)
    ensures { marks.new ≡ marked (λ k. k == j) 0 marks.old }
{
    let i = j as usize;
    if i < marks.len() {
        marks[i] = true;
    }
}

/// What a read names is marked, if it is an incarnation or a term.
fn mark_read(marks: &mut [bool], x: Variable)
    ensures { marks.new ≡ marked (λ k. reads k (Read (var_of x))) 0 marks.old }
{
    match x {
        Variable::Global(_) => {}
        Variable::Local(j) => mark_one(marks, j),
    }
}

/// What a flat expression reads is marked.
#[cycle(mark_expr)]
fn mark(marks: &mut [bool], e: &Expr)
    ensures { marks.new ≡ marked (λ k. reads k (meaning e.now)) 0 marks.old }
{
    match e {
        Expr::Number(_, _) => {}
        Expr::Truth(_, _) => {}
        Expr::Constant(_, _) => {}
        Expr::Read(_, x) => mark_read(marks, *x),
        Expr::Apply(_, _, _) => {}
        Expr::Old(_, _) => {}
        Expr::Parens(_, e) => mark(marks, e),
        Expr::Prefix(_, e) => mark(marks, e),
        Expr::Postfix(e, brackets) => {
            if brackets.is_empty() {
                mark(marks, e);
            }
        }
        Expr::Chain(e, links) => {
            mark(marks, e);
            mark_links(marks, links);
        }
    }
}

#[cycle(mark_expr)]
fn mark_links(marks: &mut [bool], links: &[Link])
    ensures { marks.new ≡ marked (λ k. list_any (λ l. reads k (meaning l.operand)) links.now) 0 marks.old }
{
    for l in links {
        mark(marks, &l.operand);
    }
}

fn mark_args(marks: &mut [bool], es: &[Expr])
    ensures { marks.new ≡ marked (λ k. list_any (λ e. reads k (meaning e)) es.now) 0 marks.old }
{
    for e in es {
        mark(marks, e);
    }
}

/// What stands in an argument of a term is marked.
fn mark_terms(marks: &mut [bool], terms: &[Term])
    ensures { marks.new ≡ marked (λ k. list_any (λ t. list_any (λ e. reads k (meaning e)) t.args.items) terms.now) 0 marks.old }
{
    for t in terms {
        mark_args(marks, &t.args);
    }
}

/// The number that an expression is, and 0 if it is none.
fn literal(e: &Expr) -> i128
    ensures { result ≡ literal (meaning e.now) }
{
    match e {
        Expr::Number(_, z) => *z,
        Expr::Truth(_, _) => 0,
        Expr::Constant(_, _) => 0,
        Expr::Read(_, _) => 0,
        Expr::Apply(_, _, _) => 0,
        Expr::Old(_, _) => 0,
        Expr::Parens(_, e) => literal(e),
        Expr::Prefix(signs, e) => { if signs.is_empty() { literal(e) } else { 0 } }
        Expr::Postfix(e, brackets) => { if brackets.is_empty() { literal(e) } else { 0 } }
        Expr::Chain(e, links) => { if links.is_empty() { literal(e) } else { 0 } }
    }
}

fn is_spread_base(base: Base) -> bool
    ensures { result ≡ is_spread (base_of base) }
{
    match base {
        Base::Bool => false,
        Base::Int => true,
        Base::User(_) => true,
    }
}

/// Whether what has this type is to differ where it stands in arguments.
fn is_spread(t: TypeRef<'_>) -> bool
    ensures { result ≡ is_spread (ref_of t.entry) }
{
    match base_in(t) {
        None => false,
        Some(base) => is_spread_base(base),
    }
}

/// The type of the incarnation or term with this number.
fn kind_at(kinds: &[ValueType], i: usize) -> TypeRef<'_>
    ensures { ref_of result ≡ unwrap_or (slice_get (map ref_in kinds.now) i) BoolTy }
{
    match kinds.get(i) {
        None => plain(Base::Bool),
        Some(t) => t.as_ref(),
    }
}

fn mark_at(marks: &[bool], i: usize) -> bool
    ensures { result ≡ unwrap_or (slice_get marks.now i) false }
{
    match marks.get(i) {
        None => false,
        Some(b) => *b,
    }
}

/// Whether the incarnation or term with this number is to differ, where these are marked.
fn is_apart(kinds: &[ValueType], marks: &[bool], i: usize) -> bool
    ensures { result ≡ apart_at (map ref_in kinds.now) marks.now i }
{
    if is_spread(kind_at(kinds, i)) {
        mark_at(marks, i)
    } else {
        false
    }
}

/// The target of what is to differ, or isn't, where the next one is this.
fn target_of(apart: bool, next: i128) -> i128
    ensures { result ≡ (if apart then next else pos 0) }
{
    if apart { next } else { 0 }
}

/// The next number; more than a number holds are more than memory holds.
fn one_more(z: i128) -> Result<i128, AllocError>
    ensures { IfOk result (λ k. k ≡ z +ℤ pos 1) }
{
    match z.checked_add(1) {
        Some(k) => Ok(k),
        None => Err(AllocError),
    }
}

/// The next target behind what is to differ, or isn't.
fn behind(apart: bool, next: i128) -> Result<i128, AllocError>
    ensures { IfOk result (λ k. k ≡ (if apart then next +ℤ pos 1 else next)) }
{
    if apart { one_more(next) } else { Ok(next) }
}

/// Targets so far, and the next one for what is to differ.
#[derive(Drop)]
pub struct Dealt {
    pub made: Vec<i128>,
    pub next: i128,
}

/// One more target.
fn add(s: &mut Dealt, apart: bool) -> Result<(), AllocError>
    ensures made { OnOk result (s.new.made.items ≡ s.old.made.items ++ ((if apart then s.old.next else pos 0) ∷ [])) }
    ensures next { OnOk result (s.new.next ≡ (if apart then s.old.next +ℤ pos 1 else s.old.next)) }
{
    s.made.push(target_of(apart, s.next))?;
    s.next = behind(apart, s.next)?;
    Ok(())
}

/// Targets come behind this number, unless it is out of proportion.
fn pass(s: &mut Dealt, n: i128)
    ensures made { s.new.made.items ≡ s.old.made.items }
    ensures next { s.new.next ≡ passed s.old.next n }
{
    if s.next <= n && n < 1_000_000_000 {
        s.next = n + 1;
    }
}

/// Targets come behind the numbers among these expressions.
fn pass_args(s: &mut Dealt, es: &[Expr])
    ensures made { s.new.made.items ≡ s.old.made.items }
    ensures next { s.new.next ≡ past s.old.next (listed (meanings es.now)) }
{
    for e in es {
        let n = literal(e);
        pass(s, n);
    }
}

/// Targets come behind the numbers that are an argument of these terms.
fn pass_terms(s: &mut Dealt, terms: &[Term])
    ensures made { s.new.made.items ≡ s.old.made.items }
    ensures next { (fs : List Fun) → s.new.next ≡ past_all s.old.next (terms_in fs terms.now) }
{
    for t in terms {
        pass_args(s, &t.args);
    }
}

/// The targets from the next one on, by marks of what stands in arguments.
fn spread(s: &mut Dealt, kinds: &[ValueType], marks: &[bool]) -> Result<(), AllocError>
    requires { length marks.now ≡ length kinds.now }
    ensures { OnOk result (s.new.made.items ≡ s.old.made.items ++ spread_from s.old.next (both (map ref_in kinds.now) marks.now)) }
{
    for i in 0..kinds.len() {
        let apart = is_apart(kinds, marks, i);
        add(s, apart)?;
    }
    Ok(())
}

/// The targets of incarnations and terms of these types, where the terms are these: for numbers and elements that stand in an argument, in
/// the order of their numbers, those behind the largest number that is an argument, one after the other, and 0 for all else.
pub fn targets_of(
    alloc: Global,
    kinds: &[ValueType],
    terms: &[Term],
) -> Result<Vec<i128>, AllocError>
    ensures { IfOk result (λ made. (fs : List Fun) → made.items ≡ targets_of (map ref_in kinds.now) (terms_in fs terms.now)) }
{
    let mut marks = vec![in alloc; false; kinds.len()]?;
    mark_terms(&mut marks, terms);
    let mut s = Dealt {
        made: Vec::new(alloc),
        next: 1,
    };
    pass_terms(&mut s, terms);
    spread(&mut s, kinds, &marks)?;
    Ok(s.made)
}
