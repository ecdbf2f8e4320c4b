//! Expressions: their names become numbers, and the first fault is noted.
ghost use Rattle.std.specs.Prelude.{◌≡◌, ◌++◌, map, flat_map, IfOk, IfErr, OnOk};
ghost use Rattle.bg_text.specs.Views.{id_of};
ghost use Rattle.bg_ast.specs.Resolved as r;
ghost use Rattle.bg_ast.specs.Views.{ex_of, exs_of, link_view, bracket_view};
ghost use Rattle.bg_names.specs.Faults.{better};
ghost use Rattle.bg_names.specs.Spaces.{meaning, place, or_zero, use_faults};
ghost use Rattle.bg_names.specs.Exprs.{read_faults, read_as};
ghost use Rattle.bg_names.specs.Views.{scope_of, first_of, listed, expr_faults, named_expr, link_faults, named_link, bracket_faults, named_bracket};
ghost use Rattle.bg_names.specs.declared.error.ResolveError.TheVariants.{Memory};

use crate::error::{FaultKind, ResolveError};
use crate::names::{Names, has_name, number, place};
use crate::notes::{Notes, note, note_unless};
use crate::scope::{Meaning, Scope, look_up};
use bg_ast::resolved::{Bracket, Expr, Link, Variable};
use bg_base::Pos;
use bg_text::{Name, TreeBracket, TreeExpr, TreeLink};
use std::alloc::Global;

/// Notes that a name can't be read.
fn note_read<'a>(notes: &mut Notes<'a>, name: &'a Name, meaning: Meaning)
    ensures { first_of notes.new ≡ better (first_of notes.old) (read_faults name.now.pos name.now.text.items meaning) }
{
    match meaning {
        Meaning::Nothing => note(notes, FaultKind::UnknownName, name.pos, &name.text),
        Meaning::Candidate(_) => note(notes, FaultKind::BadCandidateUse, name.pos, &name.text),
        _ => {}
    }
}

fn read_as(pos: Pos, meaning: Meaning) -> Expr
    ensures { ex_of result ≡ read_as pos meaning }
{
    match meaning {
        Meaning::Constant(k) => Expr::Constant(pos, k),
        Meaning::Global(k) => Expr::Read(pos, Variable::Global(k)),
        Meaning::Local(k) => Expr::Read(pos, Variable::Local(k)),
        _ => Expr::Truth(pos, false),
    }
}

fn read<'a>(scope: &Scope, notes: &mut Notes<'a>, name: &'a Name) -> Result<Expr, ResolveError>
    ensures made { IfOk result (λ x. ex_of x ≡ read_as name.now.pos (meaning (scope_of scope.now) name.now.text.items)) }
    ensures first { OnOk result (first_of notes.new ≡ better (first_of notes.old) (read_faults name.now.pos name.now.text.items (meaning (scope_of scope.now) name.now.text.items))) }
    ensures err { IfErr result (λ e. e ≡ Memory) }
{
    let meaning = look_up(scope, &name.text)?;
    note_read(notes, name, meaning);
    Ok(read_as(name.pos, meaning))
}

/// The number of a name in its space; the first one where it is unknown.
pub fn number_of(names: &Names, name: &Name) -> Result<u32, ResolveError>
    ensures ok { IfOk result (λ k. k ≡ or_zero (place (listed names.now) name.now.text.items)) }
    ensures err { IfErr result (λ e. e ≡ Memory) }
{
    match place(names, &name.text) {
        Some(at) => number(at),
        None => Ok(0),
    }
}

/// Notes that a name isn't in its space.
pub fn note_use<'a>(names: &Names, notes: &mut Notes<'a>, name: &'a Name)
    ensures { first_of notes.new ≡ better (first_of notes.old) (use_faults (listed names.now) (id_of name.now)) }
{
    let is_known = has_name(names, &name.text);
    note_unless(
        notes,
        is_known,
        FaultKind::UnknownName,
        name.pos,
        &name.text,
    );
}

#[tactic(auto, using(crate::proofs::Forms::forms))]
fn apply_node(pos: Pos, function: u32, args: Vec<Expr>) -> Expr
    ensures { ex_of result ≡ r.Apply pos function (exs_of (map ex_of args.items)) }
{
    Expr::Apply(pos, function, args)
}

/// An expression. Errors: Memory.
#[tactic(auto, using(crate::proofs::Forms::forms))]
#[cycle(name_expr)]
pub fn expr<'a>(
    alloc: Global,
    scope: &Scope,
    notes: &mut Notes<'a>,
    e: &'a TreeExpr,
) -> Result<Expr, ResolveError>
    ensures made { IfOk result (λ x. ex_of x ≡ named_expr (scope_of scope.now) e.now) }
    ensures first { OnOk result (first_of notes.new ≡ better (first_of notes.old) (expr_faults (scope_of scope.now) e.now)) }
    ensures err { IfErr result (λ e. e ≡ Memory) }
{
    match e {
        TreeExpr::Number(pos, n) => Ok(Expr::Number(*pos, *n)),
        TreeExpr::Truth(pos, b) => Ok(Expr::Truth(*pos, *b)),
        TreeExpr::Named(name) => read(scope, notes, name),
        TreeExpr::Apply(name, args) => apply(alloc, scope, notes, name, args),
        TreeExpr::Old(pos, e) => {
            note_unless(notes, scope.has_old, FaultKind::BadOld, *pos, &[]);
            let made = boxed(alloc, scope, notes, e)?;
            Ok(Expr::Old(*pos, made))
        }
        TreeExpr::Parens(pos, e) => {
            let made = boxed(alloc, scope, notes, e)?;
            Ok(Expr::Parens(*pos, made))
        }
        TreeExpr::Prefix(signs, e) => {
            let signs = signs.to_vec(alloc)?;
            let made = boxed(alloc, scope, notes, e)?;
            Ok(Expr::Prefix(signs, made))
        }
        TreeExpr::Postfix(e, brackets) => {
            let made = boxed(alloc, scope, notes, e)?;
            let behind = brackets_behind(alloc, scope, notes, brackets)?;
            Ok(Expr::Postfix(made, behind))
        }
        TreeExpr::Chain(e, links) => {
            let made = boxed(alloc, scope, notes, e)?;
            let behind = links_behind(alloc, scope, notes, links)?;
            Ok(Expr::Chain(made, behind))
        }
    }
}

/// An expression in a place of its own.
#[tactic(auto, using(crate::proofs::Forms::forms))]
#[cycle(name_expr)]
fn boxed<'a>(
    alloc: Global,
    scope: &Scope,
    notes: &mut Notes<'a>,
    e: &'a TreeExpr,
) -> Result<Box<Expr>, ResolveError>
    ensures made { IfOk result (λ x. ex_of x.value ≡ named_expr (scope_of scope.now) e.now) }
    ensures first { OnOk result (first_of notes.new ≡ better (first_of notes.old) (expr_faults (scope_of scope.now) e.now)) }
    ensures err { IfErr result (λ e. e ≡ Memory) }
{
    let made = expr(alloc, scope, notes, e)?;
    Ok(Box::new(alloc, made)?)
}

#[tactic(auto, using(crate::proofs::Forms::forms))]
#[cycle(name_expr)]
fn apply<'a>(
    alloc: Global,
    scope: &Scope,
    notes: &mut Notes<'a>,
    name: &'a Name,
    args: &'a [TreeExpr],
) -> Result<Expr, ResolveError>
    ensures made { IfOk result (λ x. ex_of x ≡ r.Apply name.now.pos (or_zero (place (listed scope.now.functions.now) name.now.text.items)) (exs_of (map (named_expr (scope_of scope.now)) args.now))) }
    ensures first { OnOk result (first_of notes.new ≡ better (first_of notes.old) (use_faults (listed scope.now.functions.now) (id_of name.now) ++ flat_map (expr_faults (scope_of scope.now)) args.now)) }
    ensures err { IfErr result (λ e. e ≡ Memory) }
{
    note_use(scope.functions, notes, name);
    let function = number_of(scope.functions, name)?;
    let args = exprs(alloc, scope, notes, args)?;
    Ok(apply_node(name.pos, function, args))
}

/// Expressions of a list. Errors: Memory.
#[tactic(auto, using(crate::proofs::Forms::forms))]
#[cycle(name_expr)]
pub fn exprs<'a>(
    alloc: Global,
    scope: &Scope,
    notes: &mut Notes<'a>,
    es: &'a [TreeExpr],
) -> Result<Vec<Expr>, ResolveError>
    ensures made { IfOk result (λ made. map ex_of made.items ≡ map (named_expr (scope_of scope.now)) es.now) }
    ensures first { OnOk result (first_of notes.new ≡ better (first_of notes.old) (flat_map (expr_faults (scope_of scope.now)) es.now)) }
    ensures err { IfErr result (λ e. e ≡ Memory) }
{
    let mut made = Vec::new(alloc);
    for e in es {
        let e = expr(alloc, scope, notes, e)?;
        made.push(e)?;
    }
    Ok(made)
}

#[tactic(auto, using(crate::proofs::Forms::forms))]
#[cycle(name_expr)]
fn bracket<'a>(
    alloc: Global,
    scope: &Scope,
    notes: &mut Notes<'a>,
    bracket: &'a TreeBracket,
) -> Result<Bracket, ResolveError>
    ensures made { IfOk result (λ b. bracket_view b ≡ named_bracket (scope_of scope.now) bracket.now) }
    ensures first { OnOk result (first_of notes.new ≡ better (first_of notes.old) (bracket_faults (scope_of scope.now) bracket.now)) }
    ensures err { IfErr result (λ e. e ≡ Memory) }
{
    match bracket {
        TreeBracket::Select(pos, indices) => {
            let indices = exprs(alloc, scope, notes, indices)?;
            Ok(Bracket::Select(*pos, indices))
        }
        TreeBracket::Update(pos, indices, value) => {
            let indices = exprs(alloc, scope, notes, indices)?;
            let value = expr(alloc, scope, notes, value)?;
            Ok(Bracket::Update(*pos, indices, value))
        }
    }
}

#[tactic(auto, using(crate::proofs::Forms::forms))]
#[cycle(name_expr)]
fn brackets_behind<'a>(
    alloc: Global,
    scope: &Scope,
    notes: &mut Notes<'a>,
    brackets: &'a [TreeBracket],
) -> Result<Vec<Bracket>, ResolveError>
    ensures made { IfOk result (λ made. map bracket_view made.items ≡ map (named_bracket (scope_of scope.now)) brackets.now) }
    ensures first { OnOk result (first_of notes.new ≡ better (first_of notes.old) (flat_map (bracket_faults (scope_of scope.now)) brackets.now)) }
    ensures err { IfErr result (λ e. e ≡ Memory) }
{
    let mut made = Vec::new(alloc);
    for b in brackets {
        let b = bracket(alloc, scope, notes, b)?;
        made.push(b)?;
    }
    Ok(made)
}

#[tactic(auto, using(crate::proofs::Forms::forms))]
#[cycle(name_expr)]
fn link<'a>(
    alloc: Global,
    scope: &Scope,
    notes: &mut Notes<'a>,
    link: &'a TreeLink,
) -> Result<Link, ResolveError>
    ensures made { IfOk result (λ l. link_view l ≡ named_link (scope_of scope.now) link.now) }
    ensures first { OnOk result (first_of notes.new ≡ better (first_of notes.old) (link_faults (scope_of scope.now) link.now)) }
    ensures err { IfErr result (λ e. e ≡ Memory) }
{
    let operand = expr(alloc, scope, notes, &link.operand)?;
    Ok(Link {
        pos: link.pos,
        sign: link.sign,
        operand,
    })
}

/// Operands behind the first. Errors: Memory.
#[tactic(auto, using(crate::proofs::Forms::forms))]
#[cycle(name_expr)]
pub fn links_behind<'a>(
    alloc: Global,
    scope: &Scope,
    notes: &mut Notes<'a>,
    links: &'a [TreeLink],
) -> Result<Vec<Link>, ResolveError>
    ensures made { IfOk result (λ made. map link_view made.items ≡ map (named_link (scope_of scope.now)) links.now) }
    ensures first { OnOk result (first_of notes.new ≡ better (first_of notes.old) (flat_map (link_faults (scope_of scope.now)) links.now)) }
    ensures err { IfErr result (λ e. e ≡ Memory) }
{
    let mut made = Vec::new(alloc);
    for l in links {
        let l = link(alloc, scope, notes, l)?;
        made.push(l)?;
    }
    Ok(made)
}
