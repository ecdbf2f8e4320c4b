//! Guesses as clauses of a tree.
ghost use Rattle.std.specs.Prelude.{◌≡◌, ◌++◌, map, slice_get, IfOk, OnOk};
ghost use Rattle.bg_text.specs.Trees as t;
ghost use Rattle.bg_text.specs.Views as v;
ghost use Rattle.bg_text.specs.Views.{option_of as optional};
ghost use Rattle.bg_ast.specs.Views.{clause_of, declared_of, ex_of, link_view, links_of, var_of};
ghost use Rattle.bg_keep.specs.Guesses as g;
ghost use Rattle.bg_keep.specs.Views.{listed};

use crate::clauses::is_in;
use bg_ast::resolved::{Clause, Declared, Expr, Link, Variable};
use bg_base::Pos;
use bg_text::{Name, Spec, TreeClause, TreeExpr, TreeLink};
use bg_words::CandSet;
use std::alloc::{AllocError, Global};

/// The variables that a clause may speak of: globals, and parameters, results and locals, which make one frame.
#[derive(Clone, Copy)]
pub struct Names<'a> {
    pub globals: &'a [Declared],
    pub params: &'a [Declared],
    pub results: &'a [Declared],
    pub locals: &'a [Declared],
}

/// What stands for an expression that no guess has.
fn other() -> TreeExpr
    ensures { v.ex_of result ≡ g.other }
{
    TreeExpr::Truth(Pos { line: 0, column: 0 }, true)
}

/// The variable with this number among these.
fn read_in(alloc: Global, pos: Pos, declared: &[Declared], k: usize) -> Result<TreeExpr, AllocError>
    ensures { IfOk result (λ e. v.ex_of e ≡ g.read_as pos (slice_get (map declared_of declared.now) k)) }
{
    match declared.get(k) {
        None => Ok(TreeExpr::Truth(pos, true)),
        Some(d) => Ok(TreeExpr::Named(Name {
            pos,
            text: Vec::from_slice(alloc, &d.name.text)?,
        })),
    }
}

/// The variable with this number in the frame.
#[tactic(auto, using(crate::proofs::Framed::in_front, crate::proofs::Framed::in_back))]
fn read_local(alloc: Global, pos: Pos, f: &Names<'_>, k: usize) -> Result<TreeExpr, AllocError>
    ensures { IfOk result (λ e. v.ex_of e ≡ g.read_as pos (slice_get (map declared_of f.now.params.now ++ (map declared_of f.now.results.now ++ map declared_of f.now.locals.now)) k)) }
{
    if k < f.params.len() {
        return read_in(alloc, pos, f.params, k);
    }
    let k = k - f.params.len();
    if k < f.results.len() {
        return read_in(alloc, pos, f.results, k);
    }
    read_in(alloc, pos, f.locals, k - f.results.len())
}

/// A variable by its name.
fn read(alloc: Global, pos: Pos, f: &Names<'_>, x: Variable) -> Result<TreeExpr, AllocError>
    ensures { IfOk result (λ e. v.ex_of e ≡ g.read (g.names_of f.now) pos (var_of x)) }
{
    match x {
        Variable::Global(k) => read_in(alloc, pos, f.globals, k as usize),
        Variable::Local(k) => read_local(alloc, pos, f, k as usize),
    }
}

/// A number or a variable.
fn atom(alloc: Global, f: &Names<'_>, e: &Expr) -> Result<TreeExpr, AllocError>
    ensures { IfOk result (λ x. v.ex_of x ≡ g.atom (g.names_of f.now) (ex_of e.now)) }
{
    match e {
        Expr::Number(pos, z) => Ok(TreeExpr::Number(*pos, *z)),
        Expr::Read(pos, x) => read(alloc, *pos, f, *x),
        _ => Ok(other()),
    }
}

/// The same, or what it was at entry.
fn operand(alloc: Global, f: &Names<'_>, e: &Expr) -> Result<TreeExpr, AllocError>
    ensures { IfOk result (λ x. v.ex_of x ≡ g.operand (g.names_of f.now) (ex_of e.now)) }
{
    match e {
        Expr::Old(pos, inside) => {
            let inside = atom(alloc, f, inside)?;
            Ok(TreeExpr::Old(*pos, Box::new(alloc, inside)?))
        }
        _ => atom(alloc, f, e),
    }
}

/// The operand behind the sign.
fn behind(alloc: Global, f: &Names<'_>, links: &[Link]) -> Result<Vec<TreeLink>, AllocError>
    ensures { IfOk result (λ made. v.links_of (map v.link_view made.items) ≡ g.behind (g.names_of f.now) (links_of (map link_view links.now))) }
{
    if links.len() != 1 {
        return Ok(Vec::new(alloc));
    }
    let link = &links[0];
    let operand = operand(alloc, f, &link.operand)?;
    let mut made = Vec::new(alloc);
    made.push(TreeLink {
        pos: link.pos,
        sign: link.sign,
        operand,
    })?;
    Ok(made)
}

/// A relation of two operands, as all guesses are.
fn relation(alloc: Global, f: &Names<'_>, e: &Expr) -> Result<TreeExpr, AllocError>
    ensures { IfOk result (λ x. v.ex_of x ≡ g.relation (g.names_of f.now) (ex_of e.now)) }
{
    match e {
        Expr::Chain(first, links) => {
            let first = atom(alloc, f, first)?;
            let links = behind(alloc, f, links)?;
            Ok(TreeExpr::Chain(Box::new(alloc, first)?, links))
        }
        _ => Ok(other()),
    }
}

/// What is kept of a guess.
fn kept_guess(
    alloc: Global,
    set: &CandSet,
    f: &Names<'_>,
    c: &Clause,
) -> Result<Option<TreeClause>, AllocError>
    ensures { IfOk result (λ made. listed (optional v.clause_of made) ≡ g.kept_guess set.now (g.names_of f.now) (clause_of c.now)) }
{
    let Some(candidate) = c.candidate else {
        return Ok(None);
    };
    if !is_in(set, candidate) {
        return Ok(None);
    }
    Ok(Some(TreeClause {
        pos: c.pos,
        is_free: false,
        attributes: Vec::new(alloc),
        formula: relation(alloc, f, &c.formula)?,
    }))
}

/// Adds what is kept of a guess.
fn push_guess(
    alloc: Global,
    set: &CandSet,
    f: &Names<'_>,
    c: &Clause,
    out: &mut Vec<TreeClause>,
) -> Result<(), AllocError>
    ensures { OnOk result (map v.clause_of out.new.items ≡ map v.clause_of out.old.items ++ g.kept_guess set.now (g.names_of f.now) (clause_of c.now)) }
{
    if let Some(kept) = kept_guess(alloc, set, f, c)? {
        out.push(kept)?;
    }
    Ok(())
}

/// Adds what is kept of a guessed precondition.
fn push_require(
    alloc: Global,
    set: &CandSet,
    f: &Names<'_>,
    c: &Clause,
    out: &mut Vec<Spec>,
) -> Result<(), AllocError>
    ensures { OnOk result (map v.spec_of out.new.items ≡ map v.spec_of out.old.items ++ map t.Requires (g.kept_guess set.now (g.names_of f.now) (clause_of c.now))) }
{
    if let Some(kept) = kept_guess(alloc, set, f, c)? {
        out.push(Spec::Requires(kept))?;
    }
    Ok(())
}

/// Adds what is kept of a guessed postcondition.
fn push_ensure(
    alloc: Global,
    set: &CandSet,
    f: &Names<'_>,
    c: &Clause,
    out: &mut Vec<Spec>,
) -> Result<(), AllocError>
    ensures { OnOk result (map v.spec_of out.new.items ≡ map v.spec_of out.old.items ++ map t.Ensures (g.kept_guess set.now (g.names_of f.now) (clause_of c.now))) }
{
    if let Some(kept) = kept_guess(alloc, set, f, c)? {
        out.push(Spec::Ensures(kept))?;
    }
    Ok(())
}

/// Adds what is kept of guesses.
pub fn push_guesses(
    alloc: Global,
    set: &CandSet,
    f: &Names<'_>,
    guesses: &[Clause],
    out: &mut Vec<TreeClause>,
) -> Result<(), AllocError>
    ensures { OnOk result (map v.clause_of out.new.items ≡ map v.clause_of out.old.items ++ g.kept_guesses set.now (g.names_of f.now) (map clause_of guesses.now)) }
{
    for c in guesses {
        push_guess(alloc, set, f, c, out)?;
    }
    Ok(())
}

/// Adds what is kept of guessed preconditions.
pub fn push_required(
    alloc: Global,
    set: &CandSet,
    f: &Names<'_>,
    guesses: &[Clause],
    out: &mut Vec<Spec>,
) -> Result<(), AllocError>
    ensures { OnOk result (map v.spec_of out.new.items ≡ map v.spec_of out.old.items ++ map t.Requires (g.kept_guesses set.now (g.names_of f.now) (map clause_of guesses.now))) }
{
    for c in guesses {
        push_require(alloc, set, f, c, out)?;
    }
    Ok(())
}

/// Adds what is kept of guessed postconditions.
pub fn push_ensured(
    alloc: Global,
    set: &CandSet,
    f: &Names<'_>,
    guesses: &[Clause],
    out: &mut Vec<Spec>,
) -> Result<(), AllocError>
    ensures { OnOk result (map v.spec_of out.new.items ≡ map v.spec_of out.old.items ++ map t.Ensures (g.kept_guesses set.now (g.names_of f.now) (map clause_of guesses.now))) }
{
    for c in guesses {
        push_ensure(alloc, set, f, c, out)?;
    }
    Ok(())
}
