//! Opened statements.
ghost use Rattle.std.specs.Prelude.{◌≡◌, map, IfOk};
ghost use Rattle.bg_ast.specs.Views.{clause_of, guard_of, bracket_of, target_of, call_of, st_of, arm_view};
ghost use Rattle.bg_opened.specs.Written as w;
ghost use Rattle.bg_opening.specs.Desks.{opened_at};

use crate::exprs::{Desk, all_opened, opened};
use bg_ast::resolved::{Arm, Call, Clause, Guard, Indices, Stmt, Target};
use std::alloc::AllocError;

fn clause(desk: Desk<'_>, k: &Clause) -> Result<Clause, AllocError>
    ensures { IfOk result (λ x. clause_of x ≡ w.opened_clause (opened_at desk.entry) (clause_of k.now)) }
{
    Ok(Clause {
        pos: k.pos,
        id: k.id,
        is_free: k.is_free,
        candidate: k.candidate,
        formula: opened(desk, &k.formula)?,
    })
}

/// Clauses, each opened.
pub fn clauses(desk: Desk<'_>, ks: &[Clause]) -> Result<Vec<Clause>, AllocError>
    ensures { IfOk result (λ made. map clause_of made.items ≡ map (w.opened_clause (opened_at desk.entry)) (map clause_of ks.now)) }
{
    let mut made = Vec::new(desk.alloc);
    for k in ks {
        let k = clause(desk, k)?;
        made.push(k)?;
    }
    Ok(made)
}

fn guard(desk: Desk<'_>, g: &Guard) -> Result<Guard, AllocError>
    ensures { IfOk result (λ x. guard_of x ≡ w.opened_guard (opened_at desk.entry) (guard_of g.now)) }
{
    match g {
        Guard::Star => Ok(Guard::Star),
        Guard::Test(e) => Ok(Guard::Test(opened(desk, e)?)),
    }
}

fn bracket(desk: Desk<'_>, b: &Indices) -> Result<Indices, AllocError>
    ensures { IfOk result (λ x. bracket_of x ≡ w.opened_bracket (opened_at desk.entry) (bracket_of b.now)) }
{
    let indices = all_opened(desk, &b.indices)?;
    Ok(Indices {
        pos: b.pos,
        indices,
    })
}

fn brackets(desk: Desk<'_>, bs: &[Indices]) -> Result<Vec<Indices>, AllocError>
    ensures { IfOk result (λ made. map bracket_of made.items ≡ map (w.opened_bracket (opened_at desk.entry)) (map bracket_of bs.now)) }
{
    let mut made = Vec::new(desk.alloc);
    for b in bs {
        let b = bracket(desk, b)?;
        made.push(b)?;
    }
    Ok(made)
}

fn targets(desk: Desk<'_>, ts: &[Target]) -> Result<Vec<Target>, AllocError>
    ensures { IfOk result (λ made. map target_of made.items ≡ map (w.opened_target (opened_at desk.entry)) (map target_of ts.now)) }
{
    let mut made = Vec::new(desk.alloc);
    for t in ts {
        let brackets = brackets(desk, &t.brackets)?;
        made.push(Target {
            placed: t.placed,
            brackets,
        })?;
    }
    Ok(made)
}

fn call(desk: Desk<'_>, k: &Call) -> Result<Call, AllocError>
    ensures { IfOk result (λ x. call_of x ≡ w.opened_call (opened_at desk.entry) (call_of k.now)) }
{
    Ok(Call {
        pos: k.pos,
        site: k.site,
        name_pos: k.name_pos,
        procedure: k.procedure,
        args: all_opened(desk, &k.args)?,
        takes: k.takes.to_vec(desk.alloc)?,
    })
}

#[cycle(open_stmts)]
fn stmt(desk: Desk<'_>, s: &Stmt) -> Result<Stmt, AllocError>
    ensures { IfOk result (λ x. st_of x ≡ w.opened_st (opened_at desk.entry) (st_of s.now)) }
{
    match s {
        Stmt::Label(l) => Ok(Stmt::Label(*l)),
        Stmt::Assert(k) => Ok(Stmt::Assert(clause(desk, k)?)),
        Stmt::Assume(e) => Ok(Stmt::Assume(opened(desk, e)?)),
        Stmt::Havoc(xs) => Ok(Stmt::Havoc(xs.to_vec(desk.alloc)?)),
        Stmt::Assign(pos, ts, es) => {
            let ts = targets(desk, ts)?;
            let es = all_opened(desk, es)?;
            Ok(Stmt::Assign(*pos, ts, es))
        }
        Stmt::Invoke(k) => Ok(Stmt::Invoke(call(desk, k)?)),
        Stmt::If(n, arms, otherwise) => {
            let arms = all_arms(desk, arms)?;
            let otherwise = stmts(desk, otherwise)?;
            Ok(Stmt::If(*n, arms, otherwise))
        }
        Stmt::While(n, pos, g, invariants, body) => {
            let g = guard(desk, g)?;
            let invariants = clauses(desk, invariants)?;
            let body = stmts(desk, body)?;
            Ok(Stmt::While(*n, *pos, g, invariants, body))
        }
        Stmt::Break(n) => Ok(Stmt::Break(*n)),
        Stmt::Goto(ls) => Ok(Stmt::Goto(ls.to_vec(desk.alloc)?)),
        Stmt::Return => Ok(Stmt::Return),
    }
}

#[cycle(open_stmts)]
fn arm(desk: Desk<'_>, a: &Arm) -> Result<Arm, AllocError>
    ensures { IfOk result (λ x. arm_view x ≡ w.opened_arm (opened_at desk.entry) (arm_view a.now)) }
{
    let guard = guard(desk, &a.guard)?;
    let body = stmts(desk, &a.body)?;
    Ok(Arm { guard, body })
}

#[cycle(open_stmts)]
fn all_arms(desk: Desk<'_>, arms: &[Arm]) -> Result<Vec<Arm>, AllocError>
    ensures { IfOk result (λ made. map arm_view made.items ≡ map (w.opened_arm (opened_at desk.entry)) (map arm_view arms.now)) }
{
    let mut made = Vec::new(desk.alloc);
    for a in arms {
        let a = arm(desk, a)?;
        made.push(a)?;
    }
    Ok(made)
}

/// Statements, each opened.
#[cycle(open_stmts)]
pub fn stmts(desk: Desk<'_>, ss: &[Stmt]) -> Result<Vec<Stmt>, AllocError>
    ensures { IfOk result (λ made. map st_of made.items ≡ map (w.opened_st (opened_at desk.entry)) (map st_of ss.now)) }
{
    let mut made = Vec::new(desk.alloc);
    for s in ss {
        let s = stmt(desk, s)?;
        made.push(s)?;
    }
    Ok(made)
}
