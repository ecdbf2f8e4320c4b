//! Checks of statements: what is left of a number behind them.
ghost use Rattle.std.specs.Prelude.{◌≡◌, ◌-◌, ◌∷◌, [], get_or, map};
ghost use Rattle.bg_ast.specs.Views.{clause_of, st_of, sts_in, arms_from, arm_view};
ghost use Rattle.bg_places.specs.Checks.{checked, st_checks, sts_checks, arms_checks};

use bg_ast::resolved::{Arm, Clause, Stmt};

/// How many of these clauses are checked.
pub fn checked(clauses: &[Clause]) -> usize
    ensures { result ≡ checked (map clause_of clauses.now) }
{
    let mut count = 0;
    for k in clauses {
        if !k.is_free {
            count += 1;
        }
    }
    count
}

/// The number in this place, or 0.
pub fn number_at(numbers: &[usize], k: u32) -> usize
    ensures { result ≡ get_or numbers.now k 0 }
{
    match numbers.get(k as usize) {
        None => 0,
        Some(number) => *number,
    }
}

/// What is left behind an assertion.
fn pass_assert(left: usize, k: &Clause) -> usize
    ensures { result ≡ left - checked (clause_of k.now ∷ []) }
{
    left.saturating_sub(checked(std::slice::from_ref(k)))
}

/// What is left behind a statement, where the procedures have so many preconditions that are checked.
#[cycle(pass_stmts)]
fn pass_stmt(left: usize, required: &[usize], s: &Stmt) -> usize
    ensures { result ≡ left - st_checks required.now (st_of s.now) }
{
    match s {
        Stmt::Assert(k) => pass_assert(left, k),
        Stmt::Invoke(k) => left.saturating_sub(number_at(required, k.procedure)),
        Stmt::If(_, arms, otherwise) => {
            pass_stmts(pass_arms(left, required, arms), required, otherwise)
        }
        Stmt::While(_, _, _, invariants, body) => {
            let turn = checked(invariants);
            let inside = left.saturating_sub(turn);
            pass_stmts(inside, required, body).saturating_sub(turn)
        }
        _ => left,
    }
}

/// What is left behind arms.
#[cycle(pass_stmts)]
fn pass_arms(left: usize, required: &[usize], arms: &[Arm]) -> usize
    ensures { result ≡ left - arms_checks required.now (arms_from (map arm_view arms.now)) }
{
    let mut rest = left;
    for arm in arms {
        rest = pass_stmts(rest, required, &arm.body);
    }
    rest
}

/// What is left behind statements.
#[cycle(pass_stmts)]
pub fn pass_stmts(left: usize, required: &[usize], ss: &[Stmt]) -> usize
    ensures { result ≡ left - sts_checks required.now (sts_in ss.now) }
{
    let mut rest = left;
    for s in ss {
        rest = pass_stmt(rest, required, s);
    }
    rest
}
