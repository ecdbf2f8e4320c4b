//! How many guesses loops have: what is left of a number behind them.
ghost use Rattle.std.specs.Prelude.{◌≡◌, ◌-◌, map};
ghost use Rattle.bg_ast.specs.Views.{st_of, sts_in, arms_from, arm_view};
ghost use Rattle.bg_guess.specs.Loops.{st_guesses, sts_guesses, arms_guesses};

use bg_ast::resolved::{Arm, Stmt};

/// What is left behind a statement, where each loop has so many.
#[tactic(auto, using(crate::proofs::Forms::loop_forms))]
#[cycle(pass_stmts)]
fn pass_stmt(left: u128, size: u128, a: &Stmt) -> u128
    ensures { result ≡ left - st_guesses size (st_of a.now) }
{
    match a {
        Stmt::If(_, arms, otherwise) => pass_stmts(pass_arms(left, size, arms), size, otherwise),
        Stmt::While(_, _, _, _, body) => pass_stmts(left.saturating_sub(size), size, body),
        _ => left,
    }
}

/// What is left behind arms.
#[tactic(auto, using(crate::proofs::Forms::loop_forms))]
#[cycle(pass_stmts)]
fn pass_arms(left: u128, size: u128, arms: &[Arm]) -> u128
    ensures { result ≡ left - arms_guesses size (arms_from (map arm_view arms.now)) }
{
    let mut rest = left;
    for a in arms {
        rest = pass_stmts(rest, size, &a.body);
    }
    rest
}

/// What is left behind statements.
#[tactic(auto, using(crate::proofs::Forms::loop_forms))]
#[cycle(pass_stmts)]
pub fn pass_stmts(left: u128, size: u128, ss: &[Stmt]) -> u128
    ensures { result ≡ left - sts_guesses size (sts_in ss.now) }
{
    let mut rest = left;
    for a in ss {
        rest = pass_stmt(rest, size, a);
    }
    rest
}
