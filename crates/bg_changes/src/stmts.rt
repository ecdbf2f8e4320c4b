//! What statements may change.
ghost use Rattle.std.specs.Prelude.{◌≡◌, map, slice_get};
ghost use Rattle.bg_ast.specs.Views.{st_of, sts_in, arms_from, arm_view, proc_of, call_of, placed_of};
ghost use Rattle.bg_ast.specs.Meaning.{variable_of};
ghost use Rattle.bg_changes.specs.Marks.{marks_of, with_marks, modifies_of, mark_st, mark_sts, mark_arms};

use crate::marks::{Marks, mark_globals, mark_placed, mark_targets};
use bg_ast::resolved::{Arm, Call, Procedure, Stmt};

/// Marks what a call may change.
#[tactic(auto, using(crate::proofs::There::modifies_forms))]
fn mark_call(marks: &mut Marks, procedures: &[Procedure], k: &Call)
    ensures { marks_of marks.new ≡ with_marks (modifies_of (slice_get (map proc_of procedures.now) k.now.procedure)) (with_marks (map variable_of (map placed_of k.now.takes.items)) (marks_of marks.old)) }
{
    mark_placed(marks, &k.takes);
    if let Some(q) = procedures.get(k.procedure as usize) {
        mark_globals(marks, &q.modifies);
    }
}

/// Marks what a statement may change.
#[tactic(auto, using(crate::proofs::Forms::mark_forms))]
#[cycle(mark_stmts)]
fn mark_stmt(marks: &mut Marks, procedures: &[Procedure], s: &Stmt)
    ensures { marks_of marks.new ≡ mark_st (map proc_of procedures.now) (st_of s.now) (marks_of marks.old) }
{
    match s {
        Stmt::Havoc(xs) => mark_placed(marks, xs),
        Stmt::Assign(_, ts, _) => mark_targets(marks, ts),
        Stmt::Invoke(k) => mark_call(marks, procedures, k),
        Stmt::If(_, arms, otherwise) => {
            mark_arms(marks, procedures, arms);
            mark_stmts(marks, procedures, otherwise);
        }
        Stmt::While(_, _, _, _, body) => mark_stmts(marks, procedures, body),
        _ => {}
    }
}

/// Marks what arms may change.
#[tactic(auto, using(crate::proofs::Forms::mark_forms))]
#[cycle(mark_stmts)]
fn mark_arms(marks: &mut Marks, procedures: &[Procedure], arms: &[Arm])
    ensures { marks_of marks.new ≡ mark_arms (map proc_of procedures.now) (arms_from (map arm_view arms.now)) (marks_of marks.old) }
{
    for a in arms {
        mark_stmts(marks, procedures, &a.body);
    }
}

/// Marks what statements may change, where these are the procedures.
#[tactic(auto, using(crate::proofs::Forms::mark_forms))]
#[cycle(mark_stmts)]
pub fn mark_stmts(marks: &mut Marks, procedures: &[Procedure], ss: &[Stmt])
    ensures { marks_of marks.new ≡ mark_sts (map proc_of procedures.now) (sts_in ss.now) (marks_of marks.old) }
{
    for s in ss {
        mark_stmt(marks, procedures, s);
    }
}
