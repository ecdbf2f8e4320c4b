//! Marks on variables.
ghost use Rattle.std.specs.Prelude.{◌≡◌, map, slice_set, true};
ghost use Rattle.bg_ast.specs.Syntax.{Global};
ghost use Rattle.bg_ast.specs.Views.{var_of, placed_of, target_of};
ghost use Rattle.bg_ast.specs.Meaning.{variable_of};
ghost use Rattle.bg_changes.specs.Marks.{marks_of, with_mark, with_marks, target_variable};

use bg_ast::resolved::{Placed, Target, Variable};

/// A mark for each global, and for each variable of the frame.
#[derive(Drop)]
pub struct Marks {
    pub globals: Vec<bool>,
    pub frame: Vec<bool>,
}

fn set(marks: &mut [bool], k: usize)
    ensures { marks.new ≡ slice_set marks.old k true }
{
    if k < marks.len() {
        marks[k] = true;
    }
}

/// Marks a variable, where there is such a one.
fn mark(marks: &mut Marks, x: Variable)
    ensures { marks_of marks.new ≡ with_mark (var_of x) (marks_of marks.old) }
{
    match x {
        Variable::Global(k) => set(&mut marks.globals, k as usize),
        Variable::Local(k) => set(&mut marks.frame, k as usize),
    }
}

/// Marks what is forgotten, or takes results.
pub fn mark_placed(marks: &mut Marks, xs: &[Placed])
    ensures { marks_of marks.new ≡ with_marks (map variable_of (map placed_of xs.now)) (marks_of marks.old) }
{
    for x in xs {
        mark(marks, x.variable);
    }
}

/// Marks what is assigned.
pub fn mark_targets(marks: &mut Marks, ts: &[Target])
    ensures { marks_of marks.new ≡ with_marks (map target_variable (map target_of ts.now)) (marks_of marks.old) }
{
    for t in ts {
        mark(marks, t.placed.variable);
    }
}

/// Marks globals.
pub fn mark_globals(marks: &mut Marks, ks: &[u32])
    ensures { marks_of marks.new ≡ with_marks (map Global ks.now) (marks_of marks.old) }
{
    for k in ks {
        mark(marks, Variable::Global(*k));
    }
}
