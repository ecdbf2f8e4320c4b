//! The marks of the open path and of those that wait.
ghost use Rattle.std.specs.Prelude.{◌≡◌, ◌∷◌, ◌++◌, [], IfOk, OnOk, List, reverse};
ghost use Rattle.bg_formula.specs.Formulas.{Formula};
ghost use Rattle.bg_cert.specs.Paths.{PathOf};
ghost use Rattle.bg_pick.specs.declared.index.Index.{Index};
ghost use Rattle.bg_pick.specs.Marks.{marks_of, AllReady};

use crate::mark::Mark;
use std::alloc::{AllocError, Global};

/// The mark of the open path, and those of the paths that wait, the next one last.
#[derive(Drop)]
pub struct Guide {
    pub mark: Mark,
    pub marks: Vec<Mark>,
}

/// The marks where the root is open alone.
pub fn first_guide(alloc: Global) -> Guide
    ensures { marks_of result ≡ record { row = 0; place = 0; clause = 0; atom = 0; look = 0; top = 0; from = 0; asked = 0; done = 0; reached = 0; unmet = 0; untrue = 0 } ∷ [] }
{
    Guide {
        mark: Mark {
            row: 0,
            place: 0,
            clause: 0,
            atom: 0,
            look: 0,
            top: 0,
            from: 0,
            asked: 0,
            done: 0,
            reached: 0,
            unmet: 0,
            untrue: 0,
        },
        marks: Vec::new(alloc),
    }
}

/// Both paths of a split go on from the open one's mark.
pub fn split(guide: &mut Guide) -> Result<(), AllocError>
    ensures { OnOk result (marks_of guide.new ≡ guide.old.mark ∷ marks_of guide.old) }
{
    guide.marks.push(guide.mark)?;
    Ok(())
}

/// Goes on with the next path's mark.
pub fn go_on(guide: &mut Guide)
    ensures { (f : Formula) (set : _) (i : Index) (ps : List PathOf) → AllReady f set i ps (reverse guide.old.marks.items) → AllReady f set i ps (marks_of guide.new) }
{
    if let Some(mark) = guide.marks.pop() {
        guide.mark = mark;
    }
}
