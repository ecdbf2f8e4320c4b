//! A walk through a case tree: the open path, and the paths that wait.
ghost use Rattle.std.specs.Prelude.{◌+◌, ◌<◌, ◌≡◌, IfOk, OnOk, ◌++◌, ◌∷◌, [], IsTrue, length};
ghost use Rattle.bg_formula.specs.Formulas.{Formula};
ghost use Rattle.bg_cert.specs.Counts.{Fits};
ghost use Rattle.bg_cert.specs.Certs.{root};
ghost use Rattle.bg_cert.specs.Walks.{paths_open, stack_of, others_of, IsWalk, path_of, decided_on, atoms_on};

use crate::cert::Decision;
use crate::trail::{Trail, decide, first_trail, undo_to};
use std::alloc::{AllocError, Global};

/// A path that waits: the first decisions of the open one, and one more.
#[derive(Clone, Copy)]
pub struct Waiting {
    pub depth: usize,
    pub last: Decision,
}

/// What the open path decided, and the paths that wait, the next one last. Without an open path the
/// walk has ended.
#[derive(Drop)]
pub struct Walk {
    pub trail: Trail,
    pub waiting: Vec<Waiting>,
    pub is_open: bool,
}

/// The walk at the root of a tree, over so many atoms.
pub fn first_walk(alloc: Global, atoms: usize) -> Result<Walk, AllocError>
    ensures walks { IfOk result (λ walk. IsWalk walk) }
    ensures sized { IfOk result (λ walk. atoms_on walk ≡ atoms) }
    ensures opens { IfOk result (λ walk. IsTrue walk.is_open) }
    ensures one { IfOk result (λ walk. paths_open walk ≡ 1) }
    ensures stack { IfOk result (λ walk. (f : Formula) → stack_of f walk ≡ root f ∷ []) }
{
    Ok(Walk {
        trail: first_trail(alloc, atoms)?,
        waiting: Vec::new(alloc),
        is_open: true,
    })
}

/// Opens the first of two paths, and lets the second wait.
pub fn open_both(walk: &mut Walk, first: Decision, second: Decision) -> Result<(), AllocError>
    requires is_walk { IsWalk walk.old }
    requires is_open { IsTrue walk.old.is_open }
    requires fits_first { Fits (atoms_on walk.old) first }
    requires fits_second { Fits (atoms_on walk.old) second }
    ensures walks { OnOk result (IsWalk walk.new) }
    ensures sized { OnOk result (atoms_on walk.new ≡ atoms_on walk.old) }
    ensures more { OnOk result (paths_open walk.new ≡ paths_open walk.old + 1) }
    ensures stack { OnOk result ((f : Formula) → stack_of f walk.new ≡ path_of f (decided_on walk.old ++ (first ∷ [])) ∷ path_of f (decided_on walk.old ++ (second ∷ [])) ∷ others_of f walk.old) }
{
    walk.waiting.push(Waiting {
        depth: walk.trail.decisions.len(),
        last: second,
    })?;
    decide(&mut walk.trail, first)?;
    Ok(())
}

/// Goes on with the next path that waits.
pub fn close(walk: &mut Walk) -> Result<(), AllocError>
    requires is_walk { IsWalk walk.old }
    requires is_open { IsTrue walk.old.is_open }
    ensures walks { OnOk result (IsWalk walk.new) }
    ensures sized { OnOk result (atoms_on walk.new ≡ atoms_on walk.old) }
    ensures fewer { OnOk result (paths_open walk.new < paths_open walk.old) }
    ensures stack { OnOk result ((f : Formula) → stack_of f walk.new ≡ others_of f walk.old) }
{
    match walk.waiting.pop() {
        None => walk.is_open = false,
        Some(w) => {
            undo_to(&mut walk.trail, w.depth);
            decide(&mut walk.trail, w.last)?;
        }
    }
    Ok(())
}
