//! The checker's walk through a case tree: the open path with the lemmas that it knows, and the
//! paths that wait.
ghost use Rattle.std.specs.Prelude.{◌≡◌, ℕ, IfOk, OnOk, List, ◌++◌, ◌∷◌, [], IsTrue, length};
ghost use Rattle.bg_cert.specs.declared.cert.Decision.{Decision};
ghost use Rattle.bg_cert.specs.Paths.{PathOf};
ghost use Rattle.bg_cert.specs.Written.{KnowsBelow};
ghost use Rattle.bg_cert.specs.Tours.{stack_of, others_of, IsTour, FitsTurn, decided_by, learned_by, decided_on, known_on, atoms_on};

use crate::cert::Decision;
use crate::trail::{Trail, decide, first_trail, undo_to};
use std::alloc::{AllocError, Global};

/// What opens a path that waits: a decision, or the lemma of the node of this number.
#[derive(Clone, Copy)]
pub enum Turn {
    Decides(Decision),
    Learns(usize),
}

/// A path that waits: the first decisions and the first lemmas of the open one, and one more.
#[derive(Clone, Copy)]
pub struct Later {
    pub depth: usize,
    pub known: usize,
    pub turn: Turn,
}

/// What the open path decided, the nodes whose lemmas it knows, and the paths that wait, the next
/// one last. Without an open path the tour has ended.
#[derive(Drop)]
pub struct Tour {
    pub trail: Trail,
    pub lemmas: Vec<usize>,
    pub waiting: Vec<Later>,
    pub is_open: bool,
}

/// The tour at the root of a tree, over so many atoms.
pub fn first_tour(alloc: Global, atoms: usize) -> Result<Tour, AllocError>
    ensures tours { IfOk result (λ tour. IsTour tour) }
    ensures sized { IfOk result (λ tour. atoms_on tour ≡ atoms) }
    ensures opens { IfOk result (λ tour. IsTrue tour.is_open) }
    ensures known { IfOk result (λ tour. (m : ℕ) → KnowsBelow m tour) }
    ensures stack { IfOk result (λ tour. (path : List Decision → List ℕ → PathOf) → stack_of path tour ≡ path [] [] ∷ []) }
{
    Ok(Tour {
        trail: first_trail(alloc, atoms)?,
        lemmas: Vec::new(alloc),
        waiting: Vec::new(alloc),
        is_open: true,
    })
}

/// Lets a path wait that begins like the open one.
pub fn wait(tour: &mut Tour, turn: Turn) -> Result<(), AllocError>
    ensures waits { OnOk result (tour.new.waiting.items ≡ tour.old.waiting.items ++ (record { depth = length (decided_on tour.old); known = length (known_on tour.old); turn = turn } ∷ [])) }
    ensures decided { OnOk result (decided_on tour.new ≡ decided_on tour.old) }
    ensures known { OnOk result (known_on tour.new ≡ known_on tour.old) }
    ensures sized { OnOk result (atoms_on tour.new ≡ atoms_on tour.old) }
    ensures open { OnOk result (tour.new.is_open ≡ tour.old.is_open) }
{
    tour.waiting.push(Later {
        depth: tour.trail.decisions.len(),
        known: tour.lemmas.len(),
        turn,
    })?;
    Ok(())
}

/// Adds what a turn says to the open path.
fn take_turn(tour: &mut Tour, turn: Turn) -> Result<(), AllocError>
    requires fits { FitsTurn (atoms_on tour.old) turn }
    ensures decided { OnOk result (decided_on tour.new ≡ decided_on tour.old ++ decided_by turn) }
    ensures known { OnOk result (known_on tour.new ≡ known_on tour.old ++ learned_by turn) }
    ensures sized { OnOk result (atoms_on tour.new ≡ atoms_on tour.old) }
    ensures waiting { OnOk result (tour.new.waiting.items ≡ tour.old.waiting.items) }
    ensures open { OnOk result (tour.new.is_open ≡ tour.old.is_open) }
{
    match turn {
        Turn::Decides(d) => decide(&mut tour.trail, d),
        Turn::Learns(k) => {
            tour.lemmas.push(k)?;
            Ok(())
        }
    }
}

/// Goes on with the next path that waits.
pub fn end_path(tour: &mut Tour) -> Result<(), AllocError>
    requires is_tour { IsTour tour.old }
    requires is_open { IsTrue tour.old.is_open }
    ensures tours { OnOk result (IsTour tour.new) }
    ensures sized { OnOk result (atoms_on tour.new ≡ atoms_on tour.old) }
    ensures known { OnOk result ((m : ℕ) → KnowsBelow m tour.old → KnowsBelow m tour.new) }
    ensures stack { OnOk result ((path : List Decision → List ℕ → PathOf) → stack_of path tour.new ≡ others_of path tour.old) }
{
    match tour.waiting.pop() {
        None => tour.is_open = false,
        Some(w) => {
            undo_to(&mut tour.trail, w.depth);
            tour.lemmas.truncate(w.known);
            take_turn(tour, w.turn)?;
        }
    }
    Ok(())
}
