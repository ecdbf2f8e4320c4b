//! The clauses of a place.
ghost use Rattle.std.specs.Prelude.{List, IfOk};
ghost use Rattle.bg_ast.specs.Meaning.{meaning_of};
ghost use Rattle.bg_ast.specs.Views.{program_of};
ghost use Rattle.bg_places.specs.Views.{placed_of, spot_of};
ghost use Rattle.bg_numbered.specs.Lines as brought;
ghost use Rattle.bg_task.specs.Prepared.{IsPrepared};
ghost use Rattle.bg_task.specs.Slices.{IsSliceFor};
ghost use Rattle.bg_task.specs.Made.{IsMade};

use crate::cut::{Cut, atoms_in};
use crate::question::Question;
use bg_base::OutOfRange;
use bg_clause::{Names, clauses};
use bg_formula::Clauses;
use bg_rows::Refused;
use std::alloc::{AllocError, Global};

/// The clauses of a place, or the operation for which there are none.
#[derive(Drop)]
pub enum Made {
    Clauses(Clauses),
    Outside(OutOfRange),
}

/// The clauses of a place, over what counts for it, behind the lines for which that was made.
///
/// Only want of memory is an error; 2^32 atoms count as such.
pub fn place_clauses(
    alloc: Global,
    question: Question<'_, '_>,
    cut: &Cut<'_>,
) -> Result<Made, AllocError>
    requires prepared { IsPrepared (program_of question.program.now) question.place.now.implementation question.prepared.now }
    ensures { IfOk result (λ made. (lines : List brought.Line) → IsSliceFor (program_of question.entry.program.now) question.entry.place.now.implementation question.entry.prepared.now lines (spot_of question.entry.place.now.spot) cut.now → IsMade (meaning_of (program_of question.entry.program.now)) lines cut.now (placed_of question.entry.place.now).place made) }
{
    let atoms = atoms_in(cut);
    let names = Names {
        first: atoms.first,
        named: &cut.named,
        terms: atoms.terms,
        kept: &cut.rows,
        rows: &atoms.rows,
    };
    match clauses(alloc, &names, question.place.spot, &atoms.blocks) {
        Ok(f) => Ok(Made::Clauses(f)),
        Err(Refused::Range(o)) => Ok(Made::Outside(o)),
        Err(Refused::Memory) => Err(AllocError),
    }
}
