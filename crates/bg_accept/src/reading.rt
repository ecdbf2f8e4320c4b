//! What is read once for all places.
ghost use Rattle.std.specs.Prelude.{◌≡◌, map, IfOk};
ghost use Rattle.bg_ast.specs.Views.{program_of};
ghost use Rattle.bg_certtext.specs.Views.{section_of};
ghost use Rattle.bg_accept.specs.Reading.{AreTables};

use crate::all::all_places;
use crate::firsts::firsts_of;
use crate::numbers::{Numbers, numbers_of};
use bg_ast::resolved::{Resolved, Variable};
use bg_blocks::callees_of;
use bg_certtext::Section;
use bg_places::Place;
use std::alloc::{AllocError, Global};

/// What a program's procedures modify, the numbers of its candidates, and for each implementation its places with the number of each
/// one's first section.
#[derive(Drop)]
pub struct Tables<'n> {
    pub callees: Vec<Vec<Variable>>,
    pub numbers: Numbers<'n>,
    pub all: Vec<Vec<Place>>,
    pub firsts: Vec<Vec<Option<usize>>>,
}

/// A program, the set of its candidates that are retained, the sections, and the tables of both.
#[derive(Clone, Copy)]
pub struct Reading<'q, 'n, 'c> {
    pub program: &'q Resolved,
    pub set: &'q [bool],
    pub sections: &'q [Section<'c>],
    pub tables: &'q Tables<'n>,
}

/// The tables of a program and of sections.
pub fn tables_of<'n>(
    alloc: Global,
    program: &'n Resolved,
    sections: &[Section],
) -> Result<Tables<'n>, AllocError>
    ensures { IfOk result (AreTables (program_of program.now) (map section_of sections.now)) }
{
    let callees = callees_of(alloc, program)?;
    let numbers = numbers_of(alloc, &program.candidates)?;
    let all = all_places(alloc, program)?;
    let firsts = firsts_of(alloc, &all, sections)?;
    Ok(Tables {
        callees,
        numbers,
        all,
        firsts,
    })
}
