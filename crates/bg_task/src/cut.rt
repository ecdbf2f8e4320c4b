//! What of an implementation's blocks of forms counts for a place.
ghost use Rattle.std.specs.Prelude.{◌≡◌, true, IfOk};
ghost use Rattle.bg_ast.specs.Meaning.{meaning_of};
ghost use Rattle.bg_ast.specs.Views.{program_of};
ghost use Rattle.bg_sense.specs.Typed.{IsTyped};
ghost use Rattle.bg_places.specs.Views.{spot_of};
ghost use Rattle.bg_formed.specs.Views.{blocks_of};
ghost use Rattle.bg_fits.specs.Valued.{is_over_values};
ghost use Rattle.bg_term_table.specs.Lines.{lines_of};
ghost use Rattle.bg_task.specs.Prepared.{IsPrepared};
ghost use Rattle.bg_task.specs.Lines.{AreThere};
ghost use Rattle.bg_task.specs.Slices.{whole_in, encoding_in, IsSliceBy, IsSliceFor};

use crate::behind::atoms_behind;
use crate::prepared::{Prepared, count_candidates};
use bg_ast::resolved::Resolved;
use bg_atoms::Atoms;
use bg_formed::FormBlock;
use bg_places::{Place, Spot};
use bg_slice::laws::{slices_are_below, slices_have_rows, slices_say_the_same, slices_use_alike};
use bg_slice::{Kept, sliced, what_counts};
use bg_term_table::Line;
use std::alloc::{AllocError, Global};

/// Blocks of forms that were prepared, or that were made for a place.
#[derive(Drop)]
pub enum Whole<'q> {
    Lent(&'q Atoms),
    Own(Atoms),
}

/// Blocks of forms, of which what counts for the check of a place says something: which of their rows commands that count name, and of
/// each candidate of the program, whether it guards such a command.
#[derive(Drop)]
pub struct Cut<'q> {
    pub whole: Whole<'q>,
    pub spot: Spot,
    pub rows: Vec<bool>,
    pub named: Vec<bool>,
}

/// The blocks of forms.
pub fn atoms_in<'a>(cut: &'a Cut<'_>) -> &'a Atoms
    ensures { result.now ≡ whole_in cut.now.whole }
{
    match &cut.whole {
        Whole::Lent(a) => *a,
        Whole::Own(a) => a,
    }
}

/// What of blocks of forms counts for a place.
fn counted(alloc: Global, program: &Resolved, atoms: &Atoms, spot: Spot) -> Result<Kept, AllocError>
    ensures { IfOk result (λ made. IsSliceBy (meaning_of (program_of program.now)).candidates atoms.now (spot_of spot) made.rows.items made.named.items) }
{
    slices_use_alike();
    slices_are_below();
    slices_have_rows();
    slices_say_the_same();
    let candidates = count_candidates(program)?;
    let rows = atoms.rows.len();
    let made = what_counts(alloc, spot, atoms.first, rows, candidates, &atoms.blocks)?;
    Ok(made)
}

/// The blocks in which only commands that count for the place say something.
pub fn forms_left(alloc: Global, cut: &Cut<'_>) -> Result<Vec<FormBlock>, AllocError>
    ensures { IfOk result (λ made. blocks_of made ≡ (encoding_in cut.now).blocks) }
{
    sliced(alloc, cut.spot, &atoms_in(cut).blocks)
}

/// The blocks of forms of a prepared implementation behind these lines, cut down to what counts for a place. Without
/// lines they are those that were prepared; else these with other numbers of atoms, behind what the lines say.
///
/// Only want of memory is an error; 2^32 atoms count as such.
pub fn cut_down<'q>(
    alloc: Global,
    program: &Resolved,
    prepared: &'q Prepared<'_>,
    place: &Place,
    lines: &[Line],
) -> Result<Cut<'q>, AllocError>
    requires typed { IsTyped (meaning_of (program_of program.now)) }
    requires scalars { is_over_values (meaning_of (program_of program.now)) ≡ true }
    requires prepared { IsPrepared (program_of program.now) place.now.implementation prepared.now }
    requires there { AreThere (program_of program.now) place.now.implementation prepared.now (lines_of lines.now) }
    ensures { IfOk result (λ made. IsSliceFor (program_of program.now) place.now.implementation prepared.now (lines_of lines.now) (spot_of place.now.spot) made) }
{
    let spot = place.spot;
    if lines.is_empty() {
        let Kept { rows, named } = counted(alloc, program, &prepared.atoms, spot)?;
        return Ok(Cut {
            whole: Whole::Lent(&prepared.atoms),
            spot,
            rows,
            named,
        });
    }
    let atoms = atoms_behind(alloc, program, prepared, lines)?;
    let Kept { rows, named } = counted(alloc, program, &atoms, spot)?;
    Ok(Cut {
        whole: Whole::Own(atoms),
        spot,
        rows,
        named,
    })
}
