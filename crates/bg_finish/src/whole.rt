//! The end of a search at a leaf.
ghost use Rattle.std.specs.Prelude.{List, map, IfOk};
ghost use Rattle.bg_ast.specs.Syntax.{Fun};
ghost use Rattle.bg_term_table.specs.Views.{terms_in, incs_of, GiveThese};
ghost use Rattle.bg_scalar.specs.Values.{val_of};
ghost use Rattle.bg_finish.specs.Finished.{IsScalarLeaf, IsFinish};

use crate::kind::Finish;
use crate::tables::tables;
use bg_read_off::laws::finished_leaves_stand;
use bg_scalar::Scalar;
use bg_term_table::{Around, Term};
use bg_wanted::{Hints, Wanted, lines_wanted};
use std::alloc::{AllocError, Global};

/// What a leaf comes to at which these numbers and truth values stand for the values of incarnations and, behind them, terms.
///
/// Where it is finished, a map is what the selects from its number say, the first at an index, and else its type's default; a function's
/// table gives what the first application to these arguments is worth, and else the default of what the function gives: its entries are
/// in the order of the arguments, without those that the default tells.
///
/// Where it isn't finished, the lines that are wanted are told: congruences that are false; where none is, of each update its select at its
/// index, and its selects and those of its map at other indices, where selects there don't say what they should; and where nothing of this
/// is wanted, names of an index at which two maps differ that have one table. With them come values in which each map is what the selects that
/// read it say, and tables that are put together from them: nothing is known of these, but a run that begins with them may fail.
///
/// Only want of memory is an error; 2^32 incarnations and terms count as such.
pub fn finish(
    alloc: Global,
    around: Around<'_>,
    terms: &[Term],
    scalars: &[Scalar],
    hints: Hints<'_>,
) -> Result<Finish, AllocError>
    ensures { IfOk result (λ made. (fs : List Fun) → GiveThese fs around.entry → IsScalarLeaf fs (incs_of around.entry) (terms_in fs terms.now) (map val_of scalars.now) → IsFinish fs (incs_of around.entry) (terms_in fs terms.now) (map val_of scalars.now) made) }
{
    finished_leaves_stand();
    match lines_wanted(alloc, around, terms, scalars, hints)? {
        Wanted::Lines(lines, rows, values) => {
            let tried = tables(alloc, around, terms, &rows, &values)?;
            Ok(Finish::Lines(lines, values, tried))
        }
        Wanted::Leaves(o) => Ok(Finish::Leaves(o)),
        Wanted::NoScalars => Ok(Finish::NoScalars),
        Wanted::Nothing(rows, values) => {
            let made = tables(alloc, around, terms, &rows, &values)?;
            Ok(Finish::Tables(values, made))
        }
    }
}
