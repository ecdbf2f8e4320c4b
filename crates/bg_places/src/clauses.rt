//! The checks of clauses.
ghost use Rattle.std.specs.Prelude.{◌≡◌, ◌++◌, map, OnOk};
ghost use Rattle.bg_ast.specs.Views.{clause_of};
ghost use Rattle.bg_places.specs.Placed.{placed_clauses};
ghost use Rattle.bg_places.specs.Views.{placed_in, spot_in};

use crate::place::{Group, Place, spot_at};
use bg_ast::resolved::Clause;
use bg_base::Pos;
use std::alloc::AllocError;

/// Adds a place for each of the clauses that is checked, of the implementation with this number.
pub fn push_checks(
    out: &mut Vec<Place>,
    implementation: usize,
    group: Group,
    call: Option<Pos>,
    clauses: &[Clause],
) -> Result<(), AllocError>
    ensures { OnOk result (placed_in out.new.items ≡ placed_in out.old.items ++ placed_clauses implementation (spot_in group) call (map clause_of clauses.now)) }
{
    for k in clauses {
        if !k.is_free {
            out.push(Place {
                implementation,
                spot: spot_at(group, k.id),
                candidate: k.candidate,
                pos: k.pos,
                call,
            })?;
        }
    }
    Ok(())
}
