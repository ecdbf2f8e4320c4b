//! The places of a program.
ghost use Rattle.std.specs.Prelude.{◌≡◌, ◌++◌, Some, map, IfOk, OnOk, slice_get};
ghost use Rattle.bg_ast.specs.Resolved as r;
ghost use Rattle.bg_ast.specs.Views.{program_of, proc_of, impl_of};
ghost use Rattle.bg_places.specs.Placed.{placed, placed_impl};
ghost use Rattle.bg_places.specs.Views.{placed_in};

use crate::clauses::push_checks;
use crate::place::{Group, Place};
use crate::stmts::push_stmts;
use bg_ast::resolved::{Implementation, Procedure, Resolved};
use std::alloc::{AllocError, Global};

/// Adds the places of an implementation: those of its body, and the postconditions of its procedure.
#[tactic(auto, using(crate::proofs::There::procedure_forms))]
fn push_implementation(
    out: &mut Vec<Place>,
    procedures: &[Procedure],
    number: usize,
    m: &Implementation,
) -> Result<(), AllocError>
    ensures { OnOk result (placed_in out.new.items ≡ placed_in out.old.items ++ placed_impl (map proc_of procedures.now) number (impl_of m.now)) }
{
    push_stmts(out, procedures, number, &m.body)?;
    match procedures.get(m.procedure as usize) {
        None => Ok(()),
        Some(q) => push_checks(out, number, Group::Return(number), None, &q.ensures_),
    }
}

/// The places of a program, by implementation, each one's in the order of the text: at a loop the invariants on arrival, the places
/// of its body, and the invariants after a turn; at a call the preconditions of the procedure that are checked; at the end the
/// postconditions that are checked. Free clauses have no place.
///
/// Only want of memory is an error.
pub fn places(alloc: Global, program: &Resolved) -> Result<Vec<Place>, AllocError>
    ensures { IfOk result (λ made. placed_in made.items ≡ placed (program_of program.now)) }
{
    let mut made = Vec::new(alloc);
    for number in 0..program.implementations.len() {
        push_implementation(
            &mut made,
            &program.procedures,
            number,
            &program.implementations[number],
        )?;
    }
    Ok(made)
}

/// The places of an implementation of these procedures.
fn listed(
    alloc: Global,
    procedures: &[Procedure],
    number: usize,
    m: &Implementation,
) -> Result<Vec<Place>, AllocError>
    ensures { IfOk result (λ made. placed_in made.items ≡ placed_impl (map proc_of procedures.now) number (impl_of m.now)) }
{
    let mut made = Vec::new(alloc);
    push_implementation(&mut made, procedures, number, m)?;
    Ok(made)
}

/// The places of the implementation with this number, in their order; none where there is no such implementation.
///
/// Only want of memory is an error.
pub fn places_of(alloc: Global, program: &Resolved, number: usize) -> Result<Vec<Place>, AllocError>
    ensures { IfOk result (λ made. (m : r.Impl) → slice_get (program_of program.now).implementations number ≡ Some m → placed_in made.items ≡ placed_impl (program_of program.now).procedures number m) }
{
    match program.implementations.get(number) {
        None => Ok(Vec::new(alloc)),
        Some(m) => listed(alloc, &program.procedures, number, m),
    }
}
