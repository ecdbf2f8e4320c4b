//! Implementations with too many places.
ghost use Rattle.std.specs.Prelude.{◌≡◌, get_or, map, IfOk};
ghost use Rattle.bg_ast.specs.Views.{proc_of, impl_of, program_of};
ghost use Rattle.bg_places.specs.Checks.{required, ensured, impl_checks};
ghost use Rattle.bg_places.specs.Counts.{most_places, place_counts, first_above};

use crate::checks::{checked, number_at, pass_stmts};
use crate::limits::MOST_PLACES;
use bg_ast::resolved::{Implementation, Procedure, Resolved};
use std::alloc::{AllocError, Global};

/// How many preconditions of each procedure are checked.
fn required(alloc: Global, procedures: &[Procedure]) -> Result<Vec<usize>, AllocError>
    ensures { IfOk result (λ made. made.items ≡ map required (map proc_of procedures.now)) }
{
    let mut made = Vec::new(alloc);
    for q in procedures {
        made.push(checked(&q.requires_))?;
    }
    Ok(made)
}

/// How many postconditions of each procedure are checked.
fn ensured(alloc: Global, procedures: &[Procedure]) -> Result<Vec<usize>, AllocError>
    ensures { IfOk result (λ made. made.items ≡ map ensured (map proc_of procedures.now)) }
{
    let mut made = Vec::new(alloc);
    for q in procedures {
        made.push(checked(&q.ensures_))?;
    }
    Ok(made)
}

/// The number of places of an implementation, as far as 64 bits tell it.
fn place_count(required: &[usize], ensured: &[usize], m: &Implementation) -> usize
    ensures { result ≡ impl_checks required.now ensured.now (impl_of m.now) }
{
    let rest = pass_stmts(usize::MAX, required, &m.body);
    usize::MAX - rest.saturating_sub(number_at(ensured, m.procedure))
}

/// The first of these numbers of places that is too large.
fn first_of(
    required: &[usize],
    ensured: &[usize],
    implementations: &[Implementation],
) -> Option<usize>
    ensures { result ≡ first_above most_places (map (impl_checks required.now ensured.now) (map impl_of implementations.now)) }
{
    for m in implementations {
        let count = place_count(required, ensured, m);
        if count > MOST_PLACES {
            return Some(count);
        }
    }
    None
}

/// The number of places of the first implementation in the order of the text that has too many, as far as 64 bits tell it.
///
/// Only want of memory is an error.
pub fn first_crowded(alloc: Global, program: &Resolved) -> Result<Option<usize>, AllocError>
    ensures { IfOk result (λ found. found ≡ first_above most_places (place_counts (program_of program.now))) }
{
    let required = required(alloc, &program.procedures)?;
    let ensured = ensured(alloc, &program.procedures)?;
    Ok(first_of(&required, &ensured, &program.implementations))
}
