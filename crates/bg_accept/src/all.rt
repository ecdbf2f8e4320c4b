//! The places of each implementation.
ghost use Rattle.std.specs.Prelude.{IfOk};
ghost use Rattle.bg_ast.specs.Views.{program_of};
ghost use Rattle.bg_accept.specs.Places.{ArePlaces};

use bg_ast::resolved::Resolved;
use bg_places::{Place, places_of};
use std::alloc::{AllocError, Global};

/// The places of each implementation, by its number.
pub fn all_places(alloc: Global, program: &Resolved) -> Result<Vec<Vec<Place>>, AllocError>
    ensures { IfOk result (λ made. ArePlaces (program_of program.now) made.items) }
{
    let mut made = Vec::new(alloc);
    for number in 0..program.implementations.len() {
        made.push(places_of(alloc, program, number)?)?;
    }
    Ok(made)
}
