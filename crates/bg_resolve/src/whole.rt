//! Names become numbers, or the first fault is answered.
ghost use Rattle.std.specs.Prelude.{◌≡◌, map, IfOk, IfErr, OnOk};
ghost use Rattle.bg_text.specs.Views as v;
ghost use Rattle.bg_names.specs.Faults.{better};
ghost use Rattle.bg_ast.specs.Views.{program_of};
ghost use Rattle.bg_names.specs.Spaces.{names_of};
ghost use Rattle.bg_spaces.specs.Declarations.{function_ids};
ghost use Rattle.bg_resolve.specs.Program.{plain_faults, named};
ghost use Rattle.bg_resolve.specs.Calls.{WithRecursion};
ghost use Rattle.bg_resolve.specs.Resolves.{Resolves, fault_of};
ghost use Rattle.bg_names.specs.Views.{first_of, found_of};
ghost use Rattle.bg_names.specs.declared.error.ResolveError.TheVariants.{Memory};

use crate::program::program;
use crate::recursion::note_recursion;
use bg_ast::resolved::Resolved;
use bg_names::error::{NameFault, ResolveError};
use bg_names::notes::{Found, Notes};
use bg_spaces::space::declare_all;
use bg_text::Decl;
use std::alloc::Global;

/// A fault with a name of its own.
fn fault(alloc: Global, found: &Found) -> Result<NameFault, ResolveError>
    ensures ok { IfOk result (λ f. fault_of f ≡ found_of found.now) }
    ensures err { IfErr result (λ e. e ≡ Memory) }
{
    let name = Vec::from_slice(alloc, found.name)?;
    Ok(NameFault {
        kind: found.kind,
        pos: found.pos,
        name,
    })
}

/// The program with numbers for names; all faults are noted.
fn named<'a>(
    alloc: Global,
    notes: &mut Notes<'a>,
    decls: &'a [Decl],
) -> Result<Resolved, ResolveError>
    ensures made { IfOk result (λ p. program_of p ≡ named (map v.decl_of decls.now)) }
    ensures first { OnOk result (WithRecursion (names_of (function_ids (map v.decl_of decls.now))) (map v.decl_of decls.now) (better (first_of notes.old) (plain_faults (map v.decl_of decls.now))) (first_of notes.new)) }
    ensures err { IfErr result (λ e. e ≡ Memory) }
{
    let g = declare_all(alloc, notes, decls)?;
    let made = program(alloc, &g, notes, decls)?;
    note_recursion(alloc, notes, decls)?;
    Ok(made)
}

/// The program with numbers for names. Errors: `Fault`, the first fault of names by position, of two at one position the
/// first in the list of kinds, of two of one kind there the first in the order in which declarations are judged; `Memory`.
pub fn resolve(alloc: Global, decls: &[Decl]) -> Result<Resolved, ResolveError>
    ensures { Resolves (map v.decl_of decls.now) result }
{
    let mut notes = Notes { first: None };
    let made = named(alloc, &mut notes, decls);
    let Notes { first } = notes;
    let made = made?;
    match first {
        None => Ok(made),
        Some(found) => Err(ResolveError::Fault(fault(alloc, &found)?)),
    }
}
