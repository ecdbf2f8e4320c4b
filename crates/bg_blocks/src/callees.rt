//! What each procedure modifies.
ghost use Rattle.std.specs.Prelude.{◌≡◌, IfOk};
ghost use Rattle.bg_ast.specs.Views.{program_of, proc_of};
ghost use Rattle.bg_blocks.specs.Callees.{IsModified, list_of, modified_in};

use bg_ast::resolved::{Procedure, Resolved, Variable};
use bg_changes::modified;
use std::alloc::{AllocError, Global};

/// The globals that a procedure modifies, by declaration.
fn modified_by(
    alloc: Global,
    program: &Resolved,
    procedure: &Procedure,
) -> Result<Vec<Variable>, AllocError>
    ensures { IfOk result (λ xs. list_of xs ≡ modified_in (program_of program.now) (proc_of procedure.now)) }
{
    modified(alloc, program.globals.len(), procedure)
}

/// For each procedure the globals that it modifies, by declaration.
///
/// Only want of memory is an error.
pub fn callees_of(alloc: Global, program: &Resolved) -> Result<Vec<Vec<Variable>>, AllocError>
    ensures { IfOk result (λ made. IsModified (program_of program.now) made.items) }
{
    let mut made = Vec::new(alloc);
    for q in &program.procedures {
        made.push(modified_by(alloc, program, q)?)?;
    }
    Ok(made)
}
