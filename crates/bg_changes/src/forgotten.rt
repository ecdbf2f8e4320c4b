//! What a loop forgets, and what a call forgets.
ghost use Rattle.std.specs.Prelude.{◌≡◌, ℕ, List, false, length, map, replicate, IfOk};
ghost use Rattle.bg_ast.specs.Values.{Ty};
ghost use Rattle.bg_ast.specs.Syntax.{Decl, Prog};
ghost use Rattle.bg_ast.specs.Views.{var_of, program_of, sts_in, proc_of};
ghost use Rattle.bg_ast.specs.Meaning as m;
ghost use Rattle.bg_sense.specs.Variables as v;
ghost use Rattle.bg_flow.specs.Core.{still};

use crate::listed::listed;
use crate::marks::{Marks, mark_globals};
use crate::stmts::mark_stmts;
use bg_ast::resolved::{Procedure, Resolved, Stmt, Variable};
use std::alloc::{AllocError, Global};

fn no_marks(alloc: Global, globals: usize, frame: usize) -> Result<Marks, AllocError>
    ensures { IfOk result (λ m. (m.globals.items ≡ replicate globals false) × (m.frame.items ≡ replicate frame false)) }
{
    Ok(Marks {
        globals: vec![in alloc; false; globals]?,
        frame: vec![in alloc; false; frame]?,
    })
}

/// The variables that a body may change, in a frame of so many: globals first, each group by declaration. Those are what is assigned
/// and forgotten, what takes results, and what callees modify.
///
/// Only want of memory is an error; 2^32 variables count as that.
pub fn targets(
    alloc: Global,
    program: &Resolved,
    frame: usize,
    body: &[Stmt],
) -> Result<Vec<Variable>, AllocError>
    ensures { IfOk result (λ made. (ds : List Decl) → length ds ≡ frame → map var_of made.items ≡ v.targets (still (m.meaning_of (program_of program.now)) ds) (m.sts_of (sts_in body.now))) }
{
    let mut marks = no_marks(alloc, program.globals.len(), frame)?;
    mark_stmts(&mut marks, &program.procedures, body);
    listed(alloc, &marks)
}

/// The globals that a procedure modifies, of so many, by declaration.
///
/// Only want of memory is an error; 2^32 variables count as that.
pub fn modified(
    alloc: Global,
    globals: usize,
    procedure: &Procedure,
) -> Result<Vec<Variable>, AllocError>
    ensures { IfOk result (λ made. (p : Prog) (named : ℕ → Ty) → length p.globals ≡ globals → map var_of made.items ≡ v.modified p (m.proc_of named (proc_of procedure.now))) }
{
    let mut marks = no_marks(alloc, globals, 0)?;
    mark_globals(&mut marks, &procedure.modifies);
    listed(alloc, &marks)
}
