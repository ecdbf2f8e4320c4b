//! The run of the axioms' own program.
ghost use Rattle.std.specs.Prelude.{◌≡◌, ◌↔◌, [], true, Some, slice_get, IfOk};
ghost use Rattle.bg_ast.specs.Resolved as r;
ghost use Rattle.bg_ast.specs.Meaning.{meaning_of, named_of, impl_of, proc_of};
ghost use Rattle.bg_ast.specs.Views.{program_of};
ghost use Rattle.bg_sense.specs.Flow as flow;
ghost use Rattle.bg_replay.specs.Said.{Stops};
ghost use Rattle.bg_replay.specs.Views.{set_of, said_by};
ghost use Rattle.bg_opened.specs.Axioms.{axiom_place};
ghost use Rattle.bg_scalar.specs.Views.{tables_in, vals_in};
ghost use Rattle.bg_confirm.specs.Met.{run_in};

use bg_ast::resolved::Resolved;
use bg_blocks::{blocks, callees_of};
use bg_places::Spot;
use bg_replay::{Code, Ending, Start, replay};
use bg_scalar::{Table, Value};
use std::alloc::{AllocError, Global};

/// How the run of a program's first implementation ends, where functions have these tables, from these values of globals, without a
/// frame, choices and candidates.
pub fn ending_from(
    alloc: Global,
    program: &Resolved,
    tables: &[Table],
    values: &[Value],
) -> Result<Ending, AllocError>
    ensures { IfOk result (λ ending. (m : r.Impl) (q : r.Proc) → slice_get (program_of program.now).implementations 0 ≡ Some m → slice_get (program_of program.now).procedures m.procedure ≡ Some q →
        said_by ending ≡ run_in (meaning_of (program_of program.now)) (set_of []) 0 (impl_of (named_of (program_of program.now).types) m) (proc_of (named_of (program_of program.now).types) q) (tables_in tables.now) (vals_in values.now)) }
{
    let callees = callees_of(alloc, program)?;
    let blocks = blocks(alloc, program, &callees, 0)?;
    let code = Code {
        program,
        blocks: &blocks,
        set: &[],
    };
    let start = Start {
        tables,
        globals: values,
        frame: &[],
        choices: &[],
    };
    replay(alloc, code, 0, start)
}

/// Whether it ends at the axioms' own program's place.
pub fn is_failure(ending: Ending) -> bool
    ensures { result ≡ true ↔ said_by ending ≡ Stops (flow.Failed axiom_place.spot) }
{
    matches!(ending, Ending::Failed(Spot::Assert(0)))
}
