//! The types of the incarnations that commands make.
ghost use Rattle.std.specs.Prelude.{◌≡◌, ◌++◌, map, OnOk};
ghost use Rattle.bg_ast.specs.Views.{program_of, proc_of, var_of};
ghost use Rattle.bg_sense.specs.Types.{types_of};
ghost use Rattle.bg_kinds.specs.Views.{ref_in};
ghost use Rattle.bg_passive.specs.Arrivals.{cmd_types, cmds_types};
ghost use Rattle.bg_blocks.specs.Views.{cmd_of, procedure_in};
ghost use Rattle.bg_sorts.specs.Views.{types_in};

use crate::known::{Known, push_targets, push_variables};
use bg_ast::resolved::{Procedure, Variable};
use bg_blocks::Cmd;
use bg_fits::push_kinds;
use bg_kinds::ValueType;
use std::alloc::{AllocError, Global};

/// Adds the types of a call's arguments, of what the procedure modifies, and of its results.
fn push_call(
    alloc: Global,
    made: &mut Vec<ValueType>,
    known: &Known<'_>,
    q: &Procedure,
    modifies: &[Variable],
) -> Result<(), AllocError>
    ensures { OnOk result (let callee = procedure_in (program_of known.now.program.now) (proc_of q.now) in map ref_in made.new.items ≡ map ref_in made.old.items ++ (types_of callee.params ++ (map (types_in known.now) (map var_of modifies.now) ++ types_of callee.results))) }
{
    push_kinds(alloc, &known.program.types, &q.params, made)?;
    push_variables(alloc, made, known, modifies)?;
    push_kinds(alloc, &known.program.types, &q.results, made)
}

/// Adds the types of the incarnations that a command makes.
fn push_command(
    alloc: Global,
    made: &mut Vec<ValueType>,
    known: &Known<'_>,
    k: &Cmd<'_>,
) -> Result<(), AllocError>
    ensures { OnOk result (map ref_in made.new.items ≡ map ref_in made.old.items ++ cmd_types (types_in known.now) (cmd_of (program_of known.now.program.now) k.now)) }
{
    match k {
        Cmd::Check(_, _) => Ok(()),
        Cmd::Suppose(_, _) => Ok(()),
        Cmd::Assume(_) => Ok(()),
        Cmd::Forget(xs) => push_variables(alloc, made, known, xs),
        Cmd::Put(targets, _) => push_targets(alloc, made, known, targets),
        Cmd::Perform(_, q, xs) => push_call(alloc, made, known, q, xs),
        Cmd::Finish => Ok(()),
    }
}

/// Adds the types of the incarnations that commands make.
pub fn push_commands(
    alloc: Global,
    made: &mut Vec<ValueType>,
    known: &Known<'_>,
    ks: &[Cmd<'_>],
) -> Result<(), AllocError>
    ensures { OnOk result (map ref_in made.new.items ≡ map ref_in made.old.items ++ cmds_types (types_in known.now) (map (cmd_of (program_of known.now.program.now)) ks.now)) }
{
    for k in ks {
        push_command(alloc, made, known, k)?;
    }
    Ok(())
}
