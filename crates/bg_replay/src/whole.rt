//! Replays.
ghost use Rattle.std.specs.Prelude.{◌≡◌, ℕ, Some, map, slice_get, IfOk};
ghost use Rattle.bg_ast.specs.Resolved as r;
ghost use Rattle.bg_ast.specs.Meaning.{meaning_of};
ghost use Rattle.bg_ast.specs.Views.{program_of, impl_of, proc_of};
ghost use Rattle.bg_sense.specs.Types.{types_of};
ghost use Rattle.bg_kinds.specs.Views.{ref_in};
ghost use Rattle.bg_scalar.specs.Choices.{choice_of};
ghost use Rattle.bg_scalar.specs.Views.{tables_in, vals_in};
ghost use Rattle.bg_replay.specs.Endings.{IsReplay, frame_in};

use crate::ending::Ending;
use crate::moment::{Around, Moment};
use crate::run::run;
use bg_ast::resolved::{Implementation, Procedure, Resolved};
use bg_blocks::Block;
use bg_fits::push_kinds;
use bg_kinds::ValueType;
use bg_scalar::{Choice, Table, Value, copies};
use std::alloc::{AllocError, Global};

/// What is run: blocks of an implementation of the program, where these candidates are there.
#[derive(Clone, Copy)]
pub struct Code<'a> {
    pub program: &'a Resolved,
    pub blocks: &'a [Block<'a>],
    pub set: &'a [bool],
}

/// From what a run goes: the tables of functions, by number, values of the globals and of the frame (parameters, results, locals), and
/// the choices that it takes.
#[derive(Clone, Copy)]
pub struct Start<'a> {
    pub tables: &'a [Table],
    pub globals: &'a [Value],
    pub frame: &'a [Value],
    pub choices: &'a [Choice],
}

/// The type of each global.
fn global_kinds(alloc: Global, program: &Resolved) -> Result<Vec<ValueType>, AllocError>
    ensures { IfOk result (λ made. map ref_in made.items ≡ types_of (meaning_of (program_of program.now)).globals) }
{
    let mut made = Vec::new(alloc);
    push_kinds(alloc, &program.types, &program.globals, &mut made)?;
    Ok(made)
}

/// The type of each variable of the frame.
#[tactic(auto, using(crate::proofs::FrameTypes::three_parts))]
fn frame_kinds(
    alloc: Global,
    program: &Resolved,
    m: &Implementation,
    q: &Procedure,
) -> Result<Vec<ValueType>, AllocError>
    ensures { IfOk result (λ made. map ref_in made.items ≡ types_of (frame_in (program_of program.now) (impl_of m.now) (proc_of q.now))) }
{
    let mut made = Vec::new(alloc);
    push_kinds(alloc, &program.types, &q.params, &mut made)?;
    push_kinds(alloc, &program.types, &q.results, &mut made)?;
    push_kinds(alloc, &program.types, &m.locals, &mut made)?;
    Ok(made)
}

/// The run of the code, which is of this implementation of this procedure.
fn replay_body(
    alloc: Global,
    code: Code<'_>,
    m: &Implementation,
    q: &Procedure,
    start: Start<'_>,
) -> Result<Ending, AllocError>
    ensures { IfOk result (λ ending. (number : ℕ) → IsReplay (program_of code.entry.program.now) code.entry.blocks.now code.entry.set.now number (impl_of m.now) (proc_of q.now) (tables_in start.entry.tables.now) (vals_in start.entry.globals.now) (vals_in start.entry.frame.now) (map choice_of start.entry.choices.now) ending) }
{
    let of_globals = global_kinds(alloc, code.program)?;
    let of_frame = frame_kinds(alloc, code.program, m, q)?;
    let first = copies(alloc, start.globals)?;
    let locals = copies(alloc, start.frame)?;
    let around = Around {
        alloc,
        program: code.program,
        set: code.set,
        tables: start.tables,
        before: start.globals,
        globals: &of_globals,
        frame: &of_frame,
    };
    let mut moment = Moment {
        globals: first,
        frame: locals,
        left: start.choices,
    };
    run(around, &mut moment, code.blocks)
}

/// The run of this code, which is of the implementation with this number, from this start: with the blocks that `bg_blocks` makes of
/// the implementation its induction run where functions mean these tables, by `laws::replays_are_induction_runs`, unless an operation
/// leaves 128 bits on the way.
/// `NoValues` is the ending of a run that meets something of another type than it should be, and of one where the implementation or its procedure isn't there.
///
/// Only want of memory is an error.
pub fn replay(
    alloc: Global,
    code: Code<'_>,
    implementation: usize,
    start: Start<'_>,
) -> Result<Ending, AllocError>
    ensures { IfOk result (λ ending. (m : r.Impl) (q : r.Proc) → slice_get (program_of code.entry.program.now).implementations implementation ≡ Some m → slice_get (program_of code.entry.program.now).procedures m.procedure ≡ Some q → IsReplay (program_of code.entry.program.now) code.entry.blocks.now code.entry.set.now implementation m q (tables_in start.entry.tables.now) (vals_in start.entry.globals.now) (vals_in start.entry.frame.now) (map choice_of start.entry.choices.now) ending) }
{
    let Some(m) = code.program.implementations.get(implementation) else {
        return Ok(Ending::NoValues);
    };
    let Some(q) = code.program.procedures.get(m.procedure as usize) else {
        return Ok(Ending::NoValues);
    };
    replay_body(alloc, code, m, q, start)
}
