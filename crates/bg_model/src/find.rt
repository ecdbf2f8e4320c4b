//! From truth values of atoms and values of incarnations to a counterexample.
ghost use Rattle.std.specs.Prelude.{◌≡◌, length, map, true, IfOk};
ghost use Rattle.bg_ast.specs.Meaning.{meaning_of};
ghost use Rattle.bg_ast.specs.Views.{program_of};
ghost use Rattle.bg_sense.specs.Types.{are_of};
ghost use Rattle.bg_kinds.specs.Views.{ref_in};
ghost use Rattle.bg_blocks.specs.Views.{block_of};
ghost use Rattle.bg_forms.specs.Worth.{bools_at};
ghost use Rattle.bg_formed.specs.Views.{form_block_of};
ghost use Rattle.bg_places.specs.Views.{spot_of};
ghost use Rattle.bg_scalar.specs.Values.{value_of};
ghost use Rattle.bg_scalar.specs.Views.{tables_in};
ghost use Rattle.bg_model.specs.Behind.{behind_front};
ghost use Rattle.bg_model.specs.Views.{set_of};
ghost use Rattle.bg_model.specs.Counterexamples.{is_denied, IsCounterexample, AreTyped, IsTold};

use crate::choices::{Course, choices};
use crate::choose::values_from;
use crate::failure::Counterexample;
use crate::picked::{choices_for, kinds_for};
use crate::stretch::stretches;
use crate::trial::Trial;
use crate::turns::{fails, turns};
use bg_ast::resolved::Resolved;
use bg_blocks::Block;
use bg_formed::FormBlock;
use bg_kinds::ValueType;
use bg_places::Spot;
use bg_scalar::{Table, Value};
use std::alloc::{AllocError, Global};

/// The blocks of an implementation of a program, how many variables its frame has, the first incarnations that `bg_incarnate` gives
/// the blocks, and the blocks of forms, of which so many commands stand in front of the first block's own.
#[derive(Clone, Copy)]
pub struct Routine<'a> {
    pub program: &'a Resolved,
    pub frame: usize,
    pub blocks: &'a [Block<'a>],
    pub firsts: &'a [u32],
    pub forms: &'a [FormBlock],
    pub front: usize,
}

/// Truth values of the atoms, and types and values of the incarnations; past the end of the lists `int` and 0.
#[derive(Clone, Copy)]
pub struct Valuation<'a> {
    pub truths: &'a [bool],
    pub kinds: &'a [ValueType],
    pub values: &'a [Value],
}

/// How many globals are declared.
fn count_globals(program: &Resolved) -> usize
    ensures { result ≡ length (program_of program.now).globals }
{
    program.globals.len()
}

/// The run that fails at the target, where the equations of the forms, without those in front, deny the entry block under these truth
/// values of the atoms; `None` where they don't. Functions have these tables. The run goes along the lowest edges from which some walk
/// fails (in the manner of Barnett and Leino), from the first incarnations' values, and its choices end at the check that fails. Where the
/// incarnations' values are of their types, so are the choices.
///
/// Only want of memory is an error; 2^32 branches count as such.
pub fn counterexample(
    alloc: Global,
    routine: Routine<'_>,
    target: Spot,
    set: &[bool],
    valuation: Valuation<'_>,
    tables: Vec<Table>,
) -> Result<Option<Counterexample>, AllocError>
    ensures told { IfOk result (λ found. IsTold (is_denied (set_of set.now) (spot_of target) (bools_at valuation.entry.truths.now) (behind_front routine.entry.front (map form_block_of routine.entry.forms.now))) found (IsCounterexample (meaning_of (program_of routine.entry.program.now)) (map (block_of (program_of routine.entry.program.now)) routine.entry.blocks.now) routine.entry.frame routine.entry.firsts.now (behind_front routine.entry.front (map form_block_of routine.entry.forms.now)) (set_of set.now) (spot_of target) (bools_at valuation.entry.truths.now) (map value_of valuation.entry.values.now) (tables_in tables.items))) }
    ensures typed { IfOk result (λ found. are_of (map ref_in valuation.entry.kinds.now) (map value_of valuation.entry.values.now) ≡ true → AreTyped found) }
{
    let trial = Trial {
        alloc,
        set,
        target,
        truths: valuation.truths,
    };
    let forms = stretches(alloc, routine.forms, routine.front)?;
    let made = turns(trial, &forms)?;
    if !fails(&made, 0) {
        return Ok(None);
    }
    let course = Course {
        forms: &forms,
        firsts: routine.firsts,
        turns: &made,
    };
    let picks = choices(trial, routine.blocks, course)?;
    let many = count_globals(routine.program);
    let globals = values_from(alloc, valuation.values, 0, many)?;
    let frame = values_from(alloc, valuation.values, many, routine.frame)?;
    let kinds = kinds_for(alloc, valuation.kinds, &picks)?;
    let choices = choices_for(alloc, valuation.values, &picks)?;
    Ok(Some(Counterexample {
        tables,
        globals,
        frame,
        kinds,
        choices,
    }))
}
