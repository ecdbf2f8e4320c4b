//! What is made once of each implementation.
ghost use Rattle.std.specs.Prelude.{◌≡◌, ◌<◌, [], map, Some, length, slice_get, true, IfOk};
ghost use Rattle.bg_ast.specs.Resolved as r;
ghost use Rattle.bg_ast.specs.Meaning.{meaning_of};
ghost use Rattle.bg_ast.specs.Views.{program_of};
ghost use Rattle.bg_sense.specs.Typed.{IsTyped};
ghost use Rattle.bg_blocks.specs.Callees.{IsModified};
ghost use Rattle.bg_blocks.specs.EmittedViews.{frame_of};
ghost use Rattle.bg_fits.specs.Valued.{is_over_values};
ghost use Rattle.bg_sense.specs.Types.{types_of};
ghost use Rattle.bg_kinds.specs.Views.{ref_in};
ghost use Rattle.bg_task.specs.Prepared.{IsBare, IsPrepared, frame_declared};

use crate::equated::{Beside, compared_maps};
use crate::flat::made_flat;
use crate::kinds::{are_mapless, result_kinds, with_terms};
use crate::sorts::flat_sorts;
use crate::targets::targets_of;
use bg_ast::resolved::{Resolved, Variable};
use bg_atoms::{Atoms, atoms};
use bg_blocks::{Block, blocks};
use bg_faithful::laws::blocks_over_values_are_even;
use bg_flatten::Flat;
use bg_incarnate::{Passive, PassiveBlock, passive};
use bg_kinds::ValueType;
use bg_linear::Sort;
use bg_sorts::{frame_kinds, incarnation_kinds};
use bg_term_table::{Around, Term};
use bg_termed::laws::{
    blocks_behind_lines_are_sorted, implementations_without_functions_stay,
    passive_blocks_are_linear, passive_blocks_have_terms, programs_over_values_are_tabled,
};
use std::alloc::{AllocError, Global};

/// The blocks of an implementation, the first new incarnation at each arrival where they are made passive, how many incarnations there
/// are, its terms, where it has terms or maps its flat blocks, the types of incarnations and terms, the sorts of what stands for these, the blocks of
/// forms behind no line, the targets of incarnations and terms, and how many variables the frame has.
#[derive(Drop)]
pub struct Prepared<'p> {
    pub blocks: Vec<Block<'p>>,
    pub firsts: Vec<u32>,
    pub count: u32,
    pub terms: Vec<Term>,
    pub flats: Vec<PassiveBlock>,
    pub kinds: Vec<ValueType>,
    pub sorts: Vec<Sort>,
    pub atoms: Atoms,
    pub targets: Vec<i128>,
    pub beside: Beside,
    pub frame: usize,
}

/// The types of the variables of an implementation's frame.
fn frame_in(alloc: Global, program: &Resolved, number: usize) -> Result<Vec<ValueType>, AllocError>
    ensures { IfOk result (λ made. (m : r.Impl) (q : r.Proc) → slice_get (program_of program.now).implementations number ≡ Some m → slice_get (program_of program.now).procedures m.procedure ≡ Some q → map ref_in made.items ≡ types_of (frame_of (program_of program.now) (frame_declared m q))) }
{
    let Some(m) = program.implementations.get(number) else {
        return Ok(Vec::new(alloc));
    };
    let Some(q) = program.procedures.get(m.procedure as usize) else {
        return Ok(Vec::new(alloc));
    };
    frame_kinds(alloc, &program.types, q, m)
}

/// How many candidates there are; more than 2^32 are more than memory holds.
pub fn count_candidates(program: &Resolved) -> Result<u32, AllocError>
    ensures { IfOk result (λ n. n ≡ (meaning_of (program_of program.now)).candidates) }
{
    match u32::try_from(program.candidates.len()) {
        Ok(n) => Ok(n),
        Err(_) => Err(AllocError),
    }
}

/// The blocks where there are terms, or maps; else none are kept, since no line names what is there.
fn kept(
    alloc: Global,
    terms: &[Term],
    kinds: &[ValueType],
    blocks: Vec<PassiveBlock>,
) -> Vec<PassiveBlock>
    ensures { (IsBare terms.now (map ref_in kinds.now) → ⊥) → result ≡ blocks }
{
    if terms.is_empty() {
        if are_mapless(kinds) {
            return Vec::new(alloc);
        }
    }
    blocks
}

/// Prepares the implementation with this number of a typed program over values, where these are what its
/// procedures modify. In a program without functions and maps no block is copied.
///
/// Only want of memory is an error; 2^32 incarnations and terms, or atoms, count as such.
pub fn prepare<'p>(
    alloc: Global,
    program: &'p Resolved,
    callees: &'p [Vec<Variable>],
    number: usize,
) -> Result<Prepared<'p>, AllocError>
    requires modified { IsModified (program_of program.now) callees.now }
    requires there { number < length program.now.implementations.items }
    requires typed { IsTyped (meaning_of (program_of program.now)) }
    requires scalars { is_over_values (meaning_of (program_of program.now)) ≡ true }
    ensures { IfOk result (λ made. IsPrepared (program_of program.now) number made) }
{
    blocks_over_values_are_even();
    programs_over_values_are_tabled();
    implementations_without_functions_stay();
    passive_blocks_have_terms();
    passive_blocks_are_linear();
    blocks_behind_lines_are_sorted();
    let blocks = blocks(alloc, program, callees, number)?;
    let frame = frame_in(alloc, program, number)?;
    let passive = passive(alloc, program, frame.len(), &blocks)?;
    let incarnations = incarnation_kinds(alloc, program, &frame, &blocks, &passive)?;
    let Passive {
        blocks: passives,
        arrivals: _,
        firsts,
        count,
    } = passive;
    let results = result_kinds(alloc, program)?;
    let around = Around {
        incarnations: &incarnations,
        results: &results,
    };
    let Flat {
        terms,
        blocks: flats,
    } = made_flat(alloc, program, around, passives)?;
    let kinds = with_terms(alloc, &results, incarnations, &terms)?;
    let sorts = flat_sorts(alloc, &kinds)?;
    let candidates = count_candidates(program)?;
    let Some(atoms) = atoms(alloc, &sorts, candidates, &flats)? else {
        unreachable!()
    };
    let flats = kept(alloc, &terms, &kinds, flats);
    let targets = targets_of(alloc, &kinds, &terms)?;
    let beside = compared_maps(alloc, &kinds, &flats)?;
    Ok(Prepared {
        blocks,
        firsts,
        count,
        terms,
        flats,
        kinds,
        sorts,
        atoms,
        targets,
        beside,
        frame: frame.len(),
    })
}
