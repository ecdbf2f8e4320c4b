//! The blocks of forms of an implementation behind lines.
ghost use Rattle.std.specs.Prelude.{◌≡◌, ℕ, map, true, IfOk};
ghost use Rattle.bg_ast.specs.Meaning.{meaning_of, named_of, impl_of, proc_of};
ghost use Rattle.bg_ast.specs.Views.{program_of};
ghost use Rattle.bg_sense.specs.Typed.{IsTyped};
ghost use Rattle.bg_fits.specs.Valued.{is_over_values};
ghost use Rattle.bg_kinds.specs.Views.{ref_in};
ghost use Rattle.bg_incarnate.specs.Views.{passive_block_of};
ghost use Rattle.bg_term_table.specs.Lines.{lines_of};
ghost use Rattle.bg_ahead.specs.Exact.{blanks};
ghost use Rattle.bg_task.specs.Cuts.{IsOwn};
ghost use Rattle.bg_task.specs.Prepared.{IsBare, IsPrepared, encoding_over};

use crate::lining::{Lined, with_lines};
use crate::prepared::{Prepared, count_candidates};
use bg_ahead::ahead;
use bg_ahead::laws::{blocks_with_more_in_front_are_exact, blocks_with_more_in_front_say_the_same};
use bg_ast::resolved::Resolved;
use bg_atoms::{Atoms, atoms};
use bg_fronts::behind;
use bg_incarnate::PassiveBlock;
use bg_term_table::Line;
use bg_termed::laws::{
    blocks_behind_lines_are_sorted, passive_blocks_are_linear, passive_blocks_have_terms,
};
use std::alloc::{AllocError, Global};

/// A block that says nothing, where there are some.
fn blanks(alloc: Global, blocks: &[PassiveBlock]) -> Result<Vec<PassiveBlock>, AllocError>
    ensures { IfOk result (λ made. map passive_block_of made.items ≡ blanks (map passive_block_of blocks.now)) }
{
    let mut made = Vec::new(alloc);
    if !blocks.is_empty() {
        made.push(PassiveBlock {
            cmds: Vec::new(alloc),
            next: Vec::new(alloc),
        })?;
    }
    Ok(made)
}

/// The blocks of forms of a prepared implementation that has terms or maps behind lines. What the lines say is made, and stands in front
/// of what was prepared.
pub fn atoms_behind(
    alloc: Global,
    program: &Resolved,
    prepared: &Prepared<'_>,
    lines: &[Line],
) -> Result<Atoms, AllocError>
    requires typed { IsTyped (meaning_of (program_of program.now)) }
    requires scalars { is_over_values (meaning_of (program_of program.now)) ≡ true }
    requires prepared { (number : ℕ) × IsPrepared (program_of program.now) number prepared.now }
    requires kept { IsBare prepared.now.terms.items (map ref_in prepared.now.kinds.items) → ⊥ }
    ensures { IfOk result (λ made. (number : ℕ) (h : IsPrepared (program_of program.now) number prepared.now) → IsOwn (meaning_of (program_of program.now)) number (impl_of (named_of (program_of program.now).types) h.implementation) (proc_of (named_of (program_of program.now).types) h.procedure) (lines_of lines.now) (encoding_over (meaning_of (program_of program.now)).candidates made)) }
{
    passive_blocks_have_terms();
    passive_blocks_are_linear();
    blocks_behind_lines_are_sorted();
    blocks_with_more_in_front_are_exact();
    blocks_with_more_in_front_say_the_same();
    let candidates = count_candidates(program)?;
    let Lined {
        incarnations: _,
        results: _,
        terms,
        sorts,
    } = with_lines(alloc, program, prepared, lines)?;
    let blanks = blanks(alloc, &prepared.flats)?;
    let blocks = behind(alloc, prepared.count, &terms, lines, &blanks)?;
    let Some(front) = atoms(alloc, &sorts, candidates, &blocks)? else {
        unreachable!()
    };
    let made = ahead(alloc, front, &prepared.atoms)?;
    Ok(made)
}
