//! From the passive blocks of an implementation to blocks of forms with their rows.
ghost use Rattle.std.specs.Prelude.{◌≡◌, ℕ, ◌+◌, nat_lt, ℤ, Bool, true, map, length, is_some, IfOk, IfSome};
ghost use Rattle.bg_incarnate.specs.Views.{passive_block_of};
ghost use Rattle.bg_sense.specs.Eval.{Scope};
ghost use Rattle.bg_formula.specs.Atoms.{view_linear};
ghost use Rattle.bg_formula.specs.Formulas.{rows_below};
ghost use Rattle.bg_formula.specs.Meaning.{AtomsAgree};
ghost use Rattle.bg_formed.specs.Agree.{AreRows, RowsAgree};
ghost use Rattle.bg_formed.specs.Formed.{blocks_below};
ghost use Rattle.bg_formed.specs.Said.{SaidBlocks};
ghost use Rattle.bg_formed.specs.Views.{blocks_of};
ghost use Rattle.bg_linear.specs.Sorts.{HoldScalars};
ghost use Rattle.bg_atoms.specs.Ranks.{rank, truths};
ghost use Rattle.bg_atoms.specs.Literals.{are_apart};
ghost use Rattle.bg_atoms.specs.Encoded.{blocks_over};
ghost use Rattle.bg_atoms.specs.Made.{rows_in};
ghost use Rattle.bg_atoms.specs.Sources.{AreFrom};
ghost use Rattle.bg_atoms.specs.Listed.{rows_of};
ghost use Rattle.bg_atoms.specs.Sorted.{blocks_sorted};

use crate::blocks::blocks_told;
use crate::named::{Names, truths};
use crate::product::Atoms;
use crate::sorted::blocks_sorted;
use crate::table::Table;
use bg_incarnate::PassiveBlock;
use bg_linear::Sort;
use std::alloc::{AllocError, Global};

/// How many incarnations there are; more than 2^32 - 1 count as want of memory.
fn count(sorts: &[Sort]) -> Result<u32, AllocError>
    ensures { IfOk result (λ n. n ≡ length sorts.now) }
{
    match u32::try_from(sorts.len()) {
        Ok(n) => Ok(n),
        Err(_) => Err(AllocError),
    }
}

/// The blocks of forms of passive blocks over incarnations of these sorts, with the rows of their relations. None where a command says
/// no truth over these incarnations, or names a candidate that isn't below `candidates`.
///
/// A relation of numbers is a literal of its row's atom, or of that of the row which it denies; `==` is the conjunction of its two
/// rows' literals, and `!=` its denial. Each row is one of such a relation in some command, no row stands twice, and none is the denial
/// of another. They stand in the order in which the commands have them (`listed`), from left to right, where `a <== b` means `b ==> a`, so
/// what b has comes before what a has; of the two rows of `==` the second one comes first. With the rows the blocks of forms are given
/// (`exact`): a command's form is that of its expression with the literals of its own relations, so it names no row but theirs. A command
/// of which a relation leaves 128 bits says `Outside` with the first operation that does so, in the order in which what its expression
/// means is evaluated. 2^32 atoms or incarnations count as want of memory.
pub fn atoms(
    alloc: Global,
    sorts: &[Sort],
    candidates: u32,
    blocks: &[PassiveBlock],
) -> Result<Option<Atoms>, AllocError>
    ensures none { IfOk result (λ made. is_some made ≡ blocks_sorted sorts.now candidates (map passive_block_of blocks.now)) }
    ensures first { IfOk result (λ made. IfSome made (λ a. a.first ≡ truths sorts.now)) }
    ensures terms { IfOk result (λ made. IfSome made (λ a. a.terms ≡ length sorts.now)) }
    ensures said { IfOk result (λ made. IfSome made (λ a. (numbers : ℕ → ℤ) (truth : ℕ → Bool) (c : Scope) → RowsAgree numbers truth a.first (rows_in a.rows) → HoldScalars sorts.now numbers (λ j. truth (rank sorts.now j)) c.frame → SaidBlocks truth c (map passive_block_of blocks.now) (blocks_of a.blocks))) }
    ensures below { IfOk result (λ made. IfSome made (λ a. blocks_below (a.first + length (rows_in a.rows)) (λ b. nat_lt b candidates) (blocks_of a.blocks) ≡ true)) }
    ensures rows { IfOk result (λ made. IfSome made (λ a. AreRows (rows_in a.rows))) }
    ensures denials { IfOk result (λ made. IfSome made (λ a. AtomsAgree (rows_in a.rows))) }
    ensures inside { IfOk result (λ made. IfSome made (λ a. rows_below a.terms (rows_in a.rows) ≡ true)) }
    ensures listed { IfOk result (λ made. IfSome made (λ a. rows_in a.rows ≡ rows_of sorts.now (map passive_block_of blocks.now))) }
    ensures sources { IfOk result (λ made. IfSome made (λ a. AreFrom sorts.now (map passive_block_of blocks.now) (rows_in a.rows))) }
    ensures exact { IfOk result (λ made. IfSome made (λ a. blocks_of a.blocks ≡ blocks_over sorts.now a.first (rows_in a.rows) (map passive_block_of blocks.now))) }
    ensures apart { IfOk result (λ made. IfSome made (λ a. are_apart (rows_in a.rows) ≡ true)) }
{
    if !blocks_sorted(sorts, candidates, blocks) {
        return Ok(None);
    }
    let first = truths(sorts)?;
    let names = Names::new(alloc, sorts, first)?;
    let mut table = Table::new(alloc);
    let made = blocks_told(alloc, &mut table, &names, blocks)?;
    let rows = table.into_rows();
    let terms = count(sorts)?;
    Ok(Some(Atoms {
        first,
        terms,
        rows,
        blocks: made,
    }))
}
