//! The clauses of blocks, from the last block back.
ghost use Rattle.std.specs.Prelude.{◌≡◌, false, [], ◌∷◌, map, IfOk, OnOk};
ghost use Rattle.bg_places.specs.Views.{spot_of};
ghost use Rattle.bg_forms.specs.Forms.{Plain};
ghost use Rattle.bg_formed.specs.Used.{unused, uses, use_later};
ghost use Rattle.bg_formed.specs.Seen.{use_of};
ghost use Rattle.bg_formed.specs.Views.{form_block_of};
ghost use Rattle.bg_slice.specs.Slices.{sliced};
ghost use Rattle.bg_clause.specs.Told.{nothing, is_short, with_entry, entry_told};
ghost use Rattle.bg_clause.specs.Cutting.{ahead_of, cut_nothing, cut_by, cut_one, cut_told};
ghost use Rattle.bg_clause.specs.Lends.{lent_in};
ghost use Rattle.bg_clause.specs.Views.{short_in};
ghost use Rattle.bg_clause.specs.Telling.{told_in, telling_of};

use crate::emit::emit;
use crate::fails::Ahead;
use crate::lent::Lent;
use crate::naming::{alone, denies, names, take_next};
use crate::short::{Short, short_of};
use crate::ways::{Later, cut_block};
use bg_formed::{FormBlock, Use};
use bg_formula::Literal;
use bg_places::Spot;
use std::alloc::{AllocError, Global};
use std::collections::VecDeque;

/// What is known of the blocks so far, the clauses, and the next free number of an atom.
#[derive(Drop)]
pub struct Telling {
    pub later: Later,
    pub clauses: Vec<Vec<Literal>>,
    pub next: u32,
}

/// What is told of all blocks, and what is reached from the first one.
#[derive(Drop)]
pub struct Entry {
    pub told: Telling,
    pub on: Use,
}

/// Nothing is told yet, and the numbers from this one on are free.
fn nothing(alloc: Global, next: u32) -> Telling
    ensures { telling_of result ≡ cut_nothing next }
{
    Telling {
        later: Later {
            fails: VecDeque::new(alloc),
            uses: VecDeque::new(alloc),
        },
        clauses: Vec::new(alloc),
        next,
    }
}

/// One more block in front, in whose place this stands.
fn stand(s: &mut Telling, short: Short, on: Use) -> Result<(), AllocError>
    ensures { OnOk result (telling_of s.new ≡ record { told = record (told_in s.old) { fails = short_in short ∷ (told_in s.old).fails }; uses = use_of on ∷ (telling_of s.old).uses }) }
{
    s.later.fails.push_front(short)?;
    s.later.uses.push_front(on)?;
    Ok(())
}

/// One more block in front, in whose place a new atom stands.
fn name_it(alloc: Global, s: &mut Telling, ahead: Ahead<'_>) -> Result<(), AllocError>
    ensures { OnOk result (telling_of s.new ≡ cut_by false (ahead_of ahead.entry) (telling_of s.old)) }
{
    let Ahead { form, on } = ahead;
    let name = take_next(&mut s.next)?;
    let literals = alone(alloc, denies(name))?;
    emit(alloc, &mut s.clauses, literals, form, &mut s.next)?;
    stand(s, Short::Is(names(name)), on)
}

/// One more block in front, of which this is told.
fn tell(alloc: Global, s: &mut Telling, ahead: Ahead<'_>) -> Result<(), AllocError>
    ensures { OnOk result (telling_of s.new ≡ cut_by (is_short (lent_in ahead.entry.form)) (ahead_of ahead.entry) (telling_of s.old)) }
{
    match short_of(&ahead.form) {
        Some(short) => stand(s, short, ahead.on),
        None => name_it(alloc, s, ahead),
    }
}

/// One more block in front.
fn tell_block(
    alloc: Global,
    units: &[Option<u32>],
    target: Spot,
    s: &mut Telling,
    b: &FormBlock,
) -> Result<(), AllocError>
    ensures { OnOk result (telling_of s.new ≡ cut_told units.now (spot_of target) (telling_of s.old) (form_block_of b.now ∷ [])) }
{
    let ahead = cut_block(alloc, units, target, &s.later, b)?;
    tell(alloc, s, ahead)
}

/// What is told of blocks.
#[tactic(auto, using(crate::proofs::Onward::told_rules))]
fn tell_blocks(
    alloc: Global,
    units: &[Option<u32>],
    target: Spot,
    first: u32,
    blocks: &[FormBlock],
) -> Result<Telling, AllocError>
    ensures { IfOk result (λ s. telling_of s ≡ cut_told units.now (spot_of target) (cut_nothing first) (map form_block_of blocks.now)) }
{
    let mut s = nothing(alloc, first);
    let mut left: &[FormBlock] = blocks;
    while let Some((last, before)) = left.split_last() {
        tell_block(alloc, units, target, &mut s, last)?;
        left = before;
    }
    Ok(s)
}

/// This form is true.
fn claim(alloc: Global, s: Telling, f: Lent<'_>) -> Result<Telling, AllocError>
    ensures { IfOk result (λ x. told_in x ≡ with_entry (lent_in f.entry) (told_in s)) }
{
    let mut s = s;
    let literals = Vec::new(alloc);
    emit(alloc, &mut s.clauses, literals, f, &mut s.next)?;
    Ok(s)
}

/// There is no first block that could fail.
fn no_entry(alloc: Global, first: u32) -> Result<Entry, AllocError>
    ensures told { IfOk result (λ x. told_in x.told ≡ with_entry (Plain false) (nothing first)) }
    ensures on { IfOk result (λ x. use_of x.on ≡ unused) }
{
    let told = claim(alloc, nothing(alloc, first), Lent::Plain(false))?;
    let on = Use {
        reached: false,
        refusal: None,
    };
    Ok(Entry { told, on })
}

/// The first block fails, where only what counts for the target says something. The numbers from this one on are free.
pub fn tell_entry(
    alloc: Global,
    units: &[Option<u32>],
    target: Spot,
    first: u32,
    blocks: &[FormBlock],
) -> Result<Entry, AllocError>
    ensures told { IfOk result (λ x. told_in x.told ≡ entry_told units.now (spot_of target) first (sliced (spot_of target) (map form_block_of blocks.now))) }
    ensures on { IfOk result (λ x. use_of x.on ≡ use_later (uses (spot_of target) (map form_block_of blocks.now)) 0) }
{
    let Some((b, rest)) = blocks.split_first() else {
        return no_entry(alloc, first);
    };
    let s = tell_blocks(alloc, units, target, first, rest)?;
    let Ahead { form, on } = cut_block(alloc, units, target, &s.later, b)?;
    let told = claim(alloc, s, form)?;
    Ok(Entry { told, on })
}
