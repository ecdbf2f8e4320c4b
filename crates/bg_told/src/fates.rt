//! What became of each candidate: one pass over the places, and one over the removals.
ghost use Rattle.std.specs.Prelude.{◌≡◌, ◌||◌, ◌<◌, ℕ, true, false, if◌then◌else◌, length, map, IfOk, count_by};
ghost use Rattle.bg_ast.specs.Meaning.{meaning_of};
ghost use Rattle.bg_ast.specs.Views.{program_of};
ghost use Rattle.bg_words.specs.Sets.{has};
ghost use Rattle.bg_sound.specs.Told as t;
ghost use Rattle.bg_check.specs.Kept.{why_of};
ghost use Rattle.bg_houdini.specs.Told.{is_checked, earlier, first_of, fate_by, are_known, outcome_of};
ghost use Rattle.bg_told.specs.Fates.{told_fate, is_of, has_place, truth_at, removal_of, entry_at, with_earlier, is_asked, count_where};

use bg_ast::resolved::Resolved;
use bg_base::CandId;
use bg_check::{Kept, kept_of};
use bg_houdini::{Outcome, Reason};
use bg_places::laws::placed_are_places;
use bg_places::{Place, places};
use bg_rounds::Removal;
use bg_words::CandSet;
use std::alloc::{AllocError, Global};

/// What became of a candidate. It is unchecked where it is retained and no place has it; its first removal was refuted, or has a cause.
#[derive(Clone, Copy)]
pub enum Fate {
    Retained,
    Unchecked,
    Dropped,
    DroppedFor(Kept),
}

/// Marks the candidate of a place.
fn mark(marks: &mut Vec<bool>, place: &Place)
    ensures count { length marks.new.items ≡ length marks.old.items }
    ensures each { (b : ℕ) → b < length marks.old.items → truth_at marks.new.items b ≡ (is_of b place.now || truth_at marks.old.items b) }
{
    if let Some(c) = place.candidate {
        let c = c.0 as usize;
        if c < marks.len() {
            marks[c] = true;
        }
    }
}

/// For each of so many candidates, whether one of these places has it.
fn marks_of(alloc: Global, count: usize, places: &[Place]) -> Result<Vec<bool>, AllocError>
    ensures count { IfOk result (λ made. length made.items ≡ count) }
    ensures each { IfOk result (λ made. (b : ℕ) → b < count → truth_at made.items b ≡ has_place b places.now) }
{
    let mut marks = vec![in alloc; false; count]?;
    for place in places {
        mark(&mut marks, place);
    }
    Ok(marks)
}

/// For each of so many candidates, whether some place of the program has it.
fn checked_in(alloc: Global, program: &Resolved, count: usize) -> Result<Vec<bool>, AllocError>
    ensures count { IfOk result (λ made. length made.items ≡ count) }
    ensures each { IfOk result (λ made. (b : ℕ) → b < count → truth_at made.items b ≡ is_checked (meaning_of (program_of program.now)) b) }
{
    placed_are_places();
    let all = places(alloc, program)?;
    marks_of(alloc, count, &all)
}

/// Of two removals the one with the smaller number.
fn earlier<'a>(
    removal: &'a Removal<Reason>,
    other: Option<&'a Removal<Reason>>,
) -> &'a Removal<Reason>
    ensures { result.now ≡ earlier removal.now (removal_of other.entry) }
{
    match other {
        None => removal,
        Some(second) if second.number < removal.number => second,
        Some(_) => removal,
    }
}

/// Enters a removal that stands before those that are known.
fn enter<'a>(firsts: &mut Vec<Option<&'a Removal<Reason>>>, removal: &'a Removal<Reason>)
    ensures count { length firsts.new.items ≡ length firsts.old.items }
    ensures each { (b : ℕ) → b < length firsts.old.items → entry_at firsts.new.items b ≡ with_earlier removal.now b (entry_at firsts.old.items b) }
{
    let c = removal.cand.0 as usize;
    if c < firsts.len() {
        firsts[c] = Some(earlier(removal, firsts[c]));
    }
}

/// The first removal of each of so many candidates.
fn firsts_of<'a>(
    alloc: Global,
    count: usize,
    removals: &'a [Removal<Reason>],
) -> Result<Vec<Option<&'a Removal<Reason>>>, AllocError>
    ensures count { IfOk result (λ made. length made.items ≡ count) }
    ensures each { IfOk result (λ made. (b : ℕ) → b < count → entry_at made.items b ≡ first_of b removals.now) }
{
    let mut firsts = vec![in alloc; None; count]?;
    for i in 0..removals.len() {
        enter(&mut firsts, &removals[removals.len() - 1 - i]);
    }
    Ok(firsts)
}

/// Whether a candidate is in the set.
fn is_in(set: &CandSet, b: usize) -> bool
    ensures { result ≡ has set.now b }
{
    b < set.declared() as usize && set.has(CandId(b as u32))
}

/// What became of a candidate, by its first removal.
fn dropped_by(first: Option<&Removal<Reason>>) -> Fate
    ensures { told_fate result ≡ fate_by why_of (removal_of first.entry) }
{
    match first {
        None => Fate::Dropped,
        Some(removal) => match &removal.told {
            Reason::Refuted(_) => Fate::Dropped,
            Reason::Unknown(rounds, cause) => Fate::DroppedFor(kept_of(rounds, cause)),
            Reason::Left(kept) => Fate::DroppedFor(*kept),
        },
    }
}

/// What became of a candidate, by whether it is retained and checked, and by its first removal.
fn fate_of(kept: bool, checked: bool, first: Option<&Removal<Reason>>) -> Fate
    ensures { told_fate result ≡ (if kept then (if checked then t.Retained else t.Unchecked) else fate_by why_of (removal_of first.entry)) }
{
    if !kept {
        return dropped_by(first);
    }
    if checked {
        Fate::Retained
    } else {
        Fate::Unchecked
    }
}

/// What became of each candidate, by declaration.
pub fn fates_of(
    alloc: Global,
    program: &Resolved,
    outcome: &Outcome,
) -> Result<Vec<Fate>, AllocError>
    ensures { IfOk result (λ made. map told_fate made.items ≡ (outcome_of why_of (meaning_of (program_of program.now)) outcome.now).fates) }
{
    let count = program.candidates.len();
    let checked = checked_in(alloc, program, count)?;
    let firsts = firsts_of(alloc, count, &outcome.inferred.removals)?;
    let mut made = Vec::new(alloc);
    for b in 0..count {
        let kept = is_in(&outcome.inferred.retained, b);
        made.push(fate_of(kept, checked[b], firsts[b]))?;
    }
    Ok(made)
}

/// Whether no candidate went because its check ended unknown.
pub fn is_greatest(removals: &[Removal<Reason>]) -> bool
    ensures { result ≡ are_known removals.now }
{
    for removal in removals {
        if removal.unknown {
            return false;
        }
    }
    true
}

/// Whether the candidate is retained.
fn is_kept(fate: &Fate) -> bool
    ensures { result ≡ t.is_kept_by (told_fate fate.now) }
{
    match fate {
        Fate::Retained => true,
        Fate::Unchecked => true,
        Fate::Dropped => false,
        Fate::DroppedFor(_) => false,
    }
}

/// Whether the candidate is retained, or where that isn't asked, whether it isn't.
fn is_asked(fate: &Fate, kept: bool) -> bool
    ensures { result ≡ is_asked kept (told_fate fate.now) }
{
    if kept { is_kept(fate) } else { !is_kept(fate) }
}

/// How many of the candidates are retained, or how many aren't.
pub fn count_where(fates: &[Fate], kept: bool) -> usize
    ensures { result ≡ count_where kept (map told_fate fates.now) }
{
    let mut count = 0;
    for fate in fates {
        if is_asked(fate, kept) {
            count += 1;
        }
    }
    count
}
