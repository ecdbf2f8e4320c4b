//! Ways that meet.
ghost use Rattle.std.specs.Prelude.{◌≡◌, [], ◌∷◌, suc, map, slice_get, if◌then◌else◌, IfOk, OnOk, MatchOption};
ghost use Rattle.bg_passive.specs.Arrivals.{arrive_at};
ghost use Rattle.bg_incarnate.specs.Views.{held_env};
ghost use Rattle.bg_incarnate.specs.Arrived.{ways_of, held_part, is_some, same_at, merge_from, after_from};

use crate::held::{Held, take_next};
use std::alloc::{AllocError, Global};

/// The globals, or the frame.
#[derive(Clone, Copy, PartialEq, Eq, Debug)]
pub enum Part {
    Globals,
    Frame,
}

fn part_of<'h>(held: &'h Held<'_>, part: Part) -> &'h [u32]
    ensures { result.now ≡ held_part part held.now }
{
    match part {
        Part::Globals => &held.globals,
        Part::Frame => &held.frame,
    }
}

fn is_at(incarnations: &[u32], i: usize, j: u32) -> bool
    ensures { result ≡ is_some j (slice_get incarnations.now i) }
{
    match incarnations.get(i) {
        Some(k) => *k == j,
        None => false,
    }
}

/// Whether the variable at this place has this incarnation on each way.
fn agree(ways: &[Held<'_>], part: Part, i: usize, j: u32) -> bool
    ensures { result ≡ same_at i j (map (held_part part) ways.now) }
{
    for way in ways {
        if !is_at(part_of(way, part), i, j) {
            return false;
        }
    }
    true
}

/// The incarnation behind the ways: that of each of them, or else a new one.
fn met(ways: &[Held<'_>], part: Part, i: usize, j: u32, next: &mut u32) -> Result<u32, AllocError>
    ensures is { IfOk result (λ k. k ≡ (if same_at i j (map (held_part part) ways.now) then j else next.old)) }
    ensures more { OnOk result (next.new ≡ (if same_at i j (map (held_part part) ways.now) then next.old else suc next.old)) }
{
    if agree(ways, part, i, j) {
        Ok(j)
    } else {
        take_next(next)
    }
}

fn merged(
    alloc: Global,
    ways: &[Held<'_>],
    part: Part,
    first: &[u32],
    next: &mut u32,
) -> Result<Vec<u32>, AllocError>
    ensures made { IfOk result (λ made. made.items ≡ merge_from next.old 0 first.now (map (held_part part) ways.now)) }
    ensures more { OnOk result (next.new ≡ after_from next.old 0 first.now (map (held_part part) ways.now)) }
{
    let mut made = Vec::new(alloc);
    for (i, j) in first.iter().enumerate() {
        let k = met(ways, part, i, *j, next)?;
        made.push(k)?;
    }
    Ok(made)
}

/// A copy.
pub fn copied<'b>(alloc: Global, held: &Held<'b>) -> Result<Held<'b>, AllocError>
    ensures { IfOk result (λ h. held_env h ≡ held_env held.now) }
{
    let globals = held.globals.to_vec(alloc)?;
    let frame = held.frame.to_vec(alloc)?;
    Ok(Held {
        globals,
        before: held.before,
        frame,
    })
}

/// The way, where there is one alone. Then none is left.
pub fn alone<'b>(ways: &mut Vec<Held<'b>>) -> Option<Held<'b>>
    ensures { MatchOption result (ways.new.items ≡ ways.old.items) (λ h. ways.old.items ≡ h ∷ []) }
{
    if ways.len() == 1 { ways.pop() } else { None }
}

/// The incarnations where these ways meet; where there is no way, those at entry.
pub fn arrive<'b>(
    alloc: Global,
    entry: &Held<'b>,
    ways: &[Held<'b>],
    next: &mut u32,
) -> Result<Held<'b>, AllocError>
    ensures env { IfOk result (λ h. held_env h ≡ (arrive_at (held_env entry.now) (ways_of ways.now) next.old).env) }
    ensures more { OnOk result (next.new ≡ (arrive_at (held_env entry.now) (ways_of ways.now) next.old).next) }
{
    match ways.split_last() {
        None => copied(alloc, entry),
        Some((first, _)) => {
            let globals = merged(alloc, ways, Part::Globals, &first.globals, next)?;
            let frame = merged(alloc, ways, Part::Frame, &first.frame, next)?;
            Ok(Held {
                globals,
                before: first.before,
                frame,
            })
        }
    }
}
