//! What a leaf wants along updates.
ghost use Rattle.std.specs.Prelude.{◌≡◌, ◌++◌, List, IfOk, OnOk};
ghost use Rattle.bg_ast.specs.Values.{Ty};
ghost use Rattle.bg_ast.specs.Syntax.{Fun};
ghost use Rattle.bg_term_table.specs.Lines.{lines_of};
ghost use Rattle.bg_term_table.specs.Views.{terms_in};
ghost use Rattle.bg_wanted.specs.Scalars.{scalars_in};
ghost use Rattle.bg_wanted.specs.Wanting.{IsWanting};
ghost use Rattle.bg_wanted.specs.Chased.{IsSighted, Keeps, KeepsLost};

use crate::class::{Class, number};
use crate::false_here::is_pair_lost;
use crate::paths::later;
use crate::way::{Sighted, Way, along, no_step};
use bg_term_table::Line;
use std::alloc::{AllocError, Global};

/// Whether the term at this place is marked.
fn is_marked(sight: Sighted<'_>, marks: &[bool], a: usize) -> bool {
    match a.checked_add(sight.count as usize) {
        None => false,
        Some(j) => match marks.get(j) {
            None => false,
            Some(b) => *b,
        },
    }
}

/// Whether the term at this place is marked, or, where that is asked, whether it isn't.
fn is_asked(sight: Sighted<'_>, marks: &[bool], marked: bool, a: usize) -> bool {
    is_marked(sight, marks, a) == marked
}

/// Along all updates from the select at this place, if it is marked, or if it isn't.
fn along_marked(
    alloc: Global,
    sight: Sighted<'_>,
    way: &mut Way,
    marks: &[bool],
    marked: bool,
    a: usize,
) -> Result<(), AllocError>
    ensures { OnOk result (Keeps sight.entry way.old way.new) }
{
    if !is_asked(sight, marks, marked, a) {
        return Ok(());
    }
    along(alloc, sight, way, number(a)?)?;
    Ok(())
}

/// Along all updates from each select that is marked, or from each that isn't.
fn along_all(
    alloc: Global,
    sight: Sighted<'_>,
    way: &mut Way,
    marks: &[bool],
    marked: bool,
) -> Result<(), AllocError>
    ensures { OnOk result (Keeps sight.entry way.old way.new) }
{
    for a in 0..sight.rows.len() {
        along_marked(alloc, sight, way, marks, marked, a)?;
    }
    Ok(())
}

/// Along all updates from each select that a new value reads which was met, and so on.
fn along_later(alloc: Global, sight: Sighted<'_>, way: &mut Way) -> Result<(), AllocError>
    ensures { OnOk result (Keeps sight.entry way.old way.new) }
{
    for _ in 0..sight.rows.len() {
        match later(&mut way.paths) {
            None => return Ok(()),
            Some(a) => along(alloc, sight, way, a)?,
        }
    }
    Ok(())
}

/// Whether nothing is told yet.
fn is_silent(way: &Way) -> bool {
    way.lost.is_empty() && way.wants.made.is_empty()
}

/// Along all updates from the selects of which a place's clauses speak, and, where nothing is told of these, from the others.
fn along_clauses(alloc: Global, sight: Sighted<'_>, way: &mut Way) -> Result<(), AllocError>
    ensures { OnOk result (Keeps sight.entry way.old way.new) }
{
    along_all(alloc, sight, way, sight.hints.marks, true)?;
    if is_silent(way) {
        along_all(alloc, sight, way, sight.hints.marks, false)?;
        return Ok(());
    }
    Ok(())
}

/// The same where nothing is told yet, and else nothing.
fn along_rest(alloc: Global, sight: Sighted<'_>, way: &mut Way) -> Result<(), AllocError>
    ensures { OnOk result (Keeps sight.entry way.old way.new) }
{
    if is_silent(way) {
        along_clauses(alloc, sight, way)?;
        return Ok(());
    }
    Ok(())
}

/// Along all updates from the selects of which a place's claim speaks, and from what the new values read that are met there.
fn along_claim(alloc: Global, sight: Sighted<'_>, way: &mut Way) -> Result<(), AllocError>
    ensures { OnOk result (Keeps sight.entry way.old way.new) }
{
    along_all(alloc, sight, way, sight.hints.first, true)?;
    along_later(alloc, sight, way)?;
    Ok(())
}

/// Whether the term at this place is of a function, or the place's claim speaks of it.
fn is_near(sight: Sighted<'_>, a: u32) -> bool {
    match sight.rows.get(a as usize) {
        None => false,
        Some(row) => match row.class {
            Class::Function(_) => true,
            _ => is_marked(sight, sight.hints.first, a as usize),
        },
    }
}

/// The congruence of these terms, if it is false.
fn put_pair(sight: Sighted<'_>, lost: &mut Vec<Line>, a: u32, b: u32) -> Result<(), AllocError>
    ensures { OnOk result (KeepsLost sight.entry lost.old.items lost.new.items) }
{
    if is_pair_lost(sight.rows, a, b) {
        lost.push(Line::Congruent(a, b))?;
        return Ok(());
    }
    Ok(())
}

/// This line, if it is a congruence that is false, of functions or of what the place's claim speaks of.
fn put_near(sight: Sighted<'_>, lost: &mut Vec<Line>, l: Line) -> Result<(), AllocError>
    ensures { OnOk result (KeepsLost sight.entry lost.old.items lost.new.items) }
{
    match l {
        Line::Pick(_, _) => Ok(()),
        Line::Names(_, _) => Ok(()),
        Line::Congruent(a, b) => {
            if is_near(sight, a) || is_near(sight, b) {
                put_pair(sight, lost, a, b)?;
                return Ok(());
            }
            Ok(())
        }
        Line::AtIndex(_, _) => Ok(()),
        Line::Elsewhere(_, _, _) => Ok(()),
        Line::Apart(_, _) => Ok(()),
    }
}

/// The congruences of functions and of what the place's claim speaks of among lines.
fn put_all_near(sight: Sighted<'_>, lost: &mut Vec<Line>, lines: &[Line]) -> Result<(), AllocError>
    ensures { OnOk result (KeepsLost sight.entry lost.old.items lost.new.items) }
{
    for l in lines {
        put_near(sight, lost, *l)?;
    }
    Ok(())
}

/// What is false first, and what comes in behind it.
fn all_told(way: Way) -> Result<Vec<Line>, AllocError>
    ensures { IfOk result (λ made. made.items ≡ way.lost.items ++ way.wants.made.items) }
{
    let mut made = way.lost;
    made.extend_from_slice(&way.wants.made)?;
    Ok(made)
}

/// What is wanted at a leaf that isn't finished, at which these lines are wanted: from each select of which the place's claim speaks, and
/// from those that new values on the way read, along the updates that make its map, what is false or comes in there, with those of the lines
/// that are congruences of functions and of what the claim speaks of; where that is nothing, the same along the updates from the selects of
/// which the place's clauses speak, then from the others; and else the lines.
pub fn chased(alloc: Global, sight: Sighted<'_>, lines: Vec<Line>) -> Result<Vec<Line>, AllocError>
    ensures { IfOk result (λ made. (fs : List Fun) (incs : List Ty) → IsSighted fs incs sight.entry → IsWanting incs (terms_in fs sight.entry.terms.now) (scalars_in sight.entry.values.now) (lines_of lines.items) → IsWanting incs (terms_in fs sight.entry.terms.now) (scalars_in sight.entry.values.now) (lines_of made.items)) }
{
    let mut way = no_step(alloc, sight)?;
    along_claim(alloc, sight, &mut way)?;
    put_all_near(sight, &mut way.lost, &lines)?;
    along_rest(alloc, sight, &mut way)?;
    let made = all_told(way)?;
    if made.is_empty() {
        return Ok(lines);
    }
    Ok(made)
}
