//! What the claim of a place speaks of.
use crate::relevant::{is_marked, is_update, mark};
use bg_ast::resolved::Expr;
use bg_incarnate::{Edge, PassiveBlock, PassiveCmd};
use bg_places::Spot;
use bg_task::Question;
use bg_term_table::{Head, Line, Term, local};
use bg_wanted::{equal_by, read_by};
use std::alloc::{AllocError, Global};
use std::collections::BTreeSet;

/// What of incarnations and terms a claim speaks of, and which two it says to be equal.
#[derive(Drop)]
pub struct OfClaim {
    pub marks: Vec<bool>,
    pub equal: Vec<(u32, u32)>,
}

/// Marks what an expression reads.
fn mark_expr(alloc: Global, marks: &mut [bool], e: &Expr) -> Result<(), AllocError> {
    let mut read = Vec::new(alloc);
    read_by(e, &mut read)?;
    for j in &read {
        mark(marks, *j as usize);
    }
    Ok(())
}

/// Marks what these expressions read.
fn mark_exprs(alloc: Global, marks: &mut [bool], es: &[Expr]) -> Result<(), AllocError> {
    for e in es {
        mark_expr(alloc, marks, e)?;
    }
    Ok(())
}

/// Takes in what a command speaks of, if it is the claim at this spot.
fn take_cmd(
    alloc: Global,
    made: &mut OfClaim,
    spot: Spot,
    c: &PassiveCmd,
) -> Result<(), AllocError> {
    match c {
        PassiveCmd::Supposes(_, _) => Ok(()),
        PassiveCmd::Claims(s, _, e) => {
            if *s == spot {
                mark_expr(alloc, &mut made.marks, e)?;
                return equal_by(e, &mut made.equal);
            }
            Ok(())
        }
    }
}

/// Takes in what these commands speak of, where they are claims at this spot.
fn take_cmds(
    alloc: Global,
    made: &mut OfClaim,
    spot: Spot,
    cs: &[PassiveCmd],
) -> Result<(), AllocError> {
    for c in cs {
        take_cmd(alloc, made, spot, c)?;
    }
    Ok(())
}

/// The same of commands on the way to later blocks.
fn take_edges(
    alloc: Global,
    made: &mut OfClaim,
    spot: Spot,
    edges: &[Edge],
) -> Result<(), AllocError> {
    for e in edges {
        take_cmds(alloc, made, spot, &e.cmds)?;
    }
    Ok(())
}

/// The same of all commands of blocks.
fn take_blocks(
    alloc: Global,
    made: &mut OfClaim,
    spot: Spot,
    blocks: &[PassiveBlock],
) -> Result<(), AllocError> {
    for b in blocks {
        take_cmds(alloc, made, spot, &b.cmds)?;
        take_edges(alloc, made, spot, &b.next)?;
    }
    Ok(())
}

/// The maps that are said to be equal.
fn compared(alloc: Global, equal: &[(u32, u32)]) -> Result<BTreeSet<u32>, AllocError> {
    let mut made = BTreeSet::new(alloc);
    for (a, b) in equal {
        made.insert(*a)?;
        made.insert(*b)?;
    }
    Ok(made)
}

/// Whether a term selects from one of these maps.
fn is_from(maps: &BTreeSet<u32>, t: &Term) -> bool {
    match t.head {
        Head::Selects(_, _) => match t.args.first() {
            None => false,
            Some(x) => match local(x) {
                None => false,
                Some(m) => maps.contains(&m),
            },
        },
        _ => false,
    }
}

/// Marks the selects from these maps among terms, which stand behind so many incarnations.
fn mark_selects(marks: &mut [bool], count: usize, terms: &[Term], maps: &BTreeSet<u32>) {
    for (i, t) in terms.iter().enumerate() {
        if is_from(maps, t) {
            if let Some(j) = count.checked_add(i) {
                mark(marks, j);
            }
        }
    }
}

/// Marks what the arguments of a term read, which stands behind so many incarnations, if it is marked and no update.
fn mark_args(
    alloc: Global,
    marks: &mut [bool],
    count: usize,
    terms: &[Term],
    i: usize,
) -> Result<(), AllocError> {
    match (terms.get(i), count.checked_add(i)) {
        (Some(t), Some(j)) => {
            if is_marked(marks, j) && !is_update(t) {
                return mark_exprs(alloc, marks, &t.args);
            }
            Ok(())
        }
        _ => Ok(()),
    }
}

/// Marks what stands in arguments of marked terms, from the last term on.
fn mark_behind(
    alloc: Global,
    marks: &mut [bool],
    count: usize,
    terms: &[Term],
) -> Result<(), AllocError> {
    let mut left = terms.len();
    while left > 0 {
        left -= 1;
        mark_args(alloc, marks, count, terms, left)?;
    }
    Ok(())
}

/// The pairs for which lines have no names.
fn nameless(
    alloc: Global,
    equal: &[(u32, u32)],
    lines: &[Line],
) -> Result<Vec<(u32, u32)>, AllocError> {
    let mut named = BTreeSet::new(alloc);
    for l in lines {
        if let Line::Names(a, b) = l {
            named.insert((*a, *b))?;
        }
    }
    let mut made = Vec::new(alloc);
    for p in equal {
        if !named.contains(p) {
            made.push(*p)?;
        }
    }
    Ok(made)
}

/// Nothing of so many incarnations and terms.
fn nothing(alloc: Global, many: usize) -> Result<OfClaim, AllocError> {
    Ok(OfClaim {
        marks: vec![in alloc; false; many]?,
        equal: Vec::new(alloc),
    })
}

/// Which of so many incarnations and terms the claim of a question's place speaks of behind lines, what stands in arguments of such terms,
/// and what it says to be equal for which lines have no names. None where there are more lines than the implementation has terms: what the
/// claim speaks of has had its turn by then.
pub fn claimed(
    alloc: Global,
    question: Question<'_, '_>,
    lines: &[Line],
    terms: &[Term],
    many: usize,
) -> Result<OfClaim, AllocError> {
    let prepared = question.prepared;
    if prepared.terms.len() < lines.len() {
        return nothing(alloc, 0);
    }
    let mut made = nothing(alloc, many)?;
    take_blocks(alloc, &mut made, question.place.spot, &prepared.flats)?;
    let maps = compared(alloc, &made.equal)?;
    if let Some(count) = many.checked_sub(terms.len()) {
        mark_selects(&mut made.marks, count, terms, &maps);
        mark_behind(alloc, &mut made.marks, count, terms)?;
    }
    made.equal = nameless(alloc, &made.equal, lines)?;
    Ok(made)
}
