//! The dilemma rule (Sheeran and Stålmarck, A tutorial on Stålmarck's proof procedure for propositional logic, 1998): what follows in
//! each alternative of a clause follows. Alternatives go on until they meet, at the same clause of the program; then what they have in
//! common is claimed, literals, bounds and equalities, and each claim is proved by the alternatives.

use crate::equal::common_equalities;
use crate::flow::{Flow, calm, claim_all, enter, has_true};
use crate::occurs::{Occurs, clauses_of, occurs_of};
use crate::shared::{common_bounds, common_literals, extremes, template};
use crate::way::{Way, gather, is_branch};
use bg_simplex::Lit;
use bg_trail::{
    Engine, at_place, go_back, is_false, is_open, is_opening, is_reached, negated, numbered,
};
use std::alloc::AllocError;

/// How deep alternatives within alternatives are looked at.
const MOST_DEPTH: u32 = 24;

/// How often the alternatives of a clause go on.
const MOST_ROUNDS: u32 = 40;

/// How many clauses are looked at.
const MOST_LOOKS: usize = 4096;

/// How the alternatives of a clause stand.
#[derive(Clone, Copy)]
enum Round {
    /// The alternative of this number, which was decided, stands before this clause and goes on there.
    Into(usize, u32),
    /// They meet, or can't go on.
    Over,
    /// The level is gone, or all is.
    Ends(Flow),
}

/// Tries an alternative. What holds behind it is kept, unless it is refuted.
fn try_way(
    e: &mut Engine<'_>,
    occurs: &Occurs,
    ways: &mut Vec<Way>,
    l: Lit,
    base: usize,
) -> Result<Flow, AllocError> {
    let flow = enter(e, l, base)?;
    if matches!(flow, Flow::Go) && e.trail.level > base {
        let way = gather(e, occurs, l)?;
        go_back(e, base);
        ways.push(way)?;
    }
    Ok(flow)
}

/// Tries the undecided alternatives of a clause, one by one.
fn try_all(
    e: &mut Engine<'_>,
    occurs: &Occurs,
    ways: &mut Vec<Way>,
    all: &[Lit],
    base: usize,
) -> Result<Flow, AllocError> {
    for l in all {
        if is_open(&e.trail, *l) {
            match try_way(e, occurs, ways, *l, base)? {
                Flow::Go => {}
                other => return Ok(other),
            }
        }
    }
    Ok(Flow::Go)
}

/// The alternative that stands farthest back in the program, and the clause that it stands before; none where they all stand before
/// the same one, or before none.
fn farthest(ways: &[Way]) -> Option<(usize, u32)> {
    let mut best: Option<(usize, u32)> = None;
    let mut differs = false;
    for (i, w) in ways.iter().enumerate() {
        match (best, w.front) {
            (Some((_, b)), Some(c)) => {
                differs = differs || b != c;
                if b <= c {
                    best = Some((i, c));
                }
            }
            (None, Some(c)) => {
                differs = i > 0;
                best = Some((i, c));
            }
            (_, None) => differs = true,
        }
    }
    if differs { best } else { None }
}

/// Goes into the alternative that goes on.
fn begin_round(e: &mut Engine<'_>, ways: &[Way], base: usize) -> Result<Round, AllocError> {
    if ways.len() < 2 || e.counts.looks > MOST_LOOKS {
        return Ok(Round::Over);
    }
    let Some((i, front)) = farthest(ways) else {
        return Ok(Round::Over);
    };
    let Some(w) = ways.get(i) else {
        return Ok(Round::Over);
    };
    let l = w.literal;
    if !is_open(&e.trail, l) {
        return Ok(Round::Over);
    }
    match enter(e, l, base)? {
        Flow::Go => Ok(Round::Into(i, front)),
        other => Ok(Round::Ends(other)),
    }
}

/// Tries the alternatives of a clause, and begins the first round.
fn first_round(
    e: &mut Engine<'_>,
    occurs: &Occurs,
    ways: &mut Vec<Way>,
    all: &[Lit],
    base: usize,
) -> Result<Round, AllocError> {
    e.counts.looks = e.counts.looks.saturating_add(1);
    match try_all(e, occurs, ways, all, base)? {
        Flow::Go => begin_round(e, ways, base),
        other => Ok(Round::Ends(other)),
    }
}

/// Takes anew what holds behind an alternative. Answers whether it came further.
fn replace(
    e: &mut Engine<'_>,
    occurs: &Occurs,
    ways: &mut Vec<Way>,
    i: usize,
    base: usize,
) -> Result<bool, AllocError> {
    let Some(old) = ways.get(i) else {
        return Ok(false);
    };
    let (l, before) = (old.literal, old.front);
    let way = gather(e, occurs, l)?;
    go_back(e, base);
    let comes_further = way.front < before;
    if let Some(old) = ways.get_mut(i) {
        *old = way;
    }
    Ok(comes_further)
}

/// An alternative that is refuted goes.
fn drop_refuted(e: &Engine<'_>, ways: &mut Vec<Way>, i: usize) {
    if i < ways.len() {
        let l = ways[i].literal;
        if is_false(&e.trail, l) {
            drop(ways.remove(i));
        }
    }
}

/// Ends the round of an alternative, in which the rule for the clause before it ended so, and begins the next one.
fn next_round(
    e: &mut Engine<'_>,
    occurs: &Occurs,
    ways: &mut Vec<Way>,
    i: usize,
    inner: Flow,
    base: usize,
) -> Result<Round, AllocError> {
    let flow = after_inner(e, inner, base)?;
    if !matches!(flow, Flow::Go) {
        return Ok(Round::Ends(flow));
    }
    if e.trail.level <= base {
        drop_refuted(e, ways, i);
    } else if !replace(e, occurs, ways, i, base)? {
        return Ok(Round::Over);
    }
    begin_round(e, ways, base)
}

/// Where an inner rule took back its level, and not this one: it is calm again.
fn after_inner(e: &mut Engine<'_>, flow: Flow, base: usize) -> Result<Flow, AllocError> {
    if matches!(flow, Flow::Lost) && e.trail.level >= base {
        calm(e, base)
    } else {
        Ok(flow)
    }
}

/// The alternatives that are still undecided.
fn undecided(e: &Engine<'_>, ways: Vec<Way>) -> Result<Vec<Way>, AllocError> {
    let mut made = Vec::new(e.alloc);
    for w in ways {
        if is_open(&e.trail, w.literal) {
            made.push(w)?;
        }
    }
    Ok(made)
}

/// Asks an alternative for the greatest and least values of columns.
fn ask(e: &mut Engine<'_>, w: &mut Way, columns: &[u32], base: usize) -> Result<Flow, AllocError> {
    if !is_open(&e.trail, w.literal) {
        return Ok(Flow::Go);
    }
    let flow = enter(e, w.literal, base)?;
    if matches!(flow, Flow::Go) && e.trail.level > base {
        w.most = extremes(e, columns)?;
    }
    if matches!(flow, Flow::Go) {
        go_back(e, base);
    }
    Ok(flow)
}

/// Asks each alternative.
fn ask_all(
    e: &mut Engine<'_>,
    ways: &mut Vec<Way>,
    columns: &[u32],
    base: usize,
) -> Result<Flow, AllocError> {
    for i in 0..ways.len() {
        if let Some(w) = ways.get_mut(i) {
            match ask(e, w, columns, base)? {
                Flow::Go => {}
                other => return Ok(other),
            }
        }
    }
    Ok(Flow::Go)
}

/// The rows that the alternatives have in common: bounds of terms and of their differences, and equalities.
fn common_rows(e: &mut Engine<'_>, ways: &[Way], columns: &[u32]) -> Result<Vec<Lit>, AllocError> {
    let mut wanted = common_bounds(e, ways, columns)?;
    let equalities = common_equalities(e, ways)?;
    wanted.extend_from_slice(&equalities)?;
    Ok(wanted)
}

/// Claims the rows that the alternatives of a clause have in common.
fn claim_rows(
    e: &mut Engine<'_>,
    ways: Vec<Way>,
    all: &[Lit],
    base: usize,
) -> Result<Flow, AllocError> {
    let mut ways = ways;
    let columns = template(e, &ways)?;
    if columns.is_empty() {
        return Ok(Flow::Go);
    }
    let flow = ask_all(e, &mut ways, &columns, base)?;
    if !matches!(flow, Flow::Go) {
        return Ok(flow);
    }
    let ways = undecided(e, ways)?;
    let wanted = common_rows(e, &ways, &columns)?;
    claim_all(e, &wanted, all)
}

/// Claims what the alternatives of a clause have in common.
fn claim_common(
    e: &mut Engine<'_>,
    ways: Vec<Way>,
    all: &[Lit],
    base: usize,
) -> Result<Flow, AllocError> {
    let ways = undecided(e, ways)?;
    if ways.len() < 2 || has_true(e, all) {
        return Ok(Flow::Go);
    }
    let wanted = common_literals(e, &ways)?;
    match claim_all(e, &wanted, all)? {
        Flow::Go => claim_rows(e, ways, all, base),
        other => Ok(other),
    }
}

/// Claims what the alternatives of a clause have in common, back at the level of the rule.
fn claim_where_met(
    e: &mut Engine<'_>,
    ways: Vec<Way>,
    all: &[Lit],
    base: usize,
) -> Result<Flow, AllocError> {
    go_back(e, base);
    match calm(e, base)? {
        Flow::Go => claim_common(e, ways, all, base),
        other => Ok(other),
    }
}

/// The dilemma rule for a clause, at this level. Alternatives go on until they meet: where one stands before another clause, that clause
/// has its turn below it first, at most `depth` deep.
fn dilemma(e: &mut Engine<'_>, occurs: &Occurs, c: u32, depth: u32) -> Result<Flow, AllocError> {
    let f = e.formula;
    let Some(clause) = f.clauses.get(c as usize) else {
        return Ok(Flow::Go);
    };
    if !is_branch(&e.trail, clause) {
        return Ok(Flow::Go);
    }
    let all = numbered(e.alloc, clause)?;
    let base = e.trail.level;
    let mut ways = Vec::new(e.alloc);
    let mut round = first_round(e, occurs, &mut ways, &all, base)?;
    for _ in 0..MOST_ROUNDS {
        let Round::Into(i, front) = round else {
            break;
        };
        let mut inner = Flow::Go;
        if depth > 0 && e.trail.level > base {
            inner = dilemma(e, occurs, front, depth - 1)?;
        }
        round = next_round(e, occurs, &mut ways, i, inner, base)?;
    }
    match round {
        Round::Ends(flow) => Ok(flow),
        Round::Into(_, _) | Round::Over => claim_where_met(e, ways, &all, base),
    }
}

/// The dilemma rule for a clause at the root, if it wasn't looked at before.
fn look_at(
    e: &mut Engine<'_>,
    occurs: &Occurs,
    seen: &mut [bool],
    c: u32,
) -> Result<Flow, AllocError> {
    if e.counts.looks >= MOST_LOOKS || !is_reached(e, c as usize) {
        return Ok(Flow::Go);
    }
    let Some(is_seen) = seen.get_mut(c as usize) else {
        return Ok(Flow::Go);
    };
    if *is_seen {
        return Ok(Flow::Go);
    }
    *is_seen = true;
    let flow = dilemma(e, occurs, c, MOST_DEPTH)?;
    match flow {
        Flow::Lost => {
            go_back(e, 0);
            Ok(Flow::Go)
        }
        other => Ok(other),
    }
}

/// The dilemma rule for the clauses that a true literal of the root touches.
fn look_along(
    e: &mut Engine<'_>,
    occurs: &Occurs,
    seen: &mut [bool],
    l: Lit,
) -> Result<Flow, AllocError> {
    for c in clauses_of(occurs, negated(l)) {
        match look_at(e, occurs, seen, *c)? {
            Flow::Go => {}
            other => return Ok(other),
        }
    }
    Ok(Flow::Go)
}

/// The dilemma rule for the clauses by which the entry goes on in one of several ways.
fn look_at_entry(
    e: &mut Engine<'_>,
    occurs: &Occurs,
    seen: &mut [bool],
) -> Result<Flow, AllocError> {
    for at in 0..e.formula.clauses.len() {
        if is_opening(e, at) {
            let c = u32::try_from(at).unwrap_or(u32::MAX);
            match look_at(e, occurs, seen, c)? {
                Flow::Go => {}
                other => return Ok(other),
            }
        }
    }
    Ok(Flow::Go)
}

/// The dilemma rule at the root: for each open clause of two to four literals that is reached, those of the entry first, and then in
/// the order in which the trail touches them.
pub fn meet(e: &mut Engine<'_>) -> Result<Flow, AllocError> {
    let occurs = occurs_of(e.alloc, e.formula)?;
    let mut seen = vec![in e.alloc; false; e.formula.clauses.len()]?;
    match look_at_entry(e, &occurs, &mut seen)? {
        Flow::Go => {}
        other => return Ok(other),
    }
    for place in 0..usize::MAX {
        let Some(l) = at_place(&e.trail, place) else {
            return Ok(Flow::Go);
        };
        match look_along(e, &occurs, &mut seen, l)? {
            Flow::Go => {}
            other => return Ok(other),
        }
    }
    Ok(Flow::Go)
}
