//! Which reasons that add rows up use the same rows: where several do, a lemma says once that these rows can't all hold.

use bg_simplex::Lit;
use std::alloc::{AllocError, Global};
use std::collections::BTreeMap;

/// How many needed reasons use the same rows; and the number under which the path knows the lemma that says so, if it does.
#[derive(Clone, Copy)]
struct Group {
    count: u32,
    known: Option<u32>,
}

/// In the place of a reason's group where it has none.
const NO_GROUP: u32 = u32::MAX;

/// Of each reason, by a number of the caller's, the group to which it belongs; the groups by what is mixed of the rows that they use;
/// and the groups.
#[derive(Drop)]
pub struct Groups {
    of: Vec<u32>,
    ids: BTreeMap<u128, u32>,
    all: Vec<Group>,
}

/// By what a literal's number is mixed.
const MIX: u64 = 0x9E37_79B9_7F4A_7C15;

/// By what it is mixed further.
const MIX_MORE: u64 = 0xD1B5_4A32_D192_ED03;

/// No groups, with room for so many reasons.
pub fn new_groups(alloc: Global, reasons: usize) -> Result<Groups, AllocError> {
    Ok(Groups {
        of: vec![in alloc; NO_GROUP; reasons]?,
        ids: BTreeMap::new(alloc),
        all: Vec::new(alloc),
    })
}

/// A number, mixed.
fn mixed(number: u64, by: u64) -> u64 {
    let once = (number ^ (number >> 29)).wrapping_mul(by);
    let twice = (once ^ (once >> 32)).wrapping_mul(by);
    twice ^ (twice >> 31)
}

/// What is mixed of these literals, whatever their order.
fn mix_of(uses: &[Lit]) -> u128 {
    let mut sum: u128 = 0;
    for l in uses {
        let number = u64::from(*l).wrapping_add(1);
        let high = mixed(number, MIX) as u128;
        let low = mixed(number, MIX_MORE) as u128;
        sum = sum.wrapping_add((high << 64) | low);
    }
    sum
}

/// The group of this mixed number, which is made where there was none.
fn group_of(g: &mut Groups, mix: u128) -> Result<u32, AllocError> {
    if let Some(at) = g.ids.get(&mix) {
        return Ok(*at);
    }
    let at = u32::try_from(g.all.len()).unwrap_or(u32::MAX);
    g.ids.insert(mix, at)?;
    g.all.push(Group {
        count: 0,
        known: None,
    })?;
    Ok(at)
}

/// Notes that a reason is needed, and uses the rows of these literals.
pub fn note_uses(g: &mut Groups, reason: usize, uses: &[Lit]) -> Result<(), AllocError> {
    let at = group_of(g, mix_of(uses))?;
    if let Some(group) = g.all.get_mut(at as usize) {
        group.count = group.count.saturating_add(1);
    }
    if let Some(of) = g.of.get_mut(reason) {
        *of = at;
    }
    Ok(())
}

/// All reasons are noted: no group is sought any more.
pub fn close_groups(alloc: Global, g: &mut Groups) {
    g.ids = BTreeMap::new(alloc);
}

/// The group of a reason, if it has one.
fn find(g: &Groups, reason: usize) -> Option<Group> {
    let at = *g.of.get(reason)?;
    g.all.get(at as usize).copied()
}

/// Whether the lemma of a reason's group is worth while, and isn't written yet.
pub fn wants_lemma(g: &Groups, reason: usize) -> bool {
    match find(g, reason) {
        Some(group) => group.count > 1 && group.known.is_none(),
        None => false,
    }
}

/// The number under which the path knows the lemma of a reason's group, if it does.
pub fn known_lemma(g: &Groups, reason: usize) -> Option<u128> {
    Some(u128::from(find(g, reason)?.known?))
}

/// Notes that the path knows the lemma of a reason's group by this number.
pub fn put_known(g: &mut Groups, reason: usize, number: u128) {
    let Some(at) = g.of.get(reason).copied() else {
        return;
    };
    if let Some(group) = g.all.get_mut(at as usize) {
        group.known = u32::try_from(number).ok();
    }
}
