//! The first node that reaches itself, by one walk along all edges (after Gabow, Path-based depth-first search, 2000).
ghost use Rattle.std.specs.Prelude.{◌≡◌, ◌<◌, ◌≤◌, ◌-◌, ◌^◌, ◌⊎◌, ◌∷◌, ◌++◌, [], ℕ, ◌↔◌, length, slice_index, slice_set, take, drop, Contains, IsTrue, IsFalse, IfOk, OnOk};
ghost use Rattle.std.specs.List.{sum_by};
ghost use Rattle.bg_graph.specs.Graphs.{graph_of, IsGraph, IsFirstOnCycle, Reaches};
ghost use Rattle.bg_graph.specs.Rings.{spot_of, fresh, Rises, IsFront, NamesBefore, IsInside, IsRing, IsLast, Closes, Calm, StillFresh};
ghost use Rattle.bg_graph.specs.declared.rings.Spot.TheVariants.{Fresh, Held, Settled};

use crate::graph::{item_of, targets};
use std::alloc::{AllocError, Global};

/// How far the walk has come with a node: not there yet, held at a place, or settled.
#[derive(Clone, Copy)]
pub enum Spot {
    Fresh,
    Held(usize),
    Settled,
}

/// A node on the way from the root, the place where it is held, and how many of the nodes that it names are passed.
#[derive(Clone, Copy)]
pub struct Leg {
    pub node: u32,
    pub at: usize,
    pub from: usize,
}

fn spot_of(spots: &[Spot], node: u32) -> Spot
    ensures { result ≡ spot_of spots.now node }
{
    match spots.get(node as usize) {
        Some(spot) => *spot,
        None => Spot::Fresh,
    }
}

fn set_spot(spots: &mut [Spot], node: u32, spot: Spot)
    ensures { spots.new ≡ slice_set spots.old node spot }
{
    if (node as usize) < spots.len() {
        spots[node as usize] = spot;
    }
}

/// How many parts start at this place or in front of it.
fn kept(starts: &[usize], place: usize) -> usize
    ensures within { result ≤ length starts.now }
    ensures gone { (k : ℕ) → result ≤ k → k < length starts.now → place < slice_index starts.now k }
    ensures last { 0 < result → slice_index starts.now (result - 1) ≤ place }
{
    let mut count = starts.len();
    while count > 0 {
        if starts[count - 1] <= place {
            return count;
        }
        count -= 1;
    }
    0
}

/// Joins the parts that start behind a place to the one that holds it.
fn join_parts(starts: &mut Vec<usize>, place: usize)
    requires { Rises starts.old.items }
    ensures front { IsFront starts.new.items starts.old.items }
    ensures gone { (k : ℕ) → length starts.new.items ≤ k → k < length starts.old.items → place < slice_index starts.old.items k }
    ensures stays { (k : ℕ) → k < length starts.new.items → slice_index starts.new.items k ≤ place }
{
    let count = kept(starts, place);
    starts.truncate(count);
}

/// Joins the parts from a held node's part on; false at a fresh one.
fn meet(starts: &mut Vec<usize>, spot: Spot) -> bool
    requires { Rises starts.old.items }
    ensures front { IsFront starts.new.items starts.old.items }
    ensures gone { (k : ℕ) → length starts.new.items ≤ k → k < length starts.old.items → (i : ℕ) × (spot ≡ Held i) × (i < slice_index starts.old.items k) }
    ensures fresh { IsFalse result → spot ≡ Fresh }
    ensures inside { IsTrue result → IsInside spot starts.new.items }
{
    match spot {
        Spot::Fresh => false,
        Spot::Held(place) => {
            join_parts(starts, place);
            true
        }
        Spot::Settled => true,
    }
}

/// Passes the nodes of a row from a place on, up to one that is fresh; the row's length where there is none. Parts that turn out to
/// reach each other are joined.
fn pass(spots: &[Spot], starts: &mut Vec<usize>, row: &[u32], from: usize) -> usize
    requires { Rises starts.old.items }
    ensures front { IsFront starts.new.items starts.old.items }
    ensures gone { (k : ℕ) → length starts.new.items ≤ k → k < length starts.old.items → NamesBefore spots.now row.now (slice_index starts.old.items k) }
    ensures passed { (j : ℕ) → from ≤ j → j < result → j < length row.now → IsInside (spot_of spots.now (slice_index row.now j)) starts.new.items }
    ensures fresh { result < length row.now → spot_of spots.now (slice_index row.now result) ≡ Fresh }
{
    for k in from..row.len() {
        if !meet(starts, spot_of(spots, row[k])) {
            return k;
        }
    }
    row.len()
}

/// Settles these nodes.
fn settle(spots: &mut [Spot], part: &[u32])
    ensures settled { (v : ℕ) → Contains part.now v → v < length spots.old → spot_of spots.new v ≡ Settled }
    ensures kept { (v : ℕ) → (Contains part.now v → ⊥) → spot_of spots.new v ≡ spot_of spots.old v }
    ensures fewer { sum_by fresh spots.new ≤ sum_by fresh spots.old }
{
    for v in part {
        set_spot(spots, *v, Spot::Settled);
    }
}

/// The least of these nodes and `first`.
fn least(part: &[u32], first: u32) -> u32
    ensures low { result ≤ first }
    ensures all { (v : ℕ) → Contains part.now v → result ≤ v }
    ensures one { (result ≡ first) ⊎ Contains part.now result }
{
    let mut found = first;
    for v in part {
        found = found.min(*v);
    }
    found
}

fn names(row: &[u32], node: u32) -> bool
    ensures { IsTrue result ↔ Contains row.now node }
{
    for t in row {
        if *t == node {
            return true;
        }
    }
    false
}

/// Whether the last part starts at this place.
fn starts_at(starts: &[usize], place: usize) -> bool
    ensures { IsTrue result ↔ IsLast starts.now place }
{
    !starts.is_empty() && starts[starts.len() - 1] == place
}

/// The least of `first` and of this part, if it is a ring.
fn least_of_ring(part: &[u32], row: &[u32], node: u32, first: u32) -> u32
    ensures low { result ≤ first }
    ensures least { IsRing part.now row.now node → (v : ℕ) → Contains part.now v → result ≤ v }
    ensures one { (result ≡ first) ⊎ (IsRing part.now row.now node × Contains part.now result) }
{
    if part.len() > 1 || names(row, node) {
        return least(part, first);
    }
    first
}

fn rest_of(held: &[u32], at: usize) -> &[u32]
    requires { at ≤ length held.now }
    ensures { result.now ≡ drop at held.now }
{
    &held[at..]
}

/// Settles the last part, which starts with this leg's node.
fn close(
    spots: &mut [Spot],
    held: &mut Vec<u32>,
    starts: &mut Vec<usize>,
    row: &[u32],
    leg: Leg,
    first: u32,
) -> u32
    requires held { leg.at ≤ length held.old.items }
    requires last { IsLast starts.old.items leg.at }
    ensures { Closes spots.old held.old.items starts.old.items row.now leg.node leg.at first spots.new held.new.items starts.new.items result }
{
    let _start = starts.pop();
    let part = rest_of(held, leg.at);
    settle(spots, part);
    let found = least_of_ring(part, row, leg.node, first);
    held.truncate(leg.at);
    found
}

/// Leaves a node all of whose targets are passed; settles the last part if it starts with the node.
fn leave(
    spots: &mut [Spot],
    held: &mut Vec<u32>,
    starts: &mut Vec<usize>,
    row: &[u32],
    leg: Leg,
    first: u32,
) -> u32
    requires held { leg.at ≤ length held.old.items }
    ensures stays { (IsLast starts.old.items leg.at → ⊥) → (spots.new ≡ spots.old) × (held.new.items ≡ held.old.items) × (starts.new.items ≡ starts.old.items) × (result ≡ first) }
    ensures closes { IsLast starts.old.items leg.at → Closes spots.old held.old.items starts.old.items row.now leg.node leg.at first spots.new held.new.items starts.new.items result }
{
    if !starts_at(starts, leg.at) {
        return first;
    }
    close(spots, held, starts, row, leg, first)
}

/// Holds a fresh node, as a part of its own, and puts it on the way.
fn enter(
    spots: &mut [Spot],
    held: &mut Vec<u32>,
    starts: &mut Vec<usize>,
    legs: &mut Vec<Leg>,
    node: u32,
) -> Result<(), AllocError>
    ensures spots { OnOk result (spots.new ≡ slice_set spots.old node (Held (length held.old.items))) }
    ensures held { OnOk result (held.new.items ≡ held.old.items ++ node ∷ []) }
    ensures starts { OnOk result (starts.new.items ≡ starts.old.items ++ length held.old.items ∷ []) }
    ensures legs { OnOk result (legs.new.items ≡ legs.old.items ++ record { node = node; at = length held.old.items; from = 0 } ∷ []) }
{
    let at = held.len();
    set_spot(spots, node, Spot::Held(at));
    held.push(node)?;
    starts.push(at)?;
    legs.push(Leg { node, at, from: 0 })?;
    Ok(())
}

/// Walks along all edges from a root, unless it is settled. The answer is the least of `first` and of the nodes that are settled on
/// the way and reach themselves.
fn walk(
    alloc: Global,
    edges: &[Vec<u32>],
    spots: &mut [Spot],
    root: u32,
    mut first: u32,
) -> Result<u32, AllocError>
    requires graph { IsGraph (graph_of edges.now) }
    requires node { root < length edges.now }
    requires calm { Calm (graph_of edges.now) spots.old first }
    ensures calm { IfOk result (λ f. Calm (graph_of edges.now) spots.new f) }
    ensures still { OnOk result (StillFresh spots.old spots.new) }
    ensures root { OnOk result (spot_of spots.new root ≡ Fresh → ⊥) }
    ensures low { IfOk result (λ f. f ≤ first) }
{
    let Spot::Fresh = spot_of(spots, root) else {
        return Ok(first);
    };
    let mut held: Vec<u32> = Vec::new(alloc);
    let mut starts: Vec<usize> = Vec::new(alloc);
    let mut legs: Vec<Leg> = Vec::new(alloc);
    enter(spots, &mut held, &mut starts, &mut legs, root)?;
    while let Some(leg) = legs.pop() {
        let row = targets(edges, leg.node);
        let place = pass(spots, &mut starts, row, leg.from);
        match item_of(row, place) {
            None => first = leave(spots, &mut held, &mut starts, row, leg, first),
            Some(target) => {
                legs.push(Leg {
                    node: leg.node,
                    at: leg.at,
                    from: place + 1,
                })?;
                enter(spots, &mut held, &mut starts, &mut legs, target)?;
            }
        }
    }
    Ok(first)
}

/// The first node that reaches itself, where `last` does.
pub fn first_on_cycle(alloc: Global, edges: &[Vec<u32>], last: u32) -> Result<u32, AllocError>
    requires graph { IsGraph (graph_of edges.now) }
    requires reaches { Reaches (graph_of edges.now) last last }
    ensures { IfOk result (λ f. IsFirstOnCycle (graph_of edges.now) f) }
{
    let mut spots = vec![in alloc; Spot::Fresh; edges.len()]?;
    let mut first = last;
    for root in 0..last {
        first = walk(alloc, edges, &mut spots, root, first)?;
    }
    Ok(first)
}
