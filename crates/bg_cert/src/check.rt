//! The checker: it walks once over the nodes, with the open path and the paths that wait.
ghost use Rattle.std.specs.Prelude.{◌≡◌, ◌≤◌, ◌<◌, ◌+◌, ◌++◌, ℕ, List, IfOk, OnOk, ◌∷◌, [], IsTrue, true, length, Some};
ghost use Rattle.bg_formula.specs.Atoms.{at};
ghost use Rattle.bg_formula.specs.Formulas.{formula_of};
ghost use Rattle.bg_cert.specs.declared.cert.Decision.{Decision};
ghost use Rattle.bg_cert.specs.Counts.{Fits};
ghost use Rattle.bg_cert.specs.Paths.{PathOf, denials};
ghost use Rattle.bg_cert.specs.Certs.{node_of, cert_of, lemma_of, closes, accepts, root_with, is_accepted};
ghost use Rattle.bg_cert.specs.Walks.{has, no_instance};
ghost use Rattle.bg_cert.specs.Written.{KnowsBelow, is_lemma};
ghost use Rattle.bg_cert.specs.Tours.{IsTour, path_in, decided_on, known_on, atoms_on, stack_of, others_of, Tells, TellsLeaf, all_below};

use crate::cert::{Cert, Decision, Named, Node};
use crate::leaf::{names_false, unit_false};
use crate::lemma::{deny_all, known_false};
use crate::table::{rows_for, table_below};
use crate::tour::{Tour, Turn, end_path, first_tour, wait};
use crate::trail::decide;
use bg_formula::Clauses;
use bg_rows::derives;
use std::alloc::{AllocError, Global};

/// Whether a leaf's claim about the path holds; no other node makes one.
#[tactic(auto, using(crate::proofs::Places::at_map_there, crate::proofs::Places::at_map_missing))]
fn closes(
    alloc: Global,
    f: &Clauses,
    set: &[bool],
    cert: &Cert,
    tour: &Tour,
    node: &Node,
) -> Result<bool, AllocError>
    requires sized { atoms_on tour.now ≡ length f.now.atoms.items + length cert.now.table.items }
    ensures { IfOk result (λ yes. yes ≡ closes (formula_of f.now) (has set.now) (path_in (formula_of f.now) cert.now (decided_on tour.now) (known_on tour.now)) (node_of node.now)) }
{
    match node {
        Node::Clause(c) => Ok(names_false(&tour.trail, &f.clauses, *c)),
        Node::Unit(c) => {
            let c = *c;
            let is_member = c < set.len() as u128 && set[c as usize];
            Ok(is_member && unit_false(&tour.trail, &f.candidates, c))
        }
        Node::Known(i) => {
            let i = *i;
            if i < tour.lemmas.len() as u128 {
                let k = tour.lemmas[i as usize];
                Ok(known_false(&tour.trail, f.atoms.len(), &cert.nodes, k))
            } else {
                Ok(false)
            }
        }
        Node::Rows(steps) => {
            let decisions = &tour.trail.decisions;
            let path = rows_for(alloc, &f.atoms, &cert.table, decisions, steps)?;
            derives(alloc, &path, steps)
        }
        _ => Ok(false),
    }
}

/// Closes the open path by a leaf, if its claim holds.
fn leaf(
    alloc: Global,
    f: &Clauses,
    set: &[bool],
    cert: &Cert,
    tour: &mut Tour,
    node: &Node,
) -> Result<bool, AllocError>
    requires is_tour { IsTour tour.old }
    requires is_open { IsTrue tour.old.is_open }
    requires sized { atoms_on tour.old ≡ length f.now.atoms.items + length cert.now.table.items }
    ensures tours { IfOk result (λ yes. IsTrue yes → IsTour tour.new) }
    ensures sized { IfOk result (λ yes. IsTrue yes → atoms_on tour.new ≡ atoms_on tour.old) }
    ensures known { IfOk result (λ yes. IsTrue yes → (m : ℕ) → KnowsBelow m tour.old → KnowsBelow m tour.new) }
    ensures told { IfOk result (λ yes. TellsLeaf (formula_of f.now) (has set.now) cert.now tour.old tour.new (node_of node.now) yes) }
{
    if closes(alloc, f, set, cert, tour, node)? {
        end_path(tour)?;
        Ok(true)
    } else {
        Ok(false)
    }
}

/// Decides both ways.
fn both_ways(tour: &mut Tour, first: Decision, second: Decision) -> Result<(), AllocError>
    requires is_tour { IsTour tour.old }
    requires is_open { IsTrue tour.old.is_open }
    requires fits_first { Fits (atoms_on tour.old) first }
    requires fits_second { Fits (atoms_on tour.old) second }
    ensures tours { OnOk result (IsTour tour.new) }
    ensures sized { OnOk result (atoms_on tour.new ≡ atoms_on tour.old) }
    ensures known { OnOk result ((m : ℕ) → KnowsBelow m tour.old → KnowsBelow m tour.new) }
    ensures stack { OnOk result ((path : List Decision → List ℕ → PathOf) → stack_of path tour.new ≡ path (decided_on tour.old ++ (first ∷ [])) (known_on tour.old) ∷ path (decided_on tour.old ++ (second ∷ [])) (known_on tour.old) ∷ others_of path tour.old) }
{
    wait(tour, Turn::Decides(second))?;
    decide(&mut tour.trail, first)?;
    Ok(())
}

/// Denies a lemma's literals, and lets the path wait that knows it.
fn learn(tour: &mut Tour, atoms: usize, lemma: &[Named], k: usize) -> Result<bool, AllocError>
    requires is_tour { IsTour tour.old }
    requires is_open { IsTrue tour.old.is_open }
    requires few { atoms ≤ atoms_on tour.old }
    ensures there { IfOk result (λ yes. yes ≡ all_below (atoms_on tour.old) (lemma_of atoms lemma.now)) }
    ensures tours { IfOk result (λ yes. IsTrue yes → IsTour tour.new) }
    ensures sized { IfOk result (λ yes. IsTrue yes → atoms_on tour.new ≡ atoms_on tour.old) }
    ensures known { IfOk result (λ yes. IsTrue yes → (m : ℕ) → k < m → KnowsBelow m tour.old → KnowsBelow m tour.new) }
    ensures stack { IfOk result (λ yes. IsTrue yes → (path : List Decision → List ℕ → PathOf) → stack_of path tour.new ≡ path (decided_on tour.old ++ denials (lemma_of atoms lemma.now)) (known_on tour.old) ∷ path (decided_on tour.old) (known_on tour.old ++ (k ∷ [])) ∷ others_of path tour.old) }
{
    wait(tour, Turn::Learns(k))?;
    deny_all(&mut tour.trail, atoms, lemma)
}

/// A node with its number.
#[derive(Clone, Copy)]
pub struct Numbered<'a> {
    pub node: &'a Node,
    pub k: usize,
}

/// One node: whether it may stand here, and which paths are open after it.
pub fn step(
    alloc: Global,
    f: &Clauses,
    set: &[bool],
    cert: &Cert,
    tour: &mut Tour,
    here: Numbered<'_>,
) -> Result<bool, AllocError>
    requires is_tour { IsTour tour.old }
    requires is_open { IsTrue tour.old.is_open }
    requires sized { atoms_on tour.old ≡ length f.now.atoms.items + length cert.now.table.items }
    requires is_node { at cert.now.nodes.items here.k ≡ Some here.node.now }
    ensures tours { IfOk result (λ yes. IsTrue yes → IsTour tour.new) }
    ensures sized { IfOk result (λ yes. IsTrue yes → atoms_on tour.new ≡ atoms_on tour.old) }
    ensures known { IfOk result (λ yes. IsTrue yes → (m : ℕ) → (is_lemma (node_of here.entry.node.now) ≡ true → here.entry.k < m) → KnowsBelow m tour.old → KnowsBelow m tour.new) }
    ensures told { IfOk result (λ yes. Tells (formula_of f.now) (has set.now) cert.now tour.old tour.new (node_of here.entry.node.now) yes) }
{
    let node = here.node;
    match node {
        Node::Split(a) => {
            let a = *a;
            if a < tour.trail.counts.len() as u128 {
                let a = a as usize;
                both_ways(tour, Decision::Atom(a, true), Decision::Atom(a, false))?;
                Ok(true)
            } else {
                Ok(false)
            }
        }
        Node::Cut(r) => {
            let r = *r;
            if r < cert.table.len() as u128 {
                let a = f.atoms.len() + r as usize;
                both_ways(tour, Decision::Atom(a, true), Decision::Atom(a, false))?;
                Ok(true)
            } else {
                Ok(false)
            }
        }
        Node::Bound(x, k) => {
            let x = *x;
            let k = *k;
            if x < f.terms as u128 {
                let x = x as u32;
                let first = Decision::AtMost(x, k, true);
                let second = Decision::AtMost(x, k, false);
                both_ways(tour, first, second)?;
                Ok(true)
            } else {
                Ok(false)
            }
        }
        Node::Lemma(lemma) => learn(tour, f.atoms.len(), lemma, here.k),
        Node::Clause(_) => leaf(alloc, f, set, cert, tour, node),
        Node::Unit(_) => leaf(alloc, f, set, cert, tour, node),
        Node::Known(_) => leaf(alloc, f, set, cert, tour, node),
        Node::Rows(_) => leaf(alloc, f, set, cert, tour, node),
    }
}

/// Whether the nodes are one case tree whose leaves' claims all hold.
fn is_tree(alloc: Global, f: &Clauses, set: &[bool], cert: &Cert) -> Result<bool, AllocError>
    ensures { IfOk result (λ yes. yes ≡ accepts (formula_of f.now) (has set.now) no_instance (root_with (formula_of f.now) (cert_of cert.now).table ∷ []) (cert_of cert.now).nodes) }
{
    let mut tour = first_tour(alloc, f.atoms.len() + cert.table.len())?;
    for k in 0..cert.nodes.len() {
        if !tour.is_open {
            return Ok(false);
        }
        let here = Numbered {
            node: &cert.nodes[k],
            k,
        };
        if !step(alloc, f, set, cert, &mut tour, here)? {
            return Ok(false);
        }
    }
    Ok(!tour.is_open)
}

/// Whether the certificate is accepted: its table's rows are over the formula's terms, and its nodes
/// are one case tree whose leaves' claims all hold, where the candidates of the set are units. Takes
/// time for each row of the table, each node, each literal that is looked at, and each path's rows
/// where a leaf asks for them.
pub fn accepts(alloc: Global, f: &Clauses, set: &[bool], cert: &Cert) -> Result<bool, AllocError>
    ensures { IfOk result (λ yes. yes ≡ is_accepted (formula_of f.now) (has set.now) no_instance (cert_of cert.now)) }
{
    if table_below(f.terms, &cert.table) {
        is_tree(alloc, f, set, cert)
    } else {
        Ok(false)
    }
}
