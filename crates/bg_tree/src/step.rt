//! The search's steps: each makes one part of the tree.
ghost use Rattle.std.specs.Prelude.{◌≡◌, ◌<◌, ◌++◌, ◌∷◌, [], IfOk, OnOk, length, true, false, None, IsTrue};
ghost use Rattle.bg_formula.specs.Formulas.{is_whole};
ghost use Rattle.bg_cert.specs.Certs.{node_of, closes};
ghost use Rattle.bg_cert.specs.Causes.{any_false, units_of};
ghost use Rattle.bg_cert.specs.declared.cert.Decision.TheVariants.{Atom, AtMost};
ghost use Rattle.bg_cert.specs.Walks.{IsWalk, path_of, stack_of, others_of, decided_on, atoms_on};
ghost use Rattle.bg_pick.specs.Index.{IsIndex};
ghost use Rattle.bg_pick.specs.Marks.{marks_of, IsMark, AllReady};
ghost use Rattle.bg_pick.specs.Picks.{MaySplit, IsComplete};
ghost use Rattle.bg_pick.specs.Problems.{formula_in, set_in};
ghost use Rattle.bg_tree.specs.Targets.{targets_in};
ghost use Rattle.bg_tree.specs.Ways.{ArePaths};
ghost use Rattle.bg_tree.specs.declared.book.Head.TheVariants.{Due};
ghost use Rattle.bg_tree.specs.Books.{IsOwed, is_paid};
ghost use Rattle.bg_tree.specs.Trees.{OthersReady, IsBound, IsSpent, KeepsCount, IsSame, Moves, Steps};

use crate::book::{Book, Head, owe, pass};
use crate::outcome::{End, Halt};
use crate::part::{Kept, Part};
use crate::settle::{refuted, settle};
use bg_cert::{Decision, Node, Walk, close, open_both};
use bg_conflict::Ledger;
use bg_pick::{Choice, Guide, Mark, Pick, Probe, Problem, fails, go_on, next_at, split};
use bg_point::Gap;
use std::alloc::{AllocError, Global};

/// The search's state: the paths, the tree so far, the inner nodes that are left, which of them may
/// count, and whether a leaf was left open.
#[derive(Drop)]
pub struct Search {
    pub walk: Walk,
    pub parts: Vec<Part>,
    pub inner: u64,
    pub book: Book,
    pub seen: bool,
}

/// What helps to choose and to close: a probe for looks ahead, and the nearest rows of the path.
#[derive(Drop)]
pub struct Aids {
    pub probe: Probe,
    pub ledger: Ledger,
}

/// Closes the open path by a leaf whose claim holds.
fn emit_leaf(problem: &Problem<'_>, s: &mut Search, node: Node) -> Result<(), AllocError>
    requires is_walk { IsWalk s.old.walk }
    requires is_open { IsTrue s.old.walk.is_open }
    requires kept { KeepsCount (formula_in problem.now) (set_in problem.now) s.old }
    requires due { s.old.seen ≡ true → s.old.book.head ≡ Due }
    requires holds { closes (formula_in problem.now) (set_in problem.now) (path_of (formula_in problem.now) (decided_on s.old.walk)) (node_of node) ≡ true }
    ensures moves { OnOk result (Moves (targets_in problem.now) (formula_in problem.now) (set_in problem.now) s.old s.new) }
    ensures stack { OnOk result (stack_of (formula_in problem.now) s.new.walk ≡ others_of (formula_in problem.now) s.old.walk) }
{
    s.parts.push(Part::Plain(node))?;
    close(&mut s.walk)?;
    pass(&mut s.book, true);
    Ok(())
}

/// Leaves the open path open, where no node is left.
fn emit_open(problem: &Problem<'_>, s: &mut Search) -> Result<(), AllocError>
    requires is_walk { IsWalk s.old.walk }
    requires is_open { IsTrue s.old.walk.is_open }
    requires is_fine { any_false (decided_on s.old.walk) ((formula_in problem.now).clauses ++ units_of (formula_in problem.now) (set_in problem.now)) ≡ false }
    requires kept { KeepsCount (formula_in problem.now) (set_in problem.now) s.old }
    requires is_spent { IsSpent s.old }
    ensures moves { OnOk result (Moves (targets_in problem.now) (formula_in problem.now) (set_in problem.now) s.old s.new) }
    ensures stack { OnOk result (stack_of (formula_in problem.now) s.new.walk ≡ others_of (formula_in problem.now) s.old.walk) }
{
    s.parts.push(Part::Open)?;
    close(&mut s.walk)?;
    pass(&mut s.book, false);
    s.seen = true;
    Ok(())
}

/// Splits an atom by the rule. The node is paid for, or its second child is false.
fn emit_split(
    problem: &Problem<'_>,
    s: &mut Search,
    a: usize,
    is_paid: bool,
) -> Result<(), AllocError>
    requires is_walk { IsWalk s.old.walk }
    requires is_open { IsTrue s.old.walk.is_open }
    requires is_sized { atoms_on s.old.walk ≡ length problem.now.formula.now.atoms.items }
    requires may { MaySplit (formula_in problem.now) (set_in problem.now) (decided_on s.old.walk) a }
    requires kept { KeepsCount (formula_in problem.now) (set_in problem.now) s.old }
    requires is_left { 0 < s.old.book.left }
    requires is_inner { 0 < s.old.inner }
    requires owed { IsOwed (formula_in problem.now) (set_in problem.now) (path_of (formula_in problem.now) (decided_on s.old.walk ++ (Atom a false ∷ []))) is_paid }
    ensures moves { OnOk result (Moves (targets_in problem.now) (formula_in problem.now) (set_in problem.now) s.old s.new) }
    ensures stack { OnOk result (stack_of (formula_in problem.now) s.new.walk ≡ path_of (formula_in problem.now) (decided_on s.old.walk ++ (Atom a true ∷ [])) ∷ path_of (formula_in problem.now) (decided_on s.old.walk ++ (Atom a false ∷ [])) ∷ others_of (formula_in problem.now) s.old.walk) }
{
    s.parts.push(Part::Plain(Node::Split(a as u128)))?;
    open_both(
        &mut s.walk,
        Decision::Atom(a, true),
        Decision::Atom(a, false),
    )?;
    owe(&mut s.book, is_paid)?;
    s.inner -= 1;
    Ok(())
}

/// The decision of the bound at a gap.
fn at_gap(gap: &Gap, s: bool) -> Decision
    ensures { result ≡ AtMost gap.now.variable gap.now.below s }
{
    Decision::AtMost(gap.variable, gap.below, s)
}

/// Splits the bound at a gap.
fn emit_bound(problem: &Problem<'_>, s: &mut Search, kept: Kept) -> Result<(), AllocError>
    requires is_walk { IsWalk s.old.walk }
    requires is_open { IsTrue s.old.walk.is_open }
    requires may { IsBound (targets_in problem.now) (formula_in problem.now) (set_in problem.now) (path_of (formula_in problem.now) (decided_on s.old.walk)) kept }
    requires kept { KeepsCount (formula_in problem.now) (set_in problem.now) s.old }
    requires is_left { 0 < s.old.book.left }
    requires is_inner { 0 < s.old.inner }
    ensures moves { OnOk result (Moves (targets_in problem.now) (formula_in problem.now) (set_in problem.now) s.old s.new) }
    ensures stack { OnOk result (stack_of (formula_in problem.now) s.new.walk ≡ path_of (formula_in problem.now) (decided_on s.old.walk ++ (AtMost kept.gap.variable kept.gap.below true ∷ [])) ∷ path_of (formula_in problem.now) (decided_on s.old.walk ++ (AtMost kept.gap.variable kept.gap.below false ∷ [])) ∷ others_of (formula_in problem.now) s.old.walk) }
{
    let inner = s.inner - 1;
    let first = at_gap(&kept.gap, true);
    let second = at_gap(&kept.gap, false);
    s.parts.push(Part::Bound(kept))?;
    open_both(&mut s.walk, first, second)?;
    owe(&mut s.book, true)?;
    s.inner = inner;
    Ok(())
}

/// Closes the open path, and goes on with the next path and its mark.
fn close_by(
    problem: &Problem<'_>,
    s: &mut Search,
    guide: &mut Guide,
    node: Node,
) -> Result<(), AllocError>
    requires is_walk { IsWalk s.old.walk }
    requires is_open { IsTrue s.old.walk.is_open }
    requires kept { KeepsCount (formula_in problem.now) (set_in problem.now) s.old }
    requires due { s.old.seen ≡ true → s.old.book.head ≡ Due }
    requires holds { closes (formula_in problem.now) (set_in problem.now) (path_of (formula_in problem.now) (decided_on s.old.walk)) (node_of node) ≡ true }
    requires others { OthersReady (formula_in problem.now) (set_in problem.now) problem.now.index.now s.old.walk guide.old }
    ensures moves { OnOk result (Moves (targets_in problem.now) (formula_in problem.now) (set_in problem.now) s.old s.new) }
    ensures ready { OnOk result (AllReady (formula_in problem.now) (set_in problem.now) problem.now.index.now (stack_of (formula_in problem.now) s.new.walk) (marks_of guide.new)) }
{
    emit_leaf(problem, s, node)?;
    go_on(guide);
    Ok(())
}

/// Leaves the open path open, where no node is left, and goes on with the next path and its mark.
fn leave(problem: &Problem<'_>, s: &mut Search, guide: &mut Guide) -> Result<(), AllocError>
    requires is_walk { IsWalk s.old.walk }
    requires is_open { IsTrue s.old.walk.is_open }
    requires kept { KeepsCount (formula_in problem.now) (set_in problem.now) s.old }
    requires is_fine { any_false (decided_on s.old.walk) ((formula_in problem.now).clauses ++ units_of (formula_in problem.now) (set_in problem.now)) ≡ false }
    requires is_spent { IsSpent s.old }
    requires others { OthersReady (formula_in problem.now) (set_in problem.now) problem.now.index.now s.old.walk guide.old }
    ensures moves { OnOk result (Moves (targets_in problem.now) (formula_in problem.now) (set_in problem.now) s.old s.new) }
    ensures ready { OnOk result (AllReady (formula_in problem.now) (set_in problem.now) problem.now.index.now (stack_of (formula_in problem.now) s.new.walk) (marks_of guide.new)) }
{
    emit_open(problem, s)?;
    go_on(guide);
    Ok(())
}

/// Whether a clause or a unit is false where the atom is denied. The search stays as it is.
fn peek(problem: &Problem<'_>, s: &mut Search, mark: &Mark, a: usize) -> Result<bool, AllocError>
    requires is_walk { IsWalk s.old.walk }
    requires is_open { IsTrue s.old.walk.is_open }
    requires is_sized { atoms_on s.old.walk ≡ length problem.now.formula.now.atoms.items }
    requires named { IsIndex (formula_in problem.now) (set_in problem.now) problem.now.index.now }
    requires may { MaySplit (formula_in problem.now) (set_in problem.now) (decided_on s.old.walk) a }
    requires mark { IsMark (formula_in problem.now) (set_in problem.now) problem.now.index.now (decided_on s.old.walk) mark.now }
    ensures same { OnOk result (IsSame s.old s.new) }
    ensures told { IfOk result (λ yes. yes ≡ any_false (decided_on s.old.walk ++ (Atom a false ∷ [])) ((formula_in problem.now).clauses ++ units_of (formula_in problem.now) (set_in problem.now))) }
{
    fails(problem, &mut s.walk.trail, mark, a, false)
}

/// Splits an atom by the rule. A node whose second child is false isn't paid for.
fn fork(problem: &Problem<'_>, s: &mut Search, mark: &Mark, a: usize) -> Result<(), AllocError>
    requires is_walk { IsWalk s.old.walk }
    requires is_open { IsTrue s.old.walk.is_open }
    requires is_sized { atoms_on s.old.walk ≡ length problem.now.formula.now.atoms.items }
    requires named { IsIndex (formula_in problem.now) (set_in problem.now) problem.now.index.now }
    requires may { MaySplit (formula_in problem.now) (set_in problem.now) (decided_on s.old.walk) a }
    requires mark { IsMark (formula_in problem.now) (set_in problem.now) problem.now.index.now (decided_on s.old.walk) mark.now }
    requires kept { KeepsCount (formula_in problem.now) (set_in problem.now) s.old }
    requires is_left { 0 < s.old.book.left }
    requires is_inner { 0 < s.old.inner }
    ensures moves { OnOk result (Moves (targets_in problem.now) (formula_in problem.now) (set_in problem.now) s.old s.new) }
    ensures stack { OnOk result (stack_of (formula_in problem.now) s.new.walk ≡ path_of (formula_in problem.now) (decided_on s.old.walk ++ (Atom a true ∷ [])) ∷ path_of (formula_in problem.now) (decided_on s.old.walk ++ (Atom a false ∷ [])) ∷ others_of (formula_in problem.now) s.old.walk) }
{
    let is_false = peek(problem, s, mark, a)?;
    emit_split(problem, s, a, !is_false)?;
    Ok(())
}

/// Splits an atom by the rule, or leaves the path open where no node is left.
fn divide(
    problem: &Problem<'_>,
    s: &mut Search,
    guide: &mut Guide,
    a: usize,
) -> Result<(), AllocError>
    requires is_walk { IsWalk s.old.walk }
    requires is_open { IsTrue s.old.walk.is_open }
    requires is_sized { atoms_on s.old.walk ≡ length problem.now.formula.now.atoms.items }
    requires named { IsIndex (formula_in problem.now) (set_in problem.now) problem.now.index.now }
    requires may { MaySplit (formula_in problem.now) (set_in problem.now) (decided_on s.old.walk) a }
    requires mark { IsMark (formula_in problem.now) (set_in problem.now) problem.now.index.now (decided_on s.old.walk) guide.old.mark }
    requires others { OthersReady (formula_in problem.now) (set_in problem.now) problem.now.index.now s.old.walk guide.old }
    requires kept { KeepsCount (formula_in problem.now) (set_in problem.now) s.old }
    ensures moves { OnOk result (Moves (targets_in problem.now) (formula_in problem.now) (set_in problem.now) s.old s.new) }
    ensures ready { OnOk result (AllReady (formula_in problem.now) (set_in problem.now) problem.now.index.now (stack_of (formula_in problem.now) s.new.walk) (marks_of guide.new)) }
{
    if s.inner == 0 || s.book.left == 0 {
        leave(problem, s, guide)
    } else {
        fork(problem, s, &guide.mark, a)?;
        split(guide)?;
        Ok(())
    }
}

/// Splits the bound at a gap, or leaves the path open where no node is left.
fn halve(
    problem: &Problem<'_>,
    s: &mut Search,
    guide: &mut Guide,
    kept: Kept,
) -> Result<(), AllocError>
    requires is_walk { IsWalk s.old.walk }
    requires is_open { IsTrue s.old.walk.is_open }
    requires may { IsBound (targets_in problem.now) (formula_in problem.now) (set_in problem.now) (path_of (formula_in problem.now) (decided_on s.old.walk)) kept }
    requires mark { IsMark (formula_in problem.now) (set_in problem.now) problem.now.index.now (decided_on s.old.walk) guide.old.mark }
    requires others { OthersReady (formula_in problem.now) (set_in problem.now) problem.now.index.now s.old.walk guide.old }
    requires kept { KeepsCount (formula_in problem.now) (set_in problem.now) s.old }
    ensures moves { OnOk result (Moves (targets_in problem.now) (formula_in problem.now) (set_in problem.now) s.old s.new) }
    ensures ready { OnOk result (AllReady (formula_in problem.now) (set_in problem.now) problem.now.index.now (stack_of (formula_in problem.now) s.new.walk) (marks_of guide.new)) }
{
    if s.inner > 0 && s.book.left > 0 {
        emit_bound(problem, s, kept)?;
        split(guide)?;
        Ok(())
    } else {
        leave(problem, s, guide)
    }
}

/// A step at a path that decides every atom: what its rows tell.
fn finish(
    alloc: Global,
    problem: &Problem<'_>,
    s: &mut Search,
    guide: &mut Guide,
    rows: u32,
) -> Result<Option<Halt>, AllocError>
    requires is_walk { IsWalk s.old.walk }
    requires is_open { IsTrue s.old.walk.is_open }
    requires whole { is_whole (formula_in problem.now) ≡ true }
    requires complete { IsComplete (formula_in problem.now) (set_in problem.now) (decided_on s.old.walk) }
    requires kept { KeepsCount (formula_in problem.now) (set_in problem.now) s.old }
    requires unseen { s.old.seen ≡ false }
    requires mark { IsMark (formula_in problem.now) (set_in problem.now) problem.now.index.now (decided_on s.old.walk) guide.old.mark }
    requires others { OthersReady (formula_in problem.now) (set_in problem.now) problem.now.index.now s.old.walk guide.old }
    requires paths { ArePaths (targets_in problem.now) (formula_in problem.now) (set_in problem.now) (stack_of (formula_in problem.now) s.old.walk) }
    ensures steps { IfOk result (λ halt. Steps (targets_in problem.now) (formula_in problem.now) (set_in problem.now) rows s.old s.new halt) }
    ensures ready { IfOk result (λ halt. halt ≡ None → AllReady (formula_in problem.now) (set_in problem.now) problem.now.index.now (stack_of (formula_in problem.now) s.new.walk) (marks_of guide.new)) }
{
    match settle(alloc, problem.formula, problem.targets, &s.walk.trail, rows)? {
        End::Refuted(steps) => {
            close_by(problem, s, guide, Node::Rows(steps))?;
            Ok(None)
        }
        End::Split(kept) => {
            halve(problem, s, guide, kept)?;
            Ok(None)
        }
        End::Halted(halt) => Ok(Some(halt)),
    }
}

/// A step at a path where an atom may be split: what few rows tell, else the split. Of a unit's atom
/// only one value stays open.
fn advance(
    alloc: Global,
    problem: &Problem<'_>,
    s: &mut Search,
    guide: &mut Guide,
    ledger: &mut Ledger,
    choice: Choice,
) -> Result<(), AllocError>
    requires is_walk { IsWalk s.old.walk }
    requires is_open { IsTrue s.old.walk.is_open }
    requires is_sized { atoms_on s.old.walk ≡ length problem.now.formula.now.atoms.items }
    requires named { IsIndex (formula_in problem.now) (set_in problem.now) problem.now.index.now }
    requires may { MaySplit (formula_in problem.now) (set_in problem.now) (decided_on s.old.walk) choice.atom }
    requires mark { IsMark (formula_in problem.now) (set_in problem.now) problem.now.index.now (decided_on s.old.walk) guide.old.mark }
    requires others { OthersReady (formula_in problem.now) (set_in problem.now) problem.now.index.now s.old.walk guide.old }
    requires kept { KeepsCount (formula_in problem.now) (set_in problem.now) s.old }
    requires unseen { s.old.seen ≡ false }
    ensures moves { OnOk result (Moves (targets_in problem.now) (formula_in problem.now) (set_in problem.now) s.old s.new) }
    ensures ready { OnOk result (AllReady (formula_in problem.now) (set_in problem.now) problem.now.index.now (stack_of (formula_in problem.now) s.new.walk) (marks_of guide.new)) }
{
    let whole = !choice.is_forced;
    match refuted(
        alloc,
        problem.formula,
        &s.walk.trail,
        ledger,
        &mut guide.mark,
        whole,
    )? {
        Some(steps) => close_by(problem, s, guide, Node::Rows(steps)),
        None => divide(problem, s, guide, choice.atom),
    }
}

/// Whether the open path is a second child whose node is paid for.
fn is_paid(book: &Book) -> bool
    ensures { result ≡ is_paid book.now.head }
{
    match book.head {
        Head::Paid => true,
        _ => false,
    }
}

/// One step. Once a leaf was left open, each path that waits is closed by what is false on it, or left open too: so the nodes that
/// count stay as many as they are. Where nothing is left to decide, nothing is false and the rows tell no more, why the
/// search ends.
pub fn step(
    alloc: Global,
    problem: &Problem<'_>,
    s: &mut Search,
    guide: &mut Guide,
    aids: &mut Aids,
    rows: u32,
) -> Result<Option<Halt>, AllocError>
    requires is_walk { IsWalk s.old.walk }
    requires is_open { IsTrue s.old.walk.is_open }
    requires is_sized { atoms_on s.old.walk ≡ length problem.now.formula.now.atoms.items }
    requires whole { is_whole (formula_in problem.now) ≡ true }
    requires named { IsIndex (formula_in problem.now) (set_in problem.now) problem.now.index.now }
    requires ready { AllReady (formula_in problem.now) (set_in problem.now) problem.now.index.now (stack_of (formula_in problem.now) s.old.walk) (marks_of guide.old) }
    requires kept { KeepsCount (formula_in problem.now) (set_in problem.now) s.old }
    requires paths { ArePaths (targets_in problem.now) (formula_in problem.now) (set_in problem.now) (stack_of (formula_in problem.now) s.old.walk) }
    ensures steps { IfOk result (λ halt. Steps (targets_in problem.now) (formula_in problem.now) (set_in problem.now) rows s.old s.new halt) }
    ensures ready { IfOk result (λ halt. halt ≡ None → AllReady (formula_in problem.now) (set_in problem.now) problem.now.index.now (stack_of (formula_in problem.now) s.new.walk) (marks_of guide.new)) }
{
    if s.seen && is_paid(&s.book) {
        leave(problem, s, guide)?;
        return Ok(None);
    }
    match next_at(problem, &s.walk.trail, &mut guide.mark, &mut aids.probe) {
        Pick::Close(node) => {
            close_by(problem, s, guide, node)?;
            Ok(None)
        }
        Pick::Split(choice) => {
            advance(alloc, problem, s, guide, &mut aids.ledger, choice)?;
            Ok(None)
        }
        Pick::Leaf => finish(alloc, problem, s, guide, rows),
    }
}
