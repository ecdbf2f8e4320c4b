//! Statements, and the lists of them.
ghost use Rattle.std.specs.Prelude.{◌≡◌, ◌+◌, ◌++◌, [], length, IfOk, IfErr, OnOk, map, flat_map, is_some};
ghost use Rattle.bg_text.specs.Views as v;
ghost use Rattle.bg_ast.specs.Resolved as r;
ghost use Rattle.bg_ast.specs.Views.{st_of, sts_in, arms_from, arm_view, clause_of, guard_of};
ghost use Rattle.bg_names.specs.Faults.{better};
ghost use Rattle.bg_names.specs.Spaces.{or_zero};
ghost use Rattle.bg_names.specs.Clauses.{clause_faults, named_clause, named_clauses};
ghost use Rattle.bg_bodies.specs.Bodies.{label_number, jump_faults, st_faults, sts_faults, arms_faults, named_st, named_sts, named_arms, st_count, sts_count, arms_count, labels_in, before_next, pass, label_before, named_guard, guard_faults};
ghost use Rattle.bg_names.specs.Inside.{entered, placed, id_faults};
ghost use Rattle.bg_names.specs.Views.{first_of, inside_of, stacked, blocks_of, around_of};
ghost use Rattle.bg_bodies.specs.Views.{ahead_of, tree_sts, tree_arms};
ghost use Rattle.bg_names.specs.declared.error.ResolveError.TheVariants.{Memory};

use crate::simple::{assign, break_block, call, goto_labels, guard};
use bg_ast::resolved::{Arm, Clause, Guard, Stmt};
use bg_base::Pos;
use bg_names::changes::{Inside, changes};
use bg_names::clauses::clause;
use bg_names::error::ResolveError;
use bg_names::exprs::{expr, number_of};
use bg_names::notes::Notes;
use bg_names::walk::{Labelled, Walk, enter, take_numbers};
use bg_text::{Name, TreeArm, TreeClause, TreeStmt};
use std::alloc::Global;

/// What is entered with a block: its number, and the labels directly before it.
#[derive(Clone, Copy)]
struct Entry<'s> {
    block: u32,
    before: &'s [u32],
}

/// An invariant, with the next number.
fn invariant<'a>(
    alloc: Global,
    inside: &Inside<'_, 'a>,
    walk: &mut Walk<'a>,
    k: &'a TreeClause,
) -> Result<Clause, ResolveError>
    ensures made { IfOk result (λ x. clause_of x ≡ named_clause (inside_of inside.now).scope walk.old.next (v.clause_of k.now)) }
    ensures first { OnOk result (first_of walk.new.notes ≡ better (first_of walk.old.notes) (clause_faults (inside_of inside.now).scope (v.clause_of k.now))) }
    ensures next { OnOk result (walk.new.next ≡ walk.old.next + 1) }
    ensures ahead { OnOk result (walk.new.ahead ≡ walk.old.ahead) }
    ensures blocks { OnOk result (walk.new.blocks ≡ walk.old.blocks) }
    ensures err { IfErr result (λ e. e ≡ Memory) }
{
    let id = take_numbers(walk, 1)?;
    clause(alloc, &inside.scope, &mut walk.notes, id, k)
}

/// Invariants, with the next numbers.
fn invariants<'a>(
    alloc: Global,
    inside: &Inside<'_, 'a>,
    walk: &mut Walk<'a>,
    ks: &'a [TreeClause],
) -> Result<Vec<Clause>, ResolveError>
    ensures made { IfOk result (λ made. map clause_of made.items ≡ named_clauses (inside_of inside.now).scope walk.old.next (map v.clause_of ks.now)) }
    ensures first { OnOk result (first_of walk.new.notes ≡ better (first_of walk.old.notes) (flat_map (λ k. clause_faults (inside_of inside.now).scope (v.clause_of k)) ks.now)) }
    ensures next { OnOk result (walk.new.next ≡ walk.old.next + length ks.now) }
    ensures ahead { OnOk result (walk.new.ahead ≡ walk.old.ahead) }
    ensures blocks { OnOk result (walk.new.blocks ≡ walk.old.blocks) }
    ensures err { IfErr result (λ e. e ≡ Memory) }
{
    let mut made = Vec::new(alloc);
    for k in ks {
        let x = invariant(alloc, inside, walk, k)?;
        made.push(x)?;
    }
    Ok(made)
}

/// Enters a label of a list, where the statement is one.
fn enter_label(inside: &Inside, walk: &mut Walk, s: &TreeStmt) -> Result<(), ResolveError>
    ensures ahead { OnOk result (ahead_of walk.new ≡ label_before (inside_of inside.now) (v.st_of s.now) (ahead_of walk.old)) }
    ensures next { OnOk result (walk.new.next ≡ walk.old.next) }
    ensures notes { OnOk result (walk.new.notes ≡ walk.old.notes) }
    ensures blocks { OnOk result (walk.new.blocks ≡ walk.old.blocks) }
    ensures err { IfErr result (λ e. e ≡ Memory) }
{
    match s {
        TreeStmt::Label(name) => {
            let k = number_of(inside.labels, name)?;
            walk.ahead.push(k)?;
            Ok(())
        }
        _ => Ok(()),
    }
}

/// Enters the labels of a list.
fn enter_labels(inside: &Inside, walk: &mut Walk, ss: &[TreeStmt]) -> Result<(), ResolveError>
    ensures ahead { OnOk result (ahead_of walk.new ≡ labels_in (inside_of inside.now) (tree_sts ss.now) ++ ahead_of walk.old) }
    ensures next { OnOk result (walk.new.next ≡ walk.old.next) }
    ensures notes { OnOk result (walk.new.notes ≡ walk.old.notes) }
    ensures blocks { OnOk result (walk.new.blocks ≡ walk.old.blocks) }
    ensures err { IfErr result (λ e. e ≡ Memory) }
{
    let mut left = ss.len();
    while left > 0 {
        left -= 1;
        enter_label(inside, walk, &ss[left])?;
    }
    Ok(())
}

/// Leaves a label of a list behind, where the statement is one.
fn pass_label(ahead: &mut Vec<u32>, s: &TreeStmt)
    ensures { stacked ahead.new.items ≡ pass (v.st_of s.now) (stacked ahead.old.items) }
{
    match s {
        TreeStmt::Label(_) => {
            let _ = ahead.pop();
        }
        _ => {}
    }
}

/// The labels directly before the next statement.
fn note_before(inside: &Inside, before: &mut Vec<u32>, s: &TreeStmt) -> Result<(), ResolveError>
    ensures before { OnOk result (stacked before.new.items ≡ before_next (inside_of inside.now) (stacked before.old.items) (v.st_of s.now)) }
    ensures err { IfErr result (λ e. e ≡ Memory) }
{
    match s {
        TreeStmt::Label(name) => {
            let k = number_of(inside.labels, name)?;
            before.push(k)?;
            Ok(())
        }
        _ => {
            before.clear();
            Ok(())
        }
    }
}

/// A `havoc`.
fn havoc<'a>(
    alloc: Global,
    inside: &Inside<'_, 'a>,
    notes: &mut Notes<'a>,
    names: &'a [Name],
) -> Result<Stmt, ResolveError>
    ensures made { IfOk result (λ x. st_of x ≡ r.Havoc (map (placed (inside_of inside.now)) (map v.id_of names.now))) }
    ensures first { OnOk result (first_of notes.new ≡ better (first_of notes.old) (flat_map (id_faults (inside_of inside.now)) (map v.id_of names.now))) }
    ensures err { IfErr result (λ e. e ≡ Memory) }
{
    Ok(Stmt::Havoc(changes(alloc, inside, notes, names)?))
}

/// A `goto`.
fn goto<'a>(
    alloc: Global,
    inside: &Inside<'_, 'a>,
    ahead: &[u32],
    notes: &mut Notes<'a>,
    names: &'a [Name],
) -> Result<Stmt, ResolveError>
    ensures made { IfOk result (λ x. st_of x ≡ r.Goto (map (label_number (inside_of inside.now)) (map v.id_of names.now))) }
    ensures first { OnOk result (first_of notes.new ≡ better (first_of notes.old) (flat_map (jump_faults (inside_of inside.now) (stacked ahead.now)) (map v.id_of names.now))) }
    ensures err { IfErr result (λ e. e ≡ Memory) }
{
    Ok(Stmt::Goto(goto_labels(alloc, inside, ahead, notes, names)?))
}

fn if_node(block: u32, arms: Vec<Arm>, otherwise: Vec<Stmt>) -> Stmt
    ensures { st_of result ≡ r.If block (arms_from (map arm_view arms.items)) (sts_in otherwise.items) }
{
    Stmt::If(block, arms, otherwise)
}

fn while_node(block: u32, pos: Pos, g: Guard, ks: Vec<Clause>, ss: Vec<Stmt>) -> Stmt
    ensures { st_of result ≡ r.While block pos (guard_of g) (map clause_of ks.items) (sts_in ss.items) }
{
    Stmt::While(block, pos, g, ks, ss)
}

/// A statement, with the loop around it and the labels directly before it. Errors: Memory.
#[cycle(name_stmt)]
fn stmt<'a>(
    alloc: Global,
    inside: &Inside<'_, 'a>,
    walk: &mut Walk<'a>,
    around: Option<u32>,
    before: &[u32],
    s: &'a TreeStmt,
) -> Result<Stmt, ResolveError>
    ensures made { IfOk result (λ x. st_of x ≡ named_st (inside_of inside.now) walk.old.next (or_zero around) (blocks_of walk.old.blocks.items) (stacked before.now) (v.st_of s.now)) }
    ensures first { OnOk result (first_of walk.new.notes ≡ better (first_of walk.old.notes) (st_faults (inside_of inside.now) (ahead_of walk.old) (is_some around) (around_of walk.old.blocks.items) (stacked before.now) (v.st_of s.now))) }
    ensures next { OnOk result (walk.new.next ≡ walk.old.next + st_count (v.st_of s.now)) }
    ensures ahead { OnOk result (ahead_of walk.new ≡ ahead_of walk.old) }
    ensures blocks { OnOk result (walk.new.blocks.items ≡ walk.old.blocks.items) }
    ensures err { IfErr result (λ e. e ≡ Memory) }
{
    match s {
        TreeStmt::Label(name) => Ok(Stmt::Label(number_of(inside.labels, name)?)),
        TreeStmt::Assert(k) => Ok(Stmt::Assert(invariant(alloc, inside, walk, k)?)),
        TreeStmt::Assume(k) => {
            let e = expr(alloc, &inside.scope, &mut walk.notes, &k.formula)?;
            Ok(Stmt::Assume(e))
        }
        TreeStmt::Havoc(_, names) => havoc(alloc, inside, &mut walk.notes, names),
        TreeStmt::Assign(pos, xs, es) => assign(alloc, inside, &mut walk.notes, *pos, xs, es),
        TreeStmt::Call(c) => {
            let site = take_numbers(walk, 1)?;
            let c = call(alloc, inside, &mut walk.notes, site, c)?;
            Ok(Stmt::Invoke(c))
        }
        TreeStmt::If(_, arms) => {
            let block = take_numbers(walk, arms.len())?;
            let arms = arms_in(alloc, inside, walk, around, &Entry { block, before }, arms)?;
            Ok(if_node(block, arms, Vec::new(alloc)))
        }
        TreeStmt::IfElse(_, arms, ss) => {
            let block = take_numbers(walk, arms.len())?;
            let arms = arms_in(alloc, inside, walk, around, &Entry { block, before }, arms)?;
            let ss = block_in(alloc, inside, walk, around, &Entry { block, before }, ss)?;
            Ok(if_node(block, arms, ss))
        }
        TreeStmt::While(pos, g, ks, ss) => {
            let block = take_numbers(walk, 1)?;
            let g = guard(alloc, inside, &mut walk.notes, g)?;
            let ks = invariants(alloc, inside, walk, ks)?;
            let around = Some(block);
            let ss = block_in(alloc, inside, walk, around, &Entry { block, before }, ss)?;
            Ok(while_node(block, *pos, g, ks, ss))
        }
        TreeStmt::Break(pos, name) => {
            let block = break_block(inside, around, &walk.blocks, &mut walk.notes, *pos, name)?;
            Ok(Stmt::Break(block))
        }
        TreeStmt::Goto(_, names) => goto(alloc, inside, &walk.ahead, &mut walk.notes, names),
        TreeStmt::Return(_) => Ok(Stmt::Return),
    }
}

/// The statements of a block with these labels.
#[cycle(name_stmt)]
fn block_in<'a>(
    alloc: Global,
    inside: &Inside<'_, 'a>,
    walk: &mut Walk<'a>,
    around: Option<u32>,
    entry: &Entry,
    ss: &'a [TreeStmt],
) -> Result<Vec<Stmt>, ResolveError>
    ensures made { IfOk result (λ made. sts_in made.items ≡ named_sts (inside_of inside.now) walk.old.next (or_zero around) (entered (stacked entry.now.before.now) entry.now.block (blocks_of walk.old.blocks.items)) [] (tree_sts ss.now)) }
    ensures first { OnOk result (first_of walk.new.notes ≡ better (first_of walk.old.notes) (sts_faults (inside_of inside.now) (ahead_of walk.old) (is_some around) (stacked entry.now.before.now ++ around_of walk.old.blocks.items) [] (tree_sts ss.now))) }
    ensures next { OnOk result (walk.new.next ≡ walk.old.next + sts_count (tree_sts ss.now)) }
    ensures ahead { OnOk result (ahead_of walk.new ≡ ahead_of walk.old) }
    ensures blocks { OnOk result (walk.new.blocks.items ≡ walk.old.blocks.items) }
    ensures err { IfErr result (λ e. e ≡ Memory) }
{
    let outer = walk.blocks.len();
    enter(&mut walk.blocks, entry.before, entry.block)?;
    let made = stmts(alloc, inside, walk, around, ss)?;
    walk.blocks.truncate(outer);
    Ok(made)
}

/// The arms of a chain of `else if` with these labels.
#[cycle(name_stmt)]
fn arms_in<'a>(
    alloc: Global,
    inside: &Inside<'_, 'a>,
    walk: &mut Walk<'a>,
    around: Option<u32>,
    entry: &Entry,
    arms: &'a [TreeArm],
) -> Result<Vec<Arm>, ResolveError>
    ensures made { IfOk result (λ made. arms_from (map arm_view made.items) ≡ named_arms (inside_of inside.now) walk.old.next (or_zero around) (entered (stacked entry.now.before.now) entry.now.block (blocks_of walk.old.blocks.items)) (tree_arms arms.now)) }
    ensures first { OnOk result (first_of walk.new.notes ≡ better (first_of walk.old.notes) (arms_faults (inside_of inside.now) (ahead_of walk.old) (is_some around) (stacked entry.now.before.now ++ around_of walk.old.blocks.items) (tree_arms arms.now))) }
    ensures next { OnOk result (walk.new.next ≡ walk.old.next + arms_count (tree_arms arms.now)) }
    ensures ahead { OnOk result (ahead_of walk.new ≡ ahead_of walk.old) }
    ensures blocks { OnOk result (walk.new.blocks.items ≡ walk.old.blocks.items) }
    ensures err { IfErr result (λ e. e ≡ Memory) }
{
    let outer = walk.blocks.len();
    enter(&mut walk.blocks, entry.before, entry.block)?;
    let made = arms_of(alloc, inside, walk, around, arms)?;
    walk.blocks.truncate(outer);
    Ok(made)
}

/// An arm.
#[cycle(name_stmt)]
fn arm<'a>(
    alloc: Global,
    inside: &Inside<'_, 'a>,
    walk: &mut Walk<'a>,
    around: Option<u32>,
    a: &'a TreeArm,
) -> Result<Arm, ResolveError>
    ensures made { IfOk result (λ x. arm_view x ≡ (named_guard (inside_of inside.now) (v.guard_of a.now.guard), named_sts (inside_of inside.now) walk.old.next (or_zero around) (blocks_of walk.old.blocks.items) [] (tree_sts a.now.block.items))) }
    ensures first { OnOk result (first_of walk.new.notes ≡ better (first_of walk.old.notes) (guard_faults (inside_of inside.now) (v.guard_of a.now.guard) ++ sts_faults (inside_of inside.now) (ahead_of walk.old) (is_some around) (around_of walk.old.blocks.items) [] (tree_sts a.now.block.items))) }
    ensures next { OnOk result (walk.new.next ≡ walk.old.next + sts_count (tree_sts a.now.block.items)) }
    ensures ahead { OnOk result (ahead_of walk.new ≡ ahead_of walk.old) }
    ensures blocks { OnOk result (walk.new.blocks.items ≡ walk.old.blocks.items) }
    ensures err { IfErr result (λ e. e ≡ Memory) }
{
    let guard = guard(alloc, inside, &mut walk.notes, &a.guard)?;
    let body = stmts(alloc, inside, walk, around, &a.block)?;
    Ok(Arm { guard, body })
}

/// The arms of a chain of `else if`.
#[cycle(name_stmt)]
fn arms_of<'a>(
    alloc: Global,
    inside: &Inside<'_, 'a>,
    walk: &mut Walk<'a>,
    around: Option<u32>,
    arms: &'a [TreeArm],
) -> Result<Vec<Arm>, ResolveError>
    ensures made { IfOk result (λ made. arms_from (map arm_view made.items) ≡ named_arms (inside_of inside.now) walk.old.next (or_zero around) (blocks_of walk.old.blocks.items) (tree_arms arms.now)) }
    ensures first { OnOk result (first_of walk.new.notes ≡ better (first_of walk.old.notes) (arms_faults (inside_of inside.now) (ahead_of walk.old) (is_some around) (around_of walk.old.blocks.items) (tree_arms arms.now))) }
    ensures next { OnOk result (walk.new.next ≡ walk.old.next + arms_count (tree_arms arms.now)) }
    ensures ahead { OnOk result (ahead_of walk.new ≡ ahead_of walk.old) }
    ensures blocks { OnOk result (walk.new.blocks.items ≡ walk.old.blocks.items) }
    ensures err { IfErr result (λ e. e ≡ Memory) }
{
    let mut made = Vec::new(alloc);
    for a in arms {
        let x = arm(alloc, inside, walk, around, a)?;
        made.push(x)?;
    }
    Ok(made)
}

/// The next statement of a list, behind these labels.
#[cycle(name_stmt)]
fn next_stmt<'a>(
    alloc: Global,
    inside: &Inside<'_, 'a>,
    walk: &mut Walk<'a>,
    around: Option<u32>,
    before: &mut Vec<u32>,
    s: &'a TreeStmt,
) -> Result<Stmt, ResolveError>
    ensures made { IfOk result (λ x. st_of x ≡ named_st (inside_of inside.now) walk.old.next (or_zero around) (blocks_of walk.old.blocks.items) (stacked before.old.items) (v.st_of s.now)) }
    ensures first { OnOk result (first_of walk.new.notes ≡ better (first_of walk.old.notes) (st_faults (inside_of inside.now) (pass (v.st_of s.now) (ahead_of walk.old)) (is_some around) (around_of walk.old.blocks.items) (stacked before.old.items) (v.st_of s.now))) }
    ensures next { OnOk result (walk.new.next ≡ walk.old.next + st_count (v.st_of s.now)) }
    ensures ahead { OnOk result (ahead_of walk.new ≡ pass (v.st_of s.now) (ahead_of walk.old)) }
    ensures blocks { OnOk result (walk.new.blocks.items ≡ walk.old.blocks.items) }
    ensures before { OnOk result (stacked before.new.items ≡ before_next (inside_of inside.now) (stacked before.old.items) (v.st_of s.now)) }
    ensures err { IfErr result (λ e. e ≡ Memory) }
{
    pass_label(&mut walk.ahead, s);
    let x = stmt(alloc, inside, walk, around, before, s)?;
    note_before(inside, before, s)?;
    Ok(x)
}

/// Statements of a list. Errors: Memory.
#[cycle(name_stmt)]
pub fn stmts<'a>(
    alloc: Global,
    inside: &Inside<'_, 'a>,
    walk: &mut Walk<'a>,
    around: Option<u32>,
    ss: &'a [TreeStmt],
) -> Result<Vec<Stmt>, ResolveError>
    ensures made { IfOk result (λ made. sts_in made.items ≡ named_sts (inside_of inside.now) walk.old.next (or_zero around) (blocks_of walk.old.blocks.items) [] (tree_sts ss.now)) }
    ensures first { OnOk result (first_of walk.new.notes ≡ better (first_of walk.old.notes) (sts_faults (inside_of inside.now) (ahead_of walk.old) (is_some around) (around_of walk.old.blocks.items) [] (tree_sts ss.now))) }
    ensures next { OnOk result (walk.new.next ≡ walk.old.next + sts_count (tree_sts ss.now)) }
    ensures ahead { OnOk result (ahead_of walk.new ≡ ahead_of walk.old) }
    ensures blocks { OnOk result (walk.new.blocks.items ≡ walk.old.blocks.items) }
    ensures err { IfErr result (λ e. e ≡ Memory) }
{
    let mut made = Vec::new(alloc);
    let mut before = Vec::new(alloc);
    enter_labels(inside, walk, ss)?;
    for s in ss {
        let x = next_stmt(alloc, inside, walk, around, &mut before, s)?;
        made.push(x)?;
    }
    Ok(made)
}
