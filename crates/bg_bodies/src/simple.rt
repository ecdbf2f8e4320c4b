//! Statements without statements inside.
ghost use Rattle.std.specs.Prelude.{◌≡◌, ◌++◌, [], IfOk, IfErr, OnOk, map, flat_map, find, not, is_some};
ghost use Rattle.bg_text.specs.Views as v;
ghost use Rattle.bg_ast.specs.Resolved as r;
ghost use Rattle.bg_ast.specs.Views.{st_of, call_of, guard_of};
ghost use Rattle.bg_names.specs.Faults.{better};
ghost use Rattle.bg_names.specs.Spaces.{repeats, place, or_zero};
ghost use Rattle.bg_names.specs.Exprs.{exs_faults, named_exs};
ghost use Rattle.bg_names.specs.Inside.{has_number, target_faults, named_target, block_of};
ghost use Rattle.bg_bodies.specs.Bodies.{has_label, target_name, callee_faults, changes_at, missing_fault, call_faults, named_call, guard_faults, named_guard, jump_faults, label_number, break_faults, break_as};
ghost use Rattle.bg_names.specs.Views.{first_of, inside_of, listed, stacked, blocks_of, around_of};
ghost use Rattle.bg_names.specs.declared.error.ResolveError.TheVariants.{Memory};

use bg_ast::resolved::{Call, Guard, Stmt};
use bg_base::Pos;
use bg_names::changes::{Inside, changes, note_repeat, targets};
use bg_names::error::{FaultKind, ResolveError};
use bg_names::exprs::{expr, exprs, note_use, number_of};
use bg_names::names::{no_names, number, place};
use bg_names::notes::{Notes, note, note_unless};
use bg_names::walk::{Labelled, find_block, has_number};
use bg_text::{Name, TreeCall, TreeExpr, TreeGuard, TreeTarget};
use std::alloc::Global;

/// Notes each variable that stands twice in a list.
fn note_repeats<'a>(
    alloc: Global,
    notes: &mut Notes<'a>,
    names: &'a [Name],
) -> Result<(), ResolveError>
    ensures first { OnOk result (first_of notes.new ≡ better (first_of notes.old) (repeats [] (map v.id_of names.now))) }
    ensures err { IfErr result (λ e. e ≡ Memory) }
{
    let mut seen = no_names(alloc);
    for name in names {
        note_repeat(&mut seen, notes, name)?;
    }
    Ok(())
}

/// Notes each variable that an assignment assigns twice.
fn note_targets<'a>(
    alloc: Global,
    notes: &mut Notes<'a>,
    xs: &'a [TreeTarget],
) -> Result<(), ResolveError>
    ensures first { OnOk result (first_of notes.new ≡ better (first_of notes.old) (repeats [] (map (λ x. v.id_of x.name) xs.now))) }
    ensures err { IfErr result (λ e. e ≡ Memory) }
{
    let mut seen = no_names(alloc);
    for x in xs {
        note_repeat(&mut seen, notes, &x.name)?;
    }
    Ok(())
}

/// An assignment. Errors: Memory.
pub fn assign<'a>(
    alloc: Global,
    inside: &Inside<'_, 'a>,
    notes: &mut Notes<'a>,
    pos: Pos,
    xs: &'a [TreeTarget],
    es: &'a [TreeExpr],
) -> Result<Stmt, ResolveError>
    ensures made { IfOk result (λ x. st_of x ≡ r.Assign pos (map (named_target (inside_of inside.now)) (map v.target_of xs.now)) (named_exs (inside_of inside.now).scope (v.exs_in es.now))) }
    ensures first { OnOk result (first_of notes.new ≡ better (first_of notes.old) (repeats [] (map target_name (map v.target_of xs.now)) ++ flat_map (target_faults (inside_of inside.now)) (map v.target_of xs.now) ++ exs_faults (inside_of inside.now).scope (v.exs_in es.now))) }
    ensures err { IfErr result (λ e. e ≡ Memory) }
{
    note_targets(alloc, notes, xs)?;
    let targets = targets(alloc, inside, notes, xs)?;
    let values = exprs(alloc, &inside.scope, notes, es)?;
    Ok(Stmt::Assign(pos, targets, values))
}

/// The globals that a procedure modifies.
fn changes_of<'s>(inside: &Inside<'s, '_>, name: &Name) -> &'s [u32]
    ensures { result.now ≡ changes_at (inside_of inside.now).changes (place (listed inside.now.procedures.now) name.now.text.items) }
{
    let Some(at) = place(inside.procedures, &name.text) else {
        return &[];
    };
    match inside.changes.get(at) {
        Some(ks) => ks.as_slice(),
        None => &[],
    }
}

/// The first of these globals that the caller doesn't modify.
fn missing(modifies: &[u32], changes: &[u32]) -> Option<u32>
    ensures { result ≡ find (λ k. not (has_number modifies.now k)) changes.now }
{
    for k in changes {
        if !has_number(modifies, *k) {
            return Some(*k);
        }
    }
    None
}

fn note_missing<'a>(globals: &[&'a [u8]], notes: &mut Notes<'a>, pos: Pos, missing: Option<u32>)
    ensures { first_of notes.new ≡ better (first_of notes.old) (missing_fault (map (λ x. x.now) globals.now) pos missing) }
{
    if let Some(k) = missing {
        match globals.get(k as usize) {
            Some(name) => note(notes, FaultKind::NotModified, pos, name),
            None => note(notes, FaultKind::NotModified, pos, &[]),
        }
    }
}

/// Notes the first global that a callee modifies and the caller doesn't.
fn note_callee<'a>(inside: &Inside<'_, 'a>, notes: &mut Notes<'a>, name: &Name)
    ensures { first_of notes.new ≡ better (first_of notes.old) (callee_faults (inside_of inside.now) (v.id_of name.now)) }
{
    let missing = missing(inside.modifies, changes_of(inside, name));
    note_missing(inside.globals, notes, name.pos, missing);
}

/// A call with this number. Errors: Memory.
pub fn call<'a>(
    alloc: Global,
    inside: &Inside<'_, 'a>,
    notes: &mut Notes<'a>,
    site: u32,
    c: &'a TreeCall,
) -> Result<Call, ResolveError>
    ensures made { IfOk result (λ x. call_of x ≡ named_call (inside_of inside.now) site (v.call_of c.now)) }
    ensures first { OnOk result (first_of notes.new ≡ better (first_of notes.old) (call_faults (inside_of inside.now) (v.call_of c.now))) }
    ensures err { IfErr result (λ e. e ≡ Memory) }
{
    note_repeats(alloc, notes, &c.takes)?;
    let takes = changes(alloc, inside, notes, &c.takes)?;
    note_use(inside.procedures, notes, &c.procedure);
    note_callee(inside, notes, &c.procedure);
    let procedure = number_of(inside.procedures, &c.procedure)?;
    let args = exprs(alloc, &inside.scope, notes, &c.args)?;
    Ok(Call {
        pos: c.pos,
        site,
        name_pos: c.procedure.pos,
        procedure,
        args,
        takes,
    })
}

/// A guard. Errors: Memory.
pub fn guard<'a>(
    alloc: Global,
    inside: &Inside<'_, 'a>,
    notes: &mut Notes<'a>,
    g: &'a TreeGuard,
) -> Result<Guard, ResolveError>
    ensures made { IfOk result (λ x. guard_of x ≡ named_guard (inside_of inside.now) (v.guard_of g.now)) }
    ensures first { OnOk result (first_of notes.new ≡ better (first_of notes.old) (guard_faults (inside_of inside.now) (v.guard_of g.now))) }
    ensures err { IfErr result (λ e. e ≡ Memory) }
{
    match g {
        TreeGuard::Star(_) => Ok(Guard::Star),
        TreeGuard::Test(e) => {
            let made = expr(alloc, &inside.scope, notes, e)?;
            Ok(Guard::Test(made))
        }
    }
}

/// Whether a label stands ahead.
fn is_ahead(ahead: &[u32], label: Option<u32>) -> bool
    ensures { result ≡ has_label (stacked ahead.now) label }
{
    let Some(label) = label else {
        return false;
    };
    let mut left = ahead.len();
    while left > 0 {
        left -= 1;
        if label == ahead[left] {
            return true;
        }
    }
    false
}

/// The number of a label, where the body has it.
fn label<'a>(inside: &Inside<'_, 'a>, name: &Name) -> Result<Option<u32>, ResolveError>
    ensures ok { IfOk result (λ k. k ≡ place (inside_of inside.now).labels name.now.text.items) }
    ensures err { IfErr result (λ e. e ≡ Memory) }
{
    match place(inside.labels, &name.text) {
        Some(at) => Ok(Some(number(at)?)),
        None => Ok(None),
    }
}

/// The number of a label that a `goto` names. Errors: Memory.
fn goto_label<'a>(
    inside: &Inside<'_, 'a>,
    ahead: &[u32],
    notes: &mut Notes<'a>,
    name: &'a Name,
) -> Result<u32, ResolveError>
    ensures made { IfOk result (λ k. k ≡ label_number (inside_of inside.now) (v.id_of name.now)) }
    ensures first { OnOk result (first_of notes.new ≡ better (first_of notes.old) (jump_faults (inside_of inside.now) (stacked ahead.now) (v.id_of name.now))) }
    ensures err { IfErr result (λ e. e ≡ Memory) }
{
    note_use(inside.labels, notes, name);
    let label = label(inside, name)?;
    note_unless(
        notes,
        is_ahead(ahead, label),
        FaultKind::BadTarget,
        name.pos,
        &name.text,
    );
    number_of(inside.labels, name)
}

/// The labels that a `goto` names. Errors: Memory.
pub fn goto_labels<'a>(
    alloc: Global,
    inside: &Inside<'_, 'a>,
    ahead: &[u32],
    notes: &mut Notes<'a>,
    names: &'a [Name],
) -> Result<Vec<u32>, ResolveError>
    ensures made { IfOk result (λ ks. ks.items ≡ map (λ x. label_number (inside_of inside.now) (v.id_of x)) names.now) }
    ensures first { OnOk result (first_of notes.new ≡ better (first_of notes.old) (flat_map (λ x. jump_faults (inside_of inside.now) (stacked ahead.now) (v.id_of x)) names.now)) }
    ensures err { IfErr result (λ e. e ≡ Memory) }
{
    let mut made = Vec::new(alloc);
    for name in names {
        let k = goto_label(inside, ahead, notes, name)?;
        made.push(k)?;
    }
    Ok(made)
}

/// The block with a label that stands around; a label that doesn't is a fault.
fn break_to<'a>(
    inside: &Inside<'_, 'a>,
    blocks: &[Labelled],
    notes: &mut Notes<'a>,
    name: &'a Name,
) -> Result<u32, ResolveError>
    ensures made { IfOk result (λ k. k ≡ block_of (blocks_of blocks.now) (label_number (inside_of inside.now) (v.id_of name.now))) }
    ensures first { OnOk result (first_of notes.new ≡ better (first_of notes.old) (jump_faults (inside_of inside.now) (around_of blocks.now) (v.id_of name.now))) }
    ensures err { IfErr result (λ e. e ≡ Memory) }
{
    note_use(inside.labels, notes, name);
    match label(inside, name)? {
        Some(label) => {
            let block = find_block(blocks, label);
            note_unless(
                notes,
                block.is_some(),
                FaultKind::BadTarget,
                name.pos,
                &name.text,
            );
            Ok(or_zero(block))
        }
        None => {
            note(notes, FaultKind::BadTarget, name.pos, &name.text);
            Ok(or_zero(find_block(blocks, 0)))
        }
    }
}

fn or_zero(n: Option<u32>) -> u32
    ensures { result ≡ or_zero n }
{
    match n {
        Some(n) => n,
        None => 0,
    }
}

/// The block that a `break` leaves. Errors: Memory.
pub fn break_block<'a>(
    inside: &Inside<'_, 'a>,
    around: Option<u32>,
    blocks: &[Labelled],
    notes: &mut Notes<'a>,
    pos: Pos,
    name: &'a Option<Name>,
) -> Result<u32, ResolveError>
    ensures made { IfOk result (λ k. k ≡ break_as (inside_of inside.now) (or_zero around) (blocks_of blocks.now) (v.option_of v.id_of name.now)) }
    ensures first { OnOk result (first_of notes.new ≡ better (first_of notes.old) (break_faults (inside_of inside.now) (is_some around) (around_of blocks.now) pos (v.option_of v.id_of name.now))) }
    ensures err { IfErr result (λ e. e ≡ Memory) }
{
    match name {
        None => {
            note_unless(notes, around.is_some(), FaultKind::BadTarget, pos, b"break");
            Ok(or_zero(around))
        }
        Some(name) => break_to(inside, blocks, notes, name),
    }
}
