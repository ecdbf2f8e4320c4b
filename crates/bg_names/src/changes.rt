//! Variables that statements change.
ghost use Rattle.std.specs.Prelude.{◌≡◌, [], IfOk, IfErr, OnOk, map, flat_map, not};
ghost use Rattle.bg_text.specs.Views as v;
ghost use Rattle.bg_ast.specs.Views.{var_of, placed_of, target_of, bracket_of};
ghost use Rattle.bg_names.specs.Faults.{better, unless, fault};
ghost use Rattle.bg_names.specs.Spaces.{repeats, with_names, with_name, has_name, place};
ghost use Rattle.bg_names.specs.declared.error.FaultKind.TheVariants as kinds;
ghost use Rattle.bg_names.specs.Inside.{change_faults, id_faults, placed, target_faults, named_target, index_faults, named_index, variable_as, has_number};
ghost use Rattle.bg_names.specs.Views.{first_of, listed, inside_of, id_in};
ghost use Rattle.bg_names.specs.declared.error.ResolveError.TheVariants.{Memory};

use crate::error::{FaultKind, ResolveError};
use crate::exprs::exprs;
use crate::names::{Names, add, no_names, place};
use crate::notes::{Notes, note, note_unless};
use crate::scope::{Meaning, Scope, look_up};
use crate::walk::has_number;
use bg_ast::resolved::{Indices, Placed, Target, Variable};
use bg_base::Pos;
use bg_text::{Name, TreeIndices, TreeTarget};
use std::alloc::Global;

/// What names mean in the body of an implementation.
#[derive(Clone, Copy)]
pub struct Inside<'s, 'a> {
    pub scope: Scope<'s, 'a>,
    /// So many names of the frame are parameters.
    pub inputs: usize,
    /// The globals that its procedure modifies.
    pub modifies: &'s [u32],
    /// The names of the globals.
    pub globals: &'s [&'a [u8]],
    pub procedures: &'s Names<'a>,
    /// The globals that each procedure modifies.
    pub changes: &'s [Vec<u32>],
    pub labels: &'s Names<'a>,
}

/// Notes a name that is declared already.
pub fn note_repeat<'a>(
    names: &mut Names<'a>,
    notes: &mut Notes<'a>,
    name: &'a Name,
) -> Result<(), ResolveError>
    ensures names { OnOk result (listed names.new ≡ with_name (listed names.old) name.now.text.items) }
    ensures first { OnOk result (first_of notes.new ≡ better (first_of notes.old) (unless (not (has_name (listed names.old) name.now.text.items)) (fault kinds.Duplicate name.now.pos name.now.text.items))) }
    ensures err { IfErr result (λ e. e ≡ Memory) }
{
    let is_new = add(names, &name.text)?;
    note_unless(notes, is_new, FaultKind::Duplicate, name.pos, &name.text);
    Ok(())
}

/// The names of a list, each once; a second one is a fault.
pub fn declare<'a>(
    alloc: Global,
    notes: &mut Notes<'a>,
    ids: &[&'a Name],
) -> Result<Names<'a>, ResolveError>
    ensures made { IfOk result (λ names. listed names ≡ with_names [] (map id_in ids.now)) }
    ensures first { OnOk result (first_of notes.new ≡ better (first_of notes.old) (repeats [] (map id_in ids.now))) }
    ensures err { IfErr result (λ e. e ≡ Memory) }
{
    let mut names = no_names(alloc);
    for id in ids {
        note_repeat(&mut names, notes, *id)?;
    }
    Ok(names)
}

fn note_change<'a>(inside: &Inside, notes: &mut Notes<'a>, name: &'a Name, meaning: Meaning)
    ensures { first_of notes.new ≡ better (first_of notes.old) (change_faults (inside_of inside.now) (v.id_of name.now) meaning) }
{
    match meaning {
        Meaning::Nothing => note(notes, FaultKind::UnknownName, name.pos, &name.text),
        Meaning::Constant(_) => note(notes, FaultKind::AssignsInput, name.pos, &name.text),
        Meaning::Candidate(_) => note(notes, FaultKind::AssignsInput, name.pos, &name.text),
        Meaning::Local(k) => {
            let may = !((k as usize) < inside.inputs);
            note_unless(notes, may, FaultKind::AssignsInput, name.pos, &name.text);
        }
        Meaning::Global(k) => {
            let may = has_number(inside.modifies, k);
            note_unless(notes, may, FaultKind::NotModified, name.pos, &name.text);
        }
    }
}

fn variable_as(meaning: Meaning) -> Variable
    ensures { var_of result ≡ variable_as meaning }
{
    match meaning {
        Meaning::Global(k) => Variable::Global(k),
        Meaning::Local(k) => Variable::Local(k),
        _ => Variable::Local(0),
    }
}

/// A variable that is changed. Errors: Memory.
pub fn change<'a>(
    inside: &Inside,
    notes: &mut Notes<'a>,
    name: &'a Name,
) -> Result<Placed, ResolveError>
    ensures made { IfOk result (λ x. placed_of x ≡ placed (inside_of inside.now) (v.id_of name.now)) }
    ensures first { OnOk result (first_of notes.new ≡ better (first_of notes.old) (id_faults (inside_of inside.now) (v.id_of name.now))) }
    ensures err { IfErr result (λ e. e ≡ Memory) }
{
    let meaning = look_up(&inside.scope, &name.text)?;
    note_change(inside, notes, name, meaning);
    Ok(Placed {
        pos: name.pos,
        variable: variable_as(meaning),
    })
}

/// Variables that are changed. Errors: Memory.
pub fn changes<'a>(
    alloc: Global,
    inside: &Inside,
    notes: &mut Notes<'a>,
    names: &'a [Name],
) -> Result<Vec<Placed>, ResolveError>
    ensures made { IfOk result (λ made. map placed_of made.items ≡ map (λ x. placed (inside_of inside.now) (v.id_of x)) names.now) }
    ensures first { OnOk result (first_of notes.new ≡ better (first_of notes.old) (flat_map (λ x. id_faults (inside_of inside.now) (v.id_of x)) names.now)) }
    ensures err { IfErr result (λ e. e ≡ Memory) }
{
    let mut made = Vec::new(alloc);
    for name in names {
        let x = change(inside, notes, name)?;
        made.push(x)?;
    }
    Ok(made)
}

fn bracket<'a>(
    alloc: Global,
    inside: &Inside,
    notes: &mut Notes<'a>,
    bracket: &'a TreeIndices,
) -> Result<Indices, ResolveError>
    ensures made { IfOk result (λ x. bracket_of x ≡ named_index (inside_of inside.now) (v.bracket_of bracket.now)) }
    ensures first { OnOk result (first_of notes.new ≡ better (first_of notes.old) (index_faults (inside_of inside.now) (v.bracket_of bracket.now))) }
    ensures err { IfErr result (λ e. e ≡ Memory) }
{
    let indices = exprs(alloc, &inside.scope, notes, &bracket.indices)?;
    Ok(Indices {
        pos: bracket.pos,
        indices,
    })
}

fn brackets<'a>(
    alloc: Global,
    inside: &Inside,
    notes: &mut Notes<'a>,
    bs: &'a [TreeIndices],
) -> Result<Vec<Indices>, ResolveError>
    ensures made { IfOk result (λ made. map bracket_of made.items ≡ map (λ x. named_index (inside_of inside.now) (v.bracket_of x)) bs.now) }
    ensures first { OnOk result (first_of notes.new ≡ better (first_of notes.old) (flat_map (λ x. index_faults (inside_of inside.now) (v.bracket_of x)) bs.now)) }
    ensures err { IfErr result (λ e. e ≡ Memory) }
{
    let mut made = Vec::new(alloc);
    for b in bs {
        let x = bracket(alloc, inside, notes, b)?;
        made.push(x)?;
    }
    Ok(made)
}

fn target<'a>(
    alloc: Global,
    inside: &Inside,
    notes: &mut Notes<'a>,
    x: &'a TreeTarget,
) -> Result<Target, ResolveError>
    ensures made { IfOk result (λ made. target_of made ≡ named_target (inside_of inside.now) (v.target_of x.now)) }
    ensures first { OnOk result (first_of notes.new ≡ better (first_of notes.old) (target_faults (inside_of inside.now) (v.target_of x.now))) }
    ensures err { IfErr result (λ e. e ≡ Memory) }
{
    let placed = change(inside, notes, &x.name)?;
    let brackets = brackets(alloc, inside, notes, &x.brackets)?;
    Ok(Target { placed, brackets })
}

/// Left sides of an assignment. Errors: Memory.
pub fn targets<'a>(
    alloc: Global,
    inside: &Inside,
    notes: &mut Notes<'a>,
    xs: &'a [TreeTarget],
) -> Result<Vec<Target>, ResolveError>
    ensures made { IfOk result (λ made. map target_of made.items ≡ map (λ x. named_target (inside_of inside.now) (v.target_of x)) xs.now) }
    ensures first { OnOk result (first_of notes.new ≡ better (first_of notes.old) (flat_map (λ x. target_faults (inside_of inside.now) (v.target_of x)) xs.now)) }
    ensures err { IfErr result (λ e. e ≡ Memory) }
{
    let mut made = Vec::new(alloc);
    for x in xs {
        let x = target(alloc, inside, notes, x)?;
        made.push(x)?;
    }
    Ok(made)
}
