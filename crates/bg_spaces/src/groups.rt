//! Variables that are declared, with their types.
ghost use Rattle.std.specs.Prelude.{◌≡◌, ◌++◌, ◌∷◌, [], map, flat_map, IfOk, IfErr, OnOk};
ghost use Rattle.bg_text.specs.Views as v;
ghost use Rattle.bg_ast.specs.Views.{declared_of, type_of};
ghost use Rattle.bg_names.specs.Faults.{better};
ghost use Rattle.bg_names.specs.Exprs.{named_ty, ty_faults};
ghost use Rattle.bg_spaces.specs.Declarations.{declared_as, named_group, named_groups, group_faults};
ghost use Rattle.bg_names.specs.Views.{first_of};
ghost use Rattle.bg_spaces.specs.SpaceViews.{spaces_in};
ghost use Rattle.bg_names.specs.declared.error.ResolveError.TheVariants.{Memory};

use crate::space::Space;
use bg_ast::resolved::{Declared, WrittenType};
use bg_names::copy::copy_name;
use bg_names::error::ResolveError;
use bg_names::notes::Notes;
use bg_names::types::ty;
use bg_text::{Formals, Name, TreeType, Variables};
use std::alloc::Global;

/// A type, of which no fault is noted.
pub fn quiet_ty(alloc: Global, g: &Space, e: &TreeType) -> Result<WrittenType, ResolveError>
    ensures ok { IfOk result (λ x. type_of x ≡ named_ty (spaces_in g.now).types (v.type_of e.now)) }
    ensures err { IfErr result (λ e. e ≡ Memory) }
{
    let mut notes = Notes { first: None };
    let made = ty(alloc, &g.types, &mut notes, e);
    let Notes { first: _ } = notes;
    made
}

/// Notes the faults of a type.
pub fn note_ty<'a>(
    alloc: Global,
    g: &Space,
    notes: &mut Notes<'a>,
    e: &'a TreeType,
) -> Result<(), ResolveError>
    ensures first { OnOk result (first_of notes.new ≡ better (first_of notes.old) (ty_faults (spaces_in g.now).types (v.type_of e.now))) }
    ensures err { IfErr result (λ e. e ≡ Memory) }
{
    let _ = ty(alloc, &g.types, notes, e)?;
    Ok(())
}

/// Adds a variable of a group.
fn push_one(
    alloc: Global,
    g: &Space,
    out: &mut Vec<Declared>,
    e: &TreeType,
    name: &Name,
) -> Result<(), ResolveError>
    ensures ok { OnOk result (map declared_of out.new.items ≡ map declared_of out.old.items ++ declared_as (spaces_in g.now) (v.type_of e.now) (v.id_of name.now) ∷ []) }
    ensures err { IfErr result (λ e. e ≡ Memory) }
{
    let ty = quiet_ty(alloc, g, e)?;
    let name = copy_name(alloc, name)?;
    out.push(Declared { name, ty })?;
    Ok(())
}

/// Adds the variables of a group.
fn push_group(
    alloc: Global,
    g: &Space,
    out: &mut Vec<Declared>,
    x: &Formals,
) -> Result<(), ResolveError>
    ensures ok { OnOk result (map declared_of out.new.items ≡ map declared_of out.old.items ++ named_group (spaces_in g.now) (v.group_of x.now)) }
    ensures err { IfErr result (λ e. e ≡ Memory) }
{
    for name in &x.names {
        push_one(alloc, g, out, &x.ty, name)?;
    }
    Ok(())
}

/// Adds the variables of groups. Errors: Memory.
pub fn push_groups(
    alloc: Global,
    g: &Space,
    out: &mut Vec<Declared>,
    xs: &[Formals],
) -> Result<(), ResolveError>
    ensures ok { OnOk result (map declared_of out.new.items ≡ map declared_of out.old.items ++ named_groups (spaces_in g.now) (map v.group_of xs.now)) }
    ensures err { IfErr result (λ e. e ≡ Memory) }
{
    for x in xs {
        push_group(alloc, g, out, x)?;
    }
    Ok(())
}

/// Notes the faults of groups. Errors: Memory.
#[tactic(auto, using(bg_names::proofs::Forms::forms))]
pub fn note_groups<'a>(
    alloc: Global,
    g: &Space,
    notes: &mut Notes<'a>,
    xs: &'a [Formals],
) -> Result<(), ResolveError>
    ensures first { OnOk result (first_of notes.new ≡ better (first_of notes.old) (flat_map (group_faults (spaces_in g.now)) (map v.group_of xs.now))) }
    ensures err { IfErr result (λ e. e ≡ Memory) }
{
    for x in xs {
        note_ty(alloc, g, notes, &x.ty)?;
    }
    Ok(())
}
