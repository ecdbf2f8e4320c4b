//! Types, constants, candidates and axioms.
ghost use Rattle.std.specs.Prelude.{◌≡◌, ◌&&◌, ◌||◌, not, ◌++◌, ◌∷◌, [], map, flat_map, IfOk, IfErr, OnOk};
ghost use Rattle.bg_text.specs.Views as v;
ghost use Rattle.bg_text.specs.Trees as t;
ghost use Rattle.bg_ast.specs.Views.{type_name_of, const_of, ex_of};
ghost use Rattle.bg_names.specs.Faults.{better};
ghost use Rattle.bg_names.specs.Exprs.{ex_faults, named_ex};
ghost use Rattle.bg_resolve.specs.Program.{named_new, synonym_faults, named_types, constant_as, named_constants, candidate_faults, consts_faults, named_axioms, named_globals, is_bool, axiom_scope};
ghost use Rattle.bg_spaces.specs.Declarations.{candidate_ids_of, are_candidates};
ghost use Rattle.bg_ast.specs.Views.{declared_of};
ghost use Rattle.bg_names.specs.Views.{first_of};
ghost use Rattle.bg_spaces.specs.SpaceViews.{spaces_in};
ghost use Rattle.bg_resolve.specs.Parts.{type_faults_of, constant_faults_of, global_faults_of, axiom_faults_of};
ghost use Rattle.bg_names.specs.declared.error.ResolveError.TheVariants.{Memory};

use bg_ast::resolved::{Constant, Declared, Expr, TypeName};
use bg_names::copy::copy_name;
use bg_names::error::{FaultKind, ResolveError};
use bg_names::exprs::expr;
use bg_names::names::no_names;
use bg_names::notes::{Notes, note_unless};
use bg_names::types::ty;
use bg_spaces::groups::{note_groups, note_ty, push_groups, quiet_ty};
use bg_spaces::space::{Space, scope_in};
use bg_spaces::values::are_candidates;
use bg_text::{Constants, Decl, Name, TreeExpr, TreeType, TypeDecl};
use std::alloc::Global;

/// A type that is declared.
fn new_type<'a>(
    alloc: Global,
    g: &Space,
    notes: &mut Notes<'a>,
    d: &'a TypeDecl,
) -> Result<TypeName, ResolveError>
    ensures made { IfOk result (λ x. type_name_of x ≡ named_new (spaces_in g.now) (v.new_type_of d.now)) }
    ensures first { OnOk result (first_of notes.new ≡ better (first_of notes.old) (synonym_faults (spaces_in g.now) (v.new_type_of d.now))) }
    ensures err { IfErr result (λ e. e ≡ Memory) }
{
    let name = copy_name(alloc, &d.name)?;
    match &d.synonym {
        None => Ok(TypeName {
            name,
            synonym: None,
        }),
        Some(e) => {
            let e = ty(alloc, &g.types, notes, e)?;
            Ok(TypeName {
                name,
                synonym: Some(e),
            })
        }
    }
}

/// Adds types.
fn push_new_types<'a>(
    alloc: Global,
    g: &Space,
    notes: &mut Notes<'a>,
    out: &mut Vec<TypeName>,
    ds: &'a [TypeDecl],
) -> Result<(), ResolveError>
    ensures made { OnOk result (map type_name_of out.new.items ≡ map type_name_of out.old.items ++ map (named_new (spaces_in g.now)) (map v.new_type_of ds.now)) }
    ensures first { OnOk result (first_of notes.new ≡ better (first_of notes.old) (flat_map (synonym_faults (spaces_in g.now)) (map v.new_type_of ds.now))) }
    ensures err { IfErr result (λ e. e ≡ Memory) }
{
    for d in ds {
        let x = new_type(alloc, g, notes, d)?;
        out.push(x)?;
    }
    Ok(())
}

/// Adds the types of a declaration. Errors: Memory.
pub fn push_types<'a>(
    alloc: Global,
    g: &Space,
    notes: &mut Notes<'a>,
    out: &mut Vec<TypeName>,
    d: &'a Decl,
) -> Result<(), ResolveError>
    ensures made { OnOk result (map type_name_of out.new.items ≡ map type_name_of out.old.items ++ named_types (spaces_in g.now) (v.decl_of d.now)) }
    ensures first { OnOk result (first_of notes.new ≡ better (first_of notes.old) (type_faults_of (spaces_in g.now) (v.decl_of d.now))) }
    ensures err { IfErr result (λ e. e ≡ Memory) }
{
    match d {
        Decl::Types(_, _, ds) => push_new_types(alloc, g, notes, out, ds),
        _ => Ok(()),
    }
}

fn is_bool(e: &TreeType) -> bool
    ensures { result ≡ is_bool (v.type_of e.now) }
{
    match e {
        TreeType::Bool(_) => true,
        _ => false,
    }
}

/// Whether constants may be candidates, if they are: not unique, and their type is the word `bool`.
fn fits(c: &Constants) -> bool
    ensures { result ≡ (not (are_candidates (v.consts_of c.now)) || (not (v.consts_of c.now).is_unique && is_bool (v.consts_of c.now).group.ty)) }
{
    !are_candidates(c) || (!c.is_unique && is_bool(&c.formals.ty))
}

/// Notes candidates that may not be ones.
fn note_candidates<'a>(notes: &mut Notes<'a>, c: &'a Constants)
    ensures { first_of notes.new ≡ better (first_of notes.old) (flat_map (candidate_faults (v.consts_of c.now)) (v.consts_of c.now).group.names) }
{
    let holds = fits(c);
    for name in &c.formals.names {
        note_unless(
            notes,
            holds,
            FaultKind::BadCandidateUse,
            name.pos,
            &name.text,
        );
    }
}

/// Adds a constant.
fn push_constant(
    alloc: Global,
    g: &Space,
    out: &mut Vec<Constant>,
    c: &Constants,
    name: &Name,
) -> Result<(), ResolveError>
    ensures made { OnOk result (map const_of out.new.items ≡ map const_of out.old.items ++ constant_as (spaces_in g.now) (v.consts_of c.now) (v.id_of name.now) ∷ []) }
    ensures err { IfErr result (λ e. e ≡ Memory) }
{
    let ty = quiet_ty(alloc, g, &c.formals.ty)?;
    let name = copy_name(alloc, name)?;
    out.push(Constant {
        name,
        is_unique: c.is_unique,
        ty,
    })?;
    Ok(())
}

/// Adds constants.
fn push_named(
    alloc: Global,
    g: &Space,
    out: &mut Vec<Constant>,
    c: &Constants,
) -> Result<(), ResolveError>
    ensures made { OnOk result (map const_of out.new.items ≡ map const_of out.old.items ++ map (constant_as (spaces_in g.now) (v.consts_of c.now)) (v.consts_of c.now).group.names) }
    ensures err { IfErr result (λ e. e ≡ Memory) }
{
    for name in &c.formals.names {
        push_constant(alloc, g, out, c, name)?;
    }
    Ok(())
}

/// Notes the faults of constants, and adds those that are no candidates.
fn constants<'a>(
    alloc: Global,
    g: &Space,
    notes: &mut Notes<'a>,
    out: &mut Vec<Constant>,
    c: &'a Constants,
) -> Result<(), ResolveError>
    ensures made { OnOk result (map const_of out.new.items ≡ map const_of out.old.items ++ named_constants (spaces_in g.now) (t.Constants (v.consts_of c.now))) }
    ensures first { OnOk result (first_of notes.new ≡ better (first_of notes.old) (consts_faults (spaces_in g.now) (v.consts_of c.now))) }
    ensures err { IfErr result (λ e. e ≡ Memory) }
{
    note_ty(alloc, g, notes, &c.formals.ty)?;
    note_candidates(notes, c);
    if are_candidates(c) {
        Ok(())
    } else {
        push_named(alloc, g, out, c)
    }
}

/// Adds the constants of a declaration. Errors: Memory.
pub fn push_constants<'a>(
    alloc: Global,
    g: &Space,
    notes: &mut Notes<'a>,
    out: &mut Vec<Constant>,
    d: &'a Decl,
) -> Result<(), ResolveError>
    ensures made { OnOk result (map const_of out.new.items ≡ map const_of out.old.items ++ named_constants (spaces_in g.now) (v.decl_of d.now)) }
    ensures first { OnOk result (first_of notes.new ≡ better (first_of notes.old) (constant_faults_of (spaces_in g.now) (v.decl_of d.now))) }
    ensures err { IfErr result (λ e. e ≡ Memory) }
{
    match d {
        Decl::Constants(c) => constants(alloc, g, notes, out, c),
        _ => Ok(()),
    }
}

/// Adds names.
fn push_copies(alloc: Global, out: &mut Vec<Name>, names: &[Name]) -> Result<(), ResolveError>
    ensures made { OnOk result (map v.id_of out.new.items ≡ map v.id_of out.old.items ++ map v.id_of names.now) }
    ensures err { IfErr result (λ e. e ≡ Memory) }
{
    for name in names {
        let x = copy_name(alloc, name)?;
        out.push(x)?;
    }
    Ok(())
}

/// Adds the names of constants that are candidates.
fn candidates(alloc: Global, out: &mut Vec<Name>, c: &Constants) -> Result<(), ResolveError>
    ensures made { OnOk result (map v.id_of out.new.items ≡ map v.id_of out.old.items ++ candidate_ids_of (t.Constants (v.consts_of c.now))) }
    ensures err { IfErr result (λ e. e ≡ Memory) }
{
    if are_candidates(c) {
        push_copies(alloc, out, &c.formals.names)
    } else {
        Ok(())
    }
}

/// Adds the candidates of a declaration. Errors: Memory.
pub fn push_candidates(alloc: Global, out: &mut Vec<Name>, d: &Decl) -> Result<(), ResolveError>
    ensures made { OnOk result (map v.id_of out.new.items ≡ map v.id_of out.old.items ++ candidate_ids_of (v.decl_of d.now)) }
    ensures err { IfErr result (λ e. e ≡ Memory) }
{
    match d {
        Decl::Constants(c) => candidates(alloc, out, c),
        _ => Ok(()),
    }
}

/// Adds the globals of a declaration. Errors: Memory.
pub fn push_globals<'a>(
    alloc: Global,
    g: &Space,
    notes: &mut Notes<'a>,
    out: &mut Vec<Declared>,
    d: &'a Decl,
) -> Result<(), ResolveError>
    ensures made { OnOk result (map declared_of out.new.items ≡ map declared_of out.old.items ++ named_globals (spaces_in g.now) (v.decl_of d.now)) }
    ensures first { OnOk result (first_of notes.new ≡ better (first_of notes.old) (global_faults_of (spaces_in g.now) (v.decl_of d.now))) }
    ensures err { IfErr result (λ e. e ≡ Memory) }
{
    match d {
        Decl::Variables(x) => {
            note_groups(alloc, g, notes, &x.groups)?;
            push_groups(alloc, g, out, &x.groups)
        }
        _ => Ok(()),
    }
}

/// An axiom.
fn axiom<'a>(
    alloc: Global,
    g: &Space,
    notes: &mut Notes<'a>,
    e: &'a TreeExpr,
) -> Result<Expr, ResolveError>
    ensures made { IfOk result (λ x. ex_of x ≡ named_ex (axiom_scope (spaces_in g.now)) (v.ex_of e.now)) }
    ensures first { OnOk result (first_of notes.new ≡ better (first_of notes.old) (ex_faults (axiom_scope (spaces_in g.now)) (v.ex_of e.now))) }
    ensures err { IfErr result (λ e. e ≡ Memory) }
{
    let frame = no_names(alloc);
    let scope = scope_in(g, &frame, false, false);
    expr(alloc, &scope, notes, e)
}

/// Adds the axiom of a declaration. Errors: Memory.
pub fn push_axioms<'a>(
    alloc: Global,
    g: &Space,
    notes: &mut Notes<'a>,
    out: &mut Vec<Expr>,
    d: &'a Decl,
) -> Result<(), ResolveError>
    ensures made { OnOk result (map ex_of out.new.items ≡ map ex_of out.old.items ++ named_axioms (spaces_in g.now) (v.decl_of d.now)) }
    ensures first { OnOk result (first_of notes.new ≡ better (first_of notes.old) (axiom_faults_of (spaces_in g.now) (v.decl_of d.now))) }
    ensures err { IfErr result (λ e. e ≡ Memory) }
{
    match d {
        Decl::Axiom(_, _, e) => {
            let e = axiom(alloc, g, notes, e)?;
            out.push(e)?;
            Ok(())
        }
        _ => Ok(()),
    }
}
