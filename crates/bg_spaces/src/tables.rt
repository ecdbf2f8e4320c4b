//! The names that declarations declare, in order.
ghost use Rattle.std.specs.Prelude.{◌≡◌, ◌++◌, map, flat_map, IfOk, IfErr, OnOk};
ghost use Rattle.bg_text.specs.Views as v;
ghost use Rattle.bg_spaces.specs.Declarations.{type_ids_of, function_ids_of, procedure_ids_of};
ghost use Rattle.bg_names.specs.Views.{id_in};
ghost use Rattle.bg_names.specs.declared.error.ResolveError.TheVariants.{Memory};

use bg_names::error::ResolveError;
use bg_text::{Decl, Formals, Name, TypeDecl};
use std::alloc::Global;

/// Adds names.
fn push_names<'a>(out: &mut Vec<&'a Name>, names: &'a [Name]) -> Result<(), ResolveError>
    ensures ok { OnOk result (map id_in out.new.items ≡ map id_in out.old.items ++ map v.id_of names.now) }
    ensures err { IfErr result (λ e. e ≡ Memory) }
{
    for name in names {
        out.push(name)?;
    }
    Ok(())
}

/// Adds the names of types.
fn push_types<'a>(out: &mut Vec<&'a Name>, ds: &'a [TypeDecl]) -> Result<(), ResolveError>
    ensures ok { OnOk result (map id_in out.new.items ≡ map id_in out.old.items ++ map (λ d. v.id_of d.name) ds.now) }
    ensures err { IfErr result (λ e. e ≡ Memory) }
{
    for d in ds {
        out.push(&d.name)?;
    }
    Ok(())
}

/// Adds the names of groups.
pub fn push_groups<'a>(out: &mut Vec<&'a Name>, gs: &'a [Formals]) -> Result<(), ResolveError>
    ensures ok { OnOk result (map id_in out.new.items ≡ map id_in out.old.items ++ flat_map (λ g. map v.id_of g.names.items) gs.now) }
    ensures err { IfErr result (λ e. e ≡ Memory) }
{
    for g in gs {
        push_names(out, &g.names)?;
    }
    Ok(())
}

/// Adds the types that a declaration declares.
fn push_type_names<'a>(out: &mut Vec<&'a Name>, d: &'a Decl) -> Result<(), ResolveError>
    ensures ok { OnOk result (map id_in out.new.items ≡ map id_in out.old.items ++ type_ids_of (v.decl_of d.now)) }
    ensures err { IfErr result (λ e. e ≡ Memory) }
{
    match d {
        Decl::Types(_, _, ds) => push_types(out, ds),
        _ => Ok(()),
    }
}

/// The types that a program declares. Errors: Memory.
pub fn type_names<'a>(alloc: Global, decls: &'a [Decl]) -> Result<Vec<&'a Name>, ResolveError>
    ensures ok { IfOk result (λ names. map id_in names.items ≡ flat_map (λ d. type_ids_of (v.decl_of d)) decls.now) }
    ensures err { IfErr result (λ e. e ≡ Memory) }
{
    let mut out = Vec::new(alloc);
    for d in decls {
        push_type_names(&mut out, d)?;
    }
    Ok(out)
}

/// Adds the function that a declaration declares.
fn push_function_name<'a>(out: &mut Vec<&'a Name>, d: &'a Decl) -> Result<(), ResolveError>
    ensures ok { OnOk result (map id_in out.new.items ≡ map id_in out.old.items ++ function_ids_of (v.decl_of d.now)) }
    ensures err { IfErr result (λ e. e ≡ Memory) }
{
    if let Decl::Function(f) = d {
        out.push(&f.name)?;
    }
    Ok(())
}

/// The functions that a program declares. Errors: Memory.
pub fn function_names<'a>(alloc: Global, decls: &'a [Decl]) -> Result<Vec<&'a Name>, ResolveError>
    ensures ok { IfOk result (λ names. map id_in names.items ≡ flat_map (λ d. function_ids_of (v.decl_of d)) decls.now) }
    ensures err { IfErr result (λ e. e ≡ Memory) }
{
    let mut out = Vec::new(alloc);
    for d in decls {
        push_function_name(&mut out, d)?;
    }
    Ok(out)
}

/// Adds the procedure that a declaration declares.
fn push_procedure_name<'a>(out: &mut Vec<&'a Name>, d: &'a Decl) -> Result<(), ResolveError>
    ensures ok { OnOk result (map id_in out.new.items ≡ map id_in out.old.items ++ procedure_ids_of (v.decl_of d.now)) }
    ensures err { IfErr result (λ e. e ≡ Memory) }
{
    if let Decl::Procedure(q) = d {
        out.push(&q.name)?;
    }
    Ok(())
}

/// The procedures that a program declares. Errors: Memory.
pub fn procedure_names<'a>(alloc: Global, decls: &'a [Decl]) -> Result<Vec<&'a Name>, ResolveError>
    ensures ok { IfOk result (λ names. map id_in names.items ≡ flat_map (λ d. procedure_ids_of (v.decl_of d)) decls.now) }
    ensures err { IfErr result (λ e. e ≡ Memory) }
{
    let mut out = Vec::new(alloc);
    for d in decls {
        push_procedure_name(&mut out, d)?;
    }
    Ok(out)
}
