//! The globals that procedures modify.
ghost use Rattle.std.specs.Prelude.{◌≡◌, ◌<◌, ◌+◌, ◌++◌, ℕ, true, false, map, flat_map, length, get_or, slice_set, IfOk, IfErr, OnOk};
ghost use Rattle.bg_text.specs.Views as v;
ghost use Rattle.bg_spaces.specs.Declarations.{value_of, global_in, modified_in, rising, modifies_of, changes_of};
ghost use Rattle.bg_names.specs.Inside.{has_number};
ghost use Rattle.bg_names.specs.Views.{listed};
ghost use Rattle.bg_names.specs.declared.error.ResolveError.TheVariants.{Memory};

use crate::values::Values;
use bg_names::error::ResolveError;
use bg_names::names::{number, place};
use bg_names::scope::Meaning;
use bg_text::{Decl, Name, Spec};
use std::alloc::Global;

/// What a constant, candidate or global is.
pub fn value_of(values: &Values, name: &[u8]) -> Meaning
    ensures { result ≡ value_of (listed values.now.names) values.now.meanings.items name.now }
{
    let Some(at) = place(&values.names, name) else {
        return Meaning::Nothing;
    };
    match values.meanings.get(at) {
        Some(meaning) => *meaning,
        None => Meaning::Nothing,
    }
}

/// Adds a global that a `modifies` names.
fn push_global(out: &mut Vec<u32>, values: &Values, name: &Name) -> Result<(), ResolveError>
    ensures ok { OnOk result (out.new.items ≡ out.old.items ++ global_in (value_of (listed values.now.names) values.now.meanings.items name.now.text.items)) }
    ensures err { IfErr result (λ e. e ≡ Memory) }
{
    if let Meaning::Global(k) = value_of(values, &name.text) {
        out.push(k)?;
    }
    Ok(())
}

/// Adds the globals that names name.
fn push_named(out: &mut Vec<u32>, values: &Values, names: &[Name]) -> Result<(), ResolveError>
    ensures ok { OnOk result (out.new.items ≡ out.old.items ++ flat_map (λ x. global_in (value_of (listed values.now.names) values.now.meanings.items x.text)) (map v.id_of names.now)) }
    ensures err { IfErr result (λ e. e ≡ Memory) }
{
    for name in names {
        push_global(out, values, name)?;
    }
    Ok(())
}

/// Adds the globals that a part of a specification modifies.
fn push_modified(out: &mut Vec<u32>, values: &Values, spec: &Spec) -> Result<(), ResolveError>
    ensures ok { OnOk result (out.new.items ≡ out.old.items ++ modified_in (listed values.now.names) values.now.meanings.items (v.spec_of spec.now)) }
    ensures err { IfErr result (λ e. e ≡ Memory) }
{
    match spec {
        Spec::Modifies(_, names) => push_named(out, values, names),
        _ => Ok(()),
    }
}

/// Marks a number, if there is a mark for it.
fn mark(marks: &mut [bool], k: u32)
    ensures { marks.new ≡ slice_set marks.old k true }
{
    let k = k as usize;
    if k < marks.len() {
        marks[k] = true;
    }
}

/// For each number below this one whether it is among these.
fn marks(alloc: Global, count: usize, ks: &[u32]) -> Result<Vec<bool>, ResolveError>
    ensures long { IfOk result (λ made. length made.items ≡ count) }
    ensures exact { IfOk result (λ made. (n : ℕ) → n < count → get_or made.items n false ≡ has_number ks.now n) }
    ensures err { IfErr result (λ e. e ≡ Memory) }
{
    let mut marks = vec![in alloc; false; count]?;
    for k in ks {
        mark(&mut marks, *k);
    }
    Ok(marks)
}

/// The numbers below this one that are among these, rising.
fn rising(alloc: Global, count: usize, ks: &[u32]) -> Result<Vec<u32>, ResolveError>
    ensures ok { IfOk result (λ xs. xs.items ≡ rising count ks.now) }
    ensures err { IfErr result (λ e. e ≡ Memory) }
{
    let marks = marks(alloc, count, ks)?;
    let mut out = Vec::new(alloc);
    for n in 0..count {
        if marks[n] {
            out.push(number(n)?)?;
        }
    }
    Ok(out)
}

/// The globals that a specification modifies, by declaration. Errors: Memory.
pub fn modifies(
    alloc: Global,
    values: &Values,
    globals: usize,
    specs: &[Spec],
) -> Result<Vec<u32>, ResolveError>
    ensures ok { IfOk result (λ xs. xs.items ≡ modifies_of (listed values.now.names) values.now.meanings.items globals (map v.spec_of specs.now)) }
    ensures err { IfErr result (λ e. e ≡ Memory) }
{
    let mut ks = Vec::new(alloc);
    for spec in specs {
        push_modified(&mut ks, values, spec)?;
    }
    rising(alloc, globals, &ks)
}

/// Adds the globals that a procedure modifies.
fn push_changes(
    alloc: Global,
    out: &mut Vec<Vec<u32>>,
    values: &Values,
    globals: usize,
    d: &Decl,
) -> Result<(), ResolveError>
    ensures ok { OnOk result (map (λ ks. ks.items) out.new.items ≡ map (λ ks. ks.items) out.old.items ++ changes_of (listed values.now.names) values.now.meanings.items globals (v.decl_of d.now)) }
    ensures err { IfErr result (λ e. e ≡ Memory) }
{
    if let Decl::Procedure(q) = d {
        let ks = modifies(alloc, values, globals, &q.specs)?;
        out.push(ks)?;
    }
    Ok(())
}

/// What each procedure modifies. Errors: Memory.
pub fn changes(
    alloc: Global,
    values: &Values,
    globals: usize,
    decls: &[Decl],
) -> Result<Vec<Vec<u32>>, ResolveError>
    ensures ok { IfOk result (λ xs. map (λ ks. ks.items) xs.items ≡ flat_map (changes_of (listed values.now.names) values.now.meanings.items globals) (map v.decl_of decls.now)) }
    ensures err { IfErr result (λ e. e ≡ Memory) }
{
    let mut out = Vec::new(alloc);
    for d in decls {
        push_changes(alloc, &mut out, values, globals, d)?;
    }
    Ok(out)
}
