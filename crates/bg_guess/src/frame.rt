//! Of which variables the guesses of a list speak.
ghost use Rattle.std.specs.Prelude.{◌≡◌, ◌++◌, filter, map, IfOk, OnOk};
ghost use Rattle.bg_ast.specs.Views.{declared_of, type_name_of};
ghost use Rattle.bg_ast.specs.declared.resolved.Variable.TheVariants as variable;
ghost use Rattle.bg_guess.specs.Claims.{subjects_of};
ghost use Rattle.bg_guess.specs.Lists as lists;

use crate::claim::Subjects;
use crate::places::places_of_numbers;
use bg_ast::resolved::{Declared, TypeName, Variable};
use bg_fits::push_kinds;
use std::alloc::{AllocError, Global};

/// Parameters, results and locals, as far as they are seen.
#[derive(Clone, Copy)]
pub struct Frame<'a> {
    pub params: &'a [Declared],
    pub results: &'a [Declared],
    pub locals: &'a [Declared],
}

/// What the clauses of a list see besides globals: the names of the frame and the types of its variables, which a procedure and its
/// implementation declare each for itself; and what may change.
#[derive(Clone, Copy)]
pub struct Sight<'a> {
    pub names: Frame<'a>,
    pub types: Frame<'a>,
    pub modifies: &'a [u32],
}

/// What all lists share: the types and globals of a program, and which globals are of type `int`.
#[derive(Clone, Copy)]
pub struct Base<'a> {
    pub types: &'a [TypeName],
    pub globals: &'a [Declared],
    pub numbers: &'a [u32],
}

/// Whether one of these has the name.
fn has_name(name: &[u8], declared: &[Declared]) -> bool
    ensures { result ≡ lists.has_name name.now (map declared_of declared.now) }
{
    for d in declared {
        if d.name.text.as_slice() == name {
            return true;
        }
    }
    false
}

/// Whether a name of the frame hides this one.
fn is_hidden(f: &Frame<'_>, name: &[u8]) -> bool
    ensures { result ≡ lists.is_hidden (lists.frame_of f.now) name.now }
{
    has_name(name, f.params) || has_name(name, f.results) || has_name(name, f.locals)
}

/// Whether a global is there, and no name of the frame hides it.
fn is_seen(globals: &[Declared], f: &Frame<'_>, g: u32) -> bool
    ensures { result ≡ lists.is_seen (map declared_of globals.now) (lists.frame_of f.now) g }
{
    match globals.get(g as usize) {
        None => false,
        Some(d) => !is_hidden(f, &d.name.text),
    }
}

/// Adds the globals among these that are seen.
fn push_seen(
    globals: &[Declared],
    f: &Frame<'_>,
    gs: &[u32],
    out: &mut Vec<u32>,
) -> Result<(), AllocError>
    ensures { OnOk result (out.new.items ≡ out.old.items ++ filter (lists.is_seen (map declared_of globals.now) (lists.frame_of f.now)) gs.now) }
{
    for g in gs {
        if is_seen(globals, f, *g) {
            out.push(*g)?;
        }
    }
    Ok(())
}

/// Which variables of the frame are of type `int`.
fn locals(alloc: Global, types: &[TypeName], f: &Frame<'_>) -> Result<Vec<u32>, AllocError>
    ensures { IfOk result (λ made. made.items ≡ lists.places_of_numbers 0 (lists.types_in (map type_name_of types.now) (lists.frame_of f.now))) }
{
    let mut kinds = Vec::new(alloc);
    push_kinds(alloc, types, f.params, &mut kinds)?;
    push_kinds(alloc, types, f.results, &mut kinds)?;
    push_kinds(alloc, types, f.locals, &mut kinds)?;
    places_of_numbers(alloc, &kinds)
}

/// The globals among these that are seen, and these variables of the frame.
fn variables(alloc: Global, globals: &[u32], locals: &[u32]) -> Result<Vec<Variable>, AllocError>
    ensures { IfOk result (λ made. made.items ≡ map variable.Global globals.now ++ map variable.Local locals.now) }
{
    let mut made = Vec::new(alloc);
    for g in globals {
        made.push(Variable::Global(*g))?;
    }
    for x in locals {
        made.push(Variable::Local(*x))?;
    }
    Ok(made)
}

/// Of what a list speaks.
pub fn subjects(alloc: Global, g: &Base<'_>, s: &Sight<'_>) -> Result<Subjects, AllocError>
    ensures { IfOk result (λ made. subjects_of made ≡ lists.subjects (lists.base_of g.now) (lists.sight_of s.now)) }
{
    let mut seen = Vec::new(alloc);
    push_seen(g.globals, &s.names, g.numbers, &mut seen)?;
    let locals = locals(alloc, g.types, &s.types)?;
    let numbers = variables(alloc, &seen, &locals)?;
    let mut kept = Vec::new(alloc);
    push_seen(g.globals, &s.names, s.modifies, &mut kept)?;
    Ok(Subjects { numbers, kept })
}

/// The globals of type `int`.
pub fn number_globals(
    alloc: Global,
    types: &[TypeName],
    globals: &[Declared],
) -> Result<Vec<u32>, AllocError>
    ensures { IfOk result (λ made. made.items ≡ lists.number_globals (map type_name_of types.now) (map declared_of globals.now)) }
{
    let mut kinds = Vec::new(alloc);
    push_kinds(alloc, types, globals, &mut kinds)?;
    places_of_numbers(alloc, &kinds)
}
