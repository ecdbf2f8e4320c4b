//! Types: their names become numbers, and the first fault is noted.
ghost use Rattle.std.specs.Prelude.{◌≡◌, map, flat_map, IfOk, IfErr, OnOk};
ghost use Rattle.bg_text.specs.Views.{id_of};
ghost use Rattle.bg_ast.specs.Resolved as r;
ghost use Rattle.bg_names.specs.Spaces.{place, or_zero, use_faults};
ghost use Rattle.bg_ast.specs.Views.{type_of, index_view};
ghost use Rattle.bg_names.specs.Faults.{better};
ghost use Rattle.bg_names.specs.Views.{first_of, listed, type_faults, named_type, bracket_type_faults, named_type_bracket};
ghost use Rattle.bg_names.specs.declared.error.ResolveError.TheVariants.{Memory};

use crate::error::ResolveError;
use crate::exprs::{note_use, number_of};
use crate::names::Names;
use crate::notes::Notes;
use bg_ast::resolved::{IndexTypes, WrittenType};
use bg_text::{Name, TreeType, TypeBracket};
use std::alloc::Global;

fn declared<'a>(
    types: &Names,
    notes: &mut Notes<'a>,
    name: &'a Name,
) -> Result<WrittenType, ResolveError>
    ensures made { IfOk result (λ x. type_of x ≡ r.DeclaredType name.now.pos (or_zero (place (listed types.now) name.now.text.items))) }
    ensures first { OnOk result (first_of notes.new ≡ better (first_of notes.old) (use_faults (listed types.now) (id_of name.now))) }
    ensures err { IfErr result (λ e. e ≡ Memory) }
{
    note_use(types, notes, name);
    let number = number_of(types, name)?;
    Ok(WrittenType::Declared(name.pos, number))
}

/// A type. Errors: Memory.
#[tactic(auto, using(crate::proofs::TypeForms::forms))]
#[cycle(name_type)]
pub fn ty<'a>(
    alloc: Global,
    types: &Names,
    notes: &mut Notes<'a>,
    e: &'a TreeType,
) -> Result<WrittenType, ResolveError>
    ensures made { IfOk result (λ x. type_of x ≡ named_type (listed types.now) e.now) }
    ensures first { OnOk result (first_of notes.new ≡ better (first_of notes.old) (type_faults (listed types.now) e.now)) }
    ensures err { IfErr result (λ e. e ≡ Memory) }
{
    match e {
        TreeType::Int(pos) => Ok(WrittenType::Int(*pos)),
        TreeType::Bool(pos) => Ok(WrittenType::Bool(*pos)),
        TreeType::Named(name) => declared(types, notes, name),
        TreeType::Parens(pos, e) => {
            let made = ty(alloc, types, notes, e)?;
            Ok(WrittenType::Parens(*pos, Box::new(alloc, made)?))
        }
        TreeType::Map(brackets, e) => {
            let brackets = indices(alloc, types, notes, brackets)?;
            let made = ty(alloc, types, notes, e)?;
            Ok(WrittenType::Map(brackets, Box::new(alloc, made)?))
        }
    }
}

/// Types of a list. Errors: Memory.
#[tactic(auto, using(crate::proofs::TypeForms::forms))]
#[cycle(name_type)]
pub fn tys<'a>(
    alloc: Global,
    types: &Names,
    notes: &mut Notes<'a>,
    es: &'a [TreeType],
) -> Result<Vec<WrittenType>, ResolveError>
    ensures made { IfOk result (λ made. map type_of made.items ≡ map (named_type (listed types.now)) es.now) }
    ensures first { OnOk result (first_of notes.new ≡ better (first_of notes.old) (flat_map (type_faults (listed types.now)) es.now)) }
    ensures err { IfErr result (λ e. e ≡ Memory) }
{
    let mut made = Vec::new(alloc);
    for e in es {
        let e = ty(alloc, types, notes, e)?;
        made.push(e)?;
    }
    Ok(made)
}

#[tactic(auto, using(crate::proofs::TypeForms::forms))]
#[cycle(name_type)]
fn index<'a>(
    alloc: Global,
    types: &Names,
    notes: &mut Notes<'a>,
    bracket: &'a TypeBracket,
) -> Result<IndexTypes, ResolveError>
    ensures made { IfOk result (λ b. index_view b ≡ named_type_bracket (listed types.now) bracket.now) }
    ensures first { OnOk result (first_of notes.new ≡ better (first_of notes.old) (bracket_type_faults (listed types.now) bracket.now)) }
    ensures err { IfErr result (λ e. e ≡ Memory) }
{
    let indices = tys(alloc, types, notes, &bracket.indices)?;
    Ok(IndexTypes {
        pos: bracket.pos,
        indices,
    })
}

#[tactic(auto, using(crate::proofs::TypeForms::forms))]
#[cycle(name_type)]
fn indices<'a>(
    alloc: Global,
    types: &Names,
    notes: &mut Notes<'a>,
    brackets: &'a [TypeBracket],
) -> Result<Vec<IndexTypes>, ResolveError>
    ensures made { IfOk result (λ made. map index_view made.items ≡ map (named_type_bracket (listed types.now)) brackets.now) }
    ensures first { OnOk result (first_of notes.new ≡ better (first_of notes.old) (flat_map (bracket_type_faults (listed types.now)) brackets.now)) }
    ensures err { IfErr result (λ e. e ≡ Memory) }
{
    let mut made = Vec::new(alloc);
    for b in brackets {
        let b = index(alloc, types, notes, b)?;
        made.push(b)?;
    }
    Ok(made)
}
