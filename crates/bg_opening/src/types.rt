//! Copies of types.
ghost use Rattle.std.specs.Prelude.{◌≡◌, map, IfOk};
ghost use Rattle.bg_ast.specs.Views.{type_of, index_view};

use bg_ast::resolved::{IndexTypes, WrittenType};
use std::alloc::{AllocError, Global};

/// A copy, form by form.
#[tactic(auto, using(crate::proofs::TypeForms::type_forms))]
#[cycle(copy_type)]
pub fn copy_type(alloc: Global, e: &WrittenType) -> Result<WrittenType, AllocError>
    ensures { IfOk result (λ x. type_of x ≡ type_of e.now) }
{
    match e {
        WrittenType::Int(pos) => Ok(WrittenType::Int(*pos)),
        WrittenType::Bool(pos) => Ok(WrittenType::Bool(*pos)),
        WrittenType::Declared(pos, k) => Ok(WrittenType::Declared(*pos, *k)),
        WrittenType::Parens(pos, e) => {
            let made = copy_type(alloc, e)?;
            Ok(WrittenType::Parens(*pos, Box::new(alloc, made)?))
        }
        WrittenType::Map(brackets, e) => {
            let brackets = copy_indices(alloc, brackets)?;
            let made = copy_type(alloc, e)?;
            Ok(WrittenType::Map(brackets, Box::new(alloc, made)?))
        }
    }
}

/// The same of a list.
#[tactic(auto, using(crate::proofs::TypeForms::type_forms))]
#[cycle(copy_type)]
pub fn copy_types(alloc: Global, es: &[WrittenType]) -> Result<Vec<WrittenType>, AllocError>
    ensures { IfOk result (λ made. map type_of made.items ≡ map type_of es.now) }
{
    let mut made = Vec::new(alloc);
    for e in es {
        let e = copy_type(alloc, e)?;
        made.push(e)?;
    }
    Ok(made)
}

#[tactic(auto, using(crate::proofs::TypeForms::type_forms))]
#[cycle(copy_type)]
fn copy_index(alloc: Global, bracket: &IndexTypes) -> Result<IndexTypes, AllocError>
    ensures { IfOk result (λ b. index_view b ≡ index_view bracket.now) }
{
    let indices = copy_types(alloc, &bracket.indices)?;
    Ok(IndexTypes {
        pos: bracket.pos,
        indices,
    })
}

#[tactic(auto, using(crate::proofs::TypeForms::type_forms))]
#[cycle(copy_type)]
fn copy_indices(alloc: Global, brackets: &[IndexTypes]) -> Result<Vec<IndexTypes>, AllocError>
    ensures { IfOk result (λ made. map index_view made.items ≡ map index_view brackets.now) }
{
    let mut made = Vec::new(alloc);
    for b in brackets {
        let b = copy_index(alloc, b)?;
        made.push(b)?;
    }
    Ok(made)
}
