//! Types.
ghost use Rattle.std.specs.Prelude.{◌≡◌, ◌++◌, OnOk};
ghost use Rattle.bg_print.specs.Docs.{text, each, commas};
ghost use Rattle.bg_print.specs.Rows.{tree_type_doc, type_bracket_doc};

use crate::put::put_gap;
use bg_text::{TreeType, TypeBracket};
use std::alloc::AllocError;

#[cycle(print_type)]
pub fn put_type(out: &mut Vec<u8>, ty: &TreeType) -> Result<(), AllocError>
    ensures { OnOk result (out.new.items ≡ out.old.items ++ text (tree_type_doc ty.now)) }
{
    match ty {
        TreeType::Int(_) => out.extend_from_slice(b"int"),
        TreeType::Bool(_) => out.extend_from_slice(b"bool"),
        TreeType::Named(name) => out.extend_from_slice(&name.text),
        TreeType::Parens(_, ty) => {
            out.extend_from_slice(b"(")?;
            put_type(out, ty)?;
            out.extend_from_slice(b")")
        }
        TreeType::Map(brackets, ty) => {
            put_type_brackets(out, brackets)?;
            put_type(out, ty)?;
            Ok(())
        }
    }
}

/// Types with commas between them.
#[cycle(print_type)]
fn put_types(out: &mut Vec<u8>, types: &[TreeType]) -> Result<(), AllocError>
    ensures { OnOk result (out.new.items ≡ out.old.items ++ text (commas tree_type_doc types.now)) }
{
    let mut behind = false;
    for ty in types {
        put_gap(out, behind)?;
        put_type(out, ty)?;
        behind = true;
    }
    Ok(())
}

#[cycle(print_type)]
fn put_type_bracket(out: &mut Vec<u8>, bracket: &TypeBracket) -> Result<(), AllocError>
    ensures { OnOk result (out.new.items ≡ out.old.items ++ text (type_bracket_doc bracket.now)) }
{
    out.extend_from_slice(b"[")?;
    put_types(out, &bracket.indices)?;
    out.extend_from_slice(b"]")
}

#[cycle(print_type)]
fn put_type_brackets(out: &mut Vec<u8>, brackets: &[TypeBracket]) -> Result<(), AllocError>
    ensures { OnOk result (out.new.items ≡ out.old.items ++ text (each type_bracket_doc brackets.now)) }
{
    for bracket in brackets {
        put_type_bracket(out, bracket)?;
    }
    Ok(())
}
