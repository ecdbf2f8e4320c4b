//! Copies of declarations, constants as variables, and functions without a body.
ghost use Rattle.std.specs.Prelude.{◌≡◌, map, IfOk};
ghost use Rattle.bg_text.specs.Views.{id_of, option_of};
ghost use Rattle.bg_ast.specs.Views.{type_of, type_name_of, const_of, declared_of, fun_of};
ghost use Rattle.bg_opened.specs.Written as w;

use crate::types::{copy_type, copy_types};
use bg_ast::resolved::{Constant, Declared, Function, TypeName, WrittenType};
use bg_text::Name;
use std::alloc::{AllocError, Global};

fn copy_name(alloc: Global, name: &Name) -> Result<Name, AllocError>
    ensures { IfOk result (λ x. id_of x ≡ id_of name.now) }
{
    let text = Vec::from_slice(alloc, &name.text)?;
    Ok(Name {
        pos: name.pos,
        text,
    })
}

fn global_for(alloc: Global, c: &Constant) -> Result<Declared, AllocError>
    ensures { IfOk result (λ d. declared_of d ≡ w.global_for (const_of c.now)) }
{
    let name = copy_name(alloc, &c.name)?;
    let ty = copy_type(alloc, &c.ty)?;
    Ok(Declared { name, ty })
}

/// Constants as variables.
pub fn globals_for(alloc: Global, constants: &[Constant]) -> Result<Vec<Declared>, AllocError>
    ensures { IfOk result (λ made. map declared_of made.items ≡ map w.global_for (map const_of constants.now)) }
{
    let mut made = Vec::new(alloc);
    for c in constants {
        let c = global_for(alloc, c)?;
        made.push(c)?;
    }
    Ok(made)
}

fn bodiless(alloc: Global, f: &Function) -> Result<Function, AllocError>
    ensures { IfOk result (λ x. fun_of x ≡ w.bodiless (fun_of f.now)) }
{
    let name = copy_name(alloc, &f.name)?;
    let params = copy_types(alloc, &f.params)?;
    let result = copy_type(alloc, &f.result)?;
    Ok(Function {
        name,
        params,
        result,
        body: None,
    })
}

/// Functions without their bodies.
pub fn functions_for(alloc: Global, functions: &[Function]) -> Result<Vec<Function>, AllocError>
    ensures { IfOk result (λ made. map fun_of made.items ≡ map w.bodiless (map fun_of functions.now)) }
{
    let mut made = Vec::new(alloc);
    for f in functions {
        let f = bodiless(alloc, f)?;
        made.push(f)?;
    }
    Ok(made)
}

fn copy_synonym(alloc: Global, t: &Option<WrittenType>) -> Result<Option<WrittenType>, AllocError>
    ensures { IfOk result (λ x. option_of type_of x ≡ option_of type_of t.now) }
{
    match t {
        None => Ok(None),
        Some(t) => Ok(Some(copy_type(alloc, t)?)),
    }
}

fn copy_type_name(alloc: Global, t: &TypeName) -> Result<TypeName, AllocError>
    ensures { IfOk result (λ x. type_name_of x ≡ type_name_of t.now) }
{
    let name = copy_name(alloc, &t.name)?;
    let synonym = copy_synonym(alloc, &t.synonym)?;
    Ok(TypeName { name, synonym })
}

/// The same declarations of types.
pub fn copy_type_names(alloc: Global, ts: &[TypeName]) -> Result<Vec<TypeName>, AllocError>
    ensures { IfOk result (λ made. map type_name_of made.items ≡ map type_name_of ts.now) }
{
    let mut made = Vec::new(alloc);
    for t in ts {
        let t = copy_type_name(alloc, t)?;
        made.push(t)?;
    }
    Ok(made)
}
