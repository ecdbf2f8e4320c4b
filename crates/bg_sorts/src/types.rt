//! The types of declared variables.
ghost use Rattle.std.specs.Prelude.{◌≡◌, ◌++◌, map, IfOk};
ghost use Rattle.bg_ast.specs.Meaning.{named_of, decl_of};
ghost use Rattle.bg_ast.specs.Views.{type_name_of, declared_of};
ghost use Rattle.bg_sense.specs.Types.{types_of};
ghost use Rattle.bg_kinds.specs.Views.{ref_in};

use bg_ast::resolved::{Declared, Implementation, Procedure, TypeName};
use bg_fits::push_kinds;
use bg_kinds::ValueType;
use std::alloc::{AllocError, Global};

/// The type of each declared variable, where these types are declared.
///
/// Only want of memory is an error.
pub fn declared_kinds(
    alloc: Global,
    types: &[TypeName],
    declared: &[Declared],
) -> Result<Vec<ValueType>, AllocError>
    ensures { IfOk result (λ made. map ref_in made.items ≡ types_of (map (decl_of (named_of (map type_name_of types.now))) (map declared_of declared.now))) }
{
    let mut made = Vec::new(alloc);
    push_kinds(alloc, types, declared, &mut made)?;
    Ok(made)
}

/// The types of the variables of a frame: the parameters and results of a procedure, and the locals of its implementation.
///
/// Only want of memory is an error.
pub fn frame_kinds(
    alloc: Global,
    types: &[TypeName],
    q: &Procedure,
    m: &Implementation,
) -> Result<Vec<ValueType>, AllocError>
    ensures { IfOk result (λ made. map ref_in made.items ≡ types_of (map (decl_of (named_of (map type_name_of types.now))) (map declared_of q.now.params.items ++ (map declared_of q.now.results.items ++ map declared_of m.now.locals.items)))) }
{
    let mut made = declared_kinds(alloc, types, &q.params)?;
    push_kinds(alloc, types, &q.results, &mut made)?;
    push_kinds(alloc, types, &m.locals, &mut made)?;
    Ok(made)
}
