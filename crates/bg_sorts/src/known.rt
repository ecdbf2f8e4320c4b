//! The types of variables.
ghost use Rattle.std.specs.Prelude.{◌≡◌, ◌++◌, map, slice_get, OnOk};
ghost use Rattle.bg_ast.specs.Views.{var_of, target_of};
ghost use Rattle.bg_kinds.specs.Views.{ref_in, ref_of};
ghost use Rattle.bg_blocks.specs.Views.{target_variable};
ghost use Rattle.bg_sorts.specs.Sorts.{type_or};
ghost use Rattle.bg_sorts.specs.Views.{types_in};

use bg_ast::resolved::{Resolved, Target, Variable};
use bg_fits::kind_copied;
use bg_kinds::{Base, TypeRef, ValueType, plain};
use std::alloc::{AllocError, Global};

/// A program, and the types of its globals and of the variables of a frame.
#[derive(Clone, Copy)]
pub struct Known<'s> {
    pub program: &'s Resolved,
    pub globals: &'s [ValueType],
    pub frame: &'s [ValueType],
}

fn type_at(kinds: &[ValueType], k: u32) -> TypeRef<'_>
    ensures { ref_of result ≡ type_or (slice_get (map ref_in kinds.now) k) }
{
    match kinds.get(k as usize) {
        Some(t) => t.as_ref(),
        None => plain(Base::Int),
    }
}

/// The type of a variable.
fn type_of<'s>(known: &Known<'s>, x: Variable) -> TypeRef<'s>
    ensures { ref_of result ≡ types_in known.now (var_of x) }
{
    match x {
        Variable::Global(k) => type_at(known.globals, k),
        Variable::Local(k) => type_at(known.frame, k),
    }
}

/// Adds the type of each of these variables.
pub fn push_variables(
    alloc: Global,
    made: &mut Vec<ValueType>,
    known: &Known<'_>,
    xs: &[Variable],
) -> Result<(), AllocError>
    ensures { OnOk result (map ref_in made.new.items ≡ map ref_in made.old.items ++ map (types_in known.now) (map var_of xs.now)) }
{
    for x in xs {
        made.push(kind_copied(alloc, type_of(known, *x))?)?;
    }
    Ok(())
}

/// Adds the type of each variable that is assigned.
pub fn push_targets(
    alloc: Global,
    made: &mut Vec<ValueType>,
    known: &Known<'_>,
    targets: &[Target],
) -> Result<(), AllocError>
    ensures { OnOk result (map ref_in made.new.items ≡ map ref_in made.old.items ++ map (types_in known.now) (map target_variable (map target_of targets.now))) }
{
    for t in targets {
        made.push(kind_copied(alloc, type_of(known, t.placed.variable))?)?;
    }
    Ok(())
}
