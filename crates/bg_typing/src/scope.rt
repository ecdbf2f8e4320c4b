//! What names mean.
ghost use Rattle.std.specs.Prelude.{◌≡◌, slice_get};
ghost use Rattle.bg_ast.specs.Views.{var_of};
ghost use Rattle.bg_typing.specs.Sides.{kind_at, variable_kind};
ghost use Rattle.bg_kinds.specs.KindViews.{kind_of, kinds_in};
ghost use Rattle.bg_typing.specs.SideViews.{scope_of};

use bg_ast::resolved::Variable;
use bg_kinds::{TypeRef, ValueType, kind_ref};

/// The types of a function or a procedure; one that is faulty is none.
#[derive(Drop)]
pub struct Shape {
    pub params: Vec<Option<ValueType>>,
    pub results: Vec<Option<ValueType>>,
}

/// The types of constants, globals, the frame, functions and procedures, by their numbers.
#[derive(Clone, Copy)]
pub struct Scope<'a> {
    pub constants: &'a [Option<ValueType>],
    pub globals: &'a [Option<ValueType>],
    pub frame: &'a [Option<ValueType>],
    pub functions: &'a [Shape],
    pub procedures: &'a [Shape],
}

/// The type with this number.
pub fn kind_at(kinds: &[Option<ValueType>], k: u32) -> Option<TypeRef<'_>>
    ensures { kind_of result ≡ kind_at (kinds_in kinds.now) k }
{
    match kinds.get(k as usize) {
        None => None,
        Some(kind) => kind_ref(kind),
    }
}

pub fn variable_kind<'a>(g: Scope<'a>, x: Variable) -> Option<TypeRef<'a>>
    ensures { kind_of result ≡ variable_kind (scope_of g.entry) (var_of x) }
{
    match x {
        Variable::Global(k) => kind_at(g.globals, k),
        Variable::Local(k) => kind_at(g.frame, k),
    }
}
