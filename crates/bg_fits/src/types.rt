//! Types that are no maps: what written types stand for, as far as that goes.
ghost use Rattle.std.specs.Prelude.{◌≡◌, ℕ, map, slice_get, if◌then◌else◌, None};
ghost use Rattle.bg_ast.specs.Values as v;
ghost use Rattle.bg_ast.specs.Meaning.{type_in, synonym_or, named_within};
ghost use Rattle.bg_ast.specs.Views.{type_of, type_name_of};
ghost use Rattle.bg_kinds.specs.Views.{ref_of};
ghost use Rattle.bg_fits.specs.Bases.{base_in, IsBase, outside_in};

use bg_ast::resolved::{TypeName, WrittenType};
use bg_kinds::{Base, TypeRef};

/// The type, where it is no map.
pub fn base_in(t: TypeRef<'_>) -> Option<Base>
    ensures base { result ≡ base_in (ref_of t.entry) }
    ensures is { IsBase result (ref_of t.entry) }
{
    if t.maps.is_empty() {
        Some(t.base)
    } else {
        None
    }
}

/// What a type is, perhaps in parentheses: one that is no map, a declared one, or a map.
#[derive(Clone, Copy)]
pub enum Outside {
    Plain(Base),
    Named(u32),
    Map,
}

/// The same, where there is no bracket before it.
fn beside(is_bare: bool, outside: Outside) -> Outside
    ensures { (named : ℕ → v.Ty) → outside_in named result ≡ (if is_bare then outside_in named outside else None) }
{
    if is_bare { outside } else { Outside::Map }
}

/// What a written type is.
#[cycle(outside_of)]
#[tactic(auto, using(crate::proofs::Synonyms::base_map))]
fn outside_of(ty: &WrittenType) -> Outside
    ensures { (named : ℕ → v.Ty) → outside_in named result ≡ base_in (type_in named (type_of ty.now)) }
{
    match ty {
        WrittenType::Bool(_) => Outside::Plain(Base::Bool),
        WrittenType::Int(_) => Outside::Plain(Base::Int),
        WrittenType::Parens(_, inner) => outside_of(inner),
        WrittenType::Declared(_, k) => Outside::Named(*k),
        WrittenType::Map(brackets, inner) => beside(brackets.is_empty(), outside_of(inner)),
    }
}

/// What the type is that is declared with this number.
fn step(types: &[TypeName], k: u32) -> Outside
    ensures { (named : ℕ → v.Ty) → outside_in named result ≡ base_in (synonym_or (v.UserTy k) (type_in named) (slice_get (map type_name_of types.now) k)) }
{
    match types.get(k as usize) {
        None => Outside::Plain(Base::User(k)),
        Some(d) => match &d.synonym {
            None => Outside::Plain(Base::User(k)),
            Some(ty) => outside_of(ty),
        },
    }
}

/// The type that a declared one stands for with synonyms unfolded at most so often, where it is no map.
fn named_base(types: &[TypeName], left: usize, k: u32) -> Option<Base>
    ensures { result ≡ base_in (named_within left (map type_name_of types.now) k) }
{
    let mut at = k;
    for _ in 0..left {
        match step(types, at) {
            Outside::Plain(base) => return Some(base),
            Outside::Map => return None,
            Outside::Named(next) => at = next,
        }
    }
    Some(Base::User(at))
}

/// The same of a type as it is written.
pub fn base_within(types: &[TypeName], left: usize, ty: &WrittenType) -> Option<Base>
    ensures { result ≡ base_in (type_in (named_within left (map type_name_of types.now)) (type_of ty.now)) }
{
    match outside_of(ty) {
        Outside::Plain(base) => Some(base),
        Outside::Map => None,
        Outside::Named(k) => named_base(types, left, k),
    }
}
