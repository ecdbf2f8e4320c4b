//! When heads of terms are one, and what they are looked up by.
ghost use Rattle.std.specs.Prelude.{◌≡◌, ◌&&◌, map};
ghost use Rattle.bg_sense.specs.Types.{key_eq, key_types_eq, ty_eq};
ghost use Rattle.bg_terms.specs.Terms.{head_eq};
ghost use Rattle.bg_terms.specs.Instances.{accesses};
ghost use Rattle.bg_kinds.specs.Views.{key_of, keys_of, ref_in};
ghost use Rattle.bg_term_table.specs.Views.{head_of};
ghost use Rattle.bg_term_table.specs.Keys.{kind_in};

use crate::kind::Kind;
use crate::table::Head;
use bg_kinds::{IndexType, Keys, ValueType, is_same_type};

fn is_same_key(a: IndexType, b: IndexType) -> bool
    ensures { result ≡ key_eq (key_of a) (key_of b) }
{
    match (a, b) {
        (IndexType::Int, IndexType::Int) => true,
        (IndexType::User(t), IndexType::User(u)) => t == u,
        _ => false,
    }
}

#[tactic(auto, using(bg_kinds::proofs::Types::keys_differ))]
pub fn are_same_keys(a: &[IndexType], b: &[IndexType]) -> bool
    ensures { result ≡ key_types_eq (map key_of a.now) (map key_of b.now) }
{
    if a.len() != b.len() {
        return false;
    }
    for i in 0..a.len() {
        if !is_same_key(a[i], b[i]) {
            return false;
        }
    }
    true
}

/// Whether index types and result types are the same.
pub fn are_same_maps(a: &Keys, t: &ValueType, b: &Keys, u: &ValueType) -> bool
    ensures { result ≡ (key_types_eq (keys_of a.now) (keys_of b.now) && ty_eq (ref_in t.now) (ref_in u.now)) }
{
    are_same_keys(&a.keys, &b.keys) && is_same_type(t.as_ref(), u.as_ref())
}

/// Whether two heads are one.
pub fn is_one_head(h: &Head, k: &Head) -> bool
    ensures { result ≡ head_eq (head_of h.now) (head_of k.now) }
{
    match h {
        Head::Function(f) => match k {
            Head::Function(g) => f == g,
            Head::Selects(_, _) => false,
            Head::Updates(_, _) => false,
            Head::Differs(_, _, _) => false,
        },
        Head::Selects(a, t) => match k {
            Head::Function(_) => false,
            Head::Selects(b, u) => are_same_maps(a, t, b, u),
            Head::Updates(_, _) => false,
            Head::Differs(_, _, _) => false,
        },
        Head::Updates(a, t) => match k {
            Head::Function(_) => false,
            Head::Selects(_, _) => false,
            Head::Updates(b, u) => are_same_maps(a, t, b, u),
            Head::Differs(_, _, _) => false,
        },
        Head::Differs(a, t, i) => match k {
            Head::Function(_) => false,
            Head::Selects(_, _) => false,
            Head::Updates(_, _) => false,
            Head::Differs(b, u, j) => are_same_maps(a, t, b, u) && i == j,
        },
    }
}

/// Whether they are an update, and a select of maps of its type.
pub fn accesses(h: &Head, k: &Head) -> bool
    ensures { result ≡ accesses (head_of h.now) (head_of k.now) }
{
    match h {
        Head::Function(_) => false,
        Head::Selects(_, _) => false,
        Head::Updates(a, t) => match k {
            Head::Function(_) => false,
            Head::Selects(b, u) => are_same_maps(a, t, b, u),
            Head::Updates(_, _) => false,
            Head::Differs(_, _, _) => false,
        },
        Head::Differs(_, _, _) => false,
    }
}

/// What makes a term, but for the types of maps.
pub fn kind(head: &Head) -> Kind
    ensures { result ≡ kind_in head.now }
{
    match head {
        Head::Function(f) => Kind::Function(*f),
        Head::Selects(_, _) => Kind::Select,
        Head::Updates(_, _) => Kind::Update,
        Head::Differs(_, _, j) => Kind::Part(*j),
    }
}
