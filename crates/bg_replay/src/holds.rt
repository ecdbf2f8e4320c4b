//! The types of variables, and values of a type.
ghost use Rattle.std.specs.Prelude.{◌≡◌, List, ◌∷◌, map};
ghost use Rattle.bg_ast.specs.Values.{is_of};
ghost use Rattle.bg_kinds.specs.Views.{base_of, ref_in, ref_of};
ghost use Rattle.bg_scalar.specs.Values.{val_of, value_of};
ghost use Rattle.bg_scalar.specs.Maps.{entry_in};
ghost use Rattle.bg_ast.specs.Execution as run;
ghost use Rattle.bg_scalar.specs.Choices.{choice_of};
ghost use Rattle.bg_scalar.specs.Views.{lent_at};
ghost use Rattle.bg_replay.specs.Holds.{type_at, is_below, key_at, is_fit, are_entries};
ghost use Rattle.bg_replay.specs.Acts.{taken};

use bg_fits::base_in;
use bg_kinds::{Base, TypeRef, ValueType, plain};
use bg_scalar::{Choice, Entry, Scalar, Value, is_before, is_same};

/// The type of the variable with this number; one that isn't declared is a whole number.
pub fn type_at(kinds: &[ValueType], k: u32) -> TypeRef<'_>
    ensures { ref_of result ≡ type_at (map ref_in kinds.now) k }
{
    match kinds.get(k as usize) {
        Some(t) => t.as_ref(),
        None => plain(Base::Int),
    }
}

/// Whether a scalar is one of this type, which is no map.
fn is_in(base: Base, x: Scalar) -> bool
    ensures { result ≡ is_of (base_of base) (val_of x) }
{
    match (base, x) {
        (Base::Bool, Scalar::Truth(_)) => true,
        (Base::Int, Scalar::Number(_)) => true,
        (Base::User(k), Scalar::Element(t, _)) => k == t,
        _ => false,
    }
}

/// Whether a scalar is one of this type.
fn is_plain_of(t: TypeRef<'_>, x: Scalar) -> bool
    ensures { result ≡ is_of (ref_of t.entry) (val_of x) }
{
    match base_in(t) {
        None => false,
        Some(base) => is_in(base, x),
    }
}

/// Whether a key stands before that of the next entry, if there is one.
fn is_next(next: Option<&Entry>, key: &[i128]) -> bool
    ensures { result ≡ is_below key.now (key_at next.entry) }
{
    match next {
        None => true,
        Some(e) => is_before(key, &e.key),
    }
}

/// Whether a value is one of this type; a map is in normal form: keys rise, and no entry has the default's value.
#[cycle(is_of)]
pub fn is_of(x: &Value, t: TypeRef<'_>) -> bool
    ensures { result ≡ is_of (ref_of t.entry) (value_of x.now) }
{
    match x {
        Value::Plain(s) => is_plain_of(t, *s),
        Value::Map(entries, default) => match t.maps.split_first() {
            None => false,
            Some((keys, maps)) => {
                let inner = TypeRef { maps, base: t.base };
                is_of(default, inner) && are_entries(entries, default, keys.keys.len(), inner)
            }
        },
    }
}

/// Whether an entry may stand before the next one in a map with this default, whose keys have this many parts and whose values are of
/// this type.
#[cycle(is_of)]
fn is_fit(e: &Entry, default: &Value, parts: usize, t: TypeRef<'_>, next: Option<&Entry>) -> bool
    ensures { result ≡ is_fit parts (ref_of t.entry) (value_of default.now) (entry_in e.now) (key_at next.entry) }
{
    parts == e.key.len()
        && is_of(&e.value, t)
        && !is_same(&e.value, default)
        && is_next(next, &e.key)
}

/// Whether entries are those of a map with this default: each has a key of this many parts and a value of this type.
#[cycle(is_of)]
fn are_entries(entries: &[Entry], default: &Value, parts: usize, t: TypeRef<'_>) -> bool
    ensures { result ≡ are_entries parts (ref_of t.entry) (value_of default.now) (map entry_in entries.now) }
{
    for (i, e) in entries.iter().enumerate() {
        if !is_fit(e, default, parts, t, entries.get(i + 1)) {
            return false;
        }
    }
    true
}

/// The value of this choice, where it is of this type.
pub fn typed_value<'c>(t: TypeRef<'_>, choice: &'c Choice) -> Option<&'c Value>
    ensures { (rest : List run.Choice) → lent_at result ≡ taken (ref_of t.entry) (choice_of choice.now ∷ rest) }
{
    match choice {
        Choice::Branch(_) => None,
        Choice::Chosen(x) => { if is_of(x, t) { Some(x) } else { None } }
    }
}
