//! Values.
ghost use Rattle.std.specs.Prelude.{◌≡◌, map, IfOk};
ghost use Rattle.bg_ast.specs.Values.{val_eq};
ghost use Rattle.bg_scalar.specs.Values.{val_of, value_of};
ghost use Rattle.bg_scalar.specs.Maps.{entry_in, entries_eq};

use crate::keys::are_same_keys;
use crate::scalar::Scalar;
use std::alloc::{AllocError, Global};

/// A scalar; or a map: its entries by rising keys, none of which has the default's value, and the default.
#[derive(Drop, PartialEq, Eq, PartialOrd, Ord)]
#[cycle(value)]
pub enum Value {
    Plain(Scalar),
    Map(Vec<Entry>, Box<Value>),
}

/// The value of a map at a key: of each part of an index, its number.
#[derive(Drop, PartialEq, Eq, PartialOrd, Ord)]
#[cycle(value)]
pub struct Entry {
    pub key: Vec<i128>,
    pub value: Value,
}

/// A copy.
#[tactic(auto, using(crate::proofs::Copied::map_copied))]
#[cycle(copy_value)]
pub fn copy(alloc: Global, v: &Value) -> Result<Value, AllocError>
    ensures { IfOk result (λ made. value_of made ≡ value_of v.now) }
{
    match v {
        Value::Plain(s) => Ok(Value::Plain(*s)),
        Value::Map(entries, default) => {
            let entries = copy_all(alloc, entries)?;
            let default = copy(alloc, default)?;
            Ok(Value::Map(entries, Box::new(alloc, default)?))
        }
    }
}

#[tactic(auto, using(crate::proofs::Copied::map_copied))]
#[cycle(copy_value)]
fn copy_all(alloc: Global, entries: &[Entry]) -> Result<Vec<Entry>, AllocError>
    ensures { IfOk result (λ made. map entry_in made.items ≡ map entry_in entries.now) }
{
    let mut made = Vec::new(alloc);
    for e in entries {
        let key = e.key.to_vec(alloc)?;
        let value = copy(alloc, &e.value)?;
        made.push(Entry { key, value })?;
    }
    Ok(made)
}

/// Copies of values, in their order.
pub fn copies(alloc: Global, values: &[Value]) -> Result<Vec<Value>, AllocError>
    ensures { IfOk result (λ made. map value_of made.items ≡ map value_of values.now) }
{
    let mut made = Vec::new(alloc);
    for v in values {
        made.push(copy(alloc, v)?)?;
    }
    Ok(made)
}

/// Whether two scalars are the same.
pub fn same_scalar(a: Scalar, b: Scalar) -> bool
    ensures { result ≡ val_eq (val_of a) (val_of b) }
{
    match (a, b) {
        (Scalar::Truth(true), Scalar::Truth(y)) => y,
        (Scalar::Truth(false), Scalar::Truth(y)) => !y,
        (Scalar::Number(x), Scalar::Number(y)) => x == y,
        (Scalar::Element(t, x), Scalar::Element(u, y)) => t == u && x == y,
        _ => false,
    }
}

/// Whether they are the same: of maps, whether they agree everywhere.
#[tactic(auto, using(crate::proofs::Same::forms))]
#[cycle(same_value)]
pub fn is_same(a: &Value, b: &Value) -> bool
    ensures { result ≡ val_eq (value_of a.now) (value_of b.now) }
{
    match a {
        Value::Plain(x) => match b {
            Value::Plain(y) => same_scalar(*x, *y),
            Value::Map(_, _) => false,
        },
        Value::Map(xs, x) => match b {
            Value::Plain(_) => false,
            Value::Map(ys, y) => are_same(xs, ys) && is_same(x, y),
        },
    }
}

/// Whether entries are the same, one by one.
#[tactic(auto, using(crate::proofs::Same::entries_differ))]
#[cycle(same_value)]
fn are_same(xs: &[Entry], ys: &[Entry]) -> bool
    ensures { result ≡ entries_eq (map entry_in xs.now) (map entry_in ys.now) }
{
    if xs.len() != ys.len() {
        return false;
    }
    for i in 0..xs.len() {
        if !are_same_keys(&xs[i].key, &ys[i].key) || !is_same(&xs[i].value, &ys[i].value) {
            return false;
        }
    }
    true
}
