//! Values and choices, written as literals.
use bg_scalar::{Choice, Entry, Scalar, Value};
use std::alloc::{AllocError, Global};

/// A value. A map is one from whole numbers, with these entries in this order and the default 0.
#[derive(Clone, Copy)]
pub enum Literal {
    Truth(bool),
    Number(i128),
    Element(u32, i128),
    Map(&'static [(i128, i128)]),
}

/// The number of a branch, or a value.
#[derive(Clone, Copy)]
pub enum Taken {
    Branch(u32),
    Chosen(Literal),
}

fn entry(alloc: Global, key: i128, value: i128) -> Result<Entry, AllocError> {
    let mut keys = Vec::new(alloc);
    keys.push(key)?;
    Ok(Entry {
        key: keys,
        value: Value::Plain(Scalar::Number(value)),
    })
}

pub fn value(alloc: Global, literal: Literal) -> Result<Value, AllocError> {
    match literal {
        Literal::Truth(b) => Ok(Value::Plain(Scalar::Truth(b))),
        Literal::Number(z) => Ok(Value::Plain(Scalar::Number(z))),
        Literal::Element(t, z) => Ok(Value::Plain(Scalar::Element(t, z))),
        Literal::Map(items) => {
            let mut entries = Vec::new(alloc);
            for (key, value) in items {
                entries.push(entry(alloc, *key, *value)?)?;
            }
            let default = Value::Plain(Scalar::Number(0));
            Ok(Value::Map(entries, Box::new(alloc, default)?))
        }
    }
}

pub fn values(alloc: Global, literals: &[Literal]) -> Result<Vec<Value>, AllocError> {
    let mut made = Vec::new(alloc);
    for literal in literals {
        made.push(value(alloc, *literal)?)?;
    }
    Ok(made)
}

pub fn choice(alloc: Global, taken: Taken) -> Result<Choice, AllocError> {
    match taken {
        Taken::Branch(k) => Ok(Choice::Branch(k)),
        Taken::Chosen(literal) => Ok(Choice::Chosen(value(alloc, literal)?)),
    }
}

/// Whether the choice is this one.
pub fn is_taken(alloc: Global, choice: &Choice, taken: Taken) -> Result<bool, AllocError> {
    match (choice, taken) {
        (Choice::Branch(j), Taken::Branch(k)) => Ok(*j == k),
        (Choice::Chosen(x), Taken::Chosen(literal)) => Ok(*x == value(alloc, literal)?),
        _ => Ok(false),
    }
}
