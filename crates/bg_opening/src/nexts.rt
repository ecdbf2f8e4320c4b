//! Of each unique constant the next whose type has the same code.
ghost use Rattle.std.specs.Prelude.{◌≡◌, ◌<◌, ◌-◌, None, Some, length, get_or, map, unwrap_or, IfOk, OnOk};
ghost use Rattle.bg_kinds.specs.Views.{key_of, keys_of, base_of, ref_of};
ghost use Rattle.bg_opening.specs.Nexts.{mixed, key_code, keys_code, type_code, code_of, kept, set_to, AreNexts};

use crate::uniques::Unique;
use bg_kinds::{Base, IndexType, Keys, TypeRef};
use std::alloc::{AllocError, Global};
use std::collections::BTreeMap;

/// What codes are multiplied with: odd, and far from a power of two.
const FACTOR: u64 = 6364136223846793005;

/// A code with a number more.
fn mixed(code: u64, number: u64) -> u64
    ensures { result ≡ mixed code number }
{
    code.wrapping_mul(FACTOR).wrapping_add(number)
}

/// A code with an index type more.
fn key_code(code: u64, key: IndexType) -> u64
    ensures { result ≡ key_code code (key_of key) }
{
    match key {
        IndexType::Int => mixed(code, 0),
        IndexType::User(u) => mixed(mixed(code, 1), u as u64),
    }
}

/// A code with the index types of a bracket.
fn keys_code(code: u64, row: &Keys) -> u64
    ensures { result ≡ keys_code code (keys_of row.now) }
{
    let mut made = code;
    for key in &row.keys {
        made = key_code(made, *key);
    }
    mixed(made, 2)
}

/// A code with a type that is no map.
fn base_code(code: u64, base: Base) -> u64
    ensures { result ≡ type_code code (base_of base) }
{
    match base {
        Base::Int => mixed(code, 3),
        Base::Bool => mixed(code, 4),
        Base::User(u) => mixed(mixed(code, 5), u as u64),
    }
}

/// The code of a type.
fn type_code(t: TypeRef<'_>) -> u64
    ensures { result ≡ type_code 0 (ref_of t.entry) }
{
    let mut made = 0u64;
    for row in t.maps {
        made = keys_code(made, row);
    }
    base_code(made, t.base)
}

/// The first of the places that were seen, at each code.
#[derive(Drop)]
pub struct Later {
    pub at: BTreeMap<u64, usize>,
}

impl Later {
    /// No place was seen.
    fn new(alloc: Global) -> Later
        ensures { kept result ≡ (λ k. None) }
    {
        Later {
            at: BTreeMap::new(alloc),
        }
    }

    /// The place at a code, or else the one behind all.
    fn at(&self, code: u64, all: usize) -> usize
        ensures { result ≡ unwrap_or (kept self.now code) all }
    {
        match self.at.get(&code) {
            Some(place) => *place,
            None => all,
        }
    }

    /// Keeps a place.
    fn put(&mut self, code: u64, place: usize) -> Result<(), AllocError>
        ensures { OnOk result (kept self.new ≡ set_to code (Some place) (kept self.old)) }
    {
        self.at.insert(code, place)?;
        Ok(())
    }
}

/// The next place of each, from the last place on. Time is that of looking up each code once.
///
/// Only want of memory is an error.
pub fn nexts_of(alloc: Global, told: &[Unique]) -> Result<Vec<usize>, AllocError>
    ensures { IfOk result (λ made. AreNexts (map code_of told.now) made.items) }
{
    let mut later = Later::new(alloc);
    let mut made = Vec::new(alloc);
    for done in 0..told.len() {
        let place = told.len() - 1 - done;
        let code = type_code(told[place].kind.as_ref());
        made.push(later.at(code, told.len()))?;
        later.put(code, place)?;
    }
    Ok(made)
}

/// The place next to this one.
pub fn next_of(nexts: &[usize], place: usize) -> usize
    requires { place < length nexts.now }
    ensures { result ≡ get_or nexts.now ((length nexts.now - 1) - place) 0 }
{
    nexts[nexts.len() - 1 - place]
}
