//! The numbers of candidates, by name.
ghost use Rattle.std.specs.Prelude.{◌≡◌, cond, length, map, List, ℕ, Some, IfOk, OnOk};
ghost use Rattle.std.specs.Str.{bytes_eq};
ghost use Rattle.bg_text.specs.Views.{id_of};
ghost use Rattle.bg_accept.specs.Names.{number_in};
ghost use Rattle.bg_accept.specs.Numbers.{found, AreNumbers};

use bg_text::Name;
use indexmap::IndexMap;
use std::alloc::{AllocError, Global};

/// The number of the first candidate of each name.
#[derive(Drop)]
pub struct Numbers<'a> {
    candidates: &'a [Name],
    table: IndexMap<&'a [u8], usize>,
    ghost firsts: { AreNumbers candidates.now table.entries },
}

/// Gives a name this number.
fn add<'a>(
    table: &mut IndexMap<&'a [u8], usize>,
    name: &'a Name,
    number: usize,
) -> Result<(), AllocError>
    ensures { OnOk result ((text : List ℕ) → found text table.new.entries ≡ cond (bytes_eq name.now.text.items text) (Some number) (found text table.old.entries)) }
{
    table.insert(name.text.as_slice(), number)?;
    Ok(())
}

/// The number of the first of each name, the last candidate's first.
fn first_numbers<'a>(
    alloc: Global,
    candidates: &'a [Name],
) -> Result<IndexMap<&'a [u8], usize>, AllocError>
    ensures { IfOk result (λ table. AreNumbers candidates.now table.entries) }
{
    let mut table = IndexMap::new(alloc);
    let mut number = candidates.len();
    while number > 0 {
        number -= 1;
        add(&mut table, &candidates[number], number)?;
    }
    Ok(table)
}

/// The numbers of these candidates.
pub fn numbers_of<'a>(alloc: Global, candidates: &'a [Name]) -> Result<Numbers<'a>, AllocError>
    ensures { IfOk result (λ made. made.candidates.now ≡ candidates.now) }
{
    let table = first_numbers(alloc, candidates)?;
    Ok(Numbers { candidates, table })
}

/// The number of the first candidate of a name; how many there are where none has it.
pub fn number_of(numbers: &Numbers, name: &[u8]) -> u128
    ensures { result ≡ number_in (map id_of numbers.now.candidates.now) name.now }
{
    match numbers.table.get(name) {
        Some(number) => *number as u128,
        None => numbers.candidates.len() as u128,
    }
}
