//! Names in the order of their first declaration, found fast.
ghost use Rattle.std.specs.Prelude.{◌≡◌, ◌<◌, not, [], length, IfOk, IfErr};
ghost use Rattle.bg_names.specs.Spaces.{has_name, with_name, place};
ghost use Rattle.bg_names.specs.Views.{listed};
ghost use Rattle.bg_names.specs.declared.error.ResolveError.TheVariants.{Memory};

use crate::error::ResolveError;
use indexmap::IndexSet;
use std::alloc::Global;

/// Distinct names, in the order of their first declaration.
#[derive(Drop)]
pub struct Names<'a> {
    set: IndexSet<&'a [u8]>,
}

pub fn no_names<'a>(alloc: Global) -> Names<'a>
    ensures { listed result ≡ [] }
{
    Names {
        set: IndexSet::new(alloc),
    }
}

/// The number of a name, from 0.
pub fn place(names: &Names, name: &[u8]) -> Option<usize>
    ensures { result ≡ place (listed names.now) name.now }
{
    names.set.get_index_of(name)
}

/// Whether a name is there.
pub fn has_name(names: &Names, name: &[u8]) -> bool
    ensures { result ≡ has_name (listed names.now) name.now }
{
    names.set.contains(name)
}

/// Adds a name, and says whether it is new.
pub fn add<'a>(names: &mut Names<'a>, name: &'a [u8]) -> Result<bool, ResolveError>
    ensures names { IfOk result (λ _. listed names.new ≡ with_name (listed names.old) name.now) }
    ensures is_new { IfOk result (λ b. b ≡ not (has_name (listed names.old) name.now)) }
    ensures err { IfErr result (λ e. e ≡ Memory) }
{
    let (_, is_new) = names.set.insert_full(name)?;
    Ok(is_new)
}

pub fn len(names: &Names) -> usize
    ensures { result ≡ length (listed names.now) }
{
    names.set.len()
}

/// A number of 32 bits. Errors: Memory, where there are no more of these.
pub fn number(n: usize) -> Result<u32, ResolveError>
    ensures ok { IfOk result (λ k. k ≡ n) }
    ensures err { IfErr result (λ e. e ≡ Memory) }
{
    if n < 4294967296 {
        Ok(n as u32)
    } else {
        Err(ResolveError::Memory)
    }
}
