//! Forms of single numbers and variables.
ghost use Rattle.std.specs.Prelude.{◌≡◌, IfOk};
ghost use Rattle.bg_linear.specs.Lins.{number_form, variable_form};
ghost use Rattle.bg_linear.specs.Views.{lin_of};

use crate::lin::Lin;
use bg_rows::Entry;
use std::alloc::{AllocError, Global};

/// A number alone.
pub fn number(alloc: Global, z: i128) -> Lin
    ensures { lin_of result ≡ number_form z }
{
    Lin {
        entries: Vec::new(alloc),
        constant: z,
    }
}

/// A variable alone.
pub fn variable(alloc: Global, x: u32) -> Result<Lin, AllocError>
    ensures { IfOk result (λ f. lin_of f ≡ variable_form x) }
{
    let mut entries = Vec::new(alloc);
    entries.push(Entry { variable: x, by: 1 })?;
    Ok(Lin {
        entries,
        constant: 0,
    })
}
