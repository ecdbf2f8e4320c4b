//! Names of the resolved program.
ghost use Rattle.std.specs.Prelude.{◌≡◌, IfOk, IfErr};
ghost use Rattle.bg_text.specs.Views as v;
ghost use Rattle.bg_names.specs.declared.error.ResolveError.TheVariants.{Memory};

use crate::error::ResolveError;
use bg_text::Name;
use std::alloc::Global;

/// A name of its own.
pub fn copy_name(alloc: Global, name: &Name) -> Result<Name, ResolveError>
    ensures ok { IfOk result (λ x. v.id_of x ≡ v.id_of name.now) }
    ensures err { IfErr result (λ e. e ≡ Memory) }
{
    let text = Vec::from_slice(alloc, &name.text)?;
    Ok(Name {
        pos: name.pos,
        text,
    })
}
