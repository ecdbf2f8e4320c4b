//! Names.
ghost use Rattle.std.specs.Prelude.{◌≡◌, ◌++◌, OnOk, map};
ghost use Rattle.bg_text.specs.Views.{id_of};
ghost use Rattle.bg_print.specs.Docs.{text, commas};
ghost use Rattle.bg_print.specs.Parts.{id_doc};

use crate::put::put_gap;
use bg_text::Name;
use std::alloc::AllocError;

pub fn put_name(out: &mut Vec<u8>, name: &Name) -> Result<(), AllocError>
    ensures { OnOk result (out.new.items ≡ out.old.items ++ text (id_doc (id_of name.now))) }
{
    out.extend_from_slice(&name.text)
}

/// Names with commas between them.
pub fn put_names(out: &mut Vec<u8>, names: &[Name]) -> Result<(), AllocError>
    ensures { OnOk result (out.new.items ≡ out.old.items ++ text (commas id_doc (map id_of names.now))) }
{
    let mut behind = false;
    for name in names {
        put_gap(out, behind)?;
        put_name(out, name)?;
        behind = true;
    }
    Ok(())
}
