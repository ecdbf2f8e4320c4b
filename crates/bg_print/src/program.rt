//! Printing.
ghost use Rattle.std.specs.Prelude.{◌≡◌, IfOk};
ghost use Rattle.bg_text.specs.Views.{decls_of};
ghost use Rattle.bg_print.specs.Printed.{printed};

use crate::decls::put_decls;
use bg_text::Decl;
use std::alloc::{AllocError, Global};

/// The text of a program in the printed layout: each declaration on lines of its own, without blank lines.
/// Comments aren't kept. An error is want of memory.
pub fn print(alloc: Global, decls: &[Decl]) -> Result<Vec<u8>, AllocError>
    ensures { IfOk result (λ text. text.items ≡ printed (decls_of decls.now)) }
{
    let mut out = Vec::new(alloc);
    put_decls(&mut out, decls)?;
    Ok(out)
}
