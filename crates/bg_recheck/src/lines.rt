//! The line of a refused certificate.
ghost use Rattle.std.specs.Prelude.{◌≡◌, IfOk};
ghost use Rattle.bg_recheck.specs.Refusals.{BadLine, cert_line};

use bg_lines::put_number;
use std::alloc::{AllocError, Global};

/// The line that says where a certificate's text is against the grammar.
pub(crate) fn bad_line(alloc: Global, n: usize) -> Result<Vec<u8>, AllocError>
    ensures { IfOk result (λ made. made.items ≡ cert_line (BadLine n)) }
{
    let mut made = Vec::new(alloc);
    made.extend_from_slice(b"error: certificate line ")?;
    put_number(&mut made, n as u128)?;
    made.push(b'\n')?;
    Ok(made)
}
