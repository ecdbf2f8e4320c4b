//! What commands say.
ghost use Rattle.std.specs.Prelude.{◌≡◌, IfOk};
ghost use Rattle.bg_forms.specs.Views.{form_in};
ghost use Rattle.bg_formed.specs.Formed.{said};
ghost use Rattle.bg_formed.specs.Views.{says_of};

use crate::blocks::Says;
use bg_forms::{Form, copy};
use std::alloc::{AllocError, Global};

/// The form that is said; where none could be made, nothing is said.
pub fn said(alloc: Global, r: &Says) -> Result<Form, AllocError>
    ensures { IfOk result (λ x. form_in x ≡ said (says_of r.now)) }
{
    match r {
        Says::Form(f) => copy(alloc, f),
        Says::Outside(_) => Ok(Form::Plain(false)),
    }
}
