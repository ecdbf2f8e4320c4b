//! The line that is answered.
ghost use Rattle.std.specs.Prelude.{◌≡◌, IfOk};
ghost use Rattle.bg_ast.specs.Views.{program_of};
ghost use Rattle.bg_ast.specs.Resolved as r;
ghost use Rattle.bg_accept.specs.Texts.{answer_text};
ghost use Rattle.bg_accept.specs.Views.{answer_of};
ghost use Rattle.bg_confirm.specs.Accepted.{judged_program};

use bg_accept::Answer;
use bg_ast::resolved::Resolved;
use std::alloc::{AllocError, Global};

/// The line of an answer, by the program that was opened: that the certificate is accepted, or the first reason why not.
///
/// Only want of memory is an error.
pub fn answer_text(
    alloc: Global,
    opened: &Resolved,
    answer: Answer<'_>,
) -> Result<Vec<u8>, AllocError>
    ensures { IfOk result (λ text. (p : r.Program) → program_of opened.now ≡ judged_program p → text.items ≡ answer_text p (answer_of answer.entry)) }
{
    bg_accept::answer_text(alloc, opened, answer)
}
