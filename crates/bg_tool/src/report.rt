//! The text that is written of an outcome.
ghost use Rattle.std.specs.Prelude.{◌≡◌, ◌++◌, ℕ, List, IfOk};
ghost use Rattle.bg_ast.specs.Resolved.{Program};
ghost use Rattle.bg_check.specs.Kept.{why_of};
ghost use Rattle.bg_told.specs.Entries.{IsOf};
ghost use Rattle.bg_told.specs.History.{IsHistory};
ghost use Rattle.bg_tool.specs.Answers.{IsTextFor};

use bg_inference::Outcome;
use bg_told::{history_text, result_text};
use std::alloc::{AllocError, Global};

/// The text, and behind it the history of an outcome.
fn with_history(alloc: Global, text: Vec<u8>, outcome: &Outcome) -> Result<Vec<u8>, AllocError>
    ensures { IfOk result (λ made. (behind : List ℕ) × (made.items ≡ text.items ++ behind) × ((p : Program) → IsOf p outcome.now → IsHistory why_of p outcome.now behind)) }
{
    let mut made = text;
    let history = history_text(alloc, outcome)?;
    made.extend_from_slice(&history)?;
    Ok(made)
}

/// The report of an outcome, and behind it the history where this is asked for.
pub fn text_of(alloc: Global, outcome: &Outcome, history: bool) -> Result<Vec<u8>, AllocError>
    ensures { IfOk result (λ text. (p : Program) → IsOf p outcome.now → IsTextFor history p outcome.now text.items) }
{
    let text = result_text(alloc, outcome)?;
    if !history {
        return Ok(text);
    }
    with_history(alloc, text, outcome)
}
