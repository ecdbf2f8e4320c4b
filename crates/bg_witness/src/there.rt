//! Lines that name what is there.
ghost use Rattle.std.specs.Prelude.{◌≡◌, ℕ, true, IfOk};
ghost use Rattle.bg_ast.specs.Views.{program_of};
ghost use Rattle.bg_term_table.specs.Lines.{lines_of};
ghost use Rattle.bg_task.specs.Lines.{AreThere};

use bg_ast::resolved::Resolved;
use bg_task::{Prepared, begun, grow};
use bg_term_table::Line;
use std::alloc::{AllocError, Global};

/// Whether each line names what is there, over the terms with those that the ones before it bring.
pub fn are_there(
    alloc: Global,
    program: &Resolved,
    prepared: &Prepared<'_>,
    lines: &[Line],
) -> Result<bool, AllocError>
    ensures { IfOk result (λ b. b ≡ true → (number : ℕ) → AreThere (program_of program.now) number prepared.now (lines_of lines.now)) }
{
    let mut grown = begun(alloc, program, prepared)?;
    for line in lines {
        if !grow(alloc, &mut grown, *line)? {
            return Ok(false);
        }
    }
    Ok(true)
}
