//! What lines say in front of a first block.
ghost use Rattle.std.specs.Prelude.{◌≡◌, length, ◌+◌, IfOk};
ghost use Rattle.bg_numbered.specs.Lines.{instances_in, said_by};
ghost use Rattle.bg_term_table.specs.Lines.{line_of, lines_of};

use bg_term_table::Line;
use std::alloc::AllocError;

/// How many of these and one more, if a line is an instance; more than a number holds are more than memory holds.
fn with_one(n: usize, line: Line) -> Result<usize, AllocError>
    ensures { IfOk result (λ k. k ≡ n + length (said_by (line_of line))) }
{
    match line {
        Line::Pick(_, _) => Ok(n),
        Line::Names(_, _) => Ok(n),
        _ => match n.checked_add(1) {
            Some(k) => Ok(k),
            None => Err(AllocError),
        },
    }
}

/// How many of these lines are instances.
pub fn many_said(lines: &[Line]) -> Result<usize, AllocError>
    ensures { IfOk result (λ n. n ≡ length (instances_in (lines_of lines.now))) }
{
    let mut n = 0;
    for line in lines {
        n = with_one(n, *line)?;
    }
    Ok(n)
}
