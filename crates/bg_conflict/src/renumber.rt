//! Derivations from picked rows, as derivations from those they were picked from.
ghost use Rattle.std.specs.Prelude.{◌≡◌, [], true, false, List, map, IfOk};
ghost use Rattle.bg_rows.specs.Rows.{RowOf};
ghost use Rattle.bg_rows.specs.Steps.{derives};
ghost use Rattle.bg_conflict.specs.Picked.{ArePicked, renumbered};

use bg_rows::Step;
use std::alloc::{AllocError, Global};

/// A step that names a row by its place among the numbers, with the number that stands there.
fn with_number(step: Step, numbers: &[usize]) -> Step
    ensures { result ≡ renumbered numbers.now step }
{
    match step {
        Step::Path(k) => {
            if k < numbers.len() as u128 {
                Step::Path(numbers[k as usize] as u128)
            } else {
                step
            }
        }
        _ => step,
    }
}

/// The steps, where each row of the path is named by the number at its place; one that has no
/// number is named as before. Only want of memory is an error.
pub fn renumbered(alloc: Global, steps: &[Step], numbers: &[usize]) -> Result<Vec<Step>, AllocError>
    ensures { IfOk result (λ made. (given picked : List RowOf) → ArePicked given numbers.now picked → derives picked [] false steps.now ≡ true → derives given [] false made.items ≡ true) }
{
    let mut made = Vec::new(alloc);
    for step in steps {
        made.push(with_number(*step, numbers))?;
    }
    Ok(made)
}
