//! The marked variables as a list.
ghost use Rattle.std.specs.Prelude.{◌≡◌, ◌++◌, map, IfOk, OnOk, filter, length};
ghost use Rattle.bg_ast.specs.Syntax as s;
ghost use Rattle.bg_ast.specs.Views.{var_of};
ghost use Rattle.bg_sense.specs.Variables.{count_from};
ghost use Rattle.bg_changes.specs.Marks.{marks_of, has_mark};

use crate::marks::Marks;
use bg_ast::resolved::Variable;
use std::alloc::{AllocError, Global};

/// The number of a variable; 2^32 variables count as want of memory.
fn number(k: usize) -> Result<u32, AllocError>
    ensures { IfOk result (λ n. n ≡ k) }
{
    match u32::try_from(k) {
        Ok(n) => Ok(n),
        Err(_) => Err(AllocError),
    }
}

/// Adds the marked globals, by declaration.
fn push_globals(out: &mut Vec<Variable>, marks: &Marks) -> Result<(), AllocError>
    ensures { OnOk result (map var_of out.new.items ≡ map var_of out.old.items ++ filter (has_mark (marks_of marks.now)) (map s.Global (count_from 0 (length marks.now.globals.items)))) }
{
    for k in 0..marks.globals.len() {
        if marks.globals[k] {
            out.push(Variable::Global(number(k)?))?;
        }
    }
    Ok(())
}

/// Adds the marked variables of the frame, by declaration.
fn push_locals(out: &mut Vec<Variable>, marks: &Marks) -> Result<(), AllocError>
    ensures { OnOk result (map var_of out.new.items ≡ map var_of out.old.items ++ filter (has_mark (marks_of marks.now)) (map s.Local (count_from 0 (length marks.now.frame.items)))) }
{
    for k in 0..marks.frame.len() {
        if marks.frame[k] {
            out.push(Variable::Local(number(k)?))?;
        }
    }
    Ok(())
}

/// The marked variables: globals first, each group by declaration.
pub fn listed(alloc: Global, marks: &Marks) -> Result<Vec<Variable>, AllocError>
    ensures { IfOk result (λ made. map var_of made.items ≡ filter (has_mark (marks_of marks.now)) (map s.Global (count_from 0 (length marks.now.globals.items))) ++ filter (has_mark (marks_of marks.now)) (map s.Local (count_from 0 (length marks.now.frame.items)))) }
{
    let mut made = Vec::new(alloc);
    push_globals(&mut made, marks)?;
    push_locals(&mut made, marks)?;
    Ok(made)
}
