//! Where blocks lead, and what is chosen there.
ghost use Rattle.std.specs.Prelude.{◌≡◌, [], ◌∷◌, ◌++◌, List, map, slice_get, IfOk, OnOk};
ghost use Rattle.bg_ast.specs.Values.{Val};
ghost use Rattle.bg_ast.specs.Execution as e;
ghost use Rattle.bg_flow.specs.Blocks.{Leap};
ghost use Rattle.bg_passive.specs.Incarnations.{targets_of};
ghost use Rattle.bg_passive.specs.ReadBack.{exit_choices};
ghost use Rattle.bg_blocks.specs.Views.{exit_of};
ghost use Rattle.bg_model.specs.Picks.{choice_by};

use crate::pick::Pick;
use bg_ast::resolved::Guard;
use bg_blocks::Exit;
use std::alloc::AllocError;

/// The number of a branch; 2^32 of them count as want of memory.
fn branch(j: usize) -> Result<Pick, AllocError>
    ensures { IfOk result (λ made. (vs : List Val) → choice_by vs made ≡ e.Branch j) }
{
    match u32::try_from(j) {
        Ok(k) => Ok(Pick::Branch(k)),
        Err(_) => Err(AllocError),
    }
}

/// One of two.
fn side(on: usize, off: usize, j: usize) -> Option<usize>
    ensures { result ≡ slice_get (on ∷ off ∷ []) j }
{
    match j {
        0 => Some(on),
        1 => Some(off),
        _ => None,
    }
}

/// Adds the branch of a jump, where it names several blocks, and gives the one that is taken.
fn leap(made: &mut Vec<Pick>, ks: &[usize], j: usize) -> Result<Option<usize>, AllocError>
    ensures to { IfOk result (λ to. to ≡ slice_get (targets_of (Leap ks.now)) j) }
    ensures made { OnOk result ((vs : List Val) → map (choice_by vs) made.new.items ≡ map (choice_by vs) made.old.items ++ exit_choices (Leap ks.now) j) }
{
    match ks.split_first() {
        None => Ok(if j == 0 { Some(0) } else { None }),
        Some((_, more)) => {
            if !more.is_empty() {
                let b = branch(j)?;
                made.push(b)?;
            }
            Ok(ks.get(j).copied())
        }
    }
}

/// Adds the branch, where the exit has a choice, and gives the block that it leads to by its edge of this number.
pub fn exit(made: &mut Vec<Pick>, x: &Exit<'_>, j: usize) -> Result<Option<usize>, AllocError>
    ensures to { IfOk result (λ to. to ≡ slice_get (targets_of (exit_of x.now)) j) }
    ensures made { OnOk result ((vs : List Val) → map (choice_by vs) made.new.items ≡ map (choice_by vs) made.old.items ++ exit_choices (exit_of x.now) j) }
{
    match x {
        Exit::Leap(ks) => leap(made, ks, j),
        Exit::Either(Guard::Star, on, off) => {
            let b = branch(j)?;
            made.push(b)?;
            Ok(side(*on, *off, j))
        }
        Exit::Either(Guard::Test(_), on, off) => Ok(side(*on, *off, j)),
    }
}
