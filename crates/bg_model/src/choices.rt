//! The choices along a walk that fails.
ghost use Rattle.std.specs.Prelude.{◌≡◌, ◌+◌, ◌∷◌, ◌++◌, ℕ, List, map, drop, IfOk};
ghost use Rattle.bg_ast.specs.Values.{Val};
ghost use Rattle.bg_ast.specs.Execution as e;
ghost use Rattle.bg_ast.specs.Resolved.{Program};
ghost use Rattle.bg_flow.specs.Blocks as f;
ghost use Rattle.bg_blocks.specs.Views.{block_of, cmd_of, exit_of};
ghost use Rattle.bg_model.specs.Behind.{stretch_of};
ghost use Rattle.bg_model.specs.Picks.{choice_by};
ghost use Rattle.bg_model.specs.Turns.{front_of, turn_choices, choices_on, taken};
ghost use Rattle.bg_model.specs.Views.{walk_in, made_by};

use crate::commands::commands;
use crate::exit::exit;
use crate::front::Front;
use crate::pick::Pick;
use crate::stretch::Stretch;
use crate::trial::Trial;
use crate::turn::Turn;
use bg_blocks::{Block, Exit};
use std::alloc::AllocError;
use std::collections::VecDeque;

/// What leads a walk through blocks: the blocks of forms, and each block's first incarnation and turn.
#[derive(Clone, Copy)]
pub struct Course<'a> {
    pub forms: &'a [Stretch<'a>],
    pub firsts: &'a [u32],
    pub turns: &'a VecDeque<Turn>,
}

/// Adds the choice at the end of a block by its turn, and gives the block behind it that the walk goes to; none where it ends here.
fn turned(made: &mut Vec<Pick>, turn: Turn, x: &Exit<'_>) -> Result<Option<usize>, AllocError>
    ensures { IfOk result (λ to. (vs : List Val) (behind : ℕ → List e.Choice) → map (choice_by vs) made.old.items ++ turn_choices turn (exit_of x.now) behind ≡ map (choice_by vs) made.new.items ++ choices_on to behind) }
{
    match turn {
        Turn::Well => Ok(None),
        Turn::Ends => Ok(None),
        Turn::Leads(j) => {
            let to = exit(made, x, j)?;
            Ok(to)
        }
    }
}

/// Adds the choices of a block, and gives the block behind it that the walk goes to; none where it ends here.
fn block<'a>(
    trial: Trial<'_>,
    front: &mut Front<'a>,
    b: &Block<'_>,
    forms: Stretch<'a>,
    first: u32,
    turn: Turn,
) -> Result<Option<usize>, AllocError>
    ensures { IfOk result (λ to. (vs : List Val) (p : Program) (behind : ℕ → List e.Choice) → made_by vs front.old (front_of (walk_in trial.entry) vs (map (cmd_of p) b.now.cmds.items) (stretch_of forms.entry).cmds first (turn_choices turn (exit_of b.now.exit) behind)) ≡ made_by vs front.new (choices_on to behind)) }
{
    front.left = forms.cmds;
    front.next = first as usize;
    if !commands(trial, front, &b.cmds)? {
        return Ok(None);
    }
    let to = turned(&mut front.made, turn, &b.exit)?;
    Ok(to)
}

/// Adds the choices of the block of this number, as `block` does; none where its block of forms, first incarnation or turn isn't
/// there.
fn visit<'a>(
    trial: Trial<'_>,
    front: &mut Front<'a>,
    b: &Block<'_>,
    course: Course<'a>,
    i: usize,
) -> Result<Option<usize>, AllocError>
    ensures { IfOk result (λ to. (vs : List Val) (p : Program) (bs : List f.Block) → made_by vs front.old (taken (walk_in trial.entry) vs (block_of p b.now ∷ bs) (map stretch_of (drop i course.entry.forms.now)) (drop i course.entry.firsts.now) (drop i course.entry.turns.now.items) 0) ≡ made_by vs front.new (choices_on to (taken (walk_in trial.entry) vs bs (map stretch_of (drop (i + 1) course.entry.forms.now)) (drop (i + 1) course.entry.firsts.now) (drop (i + 1) course.entry.turns.now.items)))) }
{
    let Some(q) = course.forms.get(i) else {
        return Ok(None);
    };
    let Some(first) = course.firsts.get(i) else {
        return Ok(None);
    };
    let Some(turn) = course.turns.get(i) else {
        return Ok(None);
    };
    let to = block(trial, front, b, *q, *first, *turn)?;
    Ok(to)
}

/// The choices along the walk that the turns lead.
pub fn choices(
    trial: Trial<'_>,
    blocks: &[Block<'_>],
    course: Course<'_>,
) -> Result<Vec<Pick>, AllocError>
    ensures { IfOk result (λ made. (vs : List Val) (p : Program) → map (choice_by vs) made.items ≡ taken (walk_in trial.entry) vs (map (block_of p) blocks.now) (map stretch_of course.entry.forms.now) course.entry.firsts.now course.entry.turns.now.items 0) }
{
    let mut front = Front {
        made: Vec::new(trial.alloc),
        left: &[],
        next: 0,
    };
    let mut skip = 0;
    for (i, b) in blocks.iter().enumerate() {
        if skip > 0 {
            skip -= 1;
        } else {
            match visit(trial, &mut front, b, course, i)? {
                None => return Ok(front.made),
                Some(k) => skip = k,
            }
        }
    }
    Ok(front.made)
}
