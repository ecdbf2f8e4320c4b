//! What is walked of blocks of forms.
ghost use Rattle.std.specs.Prelude.{◌≡◌, drop, map, IfOk};
ghost use Rattle.bg_formed.specs.Views.{form_block_of};
ghost use Rattle.bg_model.specs.Behind.{behind_front, stretch_of};

use bg_formed::{FormBlock, FormCmd, FormEdge};
use std::alloc::{AllocError, Global};

/// The commands of a block that are walked, and its edges.
#[derive(Clone, Copy)]
pub struct Stretch<'a> {
    pub cmds: &'a [FormCmd],
    pub next: &'a [FormEdge],
}

/// What is left of commands behind so many.
fn behind(cmds: &[FormCmd], many: usize) -> &[FormCmd]
    ensures { result.now ≡ drop many cmds.now }
{
    if many <= cmds.len() {
        &cmds[many..]
    } else {
        &[]
    }
}

/// A block behind its first commands, which are so many.
fn part(b: &FormBlock, many: usize) -> Stretch<'_>
    ensures { stretch_of result ≡ record { cmds = drop many (form_block_of b.now).cmds; next = (form_block_of b.now).next } }
{
    Stretch {
        cmds: behind(&b.cmds, many),
        next: &b.next,
    }
}

/// What is walked of blocks, the first of which is walked behind its first commands, which are so many.
pub fn stretches<'a>(
    alloc: Global,
    forms: &'a [FormBlock],
    front: usize,
) -> Result<Vec<Stretch<'a>>, AllocError>
    ensures { IfOk result (λ made. map stretch_of made.items ≡ behind_front front (map form_block_of forms.now)) }
{
    let mut made = Vec::new(alloc);
    let Some((first, rest)) = forms.split_first() else {
        return Ok(made);
    };
    made.push(part(first, front))?;
    for b in rest {
        made.push(part(b, 0))?;
    }
    Ok(made)
}
