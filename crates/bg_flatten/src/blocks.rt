//! Blocks made flat, command by command.
ghost use Rattle.std.specs.Prelude.{List, map, IfOk};
ghost use Rattle.bg_ast.specs.Syntax.{Fun};
ghost use Rattle.bg_incarnate.specs.Views.{passive_cmd_of, cmds_of, edge_of, passive_block_of};
ghost use Rattle.bg_term_table.specs.Views.{terms_in, incs_of, GiveThese};
ghost use Rattle.bg_flatten.specs.Numbered.{cmd_behind, cmd_numbered, edge_behind, edge_numbered, block_behind, block_numbered};
ghost use Rattle.bg_flatten.specs.Made.{IsMade, AreMade};

use bg_incarnate::{Edge, PassiveBlock, PassiveCmd};
use bg_term_table::{Around, Terms, flat};
use std::alloc::{AllocError, Global};

fn cmd(
    alloc: Global,
    around: Around<'_>,
    terms: &mut Terms,
    k: &PassiveCmd,
) -> Result<PassiveCmd, AllocError>
    ensures { IfOk result (λ l. (fs : List Fun) → GiveThese fs around.entry → IsMade (cmd_behind fs (incs_of around.entry)) (cmd_numbered fs (incs_of around.entry)) (passive_cmd_of k.now) (terms_in fs terms.old.terms.items) (passive_cmd_of l) (terms_in fs terms.new.terms.items)) }
{
    match k {
        PassiveCmd::Claims(spot, candidate, e) => {
            let made = flat(alloc, around, terms, e)?;
            Ok(PassiveCmd::Claims(*spot, *candidate, made))
        }
        PassiveCmd::Supposes(candidate, e) => {
            let made = flat(alloc, around, terms, e)?;
            Ok(PassiveCmd::Supposes(*candidate, made))
        }
    }
}

fn cmds(
    alloc: Global,
    around: Around<'_>,
    terms: &mut Terms,
    ks: &[PassiveCmd],
) -> Result<Vec<PassiveCmd>, AllocError>
    ensures { IfOk result (λ made. (fs : List Fun) → GiveThese fs around.entry → AreMade (cmd_behind fs (incs_of around.entry)) (cmd_numbered fs (incs_of around.entry)) (cmds_of ks.now) (terms_in fs terms.old.terms.items) (cmds_of made.items) (terms_in fs terms.new.terms.items)) }
{
    let mut made = Vec::new(alloc);
    for k in ks {
        let k = cmd(alloc, around, terms, k)?;
        made.push(k)?;
    }
    Ok(made)
}

fn edge(alloc: Global, around: Around<'_>, terms: &mut Terms, e: &Edge) -> Result<Edge, AllocError>
    ensures { IfOk result (λ made. (fs : List Fun) → GiveThese fs around.entry → IsMade (edge_behind fs (incs_of around.entry)) (edge_numbered fs (incs_of around.entry)) (edge_of e.now) (terms_in fs terms.old.terms.items) (edge_of made) (terms_in fs terms.new.terms.items)) }
{
    let cmds = cmds(alloc, around, terms, &e.cmds)?;
    Ok(Edge { cmds, to: e.to })
}

fn edges(
    alloc: Global,
    around: Around<'_>,
    terms: &mut Terms,
    es: &[Edge],
) -> Result<Vec<Edge>, AllocError>
    ensures { IfOk result (λ made. (fs : List Fun) → GiveThese fs around.entry → AreMade (edge_behind fs (incs_of around.entry)) (edge_numbered fs (incs_of around.entry)) (map edge_of es.now) (terms_in fs terms.old.terms.items) (map edge_of made.items) (terms_in fs terms.new.terms.items)) }
{
    let mut made = Vec::new(alloc);
    for e in es {
        let e = edge(alloc, around, terms, e)?;
        made.push(e)?;
    }
    Ok(made)
}

fn block(
    alloc: Global,
    around: Around<'_>,
    terms: &mut Terms,
    b: &PassiveBlock,
) -> Result<PassiveBlock, AllocError>
    ensures { IfOk result (λ made. (fs : List Fun) → GiveThese fs around.entry → IsMade (block_behind fs (incs_of around.entry)) (block_numbered fs (incs_of around.entry)) (passive_block_of b.now) (terms_in fs terms.old.terms.items) (passive_block_of made) (terms_in fs terms.new.terms.items)) }
{
    let cmds = cmds(alloc, around, terms, &b.cmds)?;
    let next = edges(alloc, around, terms, &b.next)?;
    Ok(PassiveBlock { cmds, next })
}

/// Blocks over incarnations made flat.
pub fn blocks_flat(
    alloc: Global,
    around: Around<'_>,
    terms: &mut Terms,
    blocks: &[PassiveBlock],
) -> Result<Vec<PassiveBlock>, AllocError>
    ensures { IfOk result (λ made. (fs : List Fun) → GiveThese fs around.entry → AreMade (block_behind fs (incs_of around.entry)) (block_numbered fs (incs_of around.entry)) (map passive_block_of blocks.now) (terms_in fs terms.old.terms.items) (map passive_block_of made.items) (terms_in fs terms.new.terms.items)) }
{
    let mut made = Vec::new(alloc);
    for b in blocks {
        let b = block(alloc, around, terms, b)?;
        made.push(b)?;
    }
    Ok(made)
}
