//! Blocks of forms with their rows.
ghost use Rattle.std.specs.Prelude.{List, map, IfOk, OnOk};
ghost use Rattle.bg_ast.specs.Meaning as m;
ghost use Rattle.bg_ast.specs.Views.{ex_of};
ghost use Rattle.bg_incarnate.specs.Views.{passive_cmd_of, cmds_of, edge_of, passive_block_of};
ghost use Rattle.bg_formula.specs.Atoms.{AtomOf};
ghost use Rattle.bg_formed.specs.Views.{says_of, form_cmd_of, form_cmds_of, form_edge_of, form_block_of};
ghost use Rattle.bg_atoms.specs.Worlds.{Begins};
ghost use Rattle.bg_atoms.specs.Made.{rows_in};
ghost use Rattle.bg_atoms.specs.Sources.{expression_of};
ghost use Rattle.bg_atoms.specs.Listed.{with_ex, with_cmds, with_edges, with_block, with_blocks};
ghost use Rattle.bg_atoms.specs.Tables.{IsTable};
ghost use Rattle.bg_atoms.specs.Growing.{Grows};
ghost use Rattle.bg_atoms.specs.Told.{IsTold, CmdTold, CmdsTold, EdgeTold, EdgesTold, BlockTold, BlocksTold};

use crate::exprs::abstracted;
use crate::named::Names;
use crate::table::Table;
use bg_ast::resolved::Expr;
use bg_formed::{FormBlock, FormCmd, FormEdge, Says};
use bg_forms::form_ex;
use bg_incarnate::{Edge, PassiveBlock, PassiveCmd};
use std::alloc::{AllocError, Global};

/// What a truth over incarnations says.
fn told(alloc: Global, table: &mut Table, names: &Names, e: &Expr) -> Result<Says, AllocError>
    requires table { IsTable names.now.base table.old }
    ensures grows { OnOk result (Grows names.now.base (with_ex names.now.sorts.items (m.ex_of (ex_of e.now))) table.old table.new) }
    ensures told { IfOk result (λ x. (all : List AtomOf) → Begins (rows_in table.new.rows) all → IsTold names.now.sorts.items names.now.base all (m.ex_of (ex_of e.now)) (says_of x)) }
{
    let x = abstracted(alloc, table, names, e)?;
    match x.refused {
        Some(o) => Ok(Says::Outside(o)),
        None => Ok(Says::Form(form_ex(alloc, &x.says)?)),
    }
}

fn cmd(
    alloc: Global,
    table: &mut Table,
    names: &Names,
    k: &PassiveCmd,
) -> Result<FormCmd, AllocError>
    requires table { IsTable names.now.base table.old }
    ensures grows { OnOk result (Grows names.now.base (with_ex names.now.sorts.items (expression_of (passive_cmd_of k.now))) table.old table.new) }
    ensures told { IfOk result (λ x. (all : List AtomOf) → Begins (rows_in table.new.rows) all → CmdTold names.now.sorts.items names.now.base all (passive_cmd_of k.now) (form_cmd_of x)) }
{
    match k {
        PassiveCmd::Claims(s, b, e) => {
            let says = told(alloc, table, names, e)?;
            Ok(FormCmd::Claims(*s, *b, says))
        }
        PassiveCmd::Supposes(b, e) => {
            let says = told(alloc, table, names, e)?;
            Ok(FormCmd::Supposes(*b, says))
        }
    }
}

fn cmds(
    alloc: Global,
    table: &mut Table,
    names: &Names,
    ks: &[PassiveCmd],
) -> Result<Vec<FormCmd>, AllocError>
    requires table { IsTable names.now.base table.old }
    ensures grows { OnOk result (Grows names.now.base (with_cmds names.now.sorts.items (cmds_of ks.now)) table.old table.new) }
    ensures told { IfOk result (λ x. (all : List AtomOf) → Begins (rows_in table.new.rows) all → CmdsTold names.now.sorts.items names.now.base all (cmds_of ks.now) (form_cmds_of x.items)) }
{
    let mut made = Vec::new(alloc);
    for k in ks {
        let x = cmd(alloc, table, names, k)?;
        made.push(x)?;
    }
    Ok(made)
}

fn edge(alloc: Global, table: &mut Table, names: &Names, e: &Edge) -> Result<FormEdge, AllocError>
    requires table { IsTable names.now.base table.old }
    ensures grows { OnOk result (Grows names.now.base (with_cmds names.now.sorts.items (edge_of e.now).cmds) table.old table.new) }
    ensures told { IfOk result (λ x. (all : List AtomOf) → Begins (rows_in table.new.rows) all → EdgeTold names.now.sorts.items names.now.base all (edge_of e.now) (form_edge_of x)) }
{
    let made = cmds(alloc, table, names, &e.cmds)?;
    Ok(FormEdge {
        cmds: made,
        to: e.to,
    })
}

fn edges(
    alloc: Global,
    table: &mut Table,
    names: &Names,
    es: &[Edge],
) -> Result<Vec<FormEdge>, AllocError>
    requires table { IsTable names.now.base table.old }
    ensures grows { OnOk result (Grows names.now.base (with_edges names.now.sorts.items (map edge_of es.now)) table.old table.new) }
    ensures told { IfOk result (λ x. (all : List AtomOf) → Begins (rows_in table.new.rows) all → EdgesTold names.now.sorts.items names.now.base all (map edge_of es.now) (map form_edge_of x.items)) }
{
    let mut made = Vec::new(alloc);
    for e in es {
        let x = edge(alloc, table, names, e)?;
        made.push(x)?;
    }
    Ok(made)
}

fn block(
    alloc: Global,
    table: &mut Table,
    names: &Names,
    b: &PassiveBlock,
) -> Result<FormBlock, AllocError>
    requires table { IsTable names.now.base table.old }
    ensures grows { OnOk result (Grows names.now.base (with_block names.now.sorts.items (passive_block_of b.now)) table.old table.new) }
    ensures told { IfOk result (λ x. (all : List AtomOf) → Begins (rows_in table.new.rows) all → BlockTold names.now.sorts.items names.now.base all (passive_block_of b.now) (form_block_of x)) }
{
    let made = cmds(alloc, table, names, &b.cmds)?;
    let next = edges(alloc, table, names, &b.next)?;
    Ok(FormBlock { cmds: made, next })
}

/// What blocks say, whose commands say truths; the rows of their relations are in the table from now on.
pub fn blocks_told(
    alloc: Global,
    table: &mut Table,
    names: &Names,
    bs: &[PassiveBlock],
) -> Result<Vec<FormBlock>, AllocError>
    requires table { IsTable names.now.base table.old }
    ensures grows { OnOk result (Grows names.now.base (with_blocks names.now.sorts.items (map passive_block_of bs.now)) table.old table.new) }
    ensures told { IfOk result (λ x. (all : List AtomOf) → Begins (rows_in table.new.rows) all → BlocksTold names.now.sorts.items names.now.base all (map passive_block_of bs.now) (map form_block_of x.items)) }
{
    let mut made = Vec::new(alloc);
    for b in bs {
        let x = block(alloc, table, names, b)?;
        made.push(x)?;
    }
    Ok(made)
}
