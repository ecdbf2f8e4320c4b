//! The opened program.
ghost use Rattle.std.specs.Prelude.{◌≡◌, map, IfOk, OnOk};
ghost use Rattle.bg_ast.specs.Views.{ex_of, st_of, sts_in, fun_of, proc_of, impl_of, program_of};
ghost use Rattle.bg_opened.specs.Written as w;
ghost use Rattle.bg_opening.specs.Desks.{opened_at};
ghost use Rattle.bg_opening.specs.Views.{assuming};

use crate::declared::globals_for;
use crate::exprs::{Desk, opened};
use crate::stmts::{clauses, stmts};
use crate::uniques::claims;
use bg_ast::resolved::{Expr, Function, Implementation, Procedure, Resolved, Stmt};
use std::alloc::{AllocError, Global};

/// These expressions, opened, are assumed.
pub fn assumed(desk: Desk<'_>, axioms: &[Expr]) -> Result<Vec<Stmt>, AllocError>
    ensures { IfOk result (λ made. map st_of made.items ≡ map assuming (map (opened_at desk.entry) (map ex_of axioms.now))) }
{
    let mut made = Vec::new(desk.alloc);
    for e in axioms {
        let e = opened(desk, e)?;
        made.push(Stmt::Assume(e))?;
    }
    Ok(made)
}

/// The statements of a body, opened, with the axioms assumed in front.
pub fn body(desk: Desk<'_>, axioms: &[Expr], ss: &[Stmt]) -> Result<Vec<Stmt>, AllocError>
    ensures { IfOk result (λ made. sts_in made.items ≡ w.supposing (map (opened_at desk.entry) (map ex_of axioms.now)) (w.opened_sts (opened_at desk.entry) (sts_in ss.now))) }
{
    let mut made = assumed(desk, axioms)?;
    let mut rest = stmts(desk, ss)?;
    made.append(&mut rest)?;
    Ok(made)
}

fn open_procedure(desk: Desk<'_>, q: &mut Procedure) -> Result<(), AllocError>
    ensures { OnOk result (proc_of q.new ≡ w.opened_proc (opened_at desk.entry) (proc_of q.old)) }
{
    q.requires_ = clauses(desk, &q.requires_)?;
    q.ensures_ = clauses(desk, &q.ensures_)?;
    Ok(())
}

fn open_procedures(desk: Desk<'_>, qs: &mut Vec<Procedure>) -> Result<(), AllocError>
    ensures { OnOk result (map proc_of qs.new.items ≡ map (w.opened_proc (opened_at desk.entry)) (map proc_of qs.old.items)) }
{
    for k in 0..qs.len() {
        open_procedure(desk, &mut qs[k])?;
    }
    Ok(())
}

fn open_implementation(
    desk: Desk<'_>,
    axioms: &[Expr],
    m: &mut Implementation,
) -> Result<(), AllocError>
    ensures { OnOk result (impl_of m.new ≡ w.opened_impl (opened_at desk.entry) (map ex_of axioms.now) (impl_of m.old)) }
{
    m.body = body(desk, axioms, &m.body)?;
    Ok(())
}

fn open_implementations(
    desk: Desk<'_>,
    axioms: &[Expr],
    ms: &mut Vec<Implementation>,
) -> Result<(), AllocError>
    ensures { OnOk result (map impl_of ms.new.items ≡ map (w.opened_impl (opened_at desk.entry) (map ex_of axioms.now)) (map impl_of ms.old.items)) }
{
    for k in 0..ms.len() {
        open_implementation(desk, axioms, &mut ms[k])?;
    }
    Ok(())
}

/// Functions lose their bodies.
fn without_bodies(fs: &mut Vec<Function>)
    ensures { map fun_of fs.new.items ≡ map w.bodiless (map fun_of fs.old.items) }
{
    for k in 0..fs.len() {
        fs[k].body = None;
    }
}

/// The program without constants, axioms and bodies of functions: its constants are globals behind the others, bodies of functions are
/// put in, so often, in the place of their applications, and in front of each body it is assumed that unique constants of a type differ,
/// and the axioms. Names and positions are kept.
///
/// Only want of memory is an error; 2^32 globals count as such.
pub fn open_program(alloc: Global, depth: usize, program: Resolved) -> Result<Resolved, AllocError>
    ensures { IfOk result (λ made. program_of made ≡ w.opened_program depth (program_of program)) }
{
    let mut made = program;
    let Ok(globals) = u32::try_from(made.globals.len()) else {
        return Err(AllocError);
    };
    let desk = Desk {
        alloc,
        globals,
        functions: &made.functions,
        depth,
    };
    open_procedures(desk, &mut made.procedures)?;
    let told = claims(alloc, &made.types, &made.constants, &mut made.axioms)?;
    open_implementations(desk, &told, &mut made.implementations)?;
    let mut more = globals_for(alloc, &made.constants)?;
    made.globals.append(&mut more)?;
    made.constants = Vec::new(alloc);
    without_bodies(&mut made.functions);
    made.axioms = Vec::new(alloc);
    Ok(made)
}
