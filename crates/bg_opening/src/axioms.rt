//! The axioms' own program.
ghost use Rattle.std.specs.Prelude.{◌≡◌, ◌++◌, map, IfOk};
ghost use Rattle.bg_text.specs.Views.{id_of};
ghost use Rattle.bg_ast.specs.Views.{ex_of, sts_in, proc_of, impl_of, program_of};
ghost use Rattle.bg_opened.specs.Written as w;
ghost use Rattle.bg_opening.specs.Axioms as a;
ghost use Rattle.bg_opening.specs.Desks.{opened_at};

use crate::declared::{copy_type_names, functions_for, globals_for};
use crate::exprs::Desk;
use crate::uniques::told_apart;
use crate::whole::{assumed, body};
use bg_ast::resolved::{Clause, Expr, Implementation, Procedure, Resolved, Stmt};
use bg_base::Pos;
use bg_text::Name;
use std::alloc::{AllocError, Global};

/// Where what no text says stands.
pub(crate) const NOWHERE: Pos = Pos { line: 0, column: 0 };

fn no_name(alloc: Global) -> Name
    ensures { id_of result ≡ a.no_name }
{
    Name {
        pos: NOWHERE,
        text: Vec::new(alloc),
    }
}

/// A procedure without parameters, results and clauses.
fn bare(alloc: Global) -> Procedure
    ensures { proc_of result ≡ a.bare }
{
    Procedure {
        pos: NOWHERE,
        name: no_name(alloc),
        params: Vec::new(alloc),
        results: Vec::new(alloc),
        modifies: Vec::new(alloc),
        requires_: Vec::new(alloc),
        ensures_: Vec::new(alloc),
    }
}

/// What is false is claimed.
fn claim(alloc: Global) -> Result<Vec<Stmt>, AllocError>
    ensures { IfOk result (λ made. sts_in made.items ≡ a.claim) }
{
    let mut made = Vec::new(alloc);
    made.push(Stmt::Assert(Clause {
        pos: NOWHERE,
        id: 0,
        is_free: false,
        candidate: None,
        formula: Expr::Truth(NOWHERE, false),
    }))?;
    Ok(made)
}

/// What is false is claimed behind the axioms, and these behind what comes first.
fn claimed(desk: Desk<'_>, first: &[Expr], axioms: &[Expr]) -> Result<Vec<Stmt>, AllocError>
    ensures { IfOk result (λ made. sts_in made.items ≡ w.supposing (map (opened_at desk.entry) (map ex_of first.now ++ map ex_of axioms.now)) (w.opened_sts (opened_at desk.entry) a.claim)) }
{
    let claim = claim(desk.alloc)?;
    let mut made = assumed(desk, first)?;
    let mut rest = body(desk, axioms, &claim)?;
    made.append(&mut rest)?;
    Ok(made)
}

/// It claims what is false behind these.
fn claiming(desk: Desk<'_>, first: &[Expr], axioms: &[Expr]) -> Result<Implementation, AllocError>
    ensures { IfOk result (λ m. impl_of m ≡ w.opened_impl (opened_at desk.entry) (map ex_of first.now ++ map ex_of axioms.now) a.claims_false) }
{
    let body = claimed(desk, first, axioms)?;
    Ok(Implementation {
        pos: NOWHERE,
        name: no_name(desk.alloc),
        procedure: 0,
        params: Vec::new(desk.alloc),
        results: Vec::new(desk.alloc),
        locals: Vec::new(desk.alloc),
        body,
    })
}

/// The program whose globals are the constants of this one, with its functions, one procedure and one implementation: it assumes that unique constants
/// differ, and the axioms, opened as in `open_program`, and then claims what is false. So a run fails exactly where all this holds.
///
/// Only want of memory is an error; 2^32 constants count as such.
pub fn axiom_program(
    alloc: Global,
    depth: usize,
    program: &Resolved,
) -> Result<Resolved, AllocError>
    ensures { IfOk result (λ made. program_of made ≡ a.axiom_program depth (program_of program.now)) }
{
    let desk = Desk {
        alloc,
        globals: 0,
        functions: &program.functions,
        depth,
    };
    let mut procedures = Vec::new(alloc);
    procedures.push(bare(alloc))?;
    let mut implementations = Vec::new(alloc);
    let apart = told_apart(alloc, &program.types, &program.constants)?;
    implementations.push(claiming(desk, &apart, &program.axioms)?)?;
    let types = copy_type_names(alloc, &program.types)?;
    let globals = globals_for(alloc, &program.constants)?;
    let functions = functions_for(alloc, &program.functions)?;
    Ok(Resolved {
        types,
        constants: Vec::new(alloc),
        candidates: Vec::new(alloc),
        globals,
        functions,
        axioms: Vec::new(alloc),
        procedures,
        implementations,
    })
}
