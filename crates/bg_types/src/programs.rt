//! Programs, where each declared type stands for what a table says.
ghost use Rattle.std.specs.Prelude.{◌≡◌, [], map, IfOk, OnOk, None};
ghost use Rattle.bg_ast.specs.Views.{program_of};
ghost use Rattle.bg_kinds.specs.Faults.{first_of};
ghost use Rattle.bg_kinds.specs.Kinds.{named_by};
ghost use Rattle.bg_types.specs.Programs.{scope_in, types_part, bodies_part, program_faults};
ghost use Rattle.bg_types.specs.Tables.{IsTables};
ghost use Rattle.bg_kinds.specs.FaultViews.{best_of};
ghost use Rattle.bg_kinds.specs.KindViews.{kinds_in};
ghost use Rattle.bg_typing.specs.SideViews.{shape_of, scope_of};
ghost use Rattle.bg_kinds.specs.Owned.{answer_of};

use crate::checks::{check_axioms, check_bodies, check_implementations, check_specifications};
use crate::tables::{Tables, tables_of};
use bg_ast::resolved::Resolved;
use bg_kinds::{Fault, Found, ValueType, owned};
use bg_typing::Scope;
use std::alloc::{AllocError, Global};

/// What names mean in a program.
fn scope<'a>(t: &'a Tables) -> Scope<'a>
    ensures constants { (scope_of result).constants ≡ kinds_in t.now.constants.items }
    ensures globals { (scope_of result).globals ≡ kinds_in t.now.globals.items }
    ensures frame { (scope_of result).frame ≡ [] }
    ensures functions { (scope_of result).functions ≡ map shape_of t.now.functions.items }
    ensures procedures { (scope_of result).procedures ≡ map shape_of t.now.procedures.items }
{
    Scope {
        constants: &t.constants,
        globals: &t.globals,
        frame: &[],
        functions: &t.functions,
        procedures: &t.procedures,
    }
}

/// The faults of all expressions and statements.
fn check_all<'a>(
    alloc: Global,
    best: &mut Option<Found<'a>>,
    _named: &[Option<ValueType>],
    t: &'a Tables,
    p: &Resolved,
) -> Result<(), AllocError>
    requires { IsTables (named_by (kinds_in _named.now)) (program_of p.now) t.now }
    ensures { let named = named_by (kinds_in _named.now) in OnOk result (best_of best.new ≡ first_of (best_of best.old) (bodies_part named (scope_in named (program_of p.now)) (program_of p.now))) }
{
    let g = scope(t);
    check_bodies(alloc, g, best, &t.functions, &p.functions)?;
    check_axioms(alloc, g, best, &p.axioms)?;
    check_specifications(
        alloc,
        g,
        best,
        &t.procedures,
        &t.procedure_frames,
        &p.procedures,
    )?;
    check_implementations(alloc, g, best, &t.implementation_frames, &p.implementations)?;
    Ok(())
}

/// The tables, and the first fault of all written types.
fn read_types<'a>(
    alloc: Global,
    named: &[Option<ValueType>],
    p: &Resolved,
) -> Result<(Tables, Option<Found<'a>>), AllocError>
    ensures best { IfOk result (λ made. best_of made.1 ≡ first_of None (types_part (named_by (kinds_in named.now)) (program_of p.now))) }
    ensures tables { IfOk result (λ made. IsTables (named_by (kinds_in named.now)) (program_of p.now) made.0) }
{
    let mut best = None;
    let tables = tables_of(alloc, named, &mut best, p)?;
    Ok((tables, best))
}

/// The first fault of a program.
pub fn first_fault(
    alloc: Global,
    named: &[Option<ValueType>],
    p: &Resolved,
) -> Result<Option<Fault>, AllocError>
    ensures { IfOk result (λ f. answer_of f ≡ first_of None (program_faults (named_by (kinds_in named.now)) (program_of p.now))) }
{
    let (tables, mut best) = read_types(alloc, named, p)?;
    check_all(alloc, &mut best, named, &tables, p)?;
    let fault = owned(alloc, best)?;
    Ok(fault)
}
