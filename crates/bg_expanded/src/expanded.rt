//! Whether too many nodes stand together, once bodies of functions are put in.
ghost use Rattle.std.specs.Prelude.{◌≡◌, [], map, nat_lt, IfOk, OnOk};
ghost use Rattle.bg_ast.specs.Resolved.{Ex};
ghost use Rattle.bg_ast.specs.Views.{exs_of, proc_of, impl_of, program_of};
ghost use Rattle.bg_places.specs.Counts.{most_expanded, capped, nodes_of, spec_nodes, expanded_count, is_any_above};
ghost use Rattle.bg_opened.specs.Written.{all_opened, claims, opened_proc, opened_impl};
ghost use Rattle.bg_expanded.specs.Chains.{most_bodies};
ghost use Rattle.bg_expanded.specs.Counts.{opened_counts};
ghost use Rattle.bg_expanded.specs.Bodies.{IsCountOf, AddsNodes};

use crate::bodies::bodies;
use crate::count::{Count, add_own, nodes_in, nothing, read_at};
use crate::pairs::add_pairs;
use crate::sized::{add_clauses, add_exprs, add_stmts};
use bg_ast::resolved::{Implementation, Procedure, Resolved};
use bg_opening::uniques_of;
use bg_places::MOST_EXPANDED;
use std::alloc::{AllocError, Global};

/// The nodes of a procedure's clauses, as far as one is too many.
fn size_of(alloc: Global, table: &[Option<Count>], q: &Procedure) -> Result<u64, AllocError>
    ensures { IfOk result (λ n. (o : Ex → Ex) → IsCountOf table.now o → n ≡ capped (spec_nodes (opened_proc o (proc_of q.now)))) }
{
    let mut count = nothing(alloc);
    add_clauses(&mut count, table, &q.requires_)?;
    add_clauses(&mut count, table, &q.ensures_)?;
    Ok(nodes_in(&count).min(MOST_EXPANDED as u64 + 1))
}

/// The same of each procedure.
fn sizes(
    alloc: Global,
    table: &[Option<Count>],
    procedures: &[Procedure],
) -> Result<Vec<u64>, AllocError>
    ensures { IfOk result (λ made. (o : Ex → Ex) → IsCountOf table.now o → made.items ≡ map capped (map spec_nodes (map (opened_proc o) (map proc_of procedures.now)))) }
{
    let mut made = Vec::new(alloc);
    for q in procedures {
        let size = size_of(alloc, table, q)?;
        made.push(size)?;
    }
    Ok(made)
}

/// Adds the nodes of what is claimed of the constants of a program.
fn add_claims(
    alloc: Global,
    count: &mut Count,
    table: &[Option<Count>],
    program: &Resolved,
) -> Result<(), AllocError>
    ensures { OnOk result (AddsNodes table.now count.old count.new (λ o. nodes_of (all_opened o (exs_of (claims (program_of program.now)))))) }
{
    let told = uniques_of(alloc, &program.types, &program.constants)?;
    add_pairs(alloc, count, &told)?;
    add_exprs(count, table, &program.axioms)
}

/// Whether the claims together have too many nodes.
fn are_claims_too_large(
    alloc: Global,
    table: &[Option<Count>],
    program: &Resolved,
) -> Result<bool, AllocError>
    ensures { IfOk result (λ b. (o : Ex → Ex) → IsCountOf table.now o → b ≡ nat_lt most_expanded (nodes_of (all_opened o (exs_of (claims (program_of program.now)))))) }
{
    let mut count = nothing(alloc);
    add_claims(alloc, &mut count, table, program)?;
    Ok(nodes_in(&count) > MOST_EXPANDED as u64)
}

/// Whether an implementation has too many, where the procedures' clauses have these sizes.
fn is_too_large(
    alloc: Global,
    table: &[Option<Count>],
    sizes: &[u64],
    m: &Implementation,
) -> Result<bool, AllocError>
    ensures { IfOk result (λ b. (o : Ex → Ex) → IsCountOf table.now o → b ≡ nat_lt most_expanded (expanded_count sizes.now (opened_impl o [] (impl_of m.now)))) }
{
    let mut count = nothing(alloc);
    add_own(&mut count, read_at(sizes, m.procedure as usize));
    add_stmts(&mut count, table, sizes, &m.body)?;
    Ok(nodes_in(&count) > MOST_EXPANDED as u64)
}

/// Whether one of these has.
fn is_any_of(
    alloc: Global,
    table: &[Option<Count>],
    sizes: &[u64],
    implementations: &[Implementation],
) -> Result<bool, AllocError>
    ensures { IfOk result (λ b. (o : Ex → Ex) → IsCountOf table.now o → b ≡ is_any_above most_expanded (map (expanded_count sizes.now) (map (opened_impl o []) (map impl_of implementations.now)))) }
{
    for m in implementations {
        if is_too_large(alloc, table, sizes, m)? {
            return Ok(true);
        }
    }
    Ok(false)
}

/// Whether the claims on constants together, that unique ones differ and the axioms, or an implementation, have too many expression
/// nodes, once the bodies of functions stand in the place of their applications: an implementation those of its body, of its procedure's
/// clauses, and for each call of the callee's clauses. No body is put in to count them, and no pair of unique constants is made; time and
/// memory are linear in the program's text.
///
/// Only want of memory is an error.
pub fn is_any_too_large(alloc: Global, program: &Resolved) -> Result<bool, AllocError>
    ensures { IfOk result (λ b. b ≡ is_any_above most_expanded (opened_counts most_bodies (program_of program.now))) }
{
    let table = bodies(alloc, &program.functions)?;
    if are_claims_too_large(alloc, &table, program)? {
        return Ok(true);
    }
    let sizes = sizes(alloc, &table, &program.procedures)?;
    is_any_of(alloc, &table, &sizes, &program.implementations)
}
