//! Implementations with too many expression nodes.
ghost use Rattle.std.specs.Prelude.{◌≡◌, map, nat_lt, IfOk};
ghost use Rattle.bg_ast.specs.Views.{proc_of, impl_of, program_of};
ghost use Rattle.bg_places.specs.Counts.{most_expanded, capped, spec_nodes, expanded_count, expanded_counts, is_any_above};

use crate::limits::MOST_EXPANDED;
use crate::sized::{size_at, spend_clauses, spend_stmts};
use bg_ast::resolved::{Implementation, Procedure, Resolved};
use std::alloc::{AllocError, Global};

/// The nodes of a procedure's clauses, as far as one is too many.
fn size_of(q: &Procedure) -> u32
    ensures { result ≡ capped (spec_nodes (proc_of q.now)) }
{
    let required = spend_clauses(MOST_EXPANDED + 1, &q.requires_);
    MOST_EXPANDED + 1 - spend_clauses(required, &q.ensures_)
}

/// The same of each procedure.
fn sizes(alloc: Global, procedures: &[Procedure]) -> Result<Vec<u32>, AllocError>
    ensures { IfOk result (λ made. made.items ≡ map capped (map spec_nodes (map proc_of procedures.now))) }
{
    let mut made = Vec::new(alloc);
    for q in procedures {
        made.push(size_of(q))?;
    }
    Ok(made)
}

/// Whether an implementation has too many nodes, where the procedures' clauses have these sizes.
fn is_too_large(sizes: &[u32], m: &Implementation) -> bool
    ensures { result ≡ nat_lt most_expanded (expanded_count sizes.now (impl_of m.now)) }
{
    let rest = spend_stmts(MOST_EXPANDED + 1, sizes, &m.body);
    rest <= size_at(sizes, m.procedure)
}

/// Whether one of these has.
fn is_any_of(sizes: &[u32], implementations: &[Implementation]) -> bool
    ensures { result ≡ is_any_above most_expanded (map (expanded_count sizes.now) (map impl_of implementations.now)) }
{
    for m in implementations {
        if is_too_large(sizes, m) {
            return true;
        }
    }
    false
}

/// Whether an implementation has too many expression nodes: those of its body, of its procedure's clauses, and for each call of the
/// callee's clauses.
///
/// Only want of memory is an error.
pub fn is_any_too_large(alloc: Global, program: &Resolved) -> Result<bool, AllocError>
    ensures { IfOk result (λ found. found ≡ is_any_above most_expanded (expanded_counts (program_of program.now))) }
{
    let sizes = sizes(alloc, &program.procedures)?;
    Ok(is_any_of(&sizes, &program.implementations))
}
