//! The verdict on a program.
ghost use Rattle.std.specs.Prelude.{◌≡◌, ◌<◌, ◌^◌, length, map, IfOk, IfErr, OnOk};
ghost use Rattle.bg_graph.specs.Graphs.{graph_of, IsAcyclic, IsFirstOnCycle};
ghost use Rattle.bg_graph.specs.Answers.{IsAnswer};
ghost use Rattle.bg_text.specs.Views.{id_of};
ghost use Rattle.bg_ast.specs.Views.{program_of, type_name_of};
ghost use Rattle.bg_kinds.specs.Synonyms.{synonym_graph};
ghost use Rattle.bg_types.specs.Verdicts.{Verdict, IsWellTyped, IsRefusal};
ghost use Rattle.bg_kinds.specs.Owned.{answer_of};

use crate::programs::first_fault;
use bg_ast::resolved::{Resolved, TypeName};
use bg_graph::{Order, is_graph, order_of};
use bg_kinds::{Fault, edges_of, is_unfolded, table_of};
use bg_text::Name;
use std::alloc::{AllocError, Global};

/// A program that has a type everywhere.
#[derive(Drop)]
pub struct Typed {
    pub program: Resolved,
}

/// The first fault of a program, and its declared types, whose names a type is written with.
#[derive(Drop)]
pub struct Refusal {
    pub fault: Fault,
    pub types: Vec<TypeName>,
}

/// Why a program is not taken: it has a fault, or there is no memory.
#[derive(Drop)]
pub enum TypeFault {
    Refused(Refusal),
    Memory,
}

fn copy_name(alloc: Global, name: &Name) -> Result<Name, AllocError>
    ensures { IfOk result (λ made. id_of made ≡ id_of name.now) }
{
    let mut text = Vec::new(alloc);
    text.extend_from_slice(&name.text)?;
    Ok(Name {
        pos: name.pos,
        text,
    })
}

/// A synonym that reaches itself, and no smaller one does.
fn cyclic(alloc: Global, p: &Resolved, k: u32) -> Result<Option<Fault>, AllocError>
    requires { IsFirstOnCycle (synonym_graph (program_of p.now).types) k }
    ensures { IfOk result (λ f. Verdict (program_of p.now) (answer_of f)) }
{
    match p.types.get(k as usize) {
        None => Err(AllocError),
        Some(d) => Ok(Some(Fault::CyclicSynonym(copy_name(alloc, &d.name)?))),
    }
}

/// The first fault, where no synonym reaches itself.
fn acyclic(alloc: Global, p: &Resolved, ranks: &[u32]) -> Result<Option<Fault>, AllocError>
    requires few { length p.now.types.items < 2 ^ 32 }
    requires acyclic { IsAcyclic (synonym_graph (program_of p.now).types) }
    ensures { IfOk result (λ f. Verdict (program_of p.now) (answer_of f)) }
{
    let named = table_of(alloc, &p.types, ranks)?;
    if !is_unfolded(alloc, &named, &p.types)? {
        return Err(AllocError);
    }
    let fault = first_fault(alloc, &named, p)?;
    Ok(fault)
}

/// An order of the declared types, or the first that reaches itself.
fn rank(alloc: Global, edges: &[Vec<u32>]) -> Result<Order, AllocError>
    ensures few { OnOk result (length edges.now < 2 ^ 32) }
    ensures answer { IfOk result (λ o. IsAnswer (graph_of edges.now) o) }
{
    if !is_graph(edges) {
        return Err(AllocError);
    }
    let order = order_of(alloc, edges)?;
    Ok(order)
}

/// The first fault of a program.
fn fault_of(alloc: Global, p: &Resolved) -> Result<Option<Fault>, AllocError>
    ensures { IfOk result (λ f. Verdict (program_of p.now) (answer_of f)) }
{
    let edges = edges_of(alloc, &p.types)?;
    match rank(alloc, &edges)? {
        Order::Cyclic(k) => {
            let fault = cyclic(alloc, p, k)?;
            Ok(fault)
        }
        Order::Acyclic(ranks) => {
            let fault = acyclic(alloc, p, &ranks)?;
            Ok(fault)
        }
    }
}

/// Takes a program that has a type everywhere, or answers its first fault: the first synonym that reaches itself; else the
/// fault that stands first, of two at one position the inner one.
pub fn check_types(alloc: Global, p: Resolved) -> Result<Typed, TypeFault>
    ensures ok { IfOk result (λ t. (program_of t.program ≡ program_of p) × IsWellTyped (program_of p)) }
    ensures refused { IfErr result (λ f. IsRefusal (program_of p) f) }
{
    match fault_of(alloc, &p) {
        Err(_) => Err(TypeFault::Memory),
        Ok(None) => Ok(Typed { program: p }),
        Ok(Some(fault)) => Err(TypeFault::Refused(Refusal {
            fault,
            types: p.types,
        })),
    }
}
