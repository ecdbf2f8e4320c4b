//! Functions whose bodies reach themselves.
ghost use Rattle.std.specs.Prelude.{◌≡◌, ◌++◌, map, flat_map, IfOk, IfErr, OnOk};
ghost use Rattle.bg_text.specs.Views as v;
ghost use Rattle.bg_graph.specs.Graphs.{graph_of, IsGraph};
ghost use Rattle.bg_graph.specs.Answers.{IsAnswer};
ghost use Rattle.bg_names.specs.Spaces.{has_name, with_name, with_names, names_of};
ghost use Rattle.bg_spaces.specs.Declarations.{function_ids};
ghost use Rattle.bg_resolve.specs.Calls.{funs_of, if_first, once, body_calls, calls_of, functions_in, calls_in, WithRecursion, fun_in, fun_id};
ghost use Rattle.bg_names.specs.Views.{listed, first_of};
ghost use Rattle.bg_names.specs.declared.error.ResolveError.TheVariants.{Memory};

use crate::calls::push_calls;
use bg_graph::laws::what_reaches_is_a_node;
use bg_graph::{Order, order_of};
use bg_names::error::{FaultKind, ResolveError};
use bg_names::names::{Names, add, no_names};
use bg_names::notes::{Notes, note};
use bg_text::{Decl, Function, TreeExpr};
use std::alloc::Global;

/// Adds the function of a declaration.
fn push_function<'a>(out: &mut Vec<&'a Function>, d: &'a Decl) -> Result<(), ResolveError>
    ensures ok { OnOk result (map fun_in out.new.items ≡ map fun_in out.old.items ++ funs_of (v.decl_of d.now)) }
    ensures err { IfErr result (λ e. e ≡ Memory) }
{
    if let Decl::Function(f) = d {
        out.push(f)?;
    }
    Ok(())
}

/// The functions of a program.
fn functions<'a>(alloc: Global, decls: &'a [Decl]) -> Result<Vec<&'a Function>, ResolveError>
    ensures ok { IfOk result (λ fs. map fun_in fs.items ≡ flat_map funs_of (map v.decl_of decls.now)) }
    ensures err { IfErr result (λ e. e ≡ Memory) }
{
    let mut out = Vec::new(alloc);
    for d in decls {
        push_function(&mut out, d)?;
    }
    Ok(out)
}

/// Adds a function, where it is declared for the first time.
fn push_once<'a>(
    out: &mut Vec<&'a Function>,
    names: &mut Names<'a>,
    f: &'a Function,
) -> Result<(), ResolveError>
    ensures ok { OnOk result (map fun_in out.new.items ≡ map fun_in out.old.items ++ if_first (has_name (listed names.old) f.now.name.text.items) (v.fun_of f.now)) }
    ensures names { OnOk result (listed names.new ≡ with_name (listed names.old) f.now.name.text.items) }
    ensures err { IfErr result (λ e. e ≡ Memory) }
{
    if add(names, &f.name.text)? {
        out.push(f)?;
    }
    Ok(())
}

/// The functions that have numbers; their names are added.
fn numbered<'a>(
    alloc: Global,
    names: &mut Names<'a>,
    fs: &[&'a Function],
) -> Result<Vec<&'a Function>, ResolveError>
    ensures ok { IfOk result (λ xs. map fun_in xs.items ≡ once (listed names.old) (map fun_in fs.now)) }
    ensures names { OnOk result (listed names.new ≡ with_names (listed names.old) (map fun_id (map fun_in fs.now))) }
    ensures err { IfErr result (λ e. e ≡ Memory) }
{
    let mut out = Vec::new(alloc);
    for f in fs {
        push_once(&mut out, names, *f)?;
    }
    Ok(out)
}

/// The functions that a body calls.
fn body_calls(
    alloc: Global,
    functions: &Names,
    body: &Option<TreeExpr>,
) -> Result<Vec<u32>, ResolveError>
    ensures ok { IfOk result (λ ks. ks.items ≡ body_calls (listed functions.now) (v.option_of v.ex_of body.now)) }
    ensures err { IfErr result (λ e. e ≡ Memory) }
{
    let mut out = Vec::new(alloc);
    match body {
        None => Ok(out),
        Some(e) => {
            push_calls(&mut out, functions, e)?;
            Ok(out)
        }
    }
}

/// For each function the functions that its body calls.
fn rows(alloc: Global, functions: &Names, fs: &[&Function]) -> Result<Vec<Vec<u32>>, ResolveError>
    ensures ok { IfOk result (λ rows. graph_of rows.items ≡ map (calls_of (listed functions.now)) (map fun_in fs.now)) }
    ensures err { IfErr result (λ e. e ≡ Memory) }
{
    let mut out = Vec::new(alloc);
    for f in fs {
        let row = body_calls(alloc, functions, &f.body)?;
        out.push(row)?;
    }
    Ok(out)
}

/// The functions of a program that have numbers, and for each the functions that its body calls.
#[derive(Drop)]
struct Calls<'a> {
    functions: Vec<&'a Function>,
    rows: Vec<Vec<u32>>,
}

fn calls_between<'a>(alloc: Global, decls: &'a [Decl]) -> Result<Calls<'a>, ResolveError>
    ensures functions { IfOk result (λ c. map fun_in c.functions.items ≡ functions_in (map v.decl_of decls.now)) }
    ensures rows { IfOk result (λ c. graph_of c.rows.items ≡ calls_in (names_of (function_ids (map v.decl_of decls.now))) (map v.decl_of decls.now)) }
    ensures err { IfErr result (λ e. e ≡ Memory) }
{
    let all = functions(alloc, decls)?;
    let mut names = no_names(alloc);
    let functions = numbered(alloc, &mut names, &all)?;
    let rows = rows(alloc, &names, &functions)?;
    Ok(Calls { functions, rows })
}

/// The answer about a graph of calls. Errors: Memory, also where there are no more numbers of 32 bits.
fn order(alloc: Global, rows: &[Vec<u32>]) -> Result<Order, ResolveError>
    requires graph { IsGraph (graph_of rows.now) }
    ensures ok { IfOk result (λ o. IsAnswer (graph_of rows.now) o) }
    ensures err { IfErr result (λ e. e ≡ Memory) }
{
    if rows.len() > u32::MAX as usize {
        return Err(ResolveError::Memory);
    }
    Ok(order_of(alloc, rows)?)
}

/// Notes the first function by declaration whose body reaches the function. Errors: Memory.
pub fn note_recursion<'a>(
    alloc: Global,
    notes: &mut Notes<'a>,
    decls: &'a [Decl],
) -> Result<(), ResolveError>
    ensures ok { OnOk result (WithRecursion (names_of (function_ids (map v.decl_of decls.now))) (map v.decl_of decls.now) (first_of notes.old) (first_of notes.new)) }
    ensures err { IfErr result (λ e. e ≡ Memory) }
{
    let Calls { functions, rows } = calls_between(alloc, decls)?;
    what_reaches_is_a_node();
    match order(alloc, &rows)? {
        Order::Acyclic(_) => Ok(()),
        Order::Cyclic(k) => {
            let f = functions[k as usize];
            note(
                notes,
                FaultKind::RecursiveFunction,
                f.name.pos,
                &f.name.text,
            );
            Ok(())
        }
    }
}
