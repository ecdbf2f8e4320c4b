//! What is kept of declarations.
ghost use Rattle.std.specs.Prelude.{◌≡◌, ◌++◌, drop, map, IfOk, OnOk};
ghost use Rattle.bg_text.specs.Views as v;
ghost use Rattle.bg_text.specs.Views.{option_of as optional};
ghost use Rattle.bg_ast.specs.Views.{clause_of, declared_of, sts_in, proc_of, impl_of, program_of};
ghost use Rattle.bg_resolve.specs.Program.{named};
ghost use Rattle.bg_keep.specs.Guesses.{names_of};
ghost use Rattle.bg_keep.specs.Told as s;
ghost use Rattle.bg_guess.specs.Guessed.{guessed};
ghost use Rattle.bg_keep.specs.Kept.{kept};
ghost use Rattle.bg_keep.specs.Annotated.{kept_guessing};

use crate::guesses::Names;
use crate::parts::{Clauses, kept_parts};
use crate::stmts::keep_block;
use bg_ast::resolved as made;
use bg_ast::resolved::{Clause, Declared, Resolved, Stmt};
use bg_base::Pos;
use bg_spaces::values::are_candidates;
use bg_text::{Body, Constants, Decl, Implementation, Procedure};
use bg_words::CandSet;
use std::alloc::{AllocError, Global};

/// How many procedures and how many implementations are behind.
#[derive(Clone, Copy)]
struct Behind {
    procedures: usize,
    implementations: usize,
}

/// The preconditions of the procedure at this place, where there is one.
fn requires_at(procedures: &[made::Procedure], at: usize) -> &[Clause]
    ensures { map clause_of result.now ≡ s.first_requires (drop at (map proc_of procedures.now)) }
{
    match procedures.get(at) {
        Some(q) => &q.requires_,
        None => &[],
    }
}

/// The postconditions of the procedure at this place, where there is one.
fn ensures_at(procedures: &[made::Procedure], at: usize) -> &[Clause]
    ensures { map clause_of result.now ≡ s.first_ensures (drop at (map proc_of procedures.now)) }
{
    match procedures.get(at) {
        Some(q) => &q.ensures_,
        None => &[],
    }
}

/// The statements of the implementation at this place, where there is one.
fn block_at(implementations: &[made::Implementation], at: usize) -> &[Stmt]
    ensures { sts_in result.now ≡ s.first_block (drop at (map impl_of implementations.now)) }
{
    match implementations.get(at) {
        Some(m) => &m.body,
        None => &[],
    }
}

/// What the clauses of the procedure at this place may speak of.
fn procedure_names<'a>(
    globals: &'a [Declared],
    procedures: &'a [made::Procedure],
    at: usize,
) -> Names<'a>
    ensures { names_of result ≡ s.first_procedure (map declared_of globals.now) (drop at (map proc_of procedures.now)) }
{
    match procedures.get(at) {
        Some(q) => Names {
            globals,
            params: &q.params,
            results: &q.results,
            locals: &[],
        },
        None => Names {
            globals,
            params: &[],
            results: &[],
            locals: &[],
        },
    }
}

/// What the invariants of the implementation at this place may speak of.
fn implementation_names<'a>(
    globals: &'a [Declared],
    implementations: &'a [made::Implementation],
    at: usize,
) -> Names<'a>
    ensures { names_of result ≡ s.first_implementation (map declared_of globals.now) (drop at (map impl_of implementations.now)) }
{
    match implementations.get(at) {
        Some(m) => Names {
            globals,
            params: &m.params,
            results: &m.results,
            locals: &m.locals,
        },
        None => Names {
            globals,
            params: &[],
            results: &[],
            locals: &[],
        },
    }
}

/// The place behind this one, where a procedure is here.
#[tactic(auto, using(crate::proofs::Rows::place_inside, crate::proofs::Rows::place_end))]
fn next_procedure(procedures: &[made::Procedure], at: usize) -> usize
    ensures { drop result (map proc_of procedures.now) ≡ drop 1 (drop at (map proc_of procedures.now)) }
{
    if procedures.len() <= at { at } else { at + 1 }
}

/// The place behind this one, where an implementation is here.
#[tactic(auto, using(crate::proofs::Rows::place_inside, crate::proofs::Rows::place_end))]
fn next_implementation(implementations: &[made::Implementation], at: usize) -> usize
    ensures { drop result (map impl_of implementations.now) ≡ drop 1 (drop at (map impl_of implementations.now)) }
{
    if implementations.len() <= at {
        at
    } else {
        at + 1
    }
}

/// What is kept of a body.
fn kept_body(
    alloc: Global,
    set: &CandSet,
    names: &Names<'_>,
    told: &[Stmt],
    body: Body,
) -> Result<Body, AllocError>
    ensures { IfOk result (λ x. v.body_of x ≡ s.told_body set.now (names_of names.now) (sts_in told.now) (v.body_of body)) }
{
    let Body { locals, mut stmts } = body;
    keep_block(alloc, set, names, &mut stmts, told)?;
    Ok(Body { locals, stmts })
}

/// What is kept of a body, where there is one.
fn kept_option(
    alloc: Global,
    set: &CandSet,
    names: &Names<'_>,
    told: &[Stmt],
    body: Option<Body>,
) -> Result<Option<Body>, AllocError>
    ensures { IfOk result (λ x. optional v.body_of x ≡ optional (s.told_body set.now (names_of names.now) (sts_in told.now)) (optional v.body_of body)) }
{
    match body {
        None => Ok(None),
        Some(body) => Ok(Some(kept_body(alloc, set, names, told, body)?)),
    }
}

/// What is kept of a procedure.
fn kept_procedure(
    alloc: Global,
    set: &CandSet,
    program: &Resolved,
    at: Behind,
    q: Procedure,
) -> Result<Procedure, AllocError>
    ensures { IfOk result (λ x. v.proc_of x ≡ s.told_procedure set.now (map declared_of program.now.globals.items) (drop at.procedures (map proc_of program.now.procedures.items)) (drop at.implementations (map impl_of program.now.implementations.items)) (v.proc_of q)) }
{
    let Procedure {
        pos,
        attributes,
        name,
        signature,
        mut specs,
        body,
    } = q;
    let clauses = Clauses {
        requires_: requires_at(&program.procedures, at.procedures),
        ensures_: ensures_at(&program.procedures, at.procedures),
    };
    let names = procedure_names(&program.globals, &program.procedures, at.procedures);
    let specs = kept_parts(alloc, set, &names, &clauses, &mut specs)?;
    let told = block_at(&program.implementations, at.implementations);
    let names = implementation_names(
        &program.globals,
        &program.implementations,
        at.implementations,
    );
    let body = kept_option(alloc, set, &names, told, body)?;
    Ok(Procedure {
        pos,
        attributes,
        name,
        signature,
        specs,
        body,
    })
}

/// What is kept of an implementation.
fn kept_implementation(
    alloc: Global,
    set: &CandSet,
    program: &Resolved,
    at: Behind,
    m: Implementation,
) -> Result<Implementation, AllocError>
    ensures { IfOk result (λ x. v.impl_of x ≡ s.told_implementation set.now (map declared_of program.now.globals.items) (drop at.implementations (map impl_of program.now.implementations.items)) (v.impl_of m)) }
{
    let Implementation {
        pos,
        attributes,
        name,
        signature,
        body,
    } = m;
    let told = block_at(&program.implementations, at.implementations);
    let names = implementation_names(
        &program.globals,
        &program.implementations,
        at.implementations,
    );
    let body = kept_body(alloc, set, &names, told, body)?;
    Ok(Implementation {
        pos,
        attributes,
        name,
        signature,
        body,
    })
}

/// Adds constants, unless they are candidates.
fn push_constants(c: Constants, out: &mut Vec<Decl>) -> Result<(), AllocError>
    ensures { OnOk result (map v.decl_of out.new.items ≡ map v.decl_of out.old.items ++ s.told_constants (v.consts_of c)) }
{
    if !are_candidates(&c) {
        out.push(Decl::Constants(c))?;
    }
    Ok(())
}

/// Adds what is kept of a declaration.
fn push_decl(
    alloc: Global,
    set: &CandSet,
    program: &Resolved,
    at: Behind,
    d: Decl,
    out: &mut Vec<Decl>,
) -> Result<(), AllocError>
    ensures { OnOk result (map v.decl_of out.new.items ≡ map v.decl_of out.old.items ++ s.told_decl set.now (map declared_of program.now.globals.items) (drop at.procedures (map proc_of program.now.procedures.items)) (drop at.implementations (map impl_of program.now.implementations.items)) (v.decl_of d)) }
{
    match d {
        Decl::Constants(c) => push_constants(c, out),
        Decl::Procedure(q) => {
            let kept = kept_procedure(alloc, set, program, at, q)?;
            out.push(Decl::Procedure(kept))?;
            Ok(())
        }
        Decl::Implementation(m) => {
            let kept = kept_implementation(alloc, set, program, at, m)?;
            out.push(Decl::Implementation(kept))?;
            Ok(())
        }
        other => {
            out.push(other)?;
            Ok(())
        }
    }
}

/// What is behind, once a procedure is too, with a body or without.
fn passed_procedure(program: &Resolved, at: Behind, body: &Option<Body>) -> Behind
    ensures procedures { drop result.procedures (map proc_of program.now.procedures.items) ≡ drop 1 (drop at.procedures (map proc_of program.now.procedures.items)) }
    ensures implementations { drop result.implementations (map impl_of program.now.implementations.items) ≡ drop (s.option_count (optional v.body_of body.now)) (drop at.implementations (map impl_of program.now.implementations.items)) }
{
    let procedures = next_procedure(&program.procedures, at.procedures);
    match body {
        None => Behind {
            procedures,
            implementations: at.implementations,
        },
        Some(_) => Behind {
            procedures,
            implementations: next_implementation(&program.implementations, at.implementations),
        },
    }
}

/// What is behind, once this declaration is too.
fn passed(program: &Resolved, at: Behind, d: &Decl) -> Behind
    ensures procedures { drop result.procedures (map proc_of program.now.procedures.items) ≡ drop (s.procedure_count (v.decl_of d.now)) (drop at.procedures (map proc_of program.now.procedures.items)) }
    ensures implementations { drop result.implementations (map impl_of program.now.implementations.items) ≡ drop (s.implementation_count (v.decl_of d.now)) (drop at.implementations (map impl_of program.now.implementations.items)) }
{
    match d {
        Decl::Procedure(q) => passed_procedure(program, at, &q.body),
        Decl::Implementation(_) => Behind {
            procedures: at.procedures,
            implementations: next_implementation(&program.implementations, at.implementations),
        },
        _ => at,
    }
}

/// What is kept of declarations, which are taken from their places.
fn kept_decls(
    alloc: Global,
    set: &CandSet,
    program: &Resolved,
    decls: &mut [Decl],
) -> Result<Vec<Decl>, AllocError>
    ensures { IfOk result (λ made. map v.decl_of made.items ≡ s.told_decls set.now (map declared_of program.now.globals.items) (map proc_of program.now.procedures.items) (map impl_of program.now.implementations.items) (map v.decl_of decls.old)) }
{
    let mut made = Vec::new(alloc);
    let mut at = Behind {
        procedures: 0,
        implementations: 0,
    };
    for i in 0..decls.len() {
        let blank = Decl::Types(Pos { line: 0, column: 0 }, Vec::new(alloc), Vec::new(alloc));
        let d = std::mem::replace(&mut decls[i], blank);
        let after = passed(program, at, &d);
        push_decl(alloc, set, program, at, d, &mut made)?;
        at = after;
    }
    Ok(made)
}

/// The program with the annotations of the candidates of this set, where `program` is what its names mean: candidates aren't
/// declared, a clause of a candidate in the set is its right side, and a clause of another candidate isn't there. Nothing else is
/// changed. Where `program` is that with its guesses, each guess of the set stands as a clause behind the clauses of its place.
///
/// Only want of memory is an error.
pub fn keep(
    alloc: Global,
    decls: Vec<Decl>,
    program: &Resolved,
    set: &CandSet,
) -> Result<Vec<Decl>, AllocError>
    ensures kept { IfOk result (λ made. program_of program.now ≡ named (v.decls_of decls.items) → v.decls_of made.items ≡ kept set.now (v.decls_of decls.items)) }
    ensures guesses { IfOk result (λ made. program_of program.now ≡ guessed (named (v.decls_of decls.items)) → v.decls_of made.items ≡ kept_guessing set.now (v.decls_of decls.items)) }
{
    let mut decls = decls;
    kept_decls(alloc, set, program, &mut decls)
}
