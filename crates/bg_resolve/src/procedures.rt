//! Procedures and implementations.
ghost use Rattle.std.specs.Prelude.{◌≡◌, ◌+◌, ◌++◌, ◌∷◌, [], map, flat_map, IfOk, IfErr, OnOk};
ghost use Rattle.bg_text.specs.Views as v;
ghost use Rattle.bg_ast.specs.Views.{proc_of, impl_of, clause_of};
ghost use Rattle.bg_names.specs.Faults.{better};
ghost use Rattle.bg_resolve.specs.Program.{requires_scope, ensures_scope, named_procedure, named_procedures, spec_faults, named_option, option_faults, option_count, implementation_faults, named_code};
ghost use Rattle.bg_spaces.specs.Declarations.{named_requires, named_ensures, param_ids, result_ids, sig_faults, specs_count};
ghost use Rattle.bg_bodies.specs.Bodies.{sts_count};
ghost use Rattle.bg_names.specs.Spaces.{repeats};
ghost use Rattle.bg_names.specs.Views.{first_of};
ghost use Rattle.bg_spaces.specs.SpaceViews.{spaces_in};
ghost use Rattle.bg_resolve.specs.Parts.{procedure_faults_of, body_faults_of};
ghost use Rattle.bg_resolve.specs.Pieces.{clause_count, body_count, named_bodies};
ghost use Rattle.bg_names.specs.declared.error.ResolveError.TheVariants.{Memory};

use crate::code::{Written, code, quiet_names, variables};
use bg_ast::resolved::{Implementation as MadeBody, Procedure as Made};
use bg_names::changes::declare;
use bg_names::copy::copy_name;
use bg_names::error::ResolveError;
use bg_names::exprs::note_use;
use bg_names::notes::Notes;
use bg_spaces::modifies::modifies;
use bg_spaces::signatures::{
    Clauses, Sights, frame_names, name_specs, note_signature, param_names, results,
};
use bg_spaces::space::{Space, scope_in};
use bg_text::{Decl, Implementation, Procedure, Signature};
use std::alloc::Global;

/// The clauses of a procedure.
fn specification<'a>(
    alloc: Global,
    g: &Space<'a>,
    notes: &mut Notes<'a>,
    next: &mut usize,
    q: &'a Procedure,
) -> Result<Clauses, ResolveError>
    ensures before { IfOk result (λ made. map clause_of made.requires_.items ≡ named_requires (requires_scope (spaces_in g.now) (v.sig_of q.now.signature)) next.old (map v.spec_of q.now.specs.items)) }
    ensures after { IfOk result (λ made. map clause_of made.ensures_.items ≡ named_ensures (ensures_scope (spaces_in g.now) (v.sig_of q.now.signature)) next.old (map v.spec_of q.now.specs.items)) }
    ensures next { OnOk result (next.new ≡ next.old + specs_count (map v.spec_of q.now.specs.items)) }
    ensures first { OnOk result (first_of notes.new ≡ better (first_of notes.old) (flat_map (spec_faults (spaces_in g.now) (v.sig_of q.now.signature)) (map v.spec_of q.now.specs.items))) }
    ensures err { IfErr result (λ e. e ≡ Memory) }
{
    let names = param_names(alloc, &q.signature)?;
    let params = quiet_names(alloc, &names)?;
    let names = frame_names(alloc, &q.signature)?;
    let frame = quiet_names(alloc, &names)?;
    let before = scope_in(g, &params, true, false);
    let after = scope_in(g, &frame, true, true);
    let sees = Sights {
        spaces: g,
        before,
        after,
    };
    name_specs(alloc, &sees, notes, next, &q.specs)
}

/// A procedure.
fn procedure<'a>(
    alloc: Global,
    g: &Space<'a>,
    notes: &mut Notes<'a>,
    next: &mut usize,
    q: &'a Procedure,
) -> Result<Made, ResolveError>
    ensures made { IfOk result (λ x. proc_of x ≡ named_procedure (spaces_in g.now) next.old (v.proc_of q.now)) }
    ensures first { OnOk result (first_of notes.new ≡ better (first_of notes.old) (sig_faults (spaces_in g.now) (v.sig_of q.now.signature) ++ flat_map (spec_faults (spaces_in g.now) (v.sig_of q.now.signature)) (map v.spec_of q.now.specs.items))) }
    ensures next { OnOk result (next.new ≡ next.old + specs_count (map v.spec_of q.now.specs.items)) }
    ensures err { IfErr result (λ e. e ≡ Memory) }
{
    note_signature(alloc, g, notes, &q.signature)?;
    let name = copy_name(alloc, &q.name)?;
    let modifies = modifies(alloc, &g.values, g.globals.len(), &q.specs)?;
    let params = variables(alloc, g, &q.signature.params)?;
    let results = variables(alloc, g, results(&q.signature))?;
    let Clauses {
        requires_,
        ensures_,
    } = specification(alloc, g, notes, next, q)?;
    Ok(Made {
        pos: q.pos,
        name,
        params,
        results,
        modifies,
        requires_,
        ensures_,
    })
}

/// Adds the procedure of a declaration. Errors: Memory.
pub fn push_procedures<'a>(
    alloc: Global,
    g: &Space<'a>,
    notes: &mut Notes<'a>,
    next: &mut usize,
    out: &mut Vec<Made>,
    d: &'a Decl,
) -> Result<(), ResolveError>
    ensures made { OnOk result (map proc_of out.new.items ≡ map proc_of out.old.items ++ named_procedures (spaces_in g.now) next.old (v.decl_of d.now)) }
    ensures first { OnOk result (first_of notes.new ≡ better (first_of notes.old) (procedure_faults_of (spaces_in g.now) (v.decl_of d.now))) }
    ensures next { OnOk result (next.new ≡ next.old + clause_count (v.decl_of d.now)) }
    ensures err { IfErr result (λ e. e ≡ Memory) }
{
    match d {
        Decl::Procedure(q) => {
            let x = procedure(alloc, g, notes, next, q)?;
            out.push(x)?;
            Ok(())
        }
        _ => Ok(()),
    }
}

/// Notes the names that a signature repeats.
fn note_frame<'a>(
    alloc: Global,
    notes: &mut Notes<'a>,
    s: &'a Signature,
) -> Result<(), ResolveError>
    ensures first { OnOk result (first_of notes.new ≡ better (first_of notes.old) (repeats [] (param_ids (v.sig_of s.now) ++ result_ids (v.sig_of s.now)))) }
    ensures err { IfErr result (λ e. e ≡ Memory) }
{
    let names = frame_names(alloc, s)?;
    let _ = declare(alloc, notes, &names)?;
    Ok(())
}

/// Adds the body of a procedure.
fn push_own<'a>(
    alloc: Global,
    g: &Space<'a>,
    notes: &mut Notes<'a>,
    next: &mut usize,
    out: &mut Vec<MadeBody>,
    q: &'a Procedure,
) -> Result<(), ResolveError>
    ensures made { OnOk result (map impl_of out.new.items ≡ map impl_of out.old.items ++ named_option (spaces_in g.now) next.old q.now.pos (v.id_of q.now.name) (v.sig_of q.now.signature) (v.proc_of q.now).body) }
    ensures first { OnOk result (first_of notes.new ≡ better (first_of notes.old) (option_faults (spaces_in g.now) (v.id_of q.now.name) (v.sig_of q.now.signature) (v.proc_of q.now).body)) }
    ensures next { OnOk result (next.new ≡ next.old + option_count (v.proc_of q.now).body) }
    ensures err { IfErr result (λ e. e ≡ Memory) }
{
    match &q.body {
        None => note_frame(alloc, notes, &q.signature),
        Some(b) => {
            let written = Written {
                pos: q.pos,
                name: &q.name,
                signature: &q.signature,
                body: b,
            };
            let x = code(alloc, g, notes, next, &written)?;
            out.push(x)?;
            Ok(())
        }
    }
}

/// Adds an implementation.
#[tactic(auto, using(bg_names::proofs::Forms::forms))]
fn push_other<'a>(
    alloc: Global,
    g: &Space<'a>,
    notes: &mut Notes<'a>,
    next: &mut usize,
    out: &mut Vec<MadeBody>,
    m: &'a Implementation,
) -> Result<(), ResolveError>
    ensures made { OnOk result (map impl_of out.new.items ≡ map impl_of out.old.items ++ named_code (spaces_in g.now) next.old m.now.pos (v.id_of m.now.name) (v.sig_of m.now.signature) (v.body_of m.now.body) ∷ []) }
    ensures first { OnOk result (first_of notes.new ≡ better (first_of notes.old) (implementation_faults (spaces_in g.now) (v.impl_of m.now))) }
    ensures next { OnOk result (next.new ≡ next.old + sts_count (v.body_of m.now.body).stmts) }
    ensures err { IfErr result (λ e. e ≡ Memory) }
{
    note_use(&g.procedures, notes, &m.name);
    note_signature(alloc, g, notes, &m.signature)?;
    let written = Written {
        pos: m.pos,
        name: &m.name,
        signature: &m.signature,
        body: &m.body,
    };
    let x = code(alloc, g, notes, next, &written)?;
    out.push(x)?;
    Ok(())
}

/// Adds the body of a declaration. Errors: Memory.
pub fn push_bodies<'a>(
    alloc: Global,
    g: &Space<'a>,
    notes: &mut Notes<'a>,
    next: &mut usize,
    out: &mut Vec<MadeBody>,
    d: &'a Decl,
) -> Result<(), ResolveError>
    ensures made { OnOk result (map impl_of out.new.items ≡ map impl_of out.old.items ++ named_bodies (spaces_in g.now) next.old (v.decl_of d.now)) }
    ensures first { OnOk result (first_of notes.new ≡ better (first_of notes.old) (body_faults_of (spaces_in g.now) (v.decl_of d.now))) }
    ensures next { OnOk result (next.new ≡ next.old + body_count (v.decl_of d.now)) }
    ensures err { IfErr result (λ e. e ≡ Memory) }
{
    match d {
        Decl::Procedure(q) => push_own(alloc, g, notes, next, out, q),
        Decl::Implementation(m) => push_other(alloc, g, notes, next, out, m),
        _ => Ok(()),
    }
}
