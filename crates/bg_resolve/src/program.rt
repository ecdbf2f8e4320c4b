//! Declarations, one after the other.
ghost use Rattle.std.specs.Prelude.{◌≡◌, ◌+◌, map, flat_map, IfOk, IfErr, OnOk};
ghost use Rattle.bg_text.specs.Views as v;
ghost use Rattle.bg_ast.specs.Views.{program_of};
ghost use Rattle.bg_names.specs.Faults.{better};
ghost use Rattle.bg_resolve.specs.Program.{decl_faults, decl_count, named_in};
ghost use Rattle.bg_names.specs.Views.{first_of};
ghost use Rattle.bg_spaces.specs.SpaceViews.{spaces_in};
ghost use Rattle.bg_resolve.specs.Parts.{joined, part_of, no_program};
ghost use Rattle.bg_names.specs.declared.error.ResolveError.TheVariants.{Memory};

use crate::functions::push_functions;
use crate::kinds::{push_axioms, push_candidates, push_constants, push_globals, push_types};
use crate::procedures::{push_bodies, push_procedures};
use bg_ast::resolved::Resolved;
use bg_names::error::ResolveError;
use bg_names::notes::Notes;
use bg_spaces::space::Space;
use bg_text::Decl;
use std::alloc::Global;

/// Adds a declaration, with the next numbers.
fn push_decl<'a>(
    alloc: Global,
    g: &Space<'a>,
    notes: &mut Notes<'a>,
    next: &mut usize,
    out: &mut Resolved,
    d: &'a Decl,
) -> Result<(), ResolveError>
    ensures made { OnOk result (program_of out.new ≡ joined (program_of out.old) (part_of (spaces_in g.now) next.old (v.decl_of d.now))) }
    ensures first { OnOk result (first_of notes.new ≡ better (first_of notes.old) (decl_faults (spaces_in g.now) (v.decl_of d.now))) }
    ensures next { OnOk result (next.new ≡ next.old + decl_count (v.decl_of d.now)) }
    ensures err { IfErr result (λ e. e ≡ Memory) }
{
    push_types(alloc, g, notes, &mut out.types, d)?;
    push_constants(alloc, g, notes, &mut out.constants, d)?;
    push_candidates(alloc, &mut out.candidates, d)?;
    push_globals(alloc, g, notes, &mut out.globals, d)?;
    push_functions(alloc, g, notes, &mut out.functions, d)?;
    push_axioms(alloc, g, notes, &mut out.axioms, d)?;
    push_procedures(alloc, g, notes, next, &mut out.procedures, d)?;
    push_bodies(alloc, g, notes, next, &mut out.implementations, d)
}

/// A program without declarations.
fn nothing(alloc: Global) -> Resolved
    ensures { program_of result ≡ no_program }
{
    Resolved {
        types: Vec::new(alloc),
        constants: Vec::new(alloc),
        candidates: Vec::new(alloc),
        globals: Vec::new(alloc),
        functions: Vec::new(alloc),
        axioms: Vec::new(alloc),
        procedures: Vec::new(alloc),
        implementations: Vec::new(alloc),
    }
}

/// All declarations. Errors: Memory.
pub fn program<'a>(
    alloc: Global,
    g: &Space<'a>,
    notes: &mut Notes<'a>,
    decls: &'a [Decl],
) -> Result<Resolved, ResolveError>
    ensures made { IfOk result (λ p. program_of p ≡ named_in (spaces_in g.now) (map v.decl_of decls.now)) }
    ensures first { OnOk result (first_of notes.new ≡ better (first_of notes.old) (flat_map (decl_faults (spaces_in g.now)) (map v.decl_of decls.now))) }
    ensures err { IfErr result (λ e. e ≡ Memory) }
{
    let mut out = nothing(alloc);
    let mut next = 0;
    for d in decls {
        push_decl(alloc, g, notes, &mut next, &mut out, d)?;
    }
    Ok(out)
}
