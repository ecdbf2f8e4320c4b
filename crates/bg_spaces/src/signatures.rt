//! Signatures and specifications.
ghost use Rattle.std.specs.Prelude.{◌≡◌, ◌+◌, ◌++◌, ◌∷◌, [], map, flat_map, IfOk, IfErr, OnOk};
ghost use Rattle.bg_text.specs.Views as v;
ghost use Rattle.bg_ast.specs.Views.{clause_of};
ghost use Rattle.bg_names.specs.Faults.{better};
ghost use Rattle.bg_spaces.specs.Declarations.{result_groups, param_ids, result_ids, sig_faults, is_global, modified_faults, named_requires, named_ensures, specs_count};
ghost use Rattle.bg_names.specs.Views.{id_in, first_of, scope_of};
ghost use Rattle.bg_spaces.specs.SpaceViews.{spaces_in};
ghost use Rattle.bg_spaces.specs.Pieces.{spec_faults_in};
ghost use Rattle.bg_names.specs.declared.error.ResolveError.TheVariants.{Memory};

use crate::entries::push_ids;
use crate::groups::note_groups;
use crate::modifies::value_of;
use crate::space::Space;
use bg_ast::resolved::Clause;
use bg_names::clauses::clause;
use bg_names::error::{FaultKind, ResolveError};
use bg_names::names::number;
use bg_names::notes::{Notes, note_unless};
use bg_names::scope::{Meaning, Scope};
use bg_text::{Formals, Name, Signature, Spec};
use std::alloc::Global;

/// The results of a signature.
pub fn results(s: &Signature) -> &[Formals]
    ensures { map v.group_of result.now ≡ result_groups (v.sig_of s.now).results }
{
    match &s.results {
        None => &[],
        Some(gs) => gs,
    }
}

/// The names of parameters. Errors: Memory.
pub fn param_names<'a>(alloc: Global, s: &'a Signature) -> Result<Vec<&'a Name>, ResolveError>
    ensures ok { IfOk result (λ names. map id_in names.items ≡ param_ids (v.sig_of s.now)) }
    ensures err { IfErr result (λ e. e ≡ Memory) }
{
    let mut out = Vec::new(alloc);
    push_ids(&mut out, &s.params)?;
    Ok(out)
}

/// The names of parameters and results. Errors: Memory.
pub fn frame_names<'a>(alloc: Global, s: &'a Signature) -> Result<Vec<&'a Name>, ResolveError>
    ensures ok { IfOk result (λ names. map id_in names.items ≡ param_ids (v.sig_of s.now) ++ result_ids (v.sig_of s.now)) }
    ensures err { IfErr result (λ e. e ≡ Memory) }
{
    let mut out = Vec::new(alloc);
    push_ids(&mut out, &s.params)?;
    push_ids(&mut out, results(s))?;
    Ok(out)
}

/// Notes the faults of a signature's types. Errors: Memory.
#[tactic(auto, using(bg_names::proofs::Forms::forms))]
pub fn note_signature<'a>(
    alloc: Global,
    g: &Space,
    notes: &mut Notes<'a>,
    s: &'a Signature,
) -> Result<(), ResolveError>
    ensures first { OnOk result (first_of notes.new ≡ better (first_of notes.old) (sig_faults (spaces_in g.now) (v.sig_of s.now))) }
    ensures err { IfErr result (λ e. e ≡ Memory) }
{
    note_groups(alloc, g, notes, &s.params)?;
    note_groups(alloc, g, notes, results(s))
}

fn is_global(meaning: Meaning) -> bool
    ensures { result ≡ is_global meaning }
{
    match meaning {
        Meaning::Global(_) => true,
        _ => false,
    }
}

/// Notes a name of a `modifies` that is no global.
fn note_global<'a>(g: &Space, notes: &mut Notes<'a>, name: &'a Name)
    ensures { first_of notes.new ≡ better (first_of notes.old) (modified_faults (spaces_in g.now) (v.id_of name.now)) }
{
    let fits = is_global(value_of(&g.values, &name.text));
    note_unless(notes, fits, FaultKind::UnknownName, name.pos, &name.text);
}

/// Notes names of a `modifies` that are no globals.
fn note_modified<'a>(g: &Space, notes: &mut Notes<'a>, names: &'a [Name])
    ensures { first_of notes.new ≡ better (first_of notes.old) (flat_map (modified_faults (spaces_in g.now)) (map v.id_of names.now)) }
{
    for name in names {
        note_global(g, notes, name);
    }
}

/// What a specification sees: the spaces, and what names mean in a `requires` and in an `ensures`.
#[derive(Clone, Copy)]
pub struct Sights<'s, 'a> {
    pub spaces: &'s Space<'a>,
    pub before: Scope<'s, 'a>,
    pub after: Scope<'s, 'a>,
}

/// The clauses of a specification.
#[derive(Drop)]
pub struct Clauses {
    pub requires_: Vec<Clause>,
    pub ensures_: Vec<Clause>,
}

/// A part of a specification, with the next number where it is a clause.
fn name_spec<'a>(
    alloc: Global,
    sees: &Sights,
    notes: &mut Notes<'a>,
    next: &mut usize,
    made: &mut Clauses,
    spec: &'a Spec,
) -> Result<(), ResolveError>
    ensures before { OnOk result (map clause_of made.new.requires_.items ≡ map clause_of made.old.requires_.items ++ named_requires (scope_of sees.now.before) next.old (v.spec_of spec.now ∷ [])) }
    ensures after { OnOk result (map clause_of made.new.ensures_.items ≡ map clause_of made.old.ensures_.items ++ named_ensures (scope_of sees.now.after) next.old (v.spec_of spec.now ∷ [])) }
    ensures next { OnOk result (next.new ≡ next.old + specs_count (v.spec_of spec.now ∷ [])) }
    ensures first { OnOk result (first_of notes.new ≡ better (first_of notes.old) (spec_faults_in (spaces_in sees.now.spaces.now) (scope_of sees.now.before) (scope_of sees.now.after) (v.spec_of spec.now))) }
    ensures err { IfErr result (λ e. e ≡ Memory) }
{
    match spec {
        Spec::Requires(k) => {
            let id = number(*next)?;
            let x = clause(alloc, &sees.before, notes, id, k)?;
            made.requires_.push(x)?;
            *next += 1;
            Ok(())
        }
        Spec::Ensures(k) => {
            let id = number(*next)?;
            let x = clause(alloc, &sees.after, notes, id, k)?;
            made.ensures_.push(x)?;
            *next += 1;
            Ok(())
        }
        Spec::Modifies(_, names) => {
            note_modified(sees.spaces, notes, names);
            Ok(())
        }
    }
}

/// A specification, with the next numbers. Errors: Memory.
pub fn name_specs<'a>(
    alloc: Global,
    sees: &Sights,
    notes: &mut Notes<'a>,
    next: &mut usize,
    specs: &'a [Spec],
) -> Result<Clauses, ResolveError>
    ensures before { IfOk result (λ made. map clause_of made.requires_.items ≡ named_requires (scope_of sees.now.before) next.old (map v.spec_of specs.now)) }
    ensures after { IfOk result (λ made. map clause_of made.ensures_.items ≡ named_ensures (scope_of sees.now.after) next.old (map v.spec_of specs.now)) }
    ensures next { OnOk result (next.new ≡ next.old + specs_count (map v.spec_of specs.now)) }
    ensures first { OnOk result (first_of notes.new ≡ better (first_of notes.old) (flat_map (spec_faults_in (spaces_in sees.now.spaces.now) (scope_of sees.now.before) (scope_of sees.now.after)) (map v.spec_of specs.now))) }
    ensures err { IfErr result (λ e. e ≡ Memory) }
{
    let mut made = Clauses {
        requires_: Vec::new(alloc),
        ensures_: Vec::new(alloc),
    };
    for spec in specs {
        name_spec(alloc, sees, notes, next, &mut made, spec)?;
    }
    Ok(made)
}
