//! What a program declares.
ghost use Rattle.std.specs.Prelude.{◌≡◌, [], map, IfOk, IfErr, OnOk};
ghost use Rattle.bg_text.specs.Views as v;
ghost use Rattle.bg_names.specs.Faults.{better};
ghost use Rattle.bg_spaces.specs.Declarations.{spaces_of, repeated, scope_in, type_ids, value_ids, function_ids, procedure_ids, meanings_from, entries_from, no_counts};
ghost use Rattle.bg_names.specs.Spaces.{with_names, repeats};
ghost use Rattle.bg_names.specs.Views.{listed, scope_of, first_of};
ghost use Rattle.bg_names.specs.declared.error.ResolveError.TheVariants.{Memory};
ghost use Rattle.bg_spaces.specs.SpaceViews.{spaces_in};

use crate::entries::{entries, global_names};
use crate::modifies::changes;
use crate::tables::{function_names, procedure_names, type_names};
use crate::values::{Values, declare_values};
use bg_names::changes::declare;
use bg_names::error::ResolveError;
use bg_names::names::Names;
use bg_names::notes::Notes;
use bg_names::scope::Scope;
use bg_text::Decl;
use std::alloc::Global;

/// The spaces of a program.
#[derive(Drop)]
pub struct Space<'a> {
    pub types: Names<'a>,
    pub values: Values<'a>,
    pub functions: Names<'a>,
    pub procedures: Names<'a>,
    /// The names of the globals, and what each procedure modifies.
    pub globals: Vec<&'a [u8]>,
    pub changes: Vec<Vec<u32>>,
}

/// What names mean under a frame.
pub fn scope_in<'s, 'a>(
    g: &'s Space<'a>,
    frame: &'s Names<'a>,
    sees_globals: bool,
    has_old: bool,
) -> Scope<'s, 'a>
    ensures { scope_of result ≡ scope_in (spaces_in g.now) (listed frame.now) sees_globals has_old }
{
    Scope {
        values: &g.values.names,
        meanings: &g.values.meanings,
        functions: &g.functions,
        frame,
        sees_globals,
        has_old,
    }
}

/// The types of a program.
fn type_space<'a>(
    alloc: Global,
    notes: &mut Notes<'a>,
    decls: &'a [Decl],
) -> Result<Names<'a>, ResolveError>
    ensures made { IfOk result (λ names. listed names ≡ with_names [] (type_ids (map v.decl_of decls.now))) }
    ensures first { OnOk result (first_of notes.new ≡ better (first_of notes.old) (repeats [] (type_ids (map v.decl_of decls.now)))) }
    ensures err { IfErr result (λ e. e ≡ Memory) }
{
    let ids = type_names(alloc, decls)?;
    declare(alloc, notes, &ids)
}

/// The functions of a program.
fn function_space<'a>(
    alloc: Global,
    notes: &mut Notes<'a>,
    decls: &'a [Decl],
) -> Result<Names<'a>, ResolveError>
    ensures made { IfOk result (λ names. listed names ≡ with_names [] (function_ids (map v.decl_of decls.now))) }
    ensures first { OnOk result (first_of notes.new ≡ better (first_of notes.old) (repeats [] (function_ids (map v.decl_of decls.now)))) }
    ensures err { IfErr result (λ e. e ≡ Memory) }
{
    let ids = function_names(alloc, decls)?;
    declare(alloc, notes, &ids)
}

/// The procedures of a program.
fn procedure_space<'a>(
    alloc: Global,
    notes: &mut Notes<'a>,
    decls: &'a [Decl],
) -> Result<Names<'a>, ResolveError>
    ensures made { IfOk result (λ names. listed names ≡ with_names [] (procedure_ids (map v.decl_of decls.now))) }
    ensures first { OnOk result (first_of notes.new ≡ better (first_of notes.old) (repeats [] (procedure_ids (map v.decl_of decls.now)))) }
    ensures err { IfErr result (λ e. e ≡ Memory) }
{
    let ids = procedure_names(alloc, decls)?;
    declare(alloc, notes, &ids)
}

/// The constants, candidates and globals of a program.
fn value_space<'a>(
    alloc: Global,
    notes: &mut Notes<'a>,
    decls: &'a [Decl],
) -> Result<Values<'a>, ResolveError>
    ensures names { IfOk result (λ x. listed x.names ≡ with_names [] (value_ids (map v.decl_of decls.now))) }
    ensures meanings { IfOk result (λ x. x.meanings.items ≡ meanings_from [] (entries_from no_counts (map v.decl_of decls.now))) }
    ensures first { OnOk result (first_of notes.new ≡ better (first_of notes.old) (repeats [] (value_ids (map v.decl_of decls.now)))) }
    ensures err { IfErr result (λ e. e ≡ Memory) }
{
    let ids = entries(alloc, decls)?;
    declare_values(alloc, notes, &ids)
}

/// What a program declares; second declarations are faults. Errors: Memory.
#[tactic(auto, using(bg_names::proofs::Forms::forms))]
pub fn declare_all<'a>(
    alloc: Global,
    notes: &mut Notes<'a>,
    decls: &'a [Decl],
) -> Result<Space<'a>, ResolveError>
    ensures made { IfOk result (λ g. spaces_in g ≡ spaces_of (map v.decl_of decls.now)) }
    ensures first { OnOk result (first_of notes.new ≡ better (first_of notes.old) (repeated (map v.decl_of decls.now))) }
    ensures err { IfErr result (λ e. e ≡ Memory) }
{
    let types = type_space(alloc, notes, decls)?;
    let values = value_space(alloc, notes, decls)?;
    let functions = function_space(alloc, notes, decls)?;
    let procedures = procedure_space(alloc, notes, decls)?;
    let globals = global_names(alloc, decls)?;
    let changes = changes(alloc, &values, globals.len(), decls)?;
    Ok(Space {
        types,
        values,
        functions,
        procedures,
        globals,
        changes,
    })
}
