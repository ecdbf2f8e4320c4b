//! Constants, candidates and globals of a program, in order, with what each is.
ghost use Rattle.std.specs.Prelude.{◌≡◌, ◌+◌, ◌++◌, length, map, IfOk, IfErr, OnOk};
ghost use Rattle.bg_text.specs.Views as v;
ghost use Rattle.bg_text.specs.Trees as t;
ghost use Rattle.bg_spaces.specs.Declarations.{numbered, entries_of, entries_from, counts_after, no_counts, vars_ids, ids_in, global_ids_of, global_ids, text_of};
ghost use Rattle.bg_names.specs.declared.scope.Meaning.TheVariants as means;
ghost use Rattle.bg_names.specs.Views.{id_in};
ghost use Rattle.bg_spaces.specs.Views.{entry_of};
ghost use Rattle.bg_names.specs.declared.error.ResolveError.TheVariants.{Memory};
ghost use Rattle.bg_spaces.specs.SpaceViews.{counts_of};

use crate::tables::push_groups;
use crate::values::{Entry, Sort, are_candidates, push_numbered};
use bg_names::error::ResolveError;
use bg_names::names::number;
use bg_names::scope::Meaning;
use bg_text::{Constants, Decl, Formals, Name, Variables};
use std::alloc::Global;

/// How many constants, candidates and globals there are so far.
#[derive(Clone, Copy)]
pub struct Tally {
    pub constants: usize,
    pub candidates: usize,
    pub globals: usize,
}

/// Adds constants or candidates.
fn push_constants<'a>(
    out: &mut Vec<Entry<'a>>,
    tally: &mut Tally,
    c: &'a Constants,
) -> Result<(), ResolveError>
    ensures entries { OnOk result (map entry_of out.new.items ≡ map entry_of out.old.items ++ entries_of (counts_of tally.old) (t.Constants (v.consts_of c.now))) }
    ensures counts { OnOk result (counts_of tally.new ≡ counts_after (counts_of tally.old) (t.Constants (v.consts_of c.now))) }
    ensures err { IfErr result (λ e. e ≡ Memory) }
{
    if are_candidates(c) {
        tally.candidates = push_numbered(out, Sort::Candidate, tally.candidates, &c.formals.names)?;
    } else {
        tally.constants = push_numbered(out, Sort::Constant, tally.constants, &c.formals.names)?;
    }
    Ok(())
}

/// Adds the names of groups.
pub fn push_ids<'a>(out: &mut Vec<&'a Name>, gs: &'a [Formals]) -> Result<(), ResolveError>
    ensures ok { OnOk result (map id_in out.new.items ≡ map id_in out.old.items ++ ids_in (map v.group_of gs.now)) }
    ensures err { IfErr result (λ e. e ≡ Memory) }
{
    push_groups(out, gs)
}

/// Adds the names of variables.
pub fn push_vars<'a>(out: &mut Vec<&'a Name>, x: &'a Variables) -> Result<(), ResolveError>
    ensures ok { OnOk result (map id_in out.new.items ≡ map id_in out.old.items ++ vars_ids (v.vars_of x.now)) }
    ensures err { IfErr result (λ e. e ≡ Memory) }
{
    push_ids(out, &x.groups)
}

/// Adds globals, and gives the next number.
fn number_globals<'a>(
    out: &mut Vec<Entry<'a>>,
    first: usize,
    names: &[&'a Name],
) -> Result<usize, ResolveError>
    ensures entries { OnOk result (map entry_of out.new.items ≡ map entry_of out.old.items ++ numbered (λ n. means.Global n) first (map id_in names.now)) }
    ensures next { IfOk result (λ n. n ≡ first + length (map id_in names.now)) }
    ensures err { IfErr result (λ e. e ≡ Memory) }
{
    let mut next = first;
    for name in names {
        let k = number(next)?;
        out.push(Entry {
            name: *name,
            meaning: Meaning::Global(k),
        })?;
        next += 1;
    }
    Ok(next)
}

/// Adds globals of one declaration.
fn push_globals<'a>(
    alloc: Global,
    out: &mut Vec<Entry<'a>>,
    tally: &mut Tally,
    x: &'a Variables,
) -> Result<(), ResolveError>
    ensures entries { OnOk result (map entry_of out.new.items ≡ map entry_of out.old.items ++ entries_of (counts_of tally.old) (t.Globals (v.vars_of x.now))) }
    ensures counts { OnOk result (counts_of tally.new ≡ counts_after (counts_of tally.old) (t.Globals (v.vars_of x.now))) }
    ensures err { IfErr result (λ e. e ≡ Memory) }
{
    let mut names = Vec::new(alloc);
    push_vars(&mut names, x)?;
    tally.globals = number_globals(out, tally.globals, &names)?;
    Ok(())
}

/// Adds what a declaration declares.
fn push_entries<'a>(
    alloc: Global,
    out: &mut Vec<Entry<'a>>,
    tally: &mut Tally,
    d: &'a Decl,
) -> Result<(), ResolveError>
    ensures entries { OnOk result (map entry_of out.new.items ≡ map entry_of out.old.items ++ entries_of (counts_of tally.old) (v.decl_of d.now)) }
    ensures counts { OnOk result (counts_of tally.new ≡ counts_after (counts_of tally.old) (v.decl_of d.now)) }
    ensures err { IfErr result (λ e. e ≡ Memory) }
{
    match d {
        Decl::Constants(c) => push_constants(out, tally, c),
        Decl::Variables(x) => push_globals(alloc, out, tally, x),
        _ => Ok(()),
    }
}

/// The constants, candidates and globals of a program. Errors: Memory.
pub fn entries<'a>(alloc: Global, decls: &'a [Decl]) -> Result<Vec<Entry<'a>>, ResolveError>
    ensures ok { IfOk result (λ es. map entry_of es.items ≡ entries_from no_counts (map v.decl_of decls.now)) }
    ensures err { IfErr result (λ e. e ≡ Memory) }
{
    let mut out = Vec::new(alloc);
    let mut tally = Tally {
        constants: 0,
        candidates: 0,
        globals: 0,
    };
    for d in decls {
        push_entries(alloc, &mut out, &mut tally, d)?;
    }
    Ok(out)
}

/// Adds the globals that a declaration declares.
fn push_global_names<'a>(out: &mut Vec<&'a Name>, d: &'a Decl) -> Result<(), ResolveError>
    ensures ok { OnOk result (map id_in out.new.items ≡ map id_in out.old.items ++ global_ids_of (v.decl_of d.now)) }
    ensures err { IfErr result (λ e. e ≡ Memory) }
{
    match d {
        Decl::Variables(x) => push_vars(out, x),
        _ => Ok(()),
    }
}

/// The names of names.
fn texts<'a>(alloc: Global, names: &[&'a Name]) -> Result<Vec<&'a [u8]>, ResolveError>
    ensures ok { IfOk result (λ xs. map (λ x. x.now) xs.items ≡ map text_of (map id_in names.now)) }
    ensures err { IfErr result (λ e. e ≡ Memory) }
{
    let mut out = Vec::new(alloc);
    for name in names {
        out.push((*name).text.as_slice())?;
    }
    Ok(out)
}

/// The names of the globals. Errors: Memory.
pub fn global_names<'a>(alloc: Global, decls: &'a [Decl]) -> Result<Vec<&'a [u8]>, ResolveError>
    ensures ok { IfOk result (λ xs. map (λ x. x.now) xs.items ≡ map text_of (global_ids (map v.decl_of decls.now))) }
    ensures err { IfErr result (λ e. e ≡ Memory) }
{
    let mut names = Vec::new(alloc);
    for d in decls {
        push_global_names(&mut names, d)?;
    }
    texts(alloc, &names)
}
