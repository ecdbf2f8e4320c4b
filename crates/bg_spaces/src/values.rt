//! Constants, candidates and globals, in order, with what each is.
ghost use Rattle.std.specs.Prelude.{◌≡◌, ◌+◌, ◌++◌, [], length, map, not, IfOk, IfErr, OnOk};
ghost use Rattle.std.specs.List.{list_any};
ghost use Rattle.bg_text.specs.Views as v;
ghost use Rattle.bg_spaces.specs.Declarations.{is_existential, is_only_true, is_true, existential, are_candidates, numbered, if_new, meanings_from, entry_id};
ghost use Rattle.bg_names.specs.Faults.{better, unless, fault};
ghost use Rattle.bg_names.specs.Spaces.{has_name, with_name, with_names, repeats};
ghost use Rattle.bg_names.specs.declared.error.FaultKind.TheVariants as kinds;
ghost use Rattle.bg_spaces.specs.Views.{entry_of, meaning_as};
ghost use Rattle.bg_names.specs.Views.{listed, first_of};
ghost use Rattle.bg_names.specs.declared.error.ResolveError.TheVariants.{Memory};

use bg_names::changes::note_repeat;
use bg_names::error::ResolveError;
use bg_names::names::{Names, has_name, no_names, number};
use bg_names::notes::Notes;
use bg_names::scope::Meaning;
use bg_text::{Attribute, AttributeArg, Constants, Formals, Name, TreeExpr};
use std::alloc::Global;

/// What a name is declared as.
#[derive(Clone, Copy, PartialEq, Eq, Debug)]
pub enum Sort {
    Constant,
    Candidate,
    Global,
}

/// A name, with what it is.
#[derive(Clone, Copy)]
pub struct Entry<'a> {
    pub name: &'a Name,
    pub meaning: Meaning,
}

fn is_true(arg: &AttributeArg) -> bool
    ensures { result ≡ is_true (v.arg_of arg.now) }
{
    match arg {
        AttributeArg::Formula(TreeExpr::Truth(_, b)) => *b,
        _ => false,
    }
}

fn is_only_true(args: &[AttributeArg]) -> bool
    ensures { result ≡ is_only_true (map v.arg_of args.now) }
{
    match args {
        [arg] => is_true(arg),
        _ => false,
    }
}

fn is_existential(attribute: &Attribute) -> bool
    ensures { result ≡ is_existential (v.attr_of attribute.now) }
{
    attribute.name.text.as_slice() == b"existential".as_slice() && is_only_true(&attribute.args)
}

fn has_existential(attributes: &[Attribute]) -> bool
    ensures { result ≡ list_any is_existential (map v.attr_of attributes.now) }
{
    for a in attributes {
        if is_existential(a) {
            return true;
        }
    }
    false
}

/// Whether constants are candidates.
pub fn are_candidates(c: &Constants) -> bool
    ensures { result ≡ are_candidates (v.consts_of c.now) }
{
    has_existential(&c.formals.attributes)
}

fn meaning_as(sort: Sort, k: u32) -> Meaning
    ensures { result ≡ meaning_as sort k }
{
    match sort {
        Sort::Constant => Meaning::Constant(k),
        Sort::Candidate => Meaning::Candidate(k),
        Sort::Global => Meaning::Global(k),
    }
}

/// Adds names of one sort, and gives the next number. Errors: Memory.
pub fn push_numbered<'a>(
    out: &mut Vec<Entry<'a>>,
    sort: Sort,
    first: usize,
    names: &'a [Name],
) -> Result<usize, ResolveError>
    ensures entries { OnOk result (map entry_of out.new.items ≡ map entry_of out.old.items ++ numbered (meaning_as sort) first (map v.id_of names.now)) }
    ensures next { IfOk result (λ n. n ≡ first + length names.now) }
    ensures err { IfErr result (λ e. e ≡ Memory) }
{
    let mut next = first;
    for name in names {
        let k = number(next)?;
        out.push(Entry {
            name,
            meaning: meaning_as(sort, k),
        })?;
        next += 1;
    }
    Ok(next)
}

/// A name with what it is; a second declaration is a fault.
fn note_entry<'a>(
    names: &mut Names<'a>,
    meanings: &mut Vec<Meaning>,
    notes: &mut Notes<'a>,
    name: &'a Name,
    meaning: Meaning,
) -> Result<(), ResolveError>
    ensures names { OnOk result (listed names.new ≡ with_name (listed names.old) name.now.text.items) }
    ensures meanings { OnOk result (meanings.new.items ≡ meanings.old.items ++ if_new (has_name (listed names.old) name.now.text.items) meaning) }
    ensures first { OnOk result (first_of notes.new ≡ better (first_of notes.old) (unless (not (has_name (listed names.old) name.now.text.items)) (fault kinds.Duplicate name.now.pos name.now.text.items))) }
    ensures err { IfErr result (λ e. e ≡ Memory) }
{
    if !has_name(names, &name.text) {
        meanings.push(meaning)?;
    }
    note_repeat(names, notes, name)
}

/// What constants, candidates and globals are.
#[derive(Drop)]
pub struct Values<'a> {
    pub names: Names<'a>,
    pub meanings: Vec<Meaning>,
}

/// Names with what they are, each once; a second declaration is a fault. Errors: Memory.
pub fn declare_values<'a>(
    alloc: Global,
    notes: &mut Notes<'a>,
    entries: &[Entry<'a>],
) -> Result<Values<'a>, ResolveError>
    ensures names { IfOk result (λ x. listed x.names ≡ with_names [] (map entry_id (map entry_of entries.now))) }
    ensures meanings { IfOk result (λ x. x.meanings.items ≡ meanings_from [] (map entry_of entries.now)) }
    ensures first { OnOk result (first_of notes.new ≡ better (first_of notes.old) (repeats [] (map entry_id (map entry_of entries.now)))) }
    ensures err { IfErr result (λ e. e ≡ Memory) }
{
    let mut names = no_names(alloc);
    let mut meanings = Vec::new(alloc);
    for e in entries {
        note_entry(&mut names, &mut meanings, notes, e.name, e.meaning)?;
    }
    Ok(Values { names, meanings })
}
