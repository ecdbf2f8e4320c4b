//! What lists are made of, and the lists of procedures and implementations.
ghost use Rattle.std.specs.Prelude.{◌≡◌, false, map, replicate, get_or, IfOk};
ghost use Rattle.bg_ast.specs.Views.{proc_of, impl_of};
ghost use Rattle.bg_guess.specs.Claims.{nothing, subjects_of};
ghost use Rattle.bg_guess.specs.Lists.{sight_of};
ghost use Rattle.bg_guess.specs.Guessed as s;
ghost use Rattle.bg_guess.specs.Views.{survey_view};

use crate::claim::Subjects;
use crate::frame::{Base, Frame, Sight, subjects};
use bg_ast::resolved::{Implementation, Procedure};
use std::alloc::{AllocError, Global};

/// What lists are made of: the globals, a mark for each procedure that an implementation of another one calls, and one for each that
/// has an implementation.
#[derive(Drop)]
pub struct Survey<'a> {
    pub base: Base<'a>,
    pub called: Vec<bool>,
    pub implemented: Vec<bool>,
}

/// Whether there is a mark at this number.
fn mark_at(marks: &[bool], k: usize) -> bool
    ensures { result ≡ get_or marks.now k false }
{
    match marks.get(k) {
        None => false,
        Some(mark) => *mark,
    }
}

/// A list without guesses.
fn nothing(alloc: Global) -> Subjects
    ensures { subjects_of result ≡ nothing }
{
    Subjects {
        numbers: Vec::new(alloc),
        kept: Vec::new(alloc),
    }
}

/// Preconditions see parameters.
fn requires_sight<'q>(q: &'q Procedure) -> Sight<'q>
    ensures { sight_of result ≡ s.requires_sight (proc_of q.now) }
{
    let seen = Frame {
        params: &q.params,
        results: &[],
        locals: &[],
    };
    Sight {
        names: seen,
        types: seen,
        modifies: &[],
    }
}

/// Postconditions see results too, and what their procedure modifies may have changed.
fn ensures_sight<'q>(q: &'q Procedure) -> Sight<'q>
    ensures { sight_of result ≡ s.ensures_sight (proc_of q.now) }
{
    let seen = Frame {
        params: &q.params,
        results: &q.results,
        locals: &[],
    };
    Sight {
        names: seen,
        types: seen,
        modifies: &q.modifies,
    }
}

/// Invariants see locals too; the names of the frame are the implementation's own.
fn loop_sight<'q>(q: &'q Procedure, m: &'q Implementation) -> Sight<'q>
    ensures { sight_of result ≡ s.loop_sight (proc_of q.now) (impl_of m.now) }
{
    Sight {
        names: Frame {
            params: &m.params,
            results: &m.results,
            locals: &m.locals,
        },
        types: Frame {
            params: &q.params,
            results: &q.results,
            locals: &m.locals,
        },
        modifies: &q.modifies,
    }
}

/// Of what the guesses behind the preconditions of a procedure speak: there are some only where another one calls it.
pub fn required(
    alloc: Global,
    v: &Survey<'_>,
    k: usize,
    q: &Procedure,
) -> Result<Subjects, AllocError>
    ensures { IfOk result (λ made. subjects_of made ≡ s.required (survey_view v.now) k (proc_of q.now)) }
{
    if mark_at(&v.called, k) {
        subjects(alloc, &v.base, &requires_sight(q))
    } else {
        Ok(nothing(alloc))
    }
}

/// And those behind its postconditions, only where it has an implementation.
pub fn ensured(
    alloc: Global,
    v: &Survey<'_>,
    k: usize,
    q: &Procedure,
) -> Result<Subjects, AllocError>
    ensures { IfOk result (λ made. subjects_of made ≡ s.ensured (survey_view v.now) k (proc_of q.now)) }
{
    if mark_at(&v.implemented, k) {
        subjects(alloc, &v.base, &ensures_sight(q))
    } else {
        Ok(nothing(alloc))
    }
}

/// And those of the loops of an implementation of this procedure.
pub fn invariant(
    alloc: Global,
    v: &Survey<'_>,
    q: &Procedure,
    m: &Implementation,
) -> Result<Subjects, AllocError>
    ensures { IfOk result (λ made. subjects_of made ≡ s.invariant (survey_view v.now) (proc_of q.now) (impl_of m.now)) }
{
    subjects(alloc, &v.base, &loop_sight(q, m))
}
