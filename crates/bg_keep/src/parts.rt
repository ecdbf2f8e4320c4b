//! What is kept of specifications.
ghost use Rattle.std.specs.Prelude.{◌≡◌, ◌++◌, drop, map, IfOk, OnOk};
ghost use Rattle.bg_text.specs.Trees as t;
ghost use Rattle.bg_text.specs.Views as v;
ghost use Rattle.bg_text.specs.Views.{option_of as optional};
ghost use Rattle.bg_ast.specs.Views.{candidate_of, clause_of};
ghost use Rattle.bg_keep.specs.Guesses.{kept_guesses, names_of};
ghost use Rattle.bg_keep.specs.Told as s;

use crate::clauses::{behind, candidate_at, kept_clause, next_clause};
use crate::guesses::{Names, push_ensured, push_required};
use bg_ast::resolved::Clause;
use bg_base::{CandId, Pos};
use bg_text::{Spec, TreeClause};
use bg_words::CandSet;
use std::alloc::{AllocError, Global};

/// The preconditions and the postconditions of a procedure.
#[derive(Clone, Copy)]
pub struct Clauses<'a> {
    pub requires_: &'a [Clause],
    pub ensures_: &'a [Clause],
}

/// How many preconditions and how many postconditions are behind.
#[derive(Clone, Copy)]
struct Behind {
    requires_: usize,
    ensures_: usize,
}

/// Adds what is kept of a precondition.
fn push_requires(
    alloc: Global,
    set: &CandSet,
    candidate: Option<CandId>,
    k: TreeClause,
    out: &mut Vec<Spec>,
) -> Result<(), AllocError>
    ensures { OnOk result (map v.spec_of out.new.items ≡ map v.spec_of out.old.items ++ map t.Requires (s.told_clause set.now (optional candidate_of candidate) (v.clause_of k))) }
{
    if let Some(kept) = kept_clause(alloc, set, candidate, k)? {
        out.push(Spec::Requires(kept))?;
    }
    Ok(())
}

/// Adds what is kept of a postcondition.
fn push_ensures(
    alloc: Global,
    set: &CandSet,
    candidate: Option<CandId>,
    k: TreeClause,
    out: &mut Vec<Spec>,
) -> Result<(), AllocError>
    ensures { OnOk result (map v.spec_of out.new.items ≡ map v.spec_of out.old.items ++ map t.Ensures (s.told_clause set.now (optional candidate_of candidate) (v.clause_of k))) }
{
    if let Some(kept) = kept_clause(alloc, set, candidate, k)? {
        out.push(Spec::Ensures(kept))?;
    }
    Ok(())
}

/// What is behind, once this part is too.
fn passed(clauses: &Clauses<'_>, at: Behind, part: &Spec) -> Behind
    ensures requires_ { drop result.requires_ (map clause_of clauses.now.requires_.now) ≡ drop (s.requires_count (v.spec_of part.now)) (drop at.requires_ (map clause_of clauses.now.requires_.now)) }
    ensures ensures_ { drop result.ensures_ (map clause_of clauses.now.ensures_.now) ≡ drop (s.ensures_count (v.spec_of part.now)) (drop at.ensures_ (map clause_of clauses.now.ensures_.now)) }
{
    match part {
        Spec::Requires(_) => Behind {
            requires_: next_clause(clauses.requires_, at.requires_),
            ensures_: at.ensures_,
        },
        Spec::Ensures(_) => Behind {
            requires_: at.requires_,
            ensures_: next_clause(clauses.ensures_, at.ensures_),
        },
        Spec::Modifies(_, _) => at,
    }
}

/// Adds what is kept of a part of a specification.
fn push_part(
    alloc: Global,
    set: &CandSet,
    clauses: &Clauses<'_>,
    at: Behind,
    part: Spec,
    out: &mut Vec<Spec>,
) -> Result<(), AllocError>
    ensures { OnOk result (map v.spec_of out.new.items ≡ map v.spec_of out.old.items ++ s.told_spec set.now (drop at.requires_ (map clause_of clauses.now.requires_.now)) (drop at.ensures_ (map clause_of clauses.now.ensures_.now)) (v.spec_of part)) }
{
    match part {
        Spec::Requires(k) => {
            push_requires(
                alloc,
                set,
                candidate_at(clauses.requires_, at.requires_),
                k,
                out,
            )
        }
        Spec::Ensures(k) => {
            push_ensures(
                alloc,
                set,
                candidate_at(clauses.ensures_, at.ensures_),
                k,
                out,
            )
        }
        Spec::Modifies(pos, names) => {
            out.push(Spec::Modifies(pos, names))?;
            Ok(())
        }
    }
}

/// Adds what is kept of the guesses behind these clauses.
fn push_guesses(
    alloc: Global,
    set: &CandSet,
    names: &Names<'_>,
    clauses: &Clauses<'_>,
    at: Behind,
    out: &mut Vec<Spec>,
) -> Result<(), AllocError>
    ensures { OnOk result (map v.spec_of out.new.items ≡ map v.spec_of out.old.items ++ (map t.Requires (kept_guesses set.now (names_of names.now) (drop at.requires_ (map clause_of clauses.now.requires_.now))) ++ map t.Ensures (kept_guesses set.now (names_of names.now) (drop at.ensures_ (map clause_of clauses.now.ensures_.now))))) }
{
    push_required(
        alloc,
        set,
        names,
        behind(clauses.requires_, at.requires_),
        out,
    )?;
    push_ensured(
        alloc,
        set,
        names,
        behind(clauses.ensures_, at.ensures_),
        out,
    )
}

/// What is kept of the parts of a specification, which are taken from their places, and of the guesses behind them.
pub fn kept_parts(
    alloc: Global,
    set: &CandSet,
    names: &Names<'_>,
    clauses: &Clauses<'_>,
    parts: &mut [Spec],
) -> Result<Vec<Spec>, AllocError>
    ensures { IfOk result (λ made. map v.spec_of made.items ≡ s.told_specs set.now (names_of names.now) (map clause_of clauses.now.requires_.now) (map clause_of clauses.now.ensures_.now) (map v.spec_of parts.old)) }
{
    let mut made = Vec::new(alloc);
    let mut at = Behind {
        requires_: 0,
        ensures_: 0,
    };
    for i in 0..parts.len() {
        let blank = Spec::Modifies(Pos { line: 0, column: 0 }, Vec::new(alloc));
        let part = std::mem::replace(&mut parts[i], blank);
        let after = passed(clauses, at, &part);
        push_part(alloc, set, clauses, at, part, &mut made)?;
        at = after;
    }
    push_guesses(alloc, set, names, clauses, at, &mut made)?;
    Ok(made)
}
