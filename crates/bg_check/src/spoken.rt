//! Where to look first at a leaf of a place's clauses.
use crate::claimed::{OfClaim, claimed};
use crate::relevant::relevant;
use bg_formula::Clauses;
use bg_task::{Lined, Question};
use bg_term_table::Line;
use bg_wanted::Hints;
use std::alloc::{AllocError, Global};

/// Of which incarnations and terms behind lines a place's claim speaks, and of which its clauses.
#[derive(Drop)]
pub struct Spoken {
    claim: OfClaim,
    clauses: Vec<bool>,
    further: bool,
}

/// The same of the place of a question, which has these clauses.
pub fn spoken_of(
    alloc: Global,
    question: Question<'_, '_>,
    lines: &[Line],
    f: &Clauses,
    lined: &Lined<'_>,
) -> Result<Spoken, AllocError> {
    let clauses = relevant(alloc, f, &lined.sorts, &lined.terms)?;
    let claim = claimed(alloc, question, lines, &lined.terms, clauses.len())?;
    let further = !lines.is_empty();
    Ok(Spoken {
        claim,
        clauses,
        further,
    })
}

/// The same where there are no clauses yet: of which its claim speaks.
pub fn claim_behind(
    alloc: Global,
    question: Question<'_, '_>,
    lines: &[Line],
    lined: &Lined<'_>,
) -> Result<Spoken, AllocError> {
    let claim = claimed(alloc, question, lines, &lined.terms, lined.sorts.len())?;
    let further = !lines.is_empty();
    Ok(Spoken {
        claim,
        clauses: Vec::new(alloc),
        further,
    })
}

/// Whether a claim reads terms, which stand behind so many incarnations, or says that two of all that is there are equal.
pub fn speaks_of_terms(spoken: &Spoken, count: usize) -> bool {
    for (j, b) in spoken.claim.marks.iter().enumerate() {
        if *b && count <= j {
            return true;
        }
    }
    !spoken.claim.equal.is_empty()
}

/// What says where to look first at a leaf of a question's place, which speaks of these.
pub fn hints_of<'a>(question: Question<'a, '_>, spoken: &'a Spoken) -> Hints<'a> {
    Hints {
        beside: &question.prepared.beside,
        first: &spoken.claim.marks,
        marks: &spoken.clauses,
        equal: &spoken.claim.equal,
        further: spoken.further,
    }
}
