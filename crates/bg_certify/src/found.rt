//! The certificates that an outcome has for places.
ghost use Rattle.std.specs.Prelude.{◌≡◌, Some, None, [], drop, slice_get};
ghost use Rattle.bg_text.specs.Views.{option_of};
ghost use Rattle.bg_ast.specs.Views.{candidate_of};
ghost use Rattle.bg_words.specs.Sets.{has};
ghost use Rattle.bg_certify.specs.Found.{shown_if, cert_judged, cert_for, kept_behind, judged_behind};
ghost use Rattle.bg_certify.specs.Seen.{seen_as};

use bg_base::CandId;
use bg_cert::Cert;
use bg_check::{Judged, Proof, Verdict};
use bg_houdini::{Outcome, Reason};
use bg_rounds::Kept;
use bg_term_table::Line;

/// A certificate of a place's clauses behind lines.
#[derive(Clone, Copy)]
pub(crate) struct Found<'o> {
    pub(crate) lines: &'o [Line],
    pub(crate) cert: &'o Cert,
}

/// The certificate, where it is kept.
fn found_in<'o>(proof: &'o Option<Proof>) -> Option<Found<'o>>
    ensures { option_of seen_as result ≡ shown_if proof.now }
{
    match proof {
        Some(proof) => Some(Found {
            lines: proof.lines.as_slice(),
            cert: &proof.cert,
        }),
        None => None,
    }
}

/// The kept certificate of a task, where its candidate is retained.
fn kept_cert<'o>(
    inferred: &'o bg_rounds::Outcome<Option<Proof>, Reason>,
    b: CandId,
    task: usize,
) -> Option<Found<'o>>
    ensures { option_of seen_as result ≡ cert_for (has inferred.now.retained) (drop task inferred.now.kept.items) [] (Some b.0) }
{
    if b.0 >= inferred.retained.declared() || !inferred.retained.has(b) {
        return None;
    }
    match inferred.kept.get(task) {
        Some(Some(kept)) => found_in(&kept.proof),
        _ => None,
    }
}

/// The certificate of a verdict, where it says that the place is proved and has it.
fn proved_cert<'o>(judged: &'o [Judged], ordinary: usize) -> Option<Found<'o>>
    ensures { option_of seen_as result ≡ cert_judged (slice_get (drop ordinary judged.now) 0) }
{
    match judged.get(ordinary) {
        Some(one) => match &one.verdict {
            Verdict::Proved(proof) => found_in(proof),
            _ => None,
        },
        None => None,
    }
}

/// The certificate that an outcome has for a place of this candidate or of none, where so many tasks and ordinary places of its
/// implementation are before it.
pub(crate) fn found_for<'o>(
    outcome: &'o Outcome,
    judged: &'o [Judged],
    candidate: Option<CandId>,
    task: usize,
    ordinary: usize,
) -> Option<Found<'o>>
    ensures { option_of seen_as result ≡ cert_for (has outcome.now.inferred.retained) (drop task outcome.now.inferred.kept.items) (drop ordinary judged.now) (option_of candidate_of candidate) }
{
    match candidate {
        Some(b) => kept_cert(&outcome.inferred, b, task),
        None => proved_cert(judged, ordinary),
    }
}

/// The task behind a place of this candidate, or of none.
pub(crate) fn next_task(
    kept: &[Option<Kept<Option<Proof>>>],
    candidate: Option<CandId>,
    task: usize,
) -> usize
    ensures { drop result kept.now ≡ kept_behind (option_of candidate_of candidate) (drop task kept.now) }
{
    match candidate {
        Some(_) if task < kept.len() => task + 1,
        _ => task,
    }
}

/// The ordinary place behind a place of this candidate, or of none.
pub(crate) fn next_ordinary(judged: &[Judged], candidate: Option<CandId>, ordinary: usize) -> usize
    ensures { drop result judged.now ≡ judged_behind (option_of candidate_of candidate) (drop ordinary judged.now) }
{
    match candidate {
        None if ordinary < judged.len() => ordinary + 1,
        _ => ordinary,
    }
}
