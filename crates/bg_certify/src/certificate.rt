//! The text of an outcome's certificate.
ghost use Rattle.std.specs.Prelude.{IfOk};
ghost use Rattle.bg_ast.specs.Resolved as r;
ghost use Rattle.bg_certify.specs.Names.{HasOwnNames};
ghost use Rattle.bg_certify.specs.Written.{IsTrueOf, IsCertText};

use crate::given::interp_by;
use crate::names::retained_names;
use crate::sections::sections;
use bg_cert::laws::accepted_where_used;
use bg_certtext::{CertText, is_spellable, write};
use bg_inference::Outcome;
use bg_places::laws::placed_are_places;
use std::alloc::{AllocError, Global};

/// The text of the certificate of an outcome: the values of the constants and the tables of the functions without a body that were
/// found to meet the axioms, the names of the retained candidates, and the certificate of each of their places and of each ordinary place
/// that is proved.
///
/// Only want of memory is an error; a number past 2^127 - 1 counts as such, a name that is no word, or of a type that has an exclamation
/// mark, a comma or a bracket: no name of a text is one; and what `bg_fits::written_kind` counts as such.
pub fn certificate_text(alloc: Global, outcome: &Outcome) -> Result<Vec<u8>, AllocError>
    requires { (p : r.Program) × IsTrueOf p outcome.now }
    ensures { IfOk result (λ text. (p : r.Program) → IsTrueOf p outcome.now → HasOwnNames p → IsCertText p outcome.now text.items) }
{
    placed_are_places();
    accepted_where_used();
    let program = &outcome.opened;
    let judged = &outcome.judged;
    let cert = CertText {
        interp: interp_by(alloc, outcome)?,
        retained: retained_names(
            alloc,
            program.candidates.as_slice(),
            &judged.inferred.retained,
        )?,
        sections: sections(alloc, program, judged)?,
    };
    if is_spellable(&cert) {
        write(alloc, &cert)
    } else {
        Err(AllocError)
    }
}
