//! The ordinary places of an implementation that aren't proved.
ghost use Rattle.std.specs.Prelude.{◌≡◌, ◌++◌, OnOk, map, length, flat_map};
ghost use Rattle.bg_ast.specs.Views.{impl_of};
ghost use Rattle.bg_places.specs.Views.{placed_of};
ghost use Rattle.bg_kinds.specs.Views.{ref_in};
ghost use Rattle.bg_scalar.specs.Choices.{choice_of};
ghost use Rattle.bg_check.specs.Kept.{why_of, told_kept};
ghost use Rattle.bg_check.specs.Outcomes.{verdict_of};
ghost use Rattle.bg_told.specs.Places.{counterexample_text, refuted_text, unknown_text, verdict_text};
ghost use Rattle.bg_told.specs.Sheets.{head_of};
ghost use Rattle.bg_told.specs.Entries.{names_for, interp_by, entry_by, split_verdict, shown_text};

use crate::choices::put_choices;
use crate::declared::Declarations;
use crate::functions::put_functions;
use crate::kept::put_cause;
use crate::place::put_told;
use crate::values::{Values, behind, front, put_constants, put_entry};
use crate::word::{Word, is_ordinary};
use bg_ast::resolved::Implementation;
use bg_check::{Judged, Kept, Verdict, kept_of};
use bg_model::Counterexample;
use bg_places::Place;
use std::alloc::AllocError;

/// The values of the constants, the tables of the functions, the entry values and the choices of a counterexample.
pub fn put_counterexample(
    out: &mut Vec<u8>,
    declared: Declarations<'_>,
    implementation: &Implementation,
    cex: &Counterexample,
) -> Result<(), AllocError>
    ensures { OnOk result (out.new.items ≡ out.old.items ++ counterexample_text (names_for declared.entry (head_of (impl_of implementation.now))) (interp_by (length declared.entry.globals.now) cex.now) (entry_by (length declared.entry.globals.now) cex.now) (map ref_in cex.now.kinds.items) (map choice_of cex.now.choices.items)) }
{
    let count = declared.globals.len();
    put_constants(
        out,
        declared.types,
        declared.constants,
        behind(&cex.globals, count),
    )?;
    put_functions(
        out,
        declared.types,
        declared.functions,
        declared.bodies,
        &cex.tables,
    )?;
    let values = Values {
        globals: front(&cex.globals, count),
        frame: &cex.frame,
    };
    put_entry(
        out,
        declared.types,
        declared.globals,
        implementation,
        values,
    )?;
    put_choices(out, declared.types, &cex.kinds, &cex.choices)?;
    Ok(())
}

/// A refuted place.
fn put_refuted(
    out: &mut Vec<u8>,
    declared: Declarations<'_>,
    implementation: &Implementation,
    place: &Place,
    cex: &Counterexample,
) -> Result<(), AllocError>
    ensures { OnOk result (out.new.items ≡ out.old.items ++ refuted_text (names_for declared.entry (head_of (impl_of implementation.now))) (placed_of place.now) (interp_by (length declared.entry.globals.now) cex.now) (entry_by (length declared.entry.globals.now) cex.now) (map ref_in cex.now.kinds.items) (map choice_of cex.now.choices.items)) }
{
    put_told(out, Word::Refuted, place)?;
    out.push(b'\n')?;
    put_counterexample(out, declared, implementation, cex)
}

/// An unknown place.
fn put_unknown(out: &mut Vec<u8>, place: &Place, kept: Kept) -> Result<(), AllocError>
    ensures { OnOk result (out.new.items ≡ out.old.items ++ unknown_text (placed_of place.now) (told_kept kept)) }
{
    put_told(out, Word::Unknown, place)?;
    put_cause(out, kept)
}

fn put_verdict(
    out: &mut Vec<u8>,
    declared: Declarations<'_>,
    implementation: &Implementation,
    place: &Place,
    verdict: &Verdict,
) -> Result<(), AllocError>
    ensures { OnOk result (out.new.items ≡ out.old.items ++ verdict_text (names_for declared.entry (head_of (impl_of implementation.now))) (placed_of place.now) (split_verdict (length declared.entry.globals.now) (verdict_of why_of verdict.now))) }
{
    match verdict {
        Verdict::Proved(_) => Ok(()),
        Verdict::Refuted(cex) => put_refuted(out, declared, implementation, place, cex),
        Verdict::Unknown(rounds, cause) => put_unknown(out, place, kept_of(rounds, cause)),
        Verdict::Left(kept) => put_unknown(out, place, *kept),
    }
}

/// What is told of a place: nothing where it is proved or isn't ordinary.
fn put_judged(
    out: &mut Vec<u8>,
    declared: Declarations<'_>,
    implementation: &Implementation,
    of: &Judged,
) -> Result<(), AllocError>
    ensures { OnOk result (out.new.items ≡ out.old.items ++ shown_text (names_for declared.entry (head_of (impl_of implementation.now))) (length declared.entry.globals.now) of.now) }
{
    if is_ordinary(&of.place) {
        put_verdict(out, declared, implementation, &of.place, &of.verdict)
    } else {
        Ok(())
    }
}

/// The ordinary places of an implementation that aren't proved, in order.
pub fn put_places(
    out: &mut Vec<u8>,
    declared: Declarations<'_>,
    implementation: &Implementation,
    judged: &[Judged],
) -> Result<(), AllocError>
    ensures { OnOk result (out.new.items ≡ out.old.items ++ flat_map (shown_text (names_for declared.entry (head_of (impl_of implementation.now))) (length declared.entry.globals.now)) judged.now) }
{
    for of in judged {
        put_judged(out, declared, implementation, of)?;
    }
    Ok(())
}
