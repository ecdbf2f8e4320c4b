//! The report.
ghost use Rattle.std.specs.Prelude.{◌≡◌, ◌++◌, OnOk, IfOk, codes, length, map};
ghost use Rattle.bg_ast.specs.Meaning.{meaning_of};
ghost use Rattle.bg_ast.specs.Resolved.{Program};
ghost use Rattle.bg_ast.specs.Views.{impl_of};
ghost use Rattle.bg_carried.specs.Carried.{axioms_by};
ghost use Rattle.bg_check.specs.Kept.{why_of, told_kept};
ghost use Rattle.bg_check.specs.Verdicts.{judged};
ghost use Rattle.bg_check.specs.Outcomes.{verdict_of, told};
ghost use Rattle.bg_inference.specs.Told.{outcome_of};
ghost use Rattle.bg_lines.specs.Lines.{line};
ghost use Rattle.bg_sound.specs.Told as t;
ghost use Rattle.bg_told.specs.Entries.{outer_in, split_all, IsOf};
ghost use Rattle.bg_told.specs.Fates.{told_fate};
ghost use Rattle.bg_told.specs.Lines.{texts};
ghost use Rattle.bg_told.specs.Report.{axioms_text, head_text, implementation_text, count_text, summary_text, result_text, bench_line, bench_text};
ghost use Rattle.bg_told.specs.Sheets.{head_of, sheet_of};
ghost use Rattle.bg_told.specs.Views.{told_word};

use crate::candidates::{put_candidates, put_fates_count, put_set};
use crate::declared::{Declarations, declared_in};
use crate::fates::{Fate, fates_of, is_greatest};
use crate::kept::put_cause_word;
use crate::places::put_places;
use crate::put::put_word;
use crate::word::{Word, count_of, implementation_word};
use bg_ast::resolved::Implementation;
use bg_check::{Judged, Kept, Verdict, kept_of};
use bg_inference::Outcome;
use bg_lines::{put_number, put_position};
use bg_opened::laws::{opened_programs_have_the_same_places, written_programs_are_opened};
use std::alloc::{AllocError, Global};

fn put_head(
    out: &mut Vec<u8>,
    implementation: &Implementation,
    word: Word,
) -> Result<(), AllocError>
    ensures { OnOk result (out.new.items ≡ out.old.items ++ head_text (head_of (impl_of implementation.now)) (told_word word)) }
{
    out.extend_from_slice(b"implementation ")?;
    out.extend_from_slice(&implementation.name.text)?;
    out.push(b' ')?;
    put_position(out, implementation.pos)?;
    out.push(b' ')?;
    put_word(out, word)?;
    out.push(b'\n')?;
    Ok(())
}

/// An implementation, and its ordinary places that aren't proved.
fn put_implementation(
    out: &mut Vec<u8>,
    declared: Declarations<'_>,
    implementation: &Implementation,
    judged: &[Judged],
) -> Result<(), AllocError>
    ensures { OnOk result (out.new.items ≡ out.old.items ++ implementation_text (outer_in declared.entry) (head_of (impl_of implementation.now)) (split_all (length declared.entry.globals.now) judged.now)) }
{
    put_head(out, implementation, implementation_word(judged))?;
    put_places(out, declared, implementation, judged)?;
    Ok(())
}

fn put_implementations(
    out: &mut Vec<u8>,
    declared: Declarations<'_>,
    implementations: &[Implementation],
    outcome: &[Vec<Judged>],
) -> Result<(), AllocError>
    ensures { OnOk result (out.new.items ≡ out.old.items ++ texts (implementation_text (outer_in declared.entry)) (map head_of (map impl_of implementations.now)) (map (split_all (length declared.entry.globals.now)) (judged outcome.now))) }
{
    for (i, implementation) in implementations.iter().enumerate() {
        if i >= outcome.len() {
            return Ok(());
        }
        put_implementation(out, declared, implementation, &outcome[i])?;
    }
    Ok(())
}

/// How many implementations have this word, and the word.
fn put_count(out: &mut Vec<u8>, outcome: &[Vec<Judged>], word: Word) -> Result<(), AllocError>
    ensures { OnOk result (out.new.items ≡ out.old.items ++ count_text (told_word word) (map (told why_of) (judged outcome.now))) }
{
    put_number(out, count_of(outcome, word) as u128)?;
    out.push(b' ')?;
    put_word(out, word)?;
    Ok(())
}

/// The numbers of candidates that are retained and dropped, and of implementations of each word.
fn put_summary(
    out: &mut Vec<u8>,
    fates: &[Fate],
    verdicts: &[Vec<Judged>],
) -> Result<(), AllocError>
    ensures { OnOk result ((o : t.Outcome) → o.fates ≡ map told_fate fates.now → map t.word_of o.implementations ≡ map t.word_of (map (told why_of) (judged verdicts.now)) → out.new.items ≡ out.old.items ++ summary_text o) }
{
    out.extend_from_slice(b"summary: ")?;
    put_fates_count(out, fates)?;
    put_count(out, verdicts, Word::Verified)?;
    out.extend_from_slice(b", ")?;
    put_count(out, verdicts, Word::Refuted)?;
    out.extend_from_slice(b", ")?;
    put_count(out, verdicts, Word::Unknown)?;
    out.push(b'\n')?;
    Ok(())
}

fn put_undecided(out: &mut Vec<u8>, kept: Kept) -> Result<(), AllocError>
    ensures { OnOk result (out.new.items ≡ out.old.items ++ axioms_text (t.Undecided (told_kept kept))) }
{
    out.extend_from_slice(b"unknown ")?;
    put_cause_word(out, kept)
}

fn put_axioms(out: &mut Vec<u8>, axioms: &Verdict) -> Result<(), AllocError>
    ensures { OnOk result (out.new.items ≡ out.old.items ++ axioms_text (axioms_by (verdict_of why_of axioms.now))) }
{
    match axioms {
        Verdict::Proved(_) => out.extend_from_slice(b"contradictory"),
        Verdict::Refuted(_) => out.extend_from_slice(b"consistent"),
        Verdict::Unknown(rounds, cause) => put_undecided(out, kept_of(rounds, cause)),
        Verdict::Left(kept) => put_undecided(out, *kept),
    }
}

/// The line of the axioms.
fn put_axioms_line(out: &mut Vec<u8>, axioms: &Verdict) -> Result<(), AllocError>
    ensures { OnOk result (out.new.items ≡ out.old.items ++ line (codes "axioms: " ++ axioms_text (axioms_by (verdict_of why_of axioms.now)))) }
{
    out.extend_from_slice(b"axioms: ")?;
    put_axioms(out, axioms)?;
    out.extend_from_slice(b"\n")
}

/// The lines of the implementations.
fn put_judged(out: &mut Vec<u8>, outcome: &Outcome) -> Result<(), AllocError>
    ensures { OnOk result ((p : Program) → IsOf p outcome.now → out.new.items ≡ out.old.items ++ texts (implementation_text (sheet_of p).outer) (sheet_of p).implementations (outcome_of why_of (meaning_of p) outcome.now).implementations) }
{
    let declared = declared_in(outcome);
    put_implementations(
        out,
        declared,
        &outcome.opened.implementations,
        &outcome.judged.verdicts,
    )
}

/// What became of each candidate.
fn fates_in(alloc: Global, outcome: &Outcome) -> Result<Vec<Fate>, AllocError>
    ensures { IfOk result (λ made. (p : Program) → IsOf p outcome.now → map told_fate made.items ≡ (outcome_of why_of (meaning_of p) outcome.now).fates) }
{
    opened_programs_have_the_same_places();
    written_programs_are_opened();
    fates_of(alloc, &outcome.opened, &outcome.judged)
}

/// The report of what an inference comes to: whether the axioms are consistent; a line for each candidate by declaration, with what became
/// of it; whether the retained set is the greatest inductive one; a line for each implementation, with the position of its keyword and its
/// word, and below it its ordinary places that aren't proved, with the values of constants, the tables of functions, the entry values and the
/// choices with which one fails or the cause and what is kept of it; then how many candidates are retained and dropped, and how many implementations have each word.
///
/// Only want of memory is an error.
pub fn result_text(alloc: Global, outcome: &Outcome) -> Result<Vec<u8>, AllocError>
    ensures { IfOk result (λ text. (p : Program) → IsOf p outcome.now → text.items ≡ result_text p (outcome_of why_of (meaning_of p) outcome.now)) }
{
    let fates = fates_in(alloc, outcome)?;
    let mut out = Vec::new(alloc);
    put_axioms_line(&mut out, &outcome.axioms)?;
    put_candidates(&mut out, &outcome.opened.candidates, &fates)?;
    put_set(&mut out, is_greatest(&outcome.judged.inferred.removals))?;
    put_judged(&mut out, outcome)?;
    put_summary(&mut out, &fates, &outcome.judged.verdicts)?;
    Ok(out)
}

fn put_bench(out: &mut Vec<u8>, seed: u64, size: u32) -> Result<(), AllocError>
    ensures { OnOk result (out.new.items ≡ out.old.items ++ bench_line seed size) }
{
    out.extend_from_slice(b"bench ")?;
    put_number(out, u128::from(seed))?;
    out.push(b' ')?;
    put_number(out, u128::from(size))?;
    out.push(b'\n')?;
    Ok(())
}

/// A part of the report of what an inference comes to, for the program of a seed and a size: a line with these; whether the retained set
/// is the greatest inductive one; then how many candidates are retained and dropped, and how many implementations have each word.
///
/// Only want of memory is an error.
pub fn bench_text(
    alloc: Global,
    seed: u64,
    size: u32,
    outcome: &Outcome,
) -> Result<Vec<u8>, AllocError>
    ensures { IfOk result (λ text. (p : Program) → IsOf p outcome.now → text.items ≡ bench_text seed size (outcome_of why_of (meaning_of p) outcome.now)) }
{
    let fates = fates_in(alloc, outcome)?;
    let mut out = Vec::new(alloc);
    put_bench(&mut out, seed, size)?;
    put_set(&mut out, is_greatest(&outcome.judged.inferred.removals))?;
    put_summary(&mut out, &fates, &outcome.judged.verdicts)?;
    Ok(out)
}
