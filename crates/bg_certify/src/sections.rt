//! The sections of a certificate.
ghost use Rattle.std.specs.Prelude.{◌≡◌, ◌++◌, [], ◌<◌, List, Some, map, length, drop, slice_get, IfOk, OnOk};
ghost use Rattle.bg_text.specs.Views.{id_of, option_of};
ghost use Rattle.bg_ast.specs.Resolved as r;
ghost use Rattle.bg_ast.specs.Views.{program_of};
ghost use Rattle.bg_words.specs.Sets.{has};
ghost use Rattle.bg_places.specs.Placed.{placed_impl};
ghost use Rattle.bg_certtext.specs.Views.{section_of};
ghost use Rattle.bg_check.specs.declared.verdict.Judged.{Judged};
ghost use Rattle.bg_check.specs.Verdicts.{judged};
ghost use Rattle.bg_certify.specs.Spelled.{spelled, with_section, row, rows};
ghost use Rattle.bg_certify.specs.Found.{certs_for, kept_after, certs_from};
ghost use Rattle.bg_certify.specs.Seen.{seen_as};

use crate::found::{Found, found_for, next_ordinary, next_task};
use crate::nodes::{text_lines, text_nodes, text_table};
use bg_ast::resolved::Resolved;
use bg_certtext::Section;
use bg_houdini::Outcome;
use bg_places::places_of;
use bg_text::Name;
use std::alloc::{AllocError, Global};

/// The section of place `i`, counted from 0, of implementation `k`.
fn section<'p>(
    alloc: Global,
    names: &'p [Name],
    k: usize,
    i: usize,
    found: Found<'_>,
) -> Result<Section<'p>, AllocError>
    ensures { IfOk result (λ made. section_of made ≡ spelled (map id_of names.now) k i (seen_as found.entry)) }
{
    Ok(Section {
        implementation: k as u128,
        place: i as u128,
        stated: text_lines(alloc, found.lines)?,
        table: text_table(alloc, found.cert.table.as_slice())?,
        nodes: text_nodes(alloc, names, found.cert.nodes.as_slice())?,
    })
}

/// Adds the section of a place that has a certificate.
fn push_section<'p>(
    alloc: Global,
    made: &mut Vec<Section<'p>>,
    names: &'p [Name],
    k: usize,
    i: usize,
    cert: Option<Found<'_>>,
) -> Result<(), AllocError>
    ensures { OnOk result (map section_of made.new.items ≡ map section_of made.old.items ++ with_section (map id_of names.now) k i (option_of seen_as cert.entry) []) }
{
    match cert {
        Some(cert) => {
            made.push(section(alloc, names, k, i, cert)?)?;
            Ok(())
        }
        None => Ok(()),
    }
}

/// Adds the sections of an implementation, and returns the number of the next task.
fn push_sections<'p>(
    alloc: Global,
    made: &mut Vec<Section<'p>>,
    program: &'p Resolved,
    outcome: &Outcome,
    k: usize,
    task: usize,
) -> Result<usize, AllocError>
    requires { k < length outcome.now.verdicts.items }
    ensures made { OnOk result ((m : r.Impl) (js : List Judged) → slice_get (program_of program.now).implementations k ≡ Some m → slice_get (judged outcome.now.verdicts.items) k ≡ Some js →
        map section_of made.new.items ≡ map section_of made.old.items ++ row (program_of program.now).candidates k 0 (certs_for (has outcome.now.inferred.retained) (drop task outcome.now.inferred.kept.items) js (placed_impl (program_of program.now).procedures k m))) }
    ensures next { IfOk result (λ n. (m : r.Impl) → slice_get (program_of program.now).implementations k ≡ Some m →
        drop n outcome.now.inferred.kept.items ≡ kept_after (drop task outcome.now.inferred.kept.items) (placed_impl (program_of program.now).procedures k m)) }
{
    let places = places_of(alloc, program, k)?;
    let judged = outcome.verdicts[k].as_slice();
    let mut next = task;
    let mut ordinary = 0;
    for i in 0..places.len() {
        let candidate = places[i].candidate;
        let cert = found_for(outcome, judged, candidate, next, ordinary);
        push_section(alloc, made, program.candidates.as_slice(), k, i, cert)?;
        next = next_task(outcome.inferred.kept.as_slice(), candidate, next);
        ordinary = next_ordinary(judged, candidate, ordinary);
    }
    Ok(next)
}

/// The sections of a program, by implementation and place.
pub(crate) fn sections<'p>(
    alloc: Global,
    program: &'p Resolved,
    outcome: &Outcome,
) -> Result<Vec<Section<'p>>, AllocError>
    requires { length outcome.now.verdicts.items ≡ length (program_of program.now).implementations }
    ensures { IfOk result (λ made. map section_of made.items ≡ rows (program_of program.now).candidates 0 (certs_from (program_of program.now).procedures (has outcome.now.inferred.retained) outcome.now.inferred.kept.items 0 (program_of program.now).implementations (judged outcome.now.verdicts.items))) }
{
    let mut made = Vec::new(alloc);
    let mut task = 0;
    for k in 0..program.implementations.len() {
        task = push_sections(alloc, &mut made, program, outcome, k, task)?;
    }
    Ok(made)
}
