//! The line that is answered.
ghost use Rattle.std.specs.Prelude.{◌≡◌, ◌++◌, IfOk, OnOk, slice_get, map, codes, Some};
ghost use Rattle.bg_lines.specs.Lines.{line};
ghost use Rattle.bg_ast.specs.Views.{program_of, impl_of};
ghost use Rattle.bg_places.specs.Views.{placed_of};
ghost use Rattle.bg_accept.specs.Texts.{name_text, reason_text, answer_text};
ghost use Rattle.bg_accept.specs.Answers as a;
ghost use Rattle.bg_accept.specs.Views.{answer_of};

use crate::answer::Answer;
use bg_ast::resolved::{Implementation, Resolved};
use bg_lines::{put_number, put_place, put_position};
use bg_places::Place;
use std::alloc::{AllocError, Global};

/// An implementation's name and position.
fn put_named(out: &mut Vec<u8>, m: &Implementation) -> Result<(), AllocError>
    ensures { OnOk result (out.new.items ≡ out.old.items ++ name_text (Some (impl_of m.now))) }
{
    out.extend_from_slice(&m.name.text)?;
    out.push(b' ')?;
    put_position(out, m.pos)?;
    out.push(b' ')?;
    Ok(())
}

/// The name and position of the implementation with this number, where it is there.
#[tactic(auto, using(crate::proofs::Lookups::there_mapped, crate::proofs::Lookups::none_mapped))]
fn put_name(
    out: &mut Vec<u8>,
    implementations: &[Implementation],
    number: usize,
) -> Result<(), AllocError>
    ensures { OnOk result (out.new.items ≡ out.old.items ++ name_text (slice_get (map impl_of implementations.now) number)) }
{
    if number < implementations.len() {
        put_named(out, &implementations[number])
    } else {
        Ok(())
    }
}

/// A name that isn't retained as it should be.
fn put_retained(out: &mut Vec<u8>, program: &Resolved, name: &[u8]) -> Result<(), AllocError>
    ensures { OnOk result (out.new.items ≡ out.old.items ++ reason_text (program_of program.now) (a.NotRetained name.now)) }
{
    out.extend_from_slice(b"retain ")?;
    out.extend_from_slice(name)
}

/// A place that isn't shown.
fn put_unshown(out: &mut Vec<u8>, program: &Resolved, place: &Place) -> Result<(), AllocError>
    ensures { OnOk result (out.new.items ≡ out.old.items ++ reason_text (program_of program.now) (a.NotShown (placed_of place.now))) }
{
    put_name(out, &program.implementations, place.implementation)?;
    put_place(out, place)
}

/// A section that isn't required.
fn put_unrequired(
    out: &mut Vec<u8>,
    program: &Resolved,
    implementation: u128,
    place: u128,
) -> Result<(), AllocError>
    ensures { OnOk result (out.new.items ≡ out.old.items ++ reason_text (program_of program.now) (a.NotRequired implementation place)) }
{
    out.extend_from_slice(b"place ")?;
    put_number(out, implementation)?;
    out.push(b' ')?;
    put_number(out, place)
}

/// Why a certificate isn't accepted.
fn put_reason(out: &mut Vec<u8>, program: &Resolved, answer: Answer<'_>) -> Result<(), AllocError>
    ensures { OnOk result (out.new.items ≡ out.old.items ++ reason_text (program_of program.now) (answer_of answer.entry)) }
{
    match answer {
        Answer::Accepted => Ok(()),
        Answer::NoInterp => out.extend_from_slice(b"axioms"),
        Answer::NotRetained(name) => put_retained(out, program, name),
        Answer::NotShown(place) => put_unshown(out, program, &place),
        Answer::NotRequired(k, i) => put_unrequired(out, program, k, i),
    }
}

/// The line of an answer that isn't acceptance.
fn rejected(alloc: Global, program: &Resolved, answer: Answer<'_>) -> Result<Vec<u8>, AllocError>
    ensures { IfOk result (λ text. text.items ≡ line (codes "rejected: " ++ reason_text (program_of program.now) (answer_of answer.entry))) }
{
    let mut out = Vec::new(alloc);
    out.extend_from_slice(b"rejected: ")?;
    put_reason(&mut out, program, answer)?;
    out.push(b'\n')?;
    Ok(out)
}

/// The line of acceptance.
fn accepted(alloc: Global) -> Result<Vec<u8>, AllocError>
    ensures { IfOk result (λ text. text.items ≡ line (codes "accepted")) }
{
    let mut out = Vec::new(alloc);
    out.extend_from_slice(b"accepted\n")?;
    Ok(out)
}

/// The line of an answer: that the certificate is accepted, or the first reason why not.
///
/// Only want of memory is an error.
pub fn answer_text(
    alloc: Global,
    program: &Resolved,
    answer: Answer<'_>,
) -> Result<Vec<u8>, AllocError>
    ensures { IfOk result (λ text. text.items ≡ answer_text (program_of program.now) (answer_of answer.entry)) }
{
    match answer {
        Answer::Accepted => accepted(alloc),
        _ => rejected(alloc, program, answer),
    }
}
