//! The limits on what a program has.
ghost use Rattle.std.specs.Prelude.{◌≡◌, None, length, IfOk, IfErr, option_map};
ghost use Rattle.bg_ast.specs.Views.{program_of};
ghost use Rattle.bg_front.specs.Programs.{candidate_count, too_many, too_large, limit_of, with_guesses, IsLimitOf};
ghost use Rattle.bg_front.specs.Refusals.{refusal_of};

use crate::limits::{MOST_BODIES, MOST_CANDIDATES, MOST_IMPLEMENTATIONS};
use crate::refusal::{ReadError, Refusal};
use bg_ast::resolved::Resolved;
use bg_expanded::{is_any_too_large, longest_chain};
use bg_guess::count;
use bg_places::first_crowded;
use std::alloc::{AllocError, Global};

/// How many candidates a program has, with its guesses where these are asked for, as far as 64 bits tell it. None is made.
fn candidates_of(alloc: Global, program: &Resolved, guess: bool) -> Result<usize, AllocError>
    ensures { IfOk result (λ n. n ≡ candidate_count (with_guesses guess (program_of program.now))) }
{
    let declared = program.candidates.len();
    if !guess {
        return Ok(declared);
    }
    Ok(declared.saturating_add(count(alloc, program)?))
}

/// Whether a program has too many implementations, or else too many candidates, its guesses among them where these are asked for.
fn too_many<'a>(
    alloc: Global,
    program: &Resolved,
    guess: bool,
) -> Result<Option<Refusal<'a>>, AllocError>
    ensures { IfOk result (λ found. option_map refusal_of found ≡ too_many (with_guesses guess (program_of program.now))) }
{
    let implementations = program.implementations.len();
    if implementations > MOST_IMPLEMENTATIONS {
        return Ok(Some(Refusal::Implementations(implementations)));
    }
    let candidates = candidates_of(alloc, program, guess)?;
    if candidates > MOST_CANDIDATES {
        return Ok(Some(Refusal::Candidates(candidates)));
    }
    Ok(None)
}

/// Whether an implementation has too many places, or else a chain too many bodies, or else the axioms or an implementation too many
/// expression nodes.
fn too_large<'a>(alloc: Global, program: &Resolved) -> Result<Option<Refusal<'a>>, AllocError>
    ensures { IfOk result (λ found. option_map refusal_of found ≡ too_large (program_of program.now)) }
{
    if let Some(places) = first_crowded(alloc, program)? {
        return Ok(Some(Refusal::Places(places)));
    }
    let chain = longest_chain(alloc, program)?;
    if chain > MOST_BODIES {
        return Ok(Some(Refusal::Bodies(chain)));
    }
    if is_any_too_large(alloc, program)? {
        return Ok(Some(Refusal::Expanded));
    }
    Ok(None)
}

/// A program, with its guesses where these are asked for.
fn with_guesses(alloc: Global, program: Resolved, guess: bool) -> Result<Resolved, AllocError>
    ensures { IfOk result (λ made. program_of made ≡ with_guesses guess (program_of program)) }
{
    if guess {
        bg_guess::guess(alloc, program)
    } else {
        Ok(program)
    }
}

/// A program, with its guesses where these are asked for. They are counted before they are made.
///
/// # Errors
/// `Refused` with the first limit that it exceeds, and `Memory` where memory ran out.
pub fn within_limits<'a>(
    alloc: Global,
    program: Resolved,
    guess: bool,
) -> Result<Resolved, ReadError<'a>>
    ensures made { IfOk result (λ made. program_of made ≡ with_guesses guess (program_of program)) }
    ensures within { IfOk result (λ made. limit_of (with_guesses guess (program_of program)) ≡ None) }
    ensures limit { IfErr result (λ e. IsLimitOf (with_guesses guess (program_of program)) e) }
{
    match too_many(alloc, &program, guess) {
        Ok(None) => {}
        Ok(Some(limit)) => return Err(ReadError::Refused(limit)),
        Err(_) => return Err(ReadError::Memory),
    }
    let Ok(made) = with_guesses(alloc, program, guess) else {
        return Err(ReadError::Memory);
    };
    match too_large(alloc, &made) {
        Ok(None) => Ok(made),
        Ok(Some(limit)) => Err(ReadError::Refused(limit)),
        Err(_) => Err(ReadError::Memory),
    }
}
