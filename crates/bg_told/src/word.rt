//! The word for an implementation, and for a program.
ghost use Rattle.std.specs.Prelude.{◌≡◌};
ghost use Rattle.std.specs.List.{list_any};
ghost use Rattle.bg_sound.specs.Told.{status_of};
ghost use Rattle.bg_check.specs.Verdicts.{judged};
ghost use Rattle.bg_ast.specs.Syntax.{Prog};
ghost use Rattle.bg_inference.specs.Told.{outcome_of};
ghost use Rattle.bg_check.specs.Kept.{why_of};
ghost use Rattle.bg_told.specs.Views.{status_in};
ghost use Rattle.bg_told.specs.Words.{is_ordinary, word_in, has_word, has, word_of, word_for, left_unknown, with_axioms, count_of};

use bg_check::{Judged, Verdict};
use bg_inference::Outcome;
use bg_places::Place;

/// What a report says of an implementation.
#[derive(Clone, Copy, PartialEq, Eq)]
pub enum Word {
    Verified,
    Refuted,
    Unknown,
}

/// Whether no candidate guards the clause of a place.
pub fn is_ordinary(place: &Place) -> bool
    ensures { result ≡ is_ordinary place.now }
{
    place.candidate.is_none()
}

/// What is known of a place, in a word.
fn word_in(verdict: &Verdict) -> Word
    ensures { result ≡ word_in verdict.now }
{
    match verdict {
        Verdict::Proved(_) => Word::Verified,
        Verdict::Refuted(_) => Word::Refuted,
        Verdict::Unknown(_, _) => Word::Unknown,
        Verdict::Left(_) => Word::Unknown,
    }
}

/// Whether this is an ordinary place of which the word is known.
fn has_word(word: Word, of: &Judged) -> bool
    ensures { result ≡ has_word word of.now }
{
    is_ordinary(&of.place) && word_in(&of.verdict) == word
}

/// Whether the word is known of some ordinary place.
fn has(word: Word, judged: &[Judged]) -> bool
    ensures { result ≡ has word judged.now }
{
    for of in judged {
        if has_word(word, of) {
            return true;
        }
    }
    false
}

/// The word of an implementation of whose places this is known: refuted where an ordinary one is refuted, else unknown where one is
/// unknown, else verified.
pub fn implementation_word(judged: &[Judged]) -> Word
    ensures { result ≡ word_of judged.now }
{
    if has(Word::Refuted, judged) {
        Word::Refuted
    } else if has(Word::Unknown, judged) {
        Word::Unknown
    } else {
        Word::Verified
    }
}

/// Whether the word is known of some ordinary place of some implementation.
fn any_has(word: Word, outcome: &[Vec<Judged>]) -> bool
    ensures { result ≡ list_any (has word) (judged outcome.now) }
{
    for judged in outcome {
        if has(word, judged) {
            return true;
        }
    }
    false
}

/// Refuted where some ordinary place is refuted, else unknown where one is unknown, else verified.
fn program_word(outcome: &[Vec<Judged>]) -> Word
    ensures { result ≡ word_for (judged outcome.now) }
{
    if any_has(Word::Refuted, outcome) {
        Word::Refuted
    } else if any_has(Word::Unknown, outcome) {
        Word::Unknown
    } else {
        Word::Verified
    }
}

/// The word of a program of whose axioms nothing is known, and whose implementations have this word.
fn left_unknown(word: Word) -> Word
    ensures { result ≡ left_unknown word }
{
    match word {
        Word::Refuted => Word::Refuted,
        _ => Word::Unknown,
    }
}

/// The word of a program of whose axioms this is known, and whose implementations have this word.
fn with_axioms(axioms: &Verdict, word: Word) -> Word
    ensures { result ≡ with_axioms axioms.now word }
{
    match axioms {
        Verdict::Proved(_) => Word::Refuted,
        Verdict::Refuted(_) => word,
        Verdict::Unknown(_, _) => left_unknown(word),
        Verdict::Left(_) => left_unknown(word),
    }
}

/// The word of a program, where an inference comes to this: refuted where the axioms are contradictory or some ordinary place is refuted,
/// else unknown where the axioms or a place are unknown, else verified. It gives the status of what is told.
pub fn word_of(outcome: &Outcome) -> Word
    ensures { (p : Prog) → status_in result ≡ status_of (outcome_of why_of p outcome.now) }
{
    with_axioms(&outcome.axioms, program_word(&outcome.judged.verdicts))
}

/// How many implementations have the word.
pub fn count_of(outcome: &[Vec<Judged>], word: Word) -> usize
    ensures { result ≡ count_of word (judged outcome.now) }
{
    let mut count = 0;
    for judged in outcome {
        if implementation_word(judged) == word {
            count += 1;
        }
    }
    count
}
