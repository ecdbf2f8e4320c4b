//! How programs are judged.
ghost use Rattle.std.specs.Prelude.{◌≡◌, IsTrue};
ghost use Rattle.bg_told.specs.Views.{status_in};
ghost use Rattle.bg_ends.specs.Statuses.{number_of, is_report};

use crate::asked::Asked;
use bg_ends::Status;
use bg_told::Word;
use std::alloc::Global;

/// How programs are judged: the threads and the gate of the workers that check places of candidates, how many these are, and what
/// is asked.
#[derive(Drop)]
pub(crate) struct Manner<'a, R, G> {
    pub(crate) alloc: Global,
    pub(crate) rt: &'a R,
    pub(crate) gate: &'a G,
    pub(crate) workers: u32,
    pub(crate) asked: Asked,
}

/// The status that verdicts give.
pub(crate) fn status_of(word: Word) -> Status
    ensures gives { number_of result ≡ status_in word }
    ensures ends { IsTrue (is_report result) }
{
    match word {
        Word::Verified => Status::Verified,
        Word::Refuted => Status::Refuted,
        Word::Unknown => Status::Unknown,
    }
}
