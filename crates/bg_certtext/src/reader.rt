//! From bytes to a certificate.
ghost use Rattle.std.specs.Prelude.{◌≡◌, map};
ghost use Rattle.bg_certtext.specs.Machine.{Answers, is_other_version};
ghost use Rattle.bg_certtext.specs.Reading.{Reads};

use crate::draft::{Stage, first_draft};
use crate::error::ReadError;
use crate::numeral::integer;
use crate::stages::take_line;
use crate::text::CertText;
use crate::words::{is_word, line_of, split};
use std::alloc::Global;

/// Whether a line is the first one of another version.
fn is_other_version(words: &[&[u8]]) -> bool
    ensures { result ≡ is_other_version (map (λ w. w.now) words.now) }
{
    match words {
        [key, version] => {
            is_word(key, b"bg-cert")
                && match integer(version) {
                    None => false,
                    Some(z) => z != 1,
                }
        }
        _ => false,
    }
}

/// What the lines of the bytes say, taken one after the other.
#[tactic(auto, using(crate::proofs::Runs::stands_first))]
fn read_lines<'a>(alloc: Global, bytes: &'a [u8]) -> Result<CertText<'a>, ReadError>
    ensures { Answers bytes.entry.now result }
{
    let mut draft = first_draft(alloc);
    let mut words = Vec::new(alloc);
    let mut rest = bytes;
    let mut number = 1;
    while let Some((line, behind)) = line_of(rest) {
        split(&mut words, line)?;
        if !take_line(alloc, &mut draft, &words, line)? {
            return if number == 1 && is_other_version(&words) {
                Err(ReadError::Version)
            } else {
                Err(ReadError::BadLine(number))
            };
        }
        rest = behind;
        number += 1;
    }
    if rest.is_empty() && draft.stage == Stage::End {
        Ok(CertText {
            interp: draft.interp,
            retained: draft.retained,
            sections: draft.sections,
        })
    } else {
        Err(ReadError::BadLine(number))
    }
}

/// The certificate whose text the bytes are. Takes time for each byte.
///
/// # Errors
/// `Version` where the first line is `bg-cert` and a number other than 1; else `BadLine` with the
/// first line against the grammar, counted from 1; `Memory` where memory ran out.
pub fn read<'a>(alloc: Global, bytes: &'a [u8]) -> Result<CertText<'a>, ReadError>
    ensures { Reads bytes.entry.now result }
{
    read_lines(alloc, bytes)
}
