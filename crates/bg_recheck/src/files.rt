//! From files to the answer.
ghost use Rattle.std.specs.Prelude.{◌≡◌, ◌≢◌, ◌⊎◌, ◌++◌, ℕ, List, IsTrue, map, string_bytes};
ghost use Rattle.bg_io.specs.Causes.{Rose};
ghost use Rattle.bg_ends.specs.Statuses.{is_report, is_refused, is_refusal};
ghost use Rattle.bg_ends.specs.Refused.{NamesFile};
ghost use Rattle.bg_recheck.specs.Rechecks.{TellsOf, TellsSomeOf, RefusedEither, Tells, TellsSome, RefusesEither, Rechecks};
ghost use Rattle.bg_recheck.specs.Views.{IsWhy};

use crate::answer::{Why, answer_on};
use crate::lines::bad_line;
use bg_certtext::laws::{no_text_is_in_front_of_another, written_certificates_are_read};
use bg_confirm::laws::accepted_certificates_are_answered_so;
use bg_ends::{Status, refuse, refuse_file, refuse_text};
use bg_front::laws::a_text_has_one_program_or_one_refusal;
use bg_front::{MOST_BYTES, Refusal};
use bg_io::{Files, ReadError, Sink, read_all, write_all};
use std::alloc::Global;

/// The most bytes of a certificate's text.
pub const MOST_CERTIFICATE_BYTES: u64 = 67_108_864;

/// The names of a program's files, and of the file of a certificate, which is a list of one.
#[derive(Clone, Copy)]
pub struct Names<'a> {
    pub files: &'a [String],
    pub cert: &'a [String],
}

/// Writes the line of a refusal.
fn refuse_for<E: Sink>(alloc: Global, why: &Why<'_>, err: &mut E) -> Status
    ensures refused { IsTrue (is_refused result) → (bytes certificate : List ℕ) → IsWhy bytes certificate why.now → RefusedEither bytes certificate result (E.written err.old) (E.written err.new) }
    ensures ends { IsTrue (is_refused result) ⊎ ((result ≡ Status.Write) ⊎ (result ≡ Status.Memory)) }
    ensures quiet { result ≡ Status.Memory → E.written err.new ≡ E.written err.old }
    ensures cause { result ≡ Status.Write → Rose (E.faults err.old) (E.faults err.new) }
{
    match why {
        Why::Memory => Status::Memory,
        Why::Program(refusal) => refuse_text(alloc, refusal, err),
        Why::Version => refuse(err, b"error: certificate version\n", Status::Text),
        Why::BadLine(n) => match bad_line(alloc, *n) {
            Ok(line) => refuse(err, &line, Status::Text),
            Err(_) => Status::Memory,
        },
    }
}

/// Writes the answer, or the line of a refusal.
fn tell<S: Sink, E: Sink>(
    alloc: Global,
    bytes: &[u8],
    certificate: &[u8],
    out: &mut S,
    err: &mut E,
) -> Status
    ensures answer { IsTrue (is_report result) → TellsOf bytes.now certificate.now result (S.written out.old) (S.written out.new) }
    ensures quiet { (IsTrue (is_report result) ⊎ (result ≡ Status.Memory)) → E.written err.new ≡ E.written err.old }
    ensures refused { IsTrue (is_refused result) → RefusedEither bytes.now certificate.now result (E.written err.old) (E.written err.new) }
    ensures still { IsTrue (is_refused result) → S.written out.new ≡ S.written out.old }
    ensures part { ((result ≡ Status.Write) ⊎ (result ≡ Status.Memory)) → TellsSomeOf bytes.now certificate.now (S.written out.old) (S.written out.new) }
    ensures cause { result ≡ Status.Write → Rose (S.faults out.old) (S.faults out.new) ⊎ Rose (E.faults err.old) (E.faults err.new) }
    ensures others { (result ≢ Status.Usage) × ((result ≢ Status.Read) × (result ≢ Status.Unknown)) }
{
    match answer_on(alloc, bytes, certificate) {
        Ok((ends, text)) => match write_all(out, &text) {
            Ok(()) => ends,
            Err(_) => Status::Write,
        },
        Err(why) => refuse_for(alloc, &why, err),
    }
}

/// Reads the program of the first files and the certificate of the last one, and writes `accepted`, or `rejected` with the first reason,
/// to `out`; a refusal is one line on `err`.
pub fn recheck<F: Files, S: Sink, E: Sink>(
    alloc: Global,
    names: Names<'_>,
    files: &mut F,
    out: &mut S,
    err: &mut E,
) -> Status
    ensures answer { IsTrue (is_report result) → Tells (F.contents files.old) (map string_bytes names.entry.files.now) (map string_bytes names.entry.cert.now) result (S.written out.old) (S.written out.new) }
    ensures quiet { (IsTrue (is_report result) ⊎ (result ≡ Status.Memory)) → E.written err.new ≡ E.written err.old }
    ensures refused { IsTrue (is_refused result) → RefusesEither (F.contents files.old) (map string_bytes names.entry.files.now) (map string_bytes names.entry.cert.now) result (E.written err.old) (E.written err.new) }
    ensures read { result ≡ Status.Read → Rose (F.faults files.old) (F.faults files.new) }
    ensures write { result ≡ Status.Write → Rose (S.faults out.old) (S.faults out.new) ⊎ Rose (E.faults err.old) (E.faults err.new) }
    ensures file { result ≡ Status.Read → NamesFile (map string_bytes names.entry.files.now ++ map string_bytes names.entry.cert.now) (F.starts files.old) (F.starts files.new) (E.written err.old) (E.written err.new) }
    ensures still { IsTrue (is_refusal result) → S.written out.new ≡ S.written out.old }
    ensures prefix { ((result ≡ Status.Write) ⊎ (result ≡ Status.Memory)) → TellsSome (F.contents files.old) (map string_bytes names.entry.files.now) (map string_bytes names.entry.cert.now) (S.written out.old) (S.written out.new) }
    ensures complete { (Rose (F.faults files.old) (F.faults files.new) → ⊥) → (Rose (S.faults out.old) (S.faults out.new) → ⊥) → (Rose (E.faults err.old) (E.faults err.new) → ⊥) → Rechecks (F.contents files.old) (map string_bytes names.entry.files.now) (map string_bytes names.entry.cert.now) result }
    ensures words { (result ≢ Status.Usage) × (result ≢ Status.Unknown) }
{
    a_text_has_one_program_or_one_refusal();
    written_certificates_are_read();
    no_text_is_in_front_of_another();
    accepted_certificates_are_answered_so();
    let bytes = match read_all(alloc, files, names.files, MOST_BYTES) {
        Ok(bytes) => bytes,
        Err(ReadError::ReadFault { file }) => {
            return refuse_file(err, names.files[file].as_str());
        }
        Err(ReadError::TooLong { .. }) => return refuse_text(alloc, &Refusal::TooLong, err),
        Err(ReadError::Memory) => return Status::Memory,
    };
    let certificate = match read_all(alloc, files, names.cert, MOST_CERTIFICATE_BYTES) {
        Ok(certificate) => certificate,
        Err(ReadError::ReadFault { file }) => {
            return refuse_file(err, names.cert[file].as_str());
        }
        Err(ReadError::TooLong { .. }) => {
            return refuse(err, b"error: limit bytes 67108865\n", Status::Limit);
        }
        Err(ReadError::Memory) => return Status::Memory,
    };
    tell(alloc, &bytes, &certificate, out, err)
}
