//! From files to what is asked of their program.
ghost use Rattle.std.specs.Prelude.{◌≡◌, ◌≢◌, ◌⊎◌, IsTrue, IfOk, IfErr, map, string_bytes};
ghost use Rattle.bg_io.specs.Causes.{Rose};
ghost use Rattle.bg_front.specs.Programs.{IsRefused};
ghost use Rattle.bg_ends.specs.Statuses.{is_report, is_refused, is_refusal};
ghost use Rattle.bg_ends.specs.Wrote.{Wrote};
ghost use Rattle.bg_ends.specs.Refused.{RefusedFor, Refuses, NamesFile};
ghost use Rattle.bg_tool.specs.Answers.{AreSome, IsPlain, Answered, AnsweredSome, IsAnswer, WroteSome, Judges};

use crate::certificates::certificate_on;
use crate::load::bench_on;
use crate::manner::Manner;
use crate::reports::{annotation_on, report_on};
use bg_claims::Gate;
use bg_cli::Job;
use bg_ends::{Status, refuse_file, refuse_text};
use bg_front::laws::a_text_has_one_program_or_one_refusal;
use bg_front::{MOST_BYTES, ReadError as TextError, Refusal};
use bg_io::{Files, ReadError, Sink, read_all, write_all};
use std::thread::Threads;

/// What is asked of a text, and the status that its verdicts give.
fn answer_on<'t, R: Threads + Sync, G: Gate>(
    how: &Manner<'_, R, G>,
    bytes: &'t [u8],
) -> Result<(Status, Vec<u8>), TextError<'t>>
    requires workers { AreSome how.now.workers }
    requires plain { IsPlain how.now.asked }
    ensures answer { IfOk result (λ r. IsAnswer how.now.asked bytes.now r.0 r.1.items) }
    ensures ends { IfOk result (λ r. IsTrue (is_report r.0)) }
    ensures refused { IfErr result (λ e. IsRefused how.now.asked.guess bytes.now e) }
{
    match how.asked.job {
        Job::Verify => report_on(how, bytes),
        Job::Annotate => annotation_on(how, bytes),
        Job::Certify => certificate_on(how, bytes),
        Job::Check => report_on(how, bytes),
        Job::Generate => report_on(how, bytes),
        Job::Bench => bench_on(how, bytes),
    }
}

/// Judges the program of a text, and writes what is asked.
pub(crate) fn judge_text<R: Threads + Sync, G: Gate, S: Sink, E: Sink>(
    how: &Manner<'_, R, G>,
    bytes: &[u8],
    out: &mut S,
    err: &mut E,
) -> Status
    requires workers { AreSome how.now.workers }
    requires plain { IsPlain how.now.asked }
    ensures answer { IsTrue (is_report result) → Answered how.now.asked bytes.now result (S.written out.old) (S.written out.new) }
    ensures quiet { (IsTrue (is_report result) ⊎ (result ≡ Status.Memory)) → E.written err.new ≡ E.written err.old }
    ensures refused { IsTrue (is_refused result) → RefusedFor how.now.asked.guess bytes.now result (E.written err.old) (E.written err.new) }
    ensures still { IsTrue (is_refused result) → S.written out.new ≡ S.written out.old }
    ensures part { ((result ≡ Status.Write) ⊎ (result ≡ Status.Memory)) → AnsweredSome how.now.asked bytes.now (S.written out.old) (S.written out.new) }
    ensures cause { result ≡ Status.Write → Rose (S.faults out.old) (S.faults out.new) ⊎ Rose (E.faults err.old) (E.faults err.new) }
    ensures others { (result ≢ Status.Usage) × (result ≢ Status.Read) }
{
    match answer_on(how, bytes) {
        Err(TextError::Memory) => Status::Memory,
        Err(TextError::Refused(refusal)) => refuse_text(how.alloc, &refusal, err),
        Ok((ends, text)) => match write_all(out, &text) {
            Ok(()) => ends,
            Err(_) => Status::Write,
        },
    }
}

/// Judges the program of these files, and writes what is asked to `out`; a refusal is one line on `err`.
pub(crate) fn judge<R: Threads + Sync, G: Gate, F: Files, S: Sink, E: Sink>(
    how: &Manner<'_, R, G>,
    names: &[String],
    files: &mut F,
    out: &mut S,
    err: &mut E,
) -> Status
    requires workers { AreSome how.now.workers }
    requires plain { IsPlain how.now.asked }
    ensures answer { IsTrue (is_report result) → Wrote (IsAnswer how.now.asked) (F.contents files.old) (map string_bytes names.now) result (S.written out.old) (S.written out.new) }
    ensures quiet { (IsTrue (is_report result) ⊎ (result ≡ Status.Memory)) → E.written err.new ≡ E.written err.old }
    ensures refused { IsTrue (is_refused result) → Refuses how.now.asked.guess (F.contents files.old) (map string_bytes names.now) result (E.written err.old) (E.written err.new) }
    ensures read { result ≡ Status.Read → Rose (F.faults files.old) (F.faults files.new) }
    ensures write { result ≡ Status.Write → Rose (S.faults out.old) (S.faults out.new) ⊎ Rose (E.faults err.old) (E.faults err.new) }
    ensures file { result ≡ Status.Read → NamesFile (map string_bytes names.now) (F.starts files.old) (F.starts files.new) (E.written err.old) (E.written err.new) }
    ensures still { IsTrue (is_refusal result) → S.written out.new ≡ S.written out.old }
    ensures prefix { ((result ≡ Status.Write) ⊎ (result ≡ Status.Memory)) → WroteSome how.now.asked (F.contents files.old) (map string_bytes names.now) (S.written out.old) (S.written out.new) }
    ensures complete { (Rose (F.faults files.old) (F.faults files.new) → ⊥) → (Rose (S.faults out.old) (S.faults out.new) → ⊥) → (Rose (E.faults err.old) (E.faults err.new) → ⊥) → Judges how.now.asked.guess (F.contents files.old) (map string_bytes names.now) result }
    ensures words { result ≢ Status.Usage }
{
    a_text_has_one_program_or_one_refusal();
    match read_all(how.alloc, files, names, MOST_BYTES) {
        Err(ReadError::ReadFault { file }) => refuse_file(err, names[file].as_str()),
        Err(ReadError::TooLong { .. }) => refuse_text(how.alloc, &Refusal::TooLong, err),
        Err(ReadError::Memory) => Status::Memory,
        Ok(bytes) => judge_text(how, &bytes, out, err),
    }
}
