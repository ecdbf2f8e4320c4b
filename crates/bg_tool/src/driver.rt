//! The top call.
ghost use Rattle.std.specs.Prelude.{◌≡◌, ◌≢◌, ◌⊎◌, ◌∷◌, ◌++◌, [], true, false, IsTrue, IfOk, map, string_bytes};
ghost use Rattle.bg_io.specs.Causes.{Rose, joined};
ghost use Rattle.bg_cli.specs.declared.job.Job.TheVariants as job;
ghost use Rattle.bg_cli.specs.Cli.{IsTaken, texts_of, files_in, cert_in, guess_in, history_in, job_in, seed_in, size_in};
ghost use Rattle.bg_gen.specs.Generated.{generated};
ghost use Rattle.bg_ends.specs.Statuses.{is_report, is_refused, is_refusal};
ghost use Rattle.bg_ends.specs.Wrote.{Wrote, WroteSomeOf};
ghost use Rattle.bg_ends.specs.Refused.{RefusedFor, Refuses, usage_line, NamesFile};
ghost use Rattle.bg_recheck.specs.Rechecks.{Tells, TellsSome, RefusesEither, Rechecks};
ghost use Rattle.bg_tool.specs.Reports.{Spells, SpellsGuessed, IsTrueText};
ghost use Rattle.bg_tool.specs.Answers.{asked_in, guess_for, judges, rechecks, benches, names_in, IsReport, IsAnnotation, IsCertification, Answered, AnsweredSome, WroteSome, Completes};

use crate::asked::Asked;
use crate::judge::judge;
use crate::made::bench;
use crate::manner::Manner;
use bg_claims::Gate;
use bg_cli::{Job, Line, LineError, read_line};
use bg_ends::{Status, refuse};
use bg_gen::generate;
use bg_io::{Files, Sink, write_all};
use bg_recheck::{Names, recheck};
use bg_tree::Budget;
use std::alloc::{AllocError, Global};
use std::thread::Threads;

/// Whether guesses are asked for; a certificate is of the program as it is, and so is what is told of a program that is made.
fn guess_for(job: Job, guess: bool) -> bool
    ensures { result ≡ guess_for job guess }
{
    match job {
        Job::Certify => false,
        Job::Check => false,
        Job::Bench => false,
        _ => guess,
    }
}

/// What is asked, as the words say.
fn asked_by(line: &Line<'_>) -> Asked
    ensures { result ≡ record { budget = record { nodes = line.now.nodes; rows = line.now.rows }; guess = guess_for line.now.job line.now.guess; history = line.now.history; job = line.now.job; seed = line.now.seed; size = line.now.size } }
{
    let budget = Budget {
        nodes: line.nodes,
        rows: line.rows,
    };
    Asked {
        budget,
        guess: guess_for(line.job, line.guess),
        history: line.history,
        job: line.job,
        seed: line.seed,
        size: line.size,
    }
}

/// The names as texts of their own.
fn names_of(alloc: Global, files: &[&str]) -> Result<Vec<String>, AllocError>
    ensures { IfOk result (λ names. map string_bytes names.items ≡ map (λ file. file.now) files.now) }
{
    let mut names = Vec::new(alloc);
    for file in files {
        names.push(String::from_str(alloc, file)?)?;
    }
    Ok(names)
}

/// Writes the program of a seed and a size.
fn make<S: Sink>(alloc: Global, seed: u64, size: u32, out: &mut S) -> Status
    ensures made { IsTrue (is_report result) → (result ≡ Status.Verified) × (S.written out.new ≡ joined (S.written out.old) (generated seed size)) }
    ensures part { ((result ≡ Status.Write) ⊎ (result ≡ Status.Memory)) → WroteSomeOf (generated seed size) (S.written out.old) (S.written out.new) }
    ensures ends { (Rose (S.faults out.old) (S.faults out.new) → ⊥) → (result ≡ Status.Verified) ⊎ (result ≡ Status.Memory) }
    ensures cause { result ≡ Status.Write → Rose (S.faults out.old) (S.faults out.new) }
    ensures fine { (IsTrue (is_refused result) → ⊥) × ((IsTrue (is_refusal result) → ⊥) × ((result ≢ Status.Usage) × (result ≢ Status.Read))) }
{
    let Ok(made) = generate(alloc, seed, size) else {
        return Status::Memory;
    };
    match write_all(out, &made) {
        Ok(()) => Status::Verified,
        Err(_) => Status::Write,
    }
}

/// Checks the certificate of a file against the program of others, and writes the answer.
fn check<F: Files, S: Sink, E: Sink>(
    alloc: Global,
    names: &[String],
    cert: &str,
    files: &mut F,
    out: &mut S,
    err: &mut E,
) -> Status
    ensures answer { IsTrue (is_report result) → Tells (F.contents files.old) (map string_bytes names.now) (cert.now ∷ []) result (S.written out.old) (S.written out.new) }
    ensures quiet { (IsTrue (is_report result) ⊎ (result ≡ Status.Memory)) → E.written err.new ≡ E.written err.old }
    ensures refused { IsTrue (is_refused result) → RefusesEither (F.contents files.old) (map string_bytes names.now) (cert.now ∷ []) result (E.written err.old) (E.written err.new) }
    ensures read { result ≡ Status.Read → Rose (F.faults files.old) (F.faults files.new) }
    ensures write { result ≡ Status.Write → Rose (S.faults out.old) (S.faults out.new) ⊎ Rose (E.faults err.old) (E.faults err.new) }
    ensures file { result ≡ Status.Read → NamesFile (map string_bytes names.now ++ (cert.now ∷ [])) (F.starts files.old) (F.starts files.new) (E.written err.old) (E.written err.new) }
    ensures still { IsTrue (is_refusal result) → S.written out.new ≡ S.written out.old }
    ensures part { ((result ≡ Status.Write) ⊎ (result ≡ Status.Memory)) → TellsSome (F.contents files.old) (map string_bytes names.now) (cert.now ∷ []) (S.written out.old) (S.written out.new) }
    ensures complete { (Rose (F.faults files.old) (F.faults files.new) → ⊥) → (Rose (S.faults out.old) (S.faults out.new) → ⊥) → (Rose (E.faults err.old) (E.faults err.new) → ⊥) → Rechecks (F.contents files.old) (map string_bytes names.now) (cert.now ∷ []) result }
    ensures words { result ≢ Status.Usage }
{
    let Ok(cert) = names_of(alloc, &[cert]) else {
        return Status::Memory;
    };
    let names = Names {
        files: names,
        cert: &cert,
    };
    recheck(alloc, names, files, out, err)
}

/// Judges the program of the files that the words name, and writes its report to `out`, or the program with its retained annotations
/// or its certificate where the words ask for that; a refusal is one line on `err`. Where the words ask for the check of a certificate,
/// it is read, and the answer written: an accepted one shows that the program is safe, whatever wrote it (`checked`); the certificate that
/// is written with status 0 is accepted (`certification`, `complete`). Where the words ask for a program of a seed and a size, it is
/// written, and nothing is read or judged; where they ask for what is told of one, it is made and judged, and nothing is read (`bench`).
/// What such a report tells is true of the program that the files spell (`sound`), or of that with its guesses (`guessed`): with status 0 some interpretation meets it, and no
/// execution of any implementation fails (`bg_sound`'s law `status_zero_is_safe`); two reports of one program agree where they should
/// (`greatest_sets_agree`, `settled_words_agree`); and its bytes decide what it tells of sets and implementations (`bg_told`'s laws).
/// The first word is the program's own name. As many workers as the words say check places of candidates in threads, and pass the gate
/// before each check. Where guesses are asked for, the program is judged with them. Where the history is asked for, it stands behind the report.
pub fn run<R: AllocGlobal + Threads + Sync, F: Files, S: Sink, E: Sink, G: Gate>(
    rt: &R,
    words: &[String],
    files: &mut F,
    out: &mut S,
    err: &mut E,
    gate: &G,
) -> Status
    ensures taken { (IsTrue (is_report result) ⊎ (IsTrue (is_refused result) ⊎ (result ≡ Status.Read))) → IsTaken (texts_of words.now) }
    ensures sound { job_in (texts_of words.now) ≡ job.Verify → guess_in (texts_of words.now) ≡ false → IsTrue (is_report result) → Wrote (IsTrueText Spells (history_in (texts_of words.now))) (F.contents files.old) (files_in (texts_of words.now)) result (S.written out.old) (S.written out.new) }
    ensures guessed { job_in (texts_of words.now) ≡ job.Verify → guess_in (texts_of words.now) ≡ true → IsTrue (is_report result) → Wrote (IsTrueText SpellsGuessed (history_in (texts_of words.now))) (F.contents files.old) (files_in (texts_of words.now)) result (S.written out.old) (S.written out.new) }
    ensures report { job_in (texts_of words.now) ≡ job.Verify → IsTrue (is_report result) → Wrote (IsReport (asked_in (texts_of words.now))) (F.contents files.old) (files_in (texts_of words.now)) result (S.written out.old) (S.written out.new) }
    ensures annotation { job_in (texts_of words.now) ≡ job.Annotate → IsTrue (is_report result) → Wrote (IsAnnotation (asked_in (texts_of words.now))) (F.contents files.old) (files_in (texts_of words.now)) result (S.written out.old) (S.written out.new) }
    ensures certification { job_in (texts_of words.now) ≡ job.Certify → IsTrue (is_report result) → Wrote (IsCertification (asked_in (texts_of words.now))) (F.contents files.old) (files_in (texts_of words.now)) result (S.written out.old) (S.written out.new) }
    ensures checked { job_in (texts_of words.now) ≡ job.Check → IsTrue (is_report result) → Tells (F.contents files.old) (files_in (texts_of words.now)) (cert_in (texts_of words.now) ∷ []) result (S.written out.old) (S.written out.new) }
    ensures generation { job_in (texts_of words.now) ≡ job.Generate → IsTrue (is_report result) → (result ≡ Status.Verified) × (S.written out.new ≡ joined (S.written out.old) (generated (seed_in (texts_of words.now)) (size_in (texts_of words.now)))) }
    ensures bench { job_in (texts_of words.now) ≡ job.Bench → IsTrue (is_report result) → Answered (asked_in (texts_of words.now)) (generated (seed_in (texts_of words.now)) (size_in (texts_of words.now))) result (S.written out.old) (S.written out.new) }
    ensures quiet { (IsTrue (is_report result) ⊎ (result ≡ Status.Memory)) → E.written err.new ≡ E.written err.old }
    ensures text { rechecks (job_in (texts_of words.now)) ≡ false → benches (job_in (texts_of words.now)) ≡ false → IsTrue (is_refused result) → Refuses (asked_in (texts_of words.now)).guess (F.contents files.old) (files_in (texts_of words.now)) result (E.written err.old) (E.written err.new) }
    ensures either { job_in (texts_of words.now) ≡ job.Check → IsTrue (is_refused result) → RefusesEither (F.contents files.old) (files_in (texts_of words.now)) (cert_in (texts_of words.now) ∷ []) result (E.written err.old) (E.written err.new) }
    ensures made { job_in (texts_of words.now) ≡ job.Bench → IsTrue (is_refused result) → RefusedFor (asked_in (texts_of words.now)).guess (generated (seed_in (texts_of words.now)) (size_in (texts_of words.now))) result (E.written err.old) (E.written err.new) }
    ensures usage { result ≡ Status.Usage → IsTaken (texts_of words.now) → ⊥ }
    ensures read { result ≡ Status.Read → Rose (F.faults files.old) (F.faults files.new) }
    ensures write { result ≡ Status.Write → Rose (S.faults out.old) (S.faults out.new) ⊎ Rose (E.faults err.old) (E.faults err.new) }
    ensures line { result ≡ Status.Usage → E.written err.new ≡ joined (E.written err.old) usage_line }
    ensures file { result ≡ Status.Read → NamesFile (names_in (texts_of words.now)) (F.starts files.old) (F.starts files.new) (E.written err.old) (E.written err.new) }
    ensures still { IsTrue (is_refusal result) → S.written out.new ≡ S.written out.old }
    ensures front { job_in (texts_of words.now) ≡ job.Generate → ((result ≡ Status.Write) ⊎ (result ≡ Status.Memory)) → WroteSomeOf (generated (seed_in (texts_of words.now)) (size_in (texts_of words.now))) (S.written out.old) (S.written out.new) }
    ensures prefix { judges (job_in (texts_of words.now)) ≡ true → ((result ≡ Status.Write) ⊎ (result ≡ Status.Memory)) → WroteSome (asked_in (texts_of words.now)) (F.contents files.old) (files_in (texts_of words.now)) (S.written out.old) (S.written out.new) }
    ensures part { job_in (texts_of words.now) ≡ job.Check → ((result ≡ Status.Write) ⊎ (result ≡ Status.Memory)) → TellsSome (F.contents files.old) (files_in (texts_of words.now)) (cert_in (texts_of words.now) ∷ []) (S.written out.old) (S.written out.new) }
    ensures lines { job_in (texts_of words.now) ≡ job.Bench → ((result ≡ Status.Write) ⊎ (result ≡ Status.Memory)) → AnsweredSome (asked_in (texts_of words.now)) (generated (seed_in (texts_of words.now)) (size_in (texts_of words.now))) (S.written out.old) (S.written out.new) }
    ensures complete { (Rose (F.faults files.old) (F.faults files.new) → ⊥) → (Rose (S.faults out.old) (S.faults out.new) → ⊥) → (Rose (E.faults err.old) (E.faults err.new) → ⊥) → Completes (F.contents files.old) (texts_of words.now) result }
{
    let line = match read_line(rt.alloc(), words) {
        Ok(line) => line,
        Err(LineError::Memory) => return Status::Memory,
        Err(LineError::Usage) => {
            return refuse(
                err,
                b"usage: bg verify|annotate|certify|check|generate|bench ..\n",
                Status::Usage,
            );
        }
    };
    let Ok(names) = names_of(rt.alloc(), &line.files) else {
        return Status::Memory;
    };
    let how = Manner {
        alloc: rt.alloc(),
        rt,
        gate,
        workers: line.workers,
        asked: asked_by(&line),
    };
    match line.job {
        Job::Generate => make(rt.alloc(), line.seed, line.size, out),
        Job::Check => check(rt.alloc(), &names, line.cert, files, out, err),
        Job::Bench => bench(&how, out, err),
        _ => judge(&how, &names, files, out, err),
    }
}
