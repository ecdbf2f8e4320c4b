//! Programs that are made, and judged.
ghost use Rattle.std.specs.Prelude.{◌≡◌, ◌≢◌, ◌⊎◌, IsTrue};
ghost use Rattle.bg_io.specs.Causes.{Rose};
ghost use Rattle.bg_gen.specs.Generated.{generated};
ghost use Rattle.bg_ends.specs.Statuses.{is_report, is_refused, is_refusal};
ghost use Rattle.bg_ends.specs.Refused.{RefusedFor};
ghost use Rattle.bg_tool.specs.Answers.{AreSome, IsPlain, Answered, AnsweredSome, JudgesText};

use crate::judge::judge_text;
use crate::manner::Manner;
use bg_claims::Gate;
use bg_ends::Status;
use bg_front::laws::a_text_has_one_program_or_one_refusal;
use bg_gen::generate;
use bg_io::Sink;
use std::thread::Threads;

/// Judges the program of the seed and the size that are asked for, and writes what is asked.
pub(crate) fn bench<R: Threads + Sync, G: Gate, S: Sink, E: Sink>(
    how: &Manner<'_, R, G>,
    out: &mut S,
    err: &mut E,
) -> Status
    requires workers { AreSome how.now.workers }
    requires plain { IsPlain how.now.asked }
    ensures answer { IsTrue (is_report result) → Answered how.now.asked (generated how.now.asked.seed how.now.asked.size) result (S.written out.old) (S.written out.new) }
    ensures quiet { (IsTrue (is_report result) ⊎ (result ≡ Status.Memory)) → E.written err.new ≡ E.written err.old }
    ensures refused { IsTrue (is_refused result) → RefusedFor how.now.asked.guess (generated how.now.asked.seed how.now.asked.size) result (E.written err.old) (E.written err.new) }
    ensures still { IsTrue (is_refusal result) → S.written out.new ≡ S.written out.old }
    ensures part { ((result ≡ Status.Write) ⊎ (result ≡ Status.Memory)) → AnsweredSome how.now.asked (generated how.now.asked.seed how.now.asked.size) (S.written out.old) (S.written out.new) }
    ensures cause { result ≡ Status.Write → Rose (S.faults out.old) (S.faults out.new) ⊎ Rose (E.faults err.old) (E.faults err.new) }
    ensures complete { (Rose (S.faults out.old) (S.faults out.new) → ⊥) → (Rose (E.faults err.old) (E.faults err.new) → ⊥) → JudgesText how.now.asked.guess (generated how.now.asked.seed how.now.asked.size) result }
    ensures others { (result ≢ Status.Usage) × (result ≢ Status.Read) }
{
    a_text_has_one_program_or_one_refusal();
    match generate(how.alloc, how.asked.seed, how.asked.size) {
        Ok(made) => judge_text(how, &made, out, err),
        Err(_) => Status::Memory,
    }
}
