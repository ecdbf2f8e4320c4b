//! Lines of refusals.
ghost use Rattle.std.specs.Prelude.{◌≡◌, ◌⊎◌, ◌≤◌, ℕ, Bool, List, ◌++◌, IsTrue, codes, ◌≢◌};
ghost use Rattle.bg_io.specs.Causes.{Rose, joined};
ghost use Rattle.bg_front.specs.Programs.{IsRefusedBy};
ghost use Rattle.bg_front.specs.Refusals.{refusal_of};
ghost use Rattle.bg_front.specs.Lines.{line_of};
ghost use Rattle.bg_ends.specs.Statuses.{refusal_status, is_refused};
ghost use Rattle.bg_ends.specs.Refused.{RefusedFor};

use crate::status::Status;
use bg_front::Refusal;
use bg_io::{Sink, write_all};
use std::alloc::Global;

/// Writes a line, and ends so; where the sink fails, it ends with `Write`.
pub fn refuse<E: Sink>(err: &mut E, line: &[u8], ends: Status) -> Status
    ensures wrote { result ≡ ends → result ≢ Status.Write → E.written err.new ≡ joined (E.written err.old) line.now }
    ensures ends { (result ≡ ends) ⊎ (result ≡ Status.Write) }
    ensures cause { result ≡ Status.Write → ends ≢ Status.Write → Rose (E.faults err.old) (E.faults err.new) }
    ensures later { E.faults err.old ≤ E.faults err.new }
{
    match write_all(err, line) {
        Ok(()) => ends,
        Err(_) => Status::Write,
    }
}

/// Says that the file can't be read.
pub fn refuse_file<E: Sink>(err: &mut E, file: &str) -> Status
    ensures wrote { result ≡ Status.Read → E.written err.new ≡ joined (E.written err.old) (codes "error: cannot read " ++ file.now ++ codes "\n") }
    ensures ends { (result ≡ Status.Read) ⊎ (result ≡ Status.Write) }
    ensures cause { result ≡ Status.Write → Rose (E.faults err.old) (E.faults err.new) }
    ensures later { E.faults err.old ≤ E.faults err.new }
{
    let Ok(()) = write_all(err, b"error: cannot read ") else {
        return Status::Write;
    };
    let Ok(()) = write_all(err, file.as_bytes()) else {
        return Status::Write;
    };
    match write_all(err, b"\n") {
        Ok(()) => Status::Read,
        Err(_) => Status::Write,
    }
}

/// The status of a refusal: whether it names a limit.
fn status_of_refusal(refusal: &Refusal<'_>) -> Status
    ensures { result ≡ refusal_status (refusal_of refusal.now) }
{
    if refusal.is_limit() {
        Status::Limit
    } else {
        Status::Text
    }
}

/// Writes the line of a refusal.
fn refuse_line<E: Sink>(alloc: Global, refusal: &Refusal<'_>, err: &mut E) -> Status
    ensures wrote { result ≡ refusal_status (refusal_of refusal.now) → E.written err.new ≡ joined (E.written err.old) (line_of (refusal_of refusal.now)) }
    ensures ends { (result ≡ refusal_status (refusal_of refusal.now)) ⊎ ((result ≡ Status.Write) ⊎ (result ≡ Status.Memory)) }
    ensures quiet { result ≡ Status.Memory → E.written err.new ≡ E.written err.old }
    ensures cause { result ≡ Status.Write → Rose (E.faults err.old) (E.faults err.new) }
{
    let Ok(line) = refusal.line(alloc) else {
        return Status::Memory;
    };
    refuse(err, &line, status_of_refusal(refusal))
}

/// Refuses a text.
pub fn refuse_text<E: Sink>(alloc: Global, refusal: &Refusal<'_>, err: &mut E) -> Status
    ensures refused { IsTrue (is_refused result) → (guess : Bool) (bytes : List ℕ) → IsRefusedBy guess bytes (refusal_of refusal.now) → RefusedFor guess bytes result (E.written err.old) (E.written err.new) }
    ensures ends { IsTrue (is_refused result) ⊎ ((result ≡ Status.Write) ⊎ (result ≡ Status.Memory)) }
    ensures quiet { result ≡ Status.Memory → E.written err.new ≡ E.written err.old }
    ensures cause { result ≡ Status.Write → Rose (E.faults err.old) (E.faults err.new) }
{
    refuse_line(alloc, refusal, err)
}
