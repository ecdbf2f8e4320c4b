//! Whole texts to a sink.
ghost use Rattle.std.specs.Prelude.{◌≡◌, OnOk, OnErr};
ghost use Rattle.bg_io.specs.Causes.{HasCause, joined, WroteFront};

use crate::errors::WriteFault;
use crate::outside::Sink;

/// Writes all of the bytes, piece by piece. Takes no memory.
///
/// # Errors
///
/// `WriteFault` where a write failed; the sink then holds a front of the bytes.
#[tactic(auto, using(crate::proofs::Pieces::joined_more))]
pub fn write_all<S: Sink>(sink: &mut S, bytes: &[u8]) -> Result<(), WriteFault>
    ensures ok { OnOk result (S.written sink.new ≡ joined (S.written sink.old) bytes.now) }
    ensures err { OnErr result (WroteFront bytes.now (S.written sink.old) (S.written sink.new)) }
    ensures cause { HasCause (S.faults sink.old) (S.faults sink.new) result }
{
    let mut done = 0;
    while done < bytes.len() {
        match sink.write(&bytes[done..]) {
            Err(_) => return Err(WriteFault),
            Ok(n) => done += n,
        }
    }
    Ok(())
}
