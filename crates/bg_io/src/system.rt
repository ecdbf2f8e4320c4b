//! Files and streams of the system. They are trusted: nothing is told of what they hold.
ghost use Rattle.std.specs.Prelude.{◌≡◌, ◌≤◌, None, IfOk, is_some, length};
ghost use Rattle.bg_io.specs.Causes.{HasCause};

use crate::errors::Failed;
use crate::outside::{Files, Sink};
use std::fs;
use std::io::{ErrorKind, Read, Write};

// How often a call that a signal interrupts is tried.
const TRIES: u32 = 1000;

/// The files of the system, by their paths. Each error of the system is counted.
#[derive(Drop)]
pub struct RealFiles<'a, R: fs::Files> {
    system: &'a R,
    file: Option<R::File>,
    faults: u64,
}

impl<'a, R: fs::Files> RealFiles<'a, R> {
    /// The files that the runtime reaches.
    pub fn new(system: &'a R) -> RealFiles<'a, R>
        ensures { ⟦<RealFiles<'a, R> as Files>⟧.faults result ≡ 0 }
    {
        RealFiles {
            system,
            file: None,
            faults: 0,
        }
    }
}

impl<R: fs::Files> Files for RealFiles<'_, R> {
    ghost contents = { λ _. None };

    ghost left = { λ _. None };

    ghost started = { λ s. is_some s.file };

    ghost starts = { λ _. None };

    ghost faults = { λ s. s.faults };

    fn start_file(&mut self, name: &str) -> Result<(), Failed> {
        match fs::File::open(self.system, name) {
            Ok(file) => {
                self.file = Some(file);
                Ok(())
            }
            Err(_) => {
                self.file = None;
                self.faults = self.faults.saturating_add(1);
                Err(Failed)
            }
        }
    }

    fn read(&mut self, buf: &mut [u8]) -> Result<usize, Failed> {
        let Some(file) = &mut self.file else {
            unreachable!();
        };
        read_counted(file, buf, &mut self.faults)
    }
}

// One read of the file, tried again where a signal interrupts it. Each error is counted.
fn read_counted<R: Read>(file: &mut R, buf: &mut [u8], faults: &mut u64) -> Result<usize, Failed>
    ensures within { IfOk result (λ n. n ≤ length buf.new) }
    ensures cause { HasCause faults.old faults.new result }
{
    for _ in 0..TRIES {
        match file.read(buf) {
            Ok(n) => return Ok(n),
            Err(e) if e.kind() == ErrorKind::Interrupted => *faults = faults.saturating_add(1),
            Err(_) => break,
        }
    }
    *faults = faults.saturating_add(1);
    Err(Failed)
}

/// A stream of the system, as the standard output or the standard error. Each error of the system
/// is counted, and so is a write that took nothing.
#[derive(Drop)]
pub struct StdSink<W> {
    stream: W,
    faults: u64,
}

impl<W: Write> StdSink<W> {
    /// This stream.
    pub fn new(stream: W) -> StdSink<W>
        ensures { ⟦<StdSink<W> as Sink>⟧.faults result ≡ 0 }
    {
        StdSink { stream, faults: 0 }
    }
}

impl<W: Write> Sink for StdSink<W> {
    ghost written = { λ _. None };

    ghost faults = { λ s. s.faults };

    fn write(&mut self, bytes: &[u8]) -> Result<usize, Failed> {
        for _ in 0..TRIES {
            match self.stream.write(bytes) {
                Ok(n) if n > 0 && self.stream.flush().is_ok() => return Ok(n),
                Err(e) if e.kind() == ErrorKind::Interrupted => {
                    self.faults = self.faults.saturating_add(1);
                }
                _ => break,
            }
        }
        self.faults = self.faults.saturating_add(1);
        Err(Failed)
    }
}
