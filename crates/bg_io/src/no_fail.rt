//! Files and a sink that never fail.
ghost use Rattle.std.specs.Prelude.{◌≡◌, Some, None, is_some};
ghost use Rattle.bg_io.specs.Stored.{contents_of, left_of};

use crate::errors::Failed;
use crate::outside::{Files, Sink};
use crate::stored::{Shelf, StoredFile};

/// Files in memory of which no call fails. Of those of one name the first is read; a file that
/// isn't there is empty.
#[derive(Drop)]
pub struct NoFailFiles {
    shelf: Shelf,
}

impl NoFailFiles {
    /// These files.
    pub fn new(files: Vec<StoredFile>) -> NoFailFiles
        ensures contents { ⟦<NoFailFiles as Files>⟧.contents result ≡ Some (contents_of files.items) }
        ensures starts { ⟦<NoFailFiles as Files>⟧.starts result ≡ Some 0 }
        ensures faults { ⟦<NoFailFiles as Files>⟧.faults result ≡ 0 }
    {
        NoFailFiles {
            shelf: Shelf::new(files),
        }
    }
}

impl Files for NoFailFiles {
    ghost contents = { λ s. Some (contents_of s.shelf.files.items) };

    ghost left = { λ s. left_of s.shelf };

    ghost started = { λ s. is_some s.shelf.file };

    ghost starts = { λ s. Some s.shelf.starts };

    ghost faults = { λ _. 0 };

    fn start_file(&mut self, name: &str) -> Result<(), Failed> {
        self.shelf.start(name);
        Ok(())
    }

    fn read(&mut self, buf: &mut [u8]) -> Result<usize, Failed> {
        Ok(self.shelf.read(buf))
    }
}

/// A sink that drops its bytes, and of which no call fails.
#[derive(Clone, Copy)]
pub struct NoFailSink;

impl Sink for NoFailSink {
    ghost written = { λ _. None };

    ghost faults = { λ _. 0 };

    fn write(&mut self, bytes: &[u8]) -> Result<usize, Failed> {
        Ok(bytes.len())
    }
}
