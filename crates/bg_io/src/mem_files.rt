//! Files in memory, of which chosen calls fail.
use crate::calls::Calls;
use crate::errors::Failed;
use crate::outside::Files;
use crate::stored::{Shelf, StoredFile};

/// Files in memory. Of those of one name the first is read; the start of a file that isn't there
/// fails.
#[derive(Drop)]
pub struct MemFiles {
    shelf: Shelf,
    calls: Calls,
}

impl MemFiles {
    ghost use Rattle.std.specs.Prelude.{◌≡◌};
    ghost use Rattle.bg_io.specs.Calls.{first_call};
    ghost use Rattle.bg_io.specs.Memory.{contents_in, file_calls, starts_in};
    ghost use Rattle.bg_io.specs.Stored.{contents_of};

    /// These files. The calls of `start_file` and `read` are counted together, from 1, and those
    /// whose numbers stand in `fails` fail.
    pub fn new(files: Vec<StoredFile>, fails: Vec<u64>) -> MemFiles
        ensures contents { contents_in result ≡ contents_of files.items }
        ensures starts { starts_in result ≡ 0 }
        ensures calls { file_calls result ≡ first_call fails }
    {
        MemFiles {
            shelf: Shelf::new(files),
            calls: Calls::new(fails),
        }
    }
}

impl Files for MemFiles {
    ghost use Rattle.std.specs.Prelude.{◌≡◌, ◌≤◌, ◌<◌, ◌↔◌, ◌⊎◌, Some, IfOk, OnOk, OnErr, IsErr, IsTrue, IsFalse, is_ok, length};
    ghost use Rattle.bg_io.specs.Calls.{IsToFail, IsCounted};
    ghost use Rattle.bg_io.specs.Causes.{ReadsFront, raised};
    ghost use Rattle.bg_io.specs.Memory.{contents_in, file_calls, is_held, left_in, started_in, starts_in};

    ghost contents = { λ s. Some (contents_in s) };

    ghost left = { left_in };

    ghost started = { started_in };

    ghost starts = { λ s. Some (starts_in s) };

    ghost faults = { λ s. (file_calls s).faults };

    // Fails where the call is to fail or no file has the name.
    fn start_file(&mut self, name: &str) -> Result<(), Failed>
        ensures same { contents_in self.new ≡ contents_in self.old }
        ensures left { OnOk result (left_in self.new ≡ Some (contents_in self.old name.now)) }
        ensures started { started_in self.new ≡ is_ok result }
        ensures starts { starts_in self.new ≡ raised (starts_in self.old) 1 }
        ensures calls { IsCounted (file_calls self.old) (file_calls self.new) result }
        ensures fails { IsErr result ↔
            (IsToFail (file_calls self.old) ⊎ IsFalse (is_held self.old name.now)) }
    {
        let fails = self.calls.next();
        let found = self.shelf.start(name);
        if fails || !found {
            self.shelf.stop();
            self.calls.fail();
            return Err(Failed);
        }
        Ok(())
    }

    // Fails where the call is to fail.
    fn read(&mut self, buf: &mut [u8]) -> Result<usize, Failed>
        requires started { IsTrue (started_in self.old) }
        requires room { 0 < length buf.old }
        ensures same { contents_in self.new ≡ contents_in self.old }
        ensures bytes { IfOk result (λ n.
            (n ≤ length buf.new) × ReadsFront n buf.new (left_in self.old) (left_in self.new)) }
        ensures err { OnErr result (left_in self.new ≡ left_in self.old) }
        ensures started { started_in self.new ≡ started_in self.old }
        ensures starts { starts_in self.new ≡ starts_in self.old }
        ensures calls { IsCounted (file_calls self.old) (file_calls self.new) result }
        ensures fails { IsErr result ↔ IsToFail (file_calls self.old) }
    {
        if self.calls.next() {
            self.calls.fail();
            return Err(Failed);
        }
        Ok(self.shelf.read(buf))
    }
}
