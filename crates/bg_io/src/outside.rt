//! What lies outside of the program. Its calls may fail, and each that fails is counted.
ghost use Rattle.std.specs.Prelude.{◌≡◌, ◌≤◌, ◌<◌, List, ℕ, Bool, Option, IsTrue, is_ok, length, take, IfOk, OnErr};
ghost use Rattle.bg_io.specs.Causes.{HasCause, ReadsFront, content_of, counted, joined};

use crate::errors::Failed;

/// Named files, of which one at a time is read from its start. A file in memory tells what it
/// holds; a file of the system tells nothing.
pub trait Files {
    // what stands under each name, where that is told
    ghost contents: { Self → Option (List ℕ → List ℕ) };
    // what is left of the started file, where that is told
    ghost left: { Self → Option (List ℕ) };
    // whether a file is started
    ghost started: { Self → Bool };
    // how often `start_file` was called, where that is told; it stays at its last value
    ghost starts: { Self → Option ℕ };
    // how many calls failed; it stays at its last value
    ghost faults: { Self → ℕ };

    /// Starts the file of this name, which is then the one that is read. A start that fails
    /// leaves no file started.
    fn start_file(&mut self, name: &str) -> Result<(), Failed>
        ensures same { contents self.new ≡ contents self.old }
        ensures left { IfOk result (λ _. left self.new ≡ content_of (contents self.old) name.now) }
        ensures started { started self.new ≡ is_ok result }
        ensures starts { starts self.new ≡ counted (starts self.old) 1 }
        ensures cause { HasCause (faults self.old) (faults self.new) result };

    /// Reads the next bytes of the started file to the front of `buf`, and says how many. 0 is the
    /// end of the file. A read that fails takes nothing.
    fn read(&mut self, buf: &mut [u8]) -> Result<usize, Failed>
        requires started { IsTrue (started self.old) }
        requires room { 0 < length buf.old }
        ensures same { contents self.new ≡ contents self.old }
        ensures bytes { IfOk result (λ n.
            (n ≤ length buf.new) × ReadsFront n buf.new (left self.old) (left self.new)) }
        ensures err { OnErr result (left self.new ≡ left self.old) }
        ensures started { started self.new ≡ started self.old }
        ensures starts { starts self.new ≡ starts self.old }
        ensures cause { HasCause (faults self.old) (faults self.new) result };
}

/// What takes bytes.
pub trait Sink {
    // the bytes written so far, where they are told
    ghost written: { Self → Option (List ℕ) };
    // how many calls failed; it stays at its last value
    ghost faults: { Self → ℕ };

    /// Takes a front of the bytes, at least one, and says how many. A write that fails takes
    /// nothing.
    fn write(&mut self, bytes: &[u8]) -> Result<usize, Failed>
        requires { 0 < length bytes.now }
        ensures some { IfOk result (λ n. (0 < n) × (n ≤ length bytes.now)) }
        ensures ok { IfOk result (λ n.
            written self.new ≡ joined (written self.old) (take n bytes.now)) }
        ensures err { OnErr result (written self.new ≡ written self.old) }
        ensures cause { HasCause (faults self.old) (faults self.new) result };
}
