//! Files that are kept in memory, one of them being read.
ghost use Rattle.std.specs.Prelude.{◌≡◌, position};
ghost use Rattle.bg_io.specs.Stored.{has_name};

/// A file that is kept in memory.
#[derive(Drop)]
pub struct StoredFile {
    pub name: String,
    pub bytes: Vec<u8>,
}

// The number of the first file of this name.
fn first_named(files: &[StoredFile], name: &str) -> Option<usize>
    ensures { result ≡ position (has_name name.now) files.now }
{
    files.iter().position(|f| f.name.as_str() == name)
}

// Stored files, the number of the started one, and how far it was read. The number past the last
// stands for a file without bytes.
#[derive(Drop)]
pub(crate) struct Shelf {
    pub(crate) files: Vec<StoredFile>,
    pub(crate) file: Option<usize>,
    pub(crate) read: usize,
    pub(crate) starts: u64,
}

impl Shelf {
    ghost use Rattle.std.specs.Prelude.{◌≤◌, ◌<◌, Some, None, IfSome, IsTrue, is_some, length};
    ghost use Rattle.bg_io.specs.Causes.{counted, ReadsFront};
    ghost use Rattle.bg_io.specs.Stored.{contents_of, holds, left_of};

    pub(crate) fn new(files: Vec<StoredFile>) -> Shelf
        ensures files { result.files ≡ files }
        ensures none { result.file ≡ None }
        ensures starts { result.starts ≡ 0 }
    {
        Shelf {
            files,
            file: None,
            read: 0,
            starts: 0,
        }
    }

    // Starts the first file of this name, or one without bytes, and says whether there is one.
    pub(crate) fn start(&mut self, name: &str) -> bool
        ensures held { result ≡ holds self.old.files.items name.now }
        ensures left { left_of self.new ≡ Some (contents_of self.old.files.items name.now) }
        ensures started { IsTrue (is_some self.new.file) }
        ensures starts { Some self.new.starts ≡ counted (Some self.old.starts) 1 }
        ensures files { self.new.files ≡ self.old.files }
    {
        let found = first_named(&self.files, name);
        self.file = Some(found.unwrap_or(self.files.len()));
        self.read = 0;
        self.starts = self.starts.saturating_add(1);
        found.is_some()
    }

    // Leaves no file started.
    pub(crate) fn stop(&mut self)
        ensures { self.new ≡ record self.old { file = None } }
    {
        self.file = None;
    }

    // What is left of the started file.
    fn left(&self) -> &[u8]
        ensures { IfSome (left_of self.now) (λ left. result.now ≡ left) }
    {
        let Some(number) = self.file else {
            return &[];
        };
        match self.files.get(number) {
            Some(file) => file.bytes.get(self.read..).unwrap_or(&[]),
            None => &[],
        }
    }

    // Reads the next bytes of the started file, and says how many.
    pub(crate) fn read(&mut self, buf: &mut [u8]) -> usize
        requires started { IsTrue (is_some self.old.file) }
        requires room { 0 < length buf.old }
        ensures within { result ≤ length buf.new }
        ensures front { ReadsFront result buf.new (left_of self.old) (left_of self.new) }
        ensures same { self.new ≡ record self.old { read = self.new.read } }
    {
        let left = self.left();
        let n = left.len().min(buf.len());
        buf[..n].copy_from_slice(&left[..n]);
        self.read += n;
        n
    }
}
