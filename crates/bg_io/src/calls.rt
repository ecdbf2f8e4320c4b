//! Calls that are counted, and that fail when they are told to.

// How many calls were made and how many failed, and the numbers, from 1, of those that are to fail.
#[derive(Drop)]
pub(crate) struct Calls {
    fails: Vec<u64>,
    made: u64,
    faults: u64,
}

impl Calls {
    ghost use Rattle.std.specs.Prelude.{◌≡◌, ◌↔◌, IsTrue};
    ghost use Rattle.bg_io.specs.Calls.{first_call, IsToFail};
    ghost use Rattle.bg_io.specs.Causes.{raised};

    pub(crate) fn new(fails: Vec<u64>) -> Calls
        ensures { result ≡ first_call fails }
    {
        Calls {
            fails,
            made: 0,
            faults: 0,
        }
    }

    // Counts one more call, and says whether it is to fail.
    pub(crate) fn next(&mut self) -> bool
        ensures told { IsTrue result ↔ IsToFail self.old }
        ensures made { self.new ≡ record self.old { made = raised self.old.made 1 } }
    {
        self.made = self.made.saturating_add(1);
        self.fails.contains(&self.made)
    }

    // Counts one more fault.
    pub(crate) fn fail(&mut self)
        ensures { self.new ≡ record self.old { faults = raised self.old.faults 1 } }
    {
        self.faults = self.faults.saturating_add(1);
    }
}
