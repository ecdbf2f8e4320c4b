//! How a run ends.
ghost use Rattle.std.specs.Prelude.{◌≡◌};
ghost use Rattle.bg_ends.specs.Statuses.{number_of};

/// How a run ends; the number of a variant, from 0, is the status of the process.
#[derive(Clone, Copy, PartialEq, Eq)]
pub enum Status {
    /// Every implementation is verified.
    Verified,
    /// A place was refuted.
    Refuted,
    /// No place was refuted, and one ended unknown.
    Unknown,
    /// The text breaks a rule, or has what isn't judged yet.
    Text,
    /// The words aren't taken.
    Usage,
    /// A file could not be read.
    Read,
    /// The report or a line could not be written.
    Write,
    /// There was no memory.
    Memory,
    /// The text goes past a limit.
    Limit,
}

impl Status {
    /// The status of the process.
    pub fn number(self) -> u8
        ensures { result ≡ number_of self }
    {
        match self {
            Status::Verified => 0,
            Status::Refuted => 1,
            Status::Unknown => 2,
            Status::Text => 3,
            Status::Usage => 4,
            Status::Read => 5,
            Status::Write => 6,
            Status::Memory => 7,
            Status::Limit => 8,
        }
    }
}
