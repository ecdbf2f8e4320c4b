//! What a command line is for.

/// What is asked of the program, by the name of the command.
#[derive(Clone, Copy, PartialEq, Eq)]
pub enum Job {
    /// A report on the programs.
    Verify,
    /// The program with the annotations that hold.
    Annotate,
    /// A certificate of the programs' report.
    Certify,
    /// Whether a certificate is one of the programs.
    Check,
    /// A program of a seed and a size, for which no file is read.
    Generate,
    /// The lines of a report that tell of the sets and counts, on a program of a seed and a size, for which no file is read.
    Bench,
}
