//! Why a text is refused.
ghost use Rattle.std.specs.Prelude.{◌≡◌, ◌++◌, OnOk, IfOk};
ghost use Rattle.bg_front.specs.Lines.{line_of};
ghost use Rattle.bg_front.specs.Refusals.{refusal_of, is_limit};

use crate::faults::{put_bytes, put_name, put_type};
use crate::limits::MOST_BYTES;
use crate::lines::{put_fault, put_limit};
use bg_base::Pos;
use bg_lex::Fault;
use bg_places::MOST_EXPANDED;
use bg_resolve::NameFault;
use bg_types::Refusal as TypeRefusal;
use std::alloc::{AllocError, Global};

/// The first rule that a text breaks, and where.
#[derive(Drop)]
pub enum Refusal<'a> {
    /// There are more than `MOST_BYTES` bytes.
    TooLong,
    /// The bytes hold no tokens.
    Bytes(Pos, Fault<'a>),
    /// No program goes on with the token at this position, or the text ends here too early.
    Syntax(Pos),
    /// A bracket is the 201st that is open.
    Nesting,
    /// A rule of names is broken.
    Names(NameFault),
    /// A rule of types is broken.
    Types(TypeRefusal),
    /// There are so many implementations, more than `MOST_IMPLEMENTATIONS`.
    Implementations(usize),
    /// There are so many candidates, more than `MOST_CANDIDATES`.
    Candidates(usize),
    /// The first implementation that has more places than `MOST_PLACES` has so many, as far as 64 bits tell it.
    Places(usize),
    /// The longest chain of functions, each applied in the body of the next, has so many, more than `MOST_BODIES`.
    Bodies(usize),
    /// With bodies in the place of applications, the axioms together, with the claims that unique constants differ, have more
    /// expression nodes than `MOST_EXPANDED`, or an implementation has with the clauses of what it calls.
    Expanded,
}

/// Why there is no program.
#[derive(Drop)]
pub enum ReadError<'a> {
    /// The text is refused.
    Refused(Refusal<'a>),
    /// Memory ran out.
    Memory,
}

impl<'a> Refusal<'a> {
    /// Whether a limit is exceeded, and no rule of the language broken.
    pub fn is_limit(&self) -> bool
        ensures { result ≡ is_limit (refusal_of self.now) }
    {
        match self {
            Refusal::TooLong => true,
            Refusal::Nesting => true,
            Refusal::Implementations(_) => true,
            Refusal::Candidates(_) => true,
            Refusal::Places(_) => true,
            Refusal::Bodies(_) => true,
            Refusal::Expanded => true,
            _ => false,
        }
    }

    fn put(&self, out: &mut Vec<u8>) -> Result<(), AllocError>
        ensures { OnOk result (out.new.items ≡ out.old.items ++ line_of (refusal_of self.now)) }
    {
        match self {
            Refusal::TooLong => put_limit(out, b"bytes", MOST_BYTES as usize + 1),
            Refusal::Bytes(pos, fault) => put_bytes(out, *pos, *fault),
            Refusal::Syntax(pos) => put_fault(out, *pos, b"syntax"),
            Refusal::Nesting => put_limit(out, b"nesting", 201),
            Refusal::Names(fault) => put_name(out, fault.kind, fault.pos, &fault.name),
            Refusal::Types(refusal) => put_type(out, &refusal.types, &refusal.fault),
            Refusal::Implementations(count) => put_limit(out, b"implementations", *count),
            Refusal::Candidates(count) => put_limit(out, b"candidates", *count),
            Refusal::Places(count) => put_limit(out, b"places", *count),
            Refusal::Bodies(count) => put_limit(out, b"bodies", *count),
            Refusal::Expanded => put_limit(out, b"expanded", MOST_EXPANDED as usize + 1),
        }
    }

    /// The line that says so, with its newline byte. Only want of memory is an error.
    pub fn line(&self, alloc: Global) -> Result<Vec<u8>, AllocError>
        ensures { IfOk result (λ text. text.items ≡ line_of (refusal_of self.now)) }
    {
        let mut out = Vec::new(alloc);
        self.put(&mut out)?;
        Ok(out)
    }
}
