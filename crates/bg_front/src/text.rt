//! The program of a text.
ghost use Rattle.std.specs.Prelude.{◌≤◌, Bool, length, IfOk, IfErr};
ghost use Rattle.bg_text.specs.Tokens.{views};
ghost use Rattle.bg_text.specs.Views.{decls_of};
ghost use Rattle.bg_ast.specs.Views.{program_of};
ghost use Rattle.bg_typed.specs.Rules.{KeepsTypes};
ghost use Rattle.bg_front.specs.Limits.{most_bytes};
ghost use Rattle.bg_front.specs.Programs.{IsMeaningFrom, IsProgramFrom, IsProgramOf, IsRefused};
ghost use Rattle.bg_front.specs.Trees.{IsTreeOf};

use crate::limits::MOST_BYTES;
use crate::refusal::{ReadError, Refusal};
use crate::sizes::within_limits;
use crate::tree::{Read, tree_of};
use bg_ast::resolved::Resolved;
use bg_meant::laws::names_mean_a_program;
use bg_named::laws::resolved_programs_are_named;
use bg_parse::Tree;
use bg_resolve::{ResolveError, resolve};
use bg_text::{Decl, Token};
use bg_typed::laws::faultless_programs_keep_the_rules;
use bg_types::{TypeFault, Typed, check_types};
use std::alloc::Global;

/// The tokens and the tree of a text that isn't too long.
fn read<'a>(alloc: Global, bytes: &'a [u8]) -> Result<Read<'a>, ReadError<'a>>
    ensures short { IfOk result (λ _. length bytes.now ≤ most_bytes) }
    ensures read { IfOk result (λ r. IsTreeOf bytes.now (views r.tokens.items) (decls_of r.tree.decls.items)) }
    ensures refused { IfErr result (λ e. (guess : Bool) → IsRefused guess bytes.now e) }
{
    if bytes.len() as u64 > MOST_BYTES {
        return Err(ReadError::Refused(Refusal::TooLong));
    }
    tree_of(alloc, bytes)
}

/// What the declarations mean.
fn meaning<'a>(
    alloc: Global,
    bytes: &'a [u8],
    tokens: &[Token<'a>],
    decls: &[Decl],
) -> Result<Resolved, ReadError<'a>>
    requires short { length bytes.now ≤ most_bytes }
    requires tree { IsTreeOf bytes.now (views tokens.now) (decls_of decls.now) }
    ensures meant { IfOk result (λ p. IsMeaningFrom bytes.now (views tokens.now) (decls_of decls.now) (program_of p)) }
    ensures refused { IfErr result (λ e. (guess : Bool) → IsRefused guess bytes.now e) }
{
    names_mean_a_program();
    match resolve(alloc, decls) {
        Ok(program) => Ok(program),
        Err(ResolveError::Fault(fault)) => Err(ReadError::Refused(Refusal::Names(fault))),
        Err(ResolveError::Memory) => Err(ReadError::Memory),
    }
}

/// The same, where it keeps the rules of types.
fn typed<'a>(
    alloc: Global,
    bytes: &'a [u8],
    tokens: &[Token<'a>],
    decls: &[Decl],
    program: Resolved,
) -> Result<Typed, ReadError<'a>>
    requires meant { IsMeaningFrom bytes.now (views tokens.now) (decls_of decls.now) (program_of program) }
    ensures meant { IfOk result (λ t. IsMeaningFrom bytes.now (views tokens.now) (decls_of decls.now) (program_of t.program)) }
    ensures typed { IfOk result (λ t. KeepsTypes (program_of t.program)) }
    ensures refused { IfErr result (λ e. (guess : Bool) → IsRefused guess bytes.now e) }
{
    resolved_programs_are_named();
    faultless_programs_keep_the_rules();
    match check_types(alloc, program) {
        Ok(typed) => Ok(typed),
        Err(TypeFault::Refused(refusal)) => Err(ReadError::Refused(Refusal::Types(refusal))),
        Err(TypeFault::Memory) => Err(ReadError::Memory),
    }
}

/// The same with the guesses that are asked for, where this exceeds no limit.
fn counted<'a>(
    alloc: Global,
    bytes: &'a [u8],
    tokens: &[Token<'a>],
    decls: &[Decl],
    typed: Typed,
    guess: bool,
) -> Result<Typed, ReadError<'a>>
    requires meant { IsMeaningFrom bytes.now (views tokens.now) (decls_of decls.now) (program_of typed.program) }
    requires typed { KeepsTypes (program_of typed.program) }
    ensures program { IfOk result (λ t. IsProgramFrom guess bytes.now (decls_of decls.now) (program_of t.program)) }
    ensures refused { IfErr result (λ e. IsRefused guess bytes.now e) }
{
    let program = within_limits(alloc, typed.program, guess)?;
    Ok(Typed { program })
}

/// The tree of a text, and its program, with its guesses where these are asked for.
#[derive(Drop)]
pub struct Written {
    pub tree: Tree,
    pub typed: Typed,
}

/// The tree and the program of a text, with its guesses where these are asked for.
///
/// # Errors
/// `Refused` with the first of these that holds: there are too many bytes (`TooLong`); the bytes hold no tokens (`Bytes`);
/// the tokens spell no program (`Syntax`) or open a 201st bracket (`Nesting`), whichever comes first; a rule of names
/// (`Names`) or of types (`Types`) is broken; there are too many implementations
/// (`Implementations`) or candidates (`Candidates`), the guesses that are asked for among them and counted before they are
/// made; an implementation has with them too many places (`Places`), a chain of functions too many bodies (`Bodies`), or the
/// axioms together or an implementation, with bodies in the place of applications, too many expression nodes (`Expanded`).
/// `Memory` where memory ran out. Positions are lines and byte columns from 1.
pub fn read_text<'a>(alloc: Global, bytes: &'a [u8], guess: bool) -> Result<Written, ReadError<'a>>
    ensures program { IfOk result (λ w. IsProgramFrom guess bytes.now (decls_of w.tree.decls.items) (program_of w.typed.program)) }
    ensures refused { IfErr result (λ e. IsRefused guess bytes.now e) }
{
    let read = read(alloc, bytes)?;
    let program = meaning(alloc, bytes, &read.tokens, &read.tree.decls)?;
    let typed = typed(alloc, bytes, &read.tokens, &read.tree.decls, program)?;
    let made = counted(alloc, bytes, &read.tokens, &read.tree.decls, typed, guess)?;
    Ok(Written {
        tree: read.tree,
        typed: made,
    })
}

/// The program of a text: that of `read_text`, and its errors.
pub fn read_program<'a>(alloc: Global, bytes: &'a [u8], guess: bool) -> Result<Typed, ReadError<'a>>
    ensures program { IfOk result (λ t. IsProgramOf guess bytes.now (program_of t.program)) }
    ensures refused { IfErr result (λ e. IsRefused guess bytes.now e) }
{
    let written = read_text(alloc, bytes, guess)?;
    Ok(written.typed)
}
