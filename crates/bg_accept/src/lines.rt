//! The lines of a section's terms and instances, as lines.
ghost use Rattle.std.specs.Prelude.{◌≡◌, ◌+◌, ℕ, List, length, IfOk, option_map};
ghost use Rattle.bg_ast.specs.Values.{Ty};
ghost use Rattle.bg_ast.specs.Syntax.{Fun};
ghost use Rattle.bg_ast.specs.Meaning.{meaning_of, named_of, impl_of, proc_of};
ghost use Rattle.bg_ast.specs.Views.{program_of};
ghost use Rattle.bg_block_types.specs.Typed.{incarnations_in};
ghost use Rattle.bg_terms.specs.Terms.{Term};
ghost use Rattle.bg_term_table.specs.Lines.{line_of, lines_of};
ghost use Rattle.bg_term_table.specs.declared.line.Line.TheVariants as line;
ghost use Rattle.bg_termed.specs.Termed.{terms_in};
ghost use Rattle.bg_task.specs.Prepared.{IsPrepared};
ghost use Rattle.bg_task.specs.Grown.{IsOver};
ghost use Rattle.bg_accept.specs.Lines.{line_in, lines_in};
ghost use Rattle.bg_accept.specs.Read.{number_in, two_in, three_in, IsRead, IsBehind};

use bg_ast::resolved::Resolved;
use bg_certtext::Stated;
use bg_task::{Grown, Prepared, begun, grow};
use bg_term_table::Line;
use std::alloc::{AllocError, Global};

/// A number, where so many are there; 2^32 are more than memory holds.
fn number_in(many: usize, a: u128) -> Result<Option<u32>, AllocError>
    ensures { IfOk result (λ o. o ≡ number_in many a) }
{
    if a >= many as u128 {
        return Ok(None);
    }
    match u32::try_from(a) {
        Ok(n) => Ok(Some(n)),
        Err(_) => Err(AllocError),
    }
}

/// Two numbers, where so many are there.
fn two_in(n: usize, a: u128, b: u128) -> Result<Option<(u32, u32)>, AllocError>
    ensures { IfOk result (λ o. o ≡ two_in n a b) }
{
    let Some(a) = number_in(n, a)? else {
        return Ok(None);
    };
    let Some(b) = number_in(n, b)? else {
        return Ok(None);
    };
    Ok(Some((a, b)))
}

/// Three numbers, where so many are there.
fn three_in(n: usize, a: u128, b: u128, c: u128) -> Result<Option<(u32, (u32, u32))>, AllocError>
    ensures { IfOk result (λ o. o ≡ three_in n a b c) }
{
    let Some(a) = number_in(n, a)? else {
        return Ok(None);
    };
    let Some(two) = two_in(n, b, c)? else {
        return Ok(None);
    };
    Ok(Some((a, two)))
}

fn read_pick(n: usize, m: u128, a: u128) -> Result<Option<Line>, AllocError>
    ensures { IfOk result (λ o. o ≡ option_map (λ p. line.Pick p.0 p.1) (two_in n m a)) }
{
    match two_in(n, m, a)? {
        None => Ok(None),
        Some((m, a)) => Ok(Some(Line::Pick(m, a))),
    }
}

fn read_names(n: usize, m: u128, k: u128) -> Result<Option<Line>, AllocError>
    ensures { IfOk result (λ o. o ≡ option_map (λ p. line.Names p.0 p.1) (two_in n m k)) }
{
    match two_in(n, m, k)? {
        None => Ok(None),
        Some((m, k)) => Ok(Some(Line::Names(m, k))),
    }
}

fn read_congruent(n: usize, a: u128, b: u128) -> Result<Option<Line>, AllocError>
    ensures { IfOk result (λ o. o ≡ option_map (λ p. line.Congruent p.0 p.1) (two_in n a b)) }
{
    match two_in(n, a, b)? {
        None => Ok(None),
        Some((a, b)) => Ok(Some(Line::Congruent(a, b))),
    }
}

fn read_at_index(n: usize, u: u128, s: u128) -> Result<Option<Line>, AllocError>
    ensures { IfOk result (λ o. o ≡ option_map (λ p. line.AtIndex p.0 p.1) (two_in n u s)) }
{
    match two_in(n, u, s)? {
        None => Ok(None),
        Some((u, s)) => Ok(Some(Line::AtIndex(u, s))),
    }
}

fn read_elsewhere(n: usize, u: u128, s: u128, r: u128) -> Result<Option<Line>, AllocError>
    ensures { IfOk result (λ o. o ≡ option_map (λ p. line.Elsewhere p.0 p.1.0 p.1.1) (three_in n u s r)) }
{
    match three_in(n, u, s, r)? {
        None => Ok(None),
        Some((u, (s, r))) => Ok(Some(Line::Elsewhere(u, s, r))),
    }
}

fn read_apart(n: usize, s: u128, r: u128) -> Result<Option<Line>, AllocError>
    ensures { IfOk result (λ o. o ≡ option_map (λ p. line.Apart p.0 p.1) (two_in n s r)) }
{
    match two_in(n, s, r)? {
        None => Ok(None),
        Some((s, r)) => Ok(Some(Line::Apart(s, r))),
    }
}

/// What a line of the text says, where so many incarnations and terms are there; none where a number is none of theirs.
fn read(n: usize, stated: &Stated) -> Result<Option<Line>, AllocError>
    ensures { IfOk result (IsRead n stated.now) }
{
    match stated {
        Stated::Pick(m, a) => read_pick(n, *m, *a),
        Stated::Names(m, k) => read_names(n, *m, *k),
        Stated::Congruent(a, b) => read_congruent(n, *a, *b),
        Stated::AtIndex(u, s) => read_at_index(n, *u, *s),
        Stated::Elsewhere(u, s, r) => read_elsewhere(n, *u, *s, *r),
        Stated::Apart(s, r) => read_apart(n, *s, *r),
        Stated::Unequal(_, _) => Ok(None),
    }
}

/// How many incarnations and terms there are; more than a number holds are more than memory holds.
fn total(grown: &Grown<'_>) -> Result<usize, AllocError>
    ensures { IfOk result (λ k. k ≡ length grown.now.incarnations.now + length grown.now.terms.items) }
{
    match grown.incarnations.len().checked_add(grown.terms.len()) {
        Some(k) => Ok(k),
        None => Err(AllocError),
    }
}

/// A line of the text as a line, if it names what is there; what it brings comes in.
fn line_in(
    alloc: Global,
    grown: &mut Grown<'_>,
    stated: &Stated,
) -> Result<Option<Line>, AllocError>
    ensures line { IfOk result (λ o. (fs : List Fun) (incs : List Ty) (ts : List Term) → IsOver fs incs ts grown.old → option_map line_of o ≡ line_in incs ts stated.now) }
    ensures over { IfOk result (λ o. (fs : List Fun) (incs : List Ty) (ts : List Term) → IsOver fs incs ts grown.old → IsBehind fs incs ts grown.new o) }
{
    let n = total(grown)?;
    match read(n, stated)? {
        None => Ok(None),
        Some(line) => {
            if grow(alloc, grown, line)? {
                Ok(Some(line))
            } else {
                Ok(None)
            }
        }
    }
}

/// The lines of a section at a prepared implementation; none where one of them names what isn't there.
///
/// Only want of memory is an error; 2^32 incarnations and terms count as such.
pub fn lines_in(
    alloc: Global,
    program: &Resolved,
    prepared: &Prepared<'_>,
    stated: &[Stated],
) -> Result<Option<Vec<Line>>, AllocError>
    ensures { IfOk result (λ o. (number : ℕ) (h : IsPrepared (program_of program.now) number prepared.now) → option_map (λ v. lines_of v.items) o ≡ lines_in (incarnations_in (meaning_of (program_of program.now)) number (impl_of (named_of (program_of program.now).types) h.implementation) (proc_of (named_of (program_of program.now).types) h.procedure)) (terms_in (meaning_of (program_of program.now)) number (impl_of (named_of (program_of program.now).types) h.implementation) (proc_of (named_of (program_of program.now).types) h.procedure)) stated.now) }
{
    let mut made = Vec::new(alloc);
    if stated.is_empty() {
        return Ok(Some(made));
    }
    let mut grown = begun(alloc, program, prepared)?;
    for s in stated {
        match line_in(alloc, &mut grown, s)? {
            None => return Ok(None),
            Some(line) => made.push(line)?,
        }
    }
    Ok(Some(made))
}
