//! Terms with those that lines bring.
ghost use Rattle.std.specs.Prelude.{◌≡◌, List, IfOk};
ghost use Rattle.bg_ast.specs.Syntax.{Fun};
ghost use Rattle.bg_numbered.specs.Lines.{after_lines};
ghost use Rattle.bg_term_table.specs.Views.{head_of, term_of, terms_in, incs_of, GiveThese};
ghost use Rattle.bg_term_table.specs.Lines.{lines_of};

use crate::around::Around;
use crate::bring::bring_in;
use crate::copies::copy_all;
use crate::kept_types::{keys_copied, type_copied};
use crate::line::Line;
use crate::table::{Head, Term};
use std::alloc::{AllocError, Global};

/// The same head.
fn head_copied(alloc: Global, h: &Head) -> Result<Head, AllocError>
    ensures { IfOk result (λ made. head_of made ≡ head_of h.now) }
{
    match h {
        Head::Function(f) => Ok(Head::Function(*f)),
        Head::Selects(k, t) => {
            let keys = keys_copied(alloc, &k.keys)?;
            let gives = type_copied(alloc, t.as_ref())?;
            Ok(Head::Selects(keys, gives))
        }
        Head::Updates(k, t) => {
            let keys = keys_copied(alloc, &k.keys)?;
            let gives = type_copied(alloc, t.as_ref())?;
            Ok(Head::Updates(keys, gives))
        }
        Head::Differs(k, t, j) => {
            let keys = keys_copied(alloc, &k.keys)?;
            let gives = type_copied(alloc, t.as_ref())?;
            Ok(Head::Differs(keys, gives, *j))
        }
    }
}

/// The same term.
fn term_copied(alloc: Global, t: &Term) -> Result<Term, AllocError>
    ensures { IfOk result (λ made. (fs : List Fun) → term_of fs made ≡ term_of fs t.now) }
{
    let head = head_copied(alloc, &t.head)?;
    let args = copy_all(alloc, &t.args)?;
    Ok(Term { head, args })
}

/// The same terms.
fn terms_copied(alloc: Global, terms: &[Term]) -> Result<Vec<Term>, AllocError>
    ensures { IfOk result (λ made. (fs : List Fun) → terms_in fs made.items ≡ terms_in fs terms.now) }
{
    let mut made = Vec::new(alloc);
    for t in terms {
        let t = term_copied(alloc, t)?;
        made.push(t)?;
    }
    Ok(made)
}

/// These terms, and behind them those that lines bring, one line after the other.
///
/// Only want of memory is an error; 2^32 incarnations and terms count as such.
pub fn terms_behind(
    alloc: Global,
    around: Around<'_>,
    terms: &[Term],
    lines: &[Line],
) -> Result<Vec<Term>, AllocError>
    ensures { IfOk result (λ made. (fs : List Fun) → GiveThese fs around.entry → terms_in fs made.items ≡ after_lines (incs_of around.entry) (terms_in fs terms.now) (lines_of lines.now)) }
{
    let mut made = terms_copied(alloc, terms)?;
    for i in 0..lines.len() {
        bring_in(alloc, around, &mut made, lines[i])?;
    }
    Ok(made)
}
