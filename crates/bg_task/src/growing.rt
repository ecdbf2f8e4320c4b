//! The terms of a prepared implementation while lines bring more.
ghost use Rattle.std.specs.Prelude.{◌≡◌, ℕ, List, IfOk, OnOk};
ghost use Rattle.bg_ast.specs.Values.{Ty};
ghost use Rattle.bg_ast.specs.Syntax.{Fun};
ghost use Rattle.bg_ast.specs.Meaning.{meaning_of, named_of, impl_of, proc_of};
ghost use Rattle.bg_ast.specs.Views.{program_of};
ghost use Rattle.bg_block_types.specs.Typed.{incarnations_in};
ghost use Rattle.bg_terms.specs.Terms as t;
ghost use Rattle.bg_numbered.specs.Lines.{after_line, is_there};
ghost use Rattle.bg_term_table.specs.Lines.{line_of};
ghost use Rattle.bg_termed.specs.Termed.{terms_in};
ghost use Rattle.bg_task.specs.Prepared.{IsPrepared};
ghost use Rattle.bg_task.specs.Grown.{IsOver};

use crate::kinds::result_kinds;
use crate::lining::front;
use crate::prepared::Prepared;
use bg_ast::resolved::Resolved;
use bg_kinds::ValueType;
use bg_term_table::{Around, Line, Term, bring_in, terms_behind};
use std::alloc::{AllocError, Global};

/// The types of incarnations and of what functions give, and the terms so far.
#[derive(Drop)]
pub struct Grown<'q> {
    pub incarnations: &'q [ValueType],
    pub results: Vec<ValueType>,
    pub terms: Vec<Term>,
}

/// What lines of a prepared implementation are read over before the first of them; its terms are copied.
///
/// Only want of memory is an error; 2^32 incarnations and terms count as such.
pub fn begun<'q>(
    alloc: Global,
    program: &Resolved,
    prepared: &'q Prepared<'_>,
) -> Result<Grown<'q>, AllocError>
    ensures { IfOk result (λ made. (number : ℕ) (h : IsPrepared (program_of program.now) number prepared.now) → IsOver (meaning_of (program_of program.now)).functions (incarnations_in (meaning_of (program_of program.now)) number (impl_of (named_of (program_of program.now).types) h.implementation) (proc_of (named_of (program_of program.now).types) h.procedure)) (terms_in (meaning_of (program_of program.now)) number (impl_of (named_of (program_of program.now).types) h.implementation) (proc_of (named_of (program_of program.now).types) h.procedure)) made) }
{
    let results = result_kinds(alloc, program)?;
    let incarnations = front(&prepared.kinds, prepared.count as usize);
    let around = Around {
        incarnations,
        results: &results,
    };
    let terms = terms_behind(alloc, around, &prepared.terms, &[])?;
    Ok(Grown {
        incarnations,
        results,
        terms,
    })
}

/// The terms with those that a line brings; whether it names what is there and fits, else it brings nothing.
///
/// Only want of memory is an error; 2^32 incarnations and terms count as such.
pub fn grow(alloc: Global, grown: &mut Grown<'_>, line: Line) -> Result<bool, AllocError>
    ensures over { OnOk result ((fs : List Fun) (incs : List Ty) (ts : List t.Term) → IsOver fs incs ts grown.old → IsOver fs incs (after_line incs ts (line_of line)) grown.new) }
    ensures there { IfOk result (λ b. (fs : List Fun) (incs : List Ty) (ts : List t.Term) → IsOver fs incs ts grown.old → b ≡ is_there incs ts (line_of line)) }
{
    let around = Around {
        incarnations: grown.incarnations,
        results: &grown.results,
    };
    bring_in(alloc, around, &mut grown.terms, line)
}
