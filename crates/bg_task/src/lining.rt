//! The terms of a prepared implementation behind lines, and the sorts of what stands for values.
ghost use Rattle.std.specs.Prelude.{◌≡◌, List, map, take, IfOk};
ghost use Rattle.bg_ast.specs.Syntax.{Fun};
ghost use Rattle.bg_ast.specs.Views.{program_of};
ghost use Rattle.bg_terms.specs.Typed.{types_with};
ghost use Rattle.bg_term_table.specs.Views.{seen_ty, terms_in, incs_of, GiveThese};
ghost use Rattle.bg_term_table.specs.Lines.{lines_of};
ghost use Rattle.bg_task.specs.Sorts.{flat_sort};
ghost use Rattle.bg_task.specs.Lined.{IsLined};

use crate::kinds::result_kinds;
use crate::prepared::Prepared;
use crate::sorts::{flat_sort, flat_sorts};
use bg_ast::resolved::Resolved;
use bg_kinds::ValueType;
use bg_linear::Sort;
use bg_term_table::{Around, Line, Seen, Term, head_type, terms_behind};
use std::alloc::{AllocError, Global};

/// The types of incarnations and of what functions give, terms with those that lines bring, and the sorts of what stands for values of
/// incarnations and of these.
#[derive(Drop)]
pub struct Lined<'q> {
    pub incarnations: &'q [ValueType],
    pub results: Vec<ValueType>,
    pub terms: Vec<Term>,
    pub sorts: Vec<Sort>,
}

/// The first so many; all, where there are fewer.
pub fn front(kinds: &[ValueType], n: usize) -> &[ValueType]
    ensures { result.now ≡ take n kinds.now }
{
    if n <= kinds.len() { &kinds[..n] } else { kinds }
}

/// The sort of what stands for a value of this type.
fn seen_sort(t: Seen<'_>) -> Sort
    ensures { result ≡ flat_sort (seen_ty t.entry) }
{
    match t {
        Seen::Whole(t) => flat_sort(t),
        Seen::Map(_, _) => Sort::Number,
    }
}

/// The sorts of what stands for values of incarnations of these types, and of terms behind them.
fn sorts_over(alloc: Global, around: Around<'_>, terms: &[Term]) -> Result<Vec<Sort>, AllocError>
    ensures { IfOk result (λ made. (fs : List Fun) → GiveThese fs around.entry → made.items ≡ map flat_sort (types_with (incs_of around.entry) (terms_in fs terms.now))) }
{
    let mut made = flat_sorts(alloc, around.incarnations)?;
    for t in terms {
        made.push(seen_sort(head_type(around.results, &t.head)))?;
    }
    Ok(made)
}

/// The terms of a prepared implementation with those that lines bring, the types, and the sorts. All terms are made anew.
///
/// Only want of memory is an error; 2^32 incarnations and terms count as such.
pub fn with_lines<'q>(
    alloc: Global,
    program: &Resolved,
    prepared: &'q Prepared<'_>,
    lines: &[Line],
) -> Result<Lined<'q>, AllocError>
    ensures { IfOk result (λ made. IsLined (program_of program.now) prepared.now (lines_of lines.now) made) }
{
    let results = result_kinds(alloc, program)?;
    let incarnations = front(&prepared.kinds, prepared.count as usize);
    let around = Around {
        incarnations,
        results: &results,
    };
    let terms = terms_behind(alloc, around, &prepared.terms, lines)?;
    let sorts = sorts_over(alloc, around, &terms)?;
    Ok(Lined {
        incarnations,
        results,
        terms,
        sorts,
    })
}
