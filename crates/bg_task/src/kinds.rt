//! The types of functions' values and of terms, and whether there are maps.
ghost use Rattle.std.specs.Prelude.{◌≡◌, ◌++◌, List, map, IfOk};
ghost use Rattle.bg_ast.specs.Values.{is_map};
ghost use Rattle.bg_ast.specs.Syntax.{Fun};
ghost use Rattle.bg_ast.specs.Meaning.{meaning_of};
ghost use Rattle.bg_ast.specs.Views.{program_of};
ghost use Rattle.bg_kinds.specs.Views.{ref_in, ref_of};
ghost use Rattle.bg_terms.specs.Typed.{type_of};
ghost use Rattle.bg_flatten.specs.Plain.{are_mapless};
ghost use Rattle.bg_term_table.specs.Views.{result_ty, seen_ty, terms_in};

use bg_ast::resolved::Resolved;
use bg_fits::{base_in, kind_copied, map_kind, written_kind};
use bg_kinds::{TypeRef, ValueType};
use bg_term_table::{Seen, Term, head_type};
use std::alloc::{AllocError, Global};

/// The types of what the functions of a program give.
pub fn result_kinds(alloc: Global, program: &Resolved) -> Result<Vec<ValueType>, AllocError>
    ensures { IfOk result (λ made. map ref_in made.items ≡ map result_ty (meaning_of (program_of program.now)).functions) }
{
    let mut made = Vec::new(alloc);
    for f in &program.functions {
        made.push(written_kind(alloc, &program.types, &f.result)?)?;
    }
    Ok(made)
}

/// The same type, kept by itself.
fn seen_copied(alloc: Global, t: Seen<'_>) -> Result<ValueType, AllocError>
    ensures { IfOk result (λ made. ref_in made ≡ seen_ty t.entry) }
{
    match t {
        Seen::Whole(t) => kind_copied(alloc, t),
        Seen::Map(keys, t) => map_kind(alloc, keys, t),
    }
}

/// These types, and behind them those of terms, where functions give these.
pub fn with_terms(
    alloc: Global,
    results: &[ValueType],
    kinds: Vec<ValueType>,
    terms: &[Term],
) -> Result<Vec<ValueType>, AllocError>
    ensures { IfOk result (λ made. (fs : List Fun) → map ref_in results.now ≡ map result_ty fs → map ref_in made.items ≡ map ref_in kinds.items ++ map type_of (terms_in fs terms.now)) }
{
    let mut made = kinds;
    for t in terms {
        made.push(seen_copied(alloc, head_type(results, &t.head))?)?;
    }
    Ok(made)
}

/// Whether this is a map.
fn is_map(t: TypeRef<'_>) -> bool
    ensures { result ≡ is_map (ref_of t.entry) }
{
    match base_in(t) {
        None => true,
        Some(_) => false,
    }
}

/// Whether none of these types is a map.
pub fn are_mapless(kinds: &[ValueType]) -> bool
    ensures { result ≡ are_mapless (map ref_in kinds.now) }
{
    for t in kinds {
        if is_map(t.as_ref()) {
            return false;
        }
    }
    true
}
