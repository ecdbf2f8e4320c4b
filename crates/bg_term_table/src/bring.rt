//! What lines bring behind terms.
ghost use Rattle.std.specs.Prelude.{◌≡◌, ℕ, ◌+◌, ◌&&◌, ◌++◌, ◌∷◌, [], List, Some, drop, map, nat_lt, slice_get, IfOk, OnOk};
ghost use Rattle.bg_ast.specs.Values.{result_of};
ghost use Rattle.bg_ast.specs.Syntax.{Fun, Read, Local, More, NoMore};
ghost use Rattle.bg_kinds.specs.Views.{key_of, keys_of, ref_in};
ghost use Rattle.bg_sense.specs.Types.{key_types_eq, ty_eq};
ghost use Rattle.bg_terms.specs.Typed.{types_with};
ghost use Rattle.bg_numbered.specs.Put.{keys_in};
ghost use Rattle.bg_numbered.specs.Lines.{Names, after_line, is_there, names_at, names_by, named, picked, pick_by, select_from};
ghost use Rattle.bg_term_table.specs.Views.{meaning, meanings, listed, term_of, terms_in, incs_of, GiveThese, seen_ty};
ghost use Rattle.bg_term_table.specs.Lines.{line_of};
ghost use Rattle.bg_term_table.specs.Brought.{has_index, perhaps, selects, parts, names_of, read_list};

use crate::around::Around;
use crate::copies::copy;
use crate::heads::{are_same_keys, are_same_maps};
use crate::kept_types::{keys_copied, type_copied};
use crate::line::Line;
use crate::seen::Seen;
use crate::table::{Head, Term};
use crate::types::{index_types, read_type, result_in};
use bg_ast::resolved::{Expr, Variable};
use bg_base::Pos;
use bg_kinds::{IndexType, Keys, ValueType};
use std::alloc::{AllocError, Global};

/// Where what no text says stands.
const NOWHERE: Pos = Pos { line: 0, column: 0 };

/// What reads the incarnation or the term with this number.
fn reads(number: u32) -> Expr
    ensures { meaning result ≡ Read (Local number) }
{
    Expr::Read(NOWHERE, Variable::Local(number))
}

/// What stands behind the first so many.
fn behind(xs: &[Expr], n: usize) -> &[Expr]
    ensures { result.now ≡ drop n xs.now }
{
    if n <= xs.len() { &xs[n..] } else { &[] }
}

/// An index behind the map with this number.
fn arguments(alloc: Global, m: u32, index: &[Expr]) -> Result<Vec<Expr>, AllocError>
    ensures { IfOk result (λ made. listed (meanings made.items) ≡ More (Read (Local m)) (listed (meanings index.now))) }
{
    let mut made = Vec::new(alloc);
    made.push(reads(m))?;
    for x in index {
        let x = copy(alloc, x)?;
        made.push(x)?;
    }
    Ok(made)
}

/// The select of the map with this number, which has this type, at an index of these types, if it fits.
fn select_at(
    alloc: Global,
    ty: Seen<'_>,
    m: u32,
    keys: &[IndexType],
    index: &[Expr],
) -> Result<Option<Term>, AllocError>
    ensures { IfOk result (λ made. (fs : List Fun) → perhaps fs made ≡ selects (seen_ty ty.entry) m (map key_of keys.now) (listed (meanings index.now))) }
{
    let own = index_types(alloc, ty)?;
    if own.keys.is_empty() || !are_same_keys(&own.keys, keys) {
        return Ok(None);
    }
    let gives = result_in(alloc, ty)?;
    let args = arguments(alloc, m, index)?;
    Ok(Some(Term {
        head: Head::Selects(own, gives),
        args,
    }))
}

/// The select of a map of this type at the index of a term, if that is a select or an update and it fits.
fn pick_at(alloc: Global, ty: Seen<'_>, m: u32, t: &Term) -> Result<Option<Term>, AllocError>
    ensures { IfOk result (λ made. (fs : List Fun) → perhaps fs made ≡ pick_by (Some (seen_ty ty.entry)) m (Some (term_of fs t.now))) }
{
    match &t.head {
        Head::Function(_) => Ok(None),
        Head::Selects(k, _) => select_at(alloc, ty, m, &k.keys, behind(&t.args, 1)),
        Head::Updates(k, _) => select_at(alloc, ty, m, &k.keys, behind(&t.args, 2)),
        Head::Differs(_, _, _) => Ok(None),
    }
}

/// The select of the map with this number at the index of the term with this number, if they are there and fit.
fn pick(
    alloc: Global,
    around: Around<'_>,
    terms: &[Term],
    m: u32,
    a: u32,
) -> Result<Option<Term>, AllocError>
    ensures { IfOk result (λ made. (fs : List Fun) → GiveThese fs around.entry → perhaps fs made ≡ picked (incs_of around.entry) (terms_in fs terms.now) m a) }
{
    match terms.get(a as usize) {
        None => Ok(None),
        Some(t) => pick_at(alloc, read_type(around, terms, m), m, t),
    }
}

/// The number behind so many, of what so many stand before; 2^32 count as want of memory.
fn number_of(count: usize, j: usize) -> Result<u32, AllocError>
    ensures { IfOk result (λ n. n ≡ count + j) }
{
    match count.checked_add(j) {
        None => Err(AllocError),
        Some(n) => match u32::try_from(n) {
            Ok(n) => Ok(n),
            Err(_) => Err(AllocError),
        },
    }
}

/// The two maps as arguments.
fn both_maps(alloc: Global, m: u32, o: u32) -> Result<Vec<Expr>, AllocError>
    ensures { IfOk result (λ made. listed (meanings made.items) ≡ More (Read (Local m)) (More (Read (Local o)) NoMore)) }
{
    let mut made = Vec::new(alloc);
    made.push(reads(m))?;
    made.push(reads(o))?;
    Ok(made)
}

/// The index types and the result type of maps.
#[derive(Drop)]
pub struct Maps {
    pub keys: Keys,
    pub gives: ValueType,
}

/// The parts of an index at which the maps with these numbers differ, behind terms.
fn put_parts(
    alloc: Global,
    terms: &mut Vec<Term>,
    maps: &Maps,
    m: u32,
    o: u32,
) -> Result<(), AllocError>
    ensures { OnOk result ((fs : List Fun) → terms_in fs terms.new.items ≡ terms_in fs terms.old.items ++ parts (keys_of maps.now.keys) (ref_in maps.now.gives) m o) }
{
    for j in 0..maps.keys.keys.len() {
        let part = number_of(0, j)?;
        let own = keys_copied(alloc, &maps.keys.keys)?;
        let ty = type_copied(alloc, maps.gives.as_ref())?;
        let args = both_maps(alloc, m, o)?;
        terms.push(Term {
            head: Head::Differs(own, ty, part),
            args,
        })?;
    }
    Ok(())
}

/// What reads so many from this number on.
fn reads_from(alloc: Global, from: usize, count: usize) -> Result<Vec<Expr>, AllocError>
    ensures { IfOk result (λ made. listed (meanings made.items) ≡ read_list from count) }
{
    let mut made = Vec::new(alloc);
    for j in 0..count {
        let number = number_of(from, j)?;
        made.push(reads(number))?;
    }
    Ok(made)
}

/// The select of a map at an index, behind terms.
fn put_select(
    alloc: Global,
    terms: &mut Vec<Term>,
    maps: &Maps,
    m: u32,
    index: &[Expr],
) -> Result<(), AllocError>
    ensures { OnOk result ((fs : List Fun) → terms_in fs terms.new.items ≡ terms_in fs terms.old.items ++ (select_from (keys_of maps.now.keys) (ref_in maps.now.gives) m (listed (meanings index.now))) ∷ []) }
{
    let own = keys_copied(alloc, &maps.keys.keys)?;
    let ty = type_copied(alloc, maps.gives.as_ref())?;
    let args = arguments(alloc, m, index)?;
    terms.push(Term {
        head: Head::Selects(own, ty),
        args,
    })?;
    Ok(())
}

/// The parts of an index at which the maps with these numbers differ, and the selects of both there, behind terms, of which the first has
/// this number; the maps have this type.
fn put_names(
    alloc: Global,
    terms: &mut Vec<Term>,
    first: usize,
    maps: &Maps,
    m: u32,
    o: u32,
) -> Result<(), AllocError>
    ensures { OnOk result ((fs : List Fun) → terms_in fs terms.new.items ≡ terms_in fs terms.old.items ++ names_at (keys_of maps.now.keys) (ref_in maps.now.gives) first m o) }
{
    put_parts(alloc, terms, maps, m, o)?;
    let index = reads_from(alloc, first, maps.keys.keys.len())?;
    put_select(alloc, terms, maps, m, &index)?;
    put_select(alloc, terms, maps, o, &index)?;
    Ok(())
}

/// The index types and the result type of maps of this type; what is no map has no index.
fn maps_of(alloc: Global, t: Seen<'_>) -> Result<Maps, AllocError>
    ensures keys { IfOk result (λ made. keys_of made.keys ≡ keys_in (seen_ty t.entry)) }
    ensures gives { IfOk result (λ made. ref_in made.gives ≡ result_of (seen_ty t.entry)) }
{
    let keys = index_types(alloc, t)?;
    let gives = result_in(alloc, t)?;
    Ok(Maps { keys, gives })
}

/// Whether these are one type, with an index.
fn are_one(a: &Maps, b: &Maps) -> bool
    ensures { result ≡ (has_index (keys_of a.now.keys) && (key_types_eq (keys_of a.now.keys) (keys_of b.now.keys) && ty_eq (ref_in a.now.gives) (ref_in b.now.gives))) }
{
    !a.keys.keys.is_empty() && are_same_maps(&a.keys, &a.gives, &b.keys, &b.gives)
}

/// The type that the maps with these numbers have, if they are there and have one type, with an index.
fn one_type(
    alloc: Global,
    around: Around<'_>,
    terms: &[Term],
    m: u32,
    o: u32,
) -> Result<Option<Maps>, AllocError>
    ensures { IfOk result (λ made. (fs : List Fun) → GiveThese fs around.entry → (n : ℕ) → names_of made n m o ≡ names_by (slice_get (types_with (incs_of around.entry) (terms_in fs terms.now)) m) (slice_get (types_with (incs_of around.entry) (terms_in fs terms.now)) o) n m o) }
{
    let a = maps_of(alloc, read_type(around, terms, m))?;
    let b = maps_of(alloc, read_type(around, terms, o))?;
    if are_one(&a, &b) {
        Ok(Some(a))
    } else {
        Ok(None)
    }
}

/// How many incarnations and terms there are.
fn total(count: usize, terms: usize) -> Result<usize, AllocError>
    ensures { IfOk result (λ n. n ≡ count + terms) }
{
    match count.checked_add(terms) {
        None => Err(AllocError),
        Some(n) => Ok(n),
    }
}

/// The parts of an index at which maps that are there differ, with the selects of both, if they have one type, with an index; else nothing.
fn name(
    alloc: Global,
    around: Around<'_>,
    terms: &mut Vec<Term>,
    m: u32,
    o: u32,
) -> Result<bool, AllocError>
    ensures terms { OnOk result ((fs : List Fun) → GiveThese fs around.entry → terms_in fs terms.new.items ≡ terms_in fs terms.old.items ++ named (incs_of around.entry) (terms_in fs terms.old.items) m o) }
    ensures there { IfOk result (λ b. (fs : List Fun) → GiveThese fs around.entry → b ≡ is_there (incs_of around.entry) (terms_in fs terms.old.items) (Names m o)) }
{
    let maps = one_type(alloc, around, terms, m, o)?;
    match maps {
        None => Ok(false),
        Some(t) => {
            let first = total(around.incarnations.len(), terms.len())?;
            put_names(alloc, terms, first, &t, m, o)?;
            Ok(true)
        }
    }
}

/// Whether there are so many.
fn is_below(a: u32, n: usize) -> bool
    ensures { result ≡ nat_lt a n }
{
    (a as usize) < n
}

/// What a line brings, behind the terms; whether it names what is there and fits, else it brings nothing.
///
/// Only want of memory is an error; 2^32 incarnations and terms count as such.
pub fn bring_in(
    alloc: Global,
    around: Around<'_>,
    terms: &mut Vec<Term>,
    line: Line,
) -> Result<bool, AllocError>
    ensures terms { OnOk result ((fs : List Fun) → GiveThese fs around.entry → terms_in fs terms.new.items ≡ after_line (incs_of around.entry) (terms_in fs terms.old.items) (line_of line)) }
    ensures there { IfOk result (λ b. (fs : List Fun) → GiveThese fs around.entry → b ≡ is_there (incs_of around.entry) (terms_in fs terms.old.items) (line_of line)) }
{
    let n = terms.len();
    match line {
        Line::Pick(m, a) => match pick(alloc, around, terms, m, a)? {
            None => Ok(false),
            Some(t) => {
                terms.push(t)?;
                Ok(true)
            }
        },
        Line::Names(m, o) => name(alloc, around, terms, m, o),
        Line::Congruent(a, b) => Ok(is_below(a, n) && is_below(b, n)),
        Line::AtIndex(u, s) => Ok(is_below(u, n) && is_below(s, n)),
        Line::Elsewhere(u, s, r) => Ok(is_below(u, n) && (is_below(s, n) && is_below(r, n))),
        Line::Apart(s, r) => Ok(is_below(s, n) && is_below(r, n)),
    }
}
