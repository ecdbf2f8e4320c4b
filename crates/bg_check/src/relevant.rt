//! What a place's clauses speak of.
use bg_ast::resolved::Expr;
use bg_formula::{Atom, Clauses, Linear, Literal};
use bg_linear::Sort;
use bg_term_table::{Head, Term, local};
use std::alloc::{AllocError, Global};

/// Marks what has this number, if it is there.
pub fn mark(marks: &mut [bool], j: usize) {
    if j < marks.len() {
        marks[j] = true;
    }
}

/// Whether what has this number is there and marked.
pub fn is_marked(marks: &[bool], j: usize) -> bool {
    match marks.get(j) {
        None => false,
        Some(b) => *b,
    }
}

/// Marks the atoms of a clause.
fn mark_clause(marks: &mut [bool], c: &[Literal]) {
    for l in c {
        mark(marks, l.atom as usize);
    }
}

/// Which atoms stand in clauses.
fn used(alloc: Global, f: &Clauses) -> Result<Vec<bool>, AllocError> {
    let mut made = vec![in alloc; false; f.atoms.len()]?;
    for c in &f.clauses {
        mark_clause(&mut made, c);
    }
    Ok(made)
}

/// Marks the variables of a row.
fn mark_row(marks: &mut [bool], l: &Linear) {
    for e in &l.row.entries {
        mark(marks, e.variable as usize);
    }
}

/// Marks the variables of an atom's row, if it has one.
fn mark_atom(marks: &mut [bool], a: &Atom) {
    if let Atom::Holds(l) = a {
        mark_row(marks, l);
    }
}

/// Marks the variables of rows that stand in clauses.
fn mark_atoms(marks: &mut [bool], used: &[bool], f: &Clauses) {
    for (i, a) in f.atoms.iter().enumerate() {
        if is_marked(used, i) {
            mark_atom(marks, a);
        }
    }
}

/// One more; what no number holds counts as want of memory.
fn one_more(n: usize) -> Result<usize, AllocError> {
    match n.checked_add(1) {
        None => Err(AllocError),
        Some(k) => Ok(k),
    }
}

/// Marks truth values whose atoms stand in clauses; they are the first atoms, one by one.
fn mark_truths(marks: &mut [bool], used: &[bool], sorts: &[Sort]) -> Result<(), AllocError> {
    let mut n: usize = 0;
    for (j, s) in sorts.iter().enumerate() {
        if let Sort::Truth = *s {
            if is_marked(used, n) {
                mark(marks, j);
            }
            n = one_more(n)?;
        }
    }
    Ok(())
}

/// Marks what these read.
fn mark_reads(marks: &mut [bool], es: &[Expr]) {
    for e in es {
        match local(e) {
            None => {}
            Some(j) => mark(marks, j as usize),
        }
    }
}

/// Whether a term is an update.
pub fn is_update(t: &Term) -> bool {
    match t.head {
        Head::Updates(_, _) => true,
        _ => false,
    }
}

/// Marks what the arguments of a term read, which stands behind so many incarnations, if it is marked.
fn mark_term(marks: &mut [bool], count: usize, terms: &[Term], i: usize) {
    match (terms.get(i), count.checked_add(i)) {
        (Some(t), Some(j)) => {
            if is_marked(marks, j) && !is_update(t) {
                mark_reads(marks, &t.args);
            }
        }
        _ => {}
    }
}

/// Marks what stands in arguments of marked terms, from the last term on.
fn mark_terms(marks: &mut [bool], count: usize, terms: &[Term]) {
    let mut left = terms.len();
    while left > 0 {
        left -= 1;
        mark_term(marks, count, terms, left);
    }
}

/// Which incarnations and terms a place's clauses speak of, and what stands in arguments of such terms.
pub fn relevant(
    alloc: Global,
    f: &Clauses,
    sorts: &[Sort],
    terms: &[Term],
) -> Result<Vec<bool>, AllocError> {
    let used = used(alloc, f)?;
    let mut marks = vec![in alloc; false; sorts.len()]?;
    mark_truths(&mut marks, &used, sorts)?;
    mark_atoms(&mut marks, &used, f);
    match sorts.len().checked_sub(terms.len()) {
        None => {}
        Some(count) => mark_terms(&mut marks, count, terms),
    }
    Ok(marks)
}
