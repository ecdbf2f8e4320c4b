//! Terms behind incarnations, and their arguments.
use bg_ast::resolved::Expr;
use bg_kinds::{Keys, ValueType};
use bg_term_table::Term;

/// Terms that stand behind so many incarnations.
#[derive(Clone, Copy)]
pub struct Behind<'a> {
    pub count: u32,
    pub terms: &'a [Term],
}

/// The arguments of the term with this number.
#[derive(Clone, Copy)]
pub struct Arguments<'a> {
    pub number: u32,
    pub args: &'a [Expr],
}

/// Two maps with these index types and this result type.
#[derive(Clone, Copy)]
pub struct Maps<'a> {
    pub keys: &'a Keys,
    pub gives: &'a ValueType,
    pub first: &'a Expr,
    pub second: &'a Expr,
}
