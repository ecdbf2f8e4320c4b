//! Terms, as they are kept.
use bg_ast::resolved::Expr;
use bg_kinds::{Keys, ValueType};

/// What makes a term of its arguments: the function with this number, which has no body; or, of maps with these index types and this
/// result type, a select, an update, and the part with this number of an index at which two of them differ.
#[derive(Drop)]
pub enum Head {
    Function(u32),
    Selects(Keys, ValueType),
    Updates(Keys, ValueType),
    Differs(Keys, ValueType, u32),
}

/// A head with its arguments, which are flat.
#[derive(Drop)]
pub struct Term {
    pub head: Head,
    pub args: Vec<Expr>,
}
