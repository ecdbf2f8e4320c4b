//! What is made of expressions.
ghost use Rattle.std.specs.Prelude.{◌≡◌, ◌<◌, [], ◌∷◌, ◌++◌, length};

use bg_ast::resolved::{Expr, Link};
use bg_base::OutOfRange;

/// An expression over atoms, and the first operation of its relations that leaves 128 bits. What a refused relation says is plain.
#[derive(Drop)]
pub struct Made {
    pub says: Expr,
    pub refused: Option<OutOfRange>,
}

/// The links of a chain over atoms, and the chain's first operation that leaves 128 bits.
#[derive(Drop)]
pub struct Linked {
    pub links: Vec<Link>,
    pub refused: Option<OutOfRange>,
}

/// Takes the last one away.
pub fn last(made: &mut Vec<Made>) -> Made
    requires { 0 < length made.old.items }
    ensures { made.old.items ≡ made.new.items ++ result ∷ [] }
{
    match made.pop() {
        Some(x) => x,
        None => unreachable!(),
    }
}
