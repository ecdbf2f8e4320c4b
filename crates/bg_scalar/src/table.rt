//! Tables of functions.
ghost use Rattle.std.specs.Prelude.{◌≡◌, slice_get};
ghost use Rattle.bg_sense.specs.Eval.{look_up};
ghost use Rattle.bg_scalar.specs.Views.{tables_in, vals_in, lent_in};

use crate::held::Lent;
use crate::scalar::Scalar;
use crate::value::Value;
use std::collections::BTreeMap;

/// What a function gives: a value for each list of arguments that is here, by rising arguments, and the default for others.
#[derive(Drop)]
pub struct Table {
    pub entries: BTreeMap<Vec<Value>, Value>,
    pub default: Value,
}

/// What the function with this number gives for these arguments, where functions have these tables; 0 where it has none. Takes time for
/// the logarithm of the table's size.
pub fn told<'a>(tables: &'a [Table], function: u32, args: &Vec<Value>) -> Lent<'a>
    ensures { lent_in result ≡ look_up (slice_get (tables_in tables.now) function) (vals_in args.now.items) }
{
    match tables.get(function as usize) {
        None => Lent::Made(Value::Plain(Scalar::Number(0))),
        Some(t) => match t.entries.get(args) {
            None => Lent::Kept(&t.default),
            Some(x) => Lent::Kept(x),
        },
    }
}
