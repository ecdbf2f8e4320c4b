//! Counterexamples.
use bg_kinds::ValueType;
use bg_scalar::{Choice, Table, Value};

/// A run that fails: the tables of functions, by number, entry values of the globals, of the frame (parameters, results, locals), and the
/// choices that it takes up to the check that fails, with their types, `int` for a branch.
#[derive(Drop)]
pub struct Counterexample {
    pub tables: Vec<Table>,
    pub globals: Vec<Value>,
    pub frame: Vec<Value>,
    pub kinds: Vec<ValueType>,
    pub choices: Vec<Choice>,
}
