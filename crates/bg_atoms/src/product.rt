//! Blocks of forms with their rows.

use bg_formed::FormBlock;
use bg_formula::Linear;

/// Blocks of forms with what their atoms are: atom j below `first` is the truth incarnation of rank j, and behind these stand the rows,
/// which name incarnations as terms. There are `terms` incarnations.
#[derive(Drop)]
pub struct Atoms {
    pub first: u32,
    pub terms: u32,
    pub rows: Vec<Linear>,
    pub blocks: Vec<FormBlock>,
}
