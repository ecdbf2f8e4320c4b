//! How much a check may take, and what is kept of it.
use bg_tree::Budget;

/// The budget of each search, and whether certificates and causes are kept. Where they aren't, each place's are dropped as soon as the
/// place is done.
#[derive(Clone, Copy)]
pub struct Effort {
    pub budget: Budget,
    pub keeps: bool,
}
