//! Tables of terms, and expressions made flat over them.
#![tactic(auto)]

mod around;
mod behind_lines;
mod bring;
mod copies;
mod exprs;
mod heads;
mod kept_types;
mod kind;
pub mod laws;
mod leaf;
mod leaves;
mod line;
mod seen;
mod signs;
mod table;
mod terms;
mod types;

pub use around::Around;
pub use behind_lines::terms_behind;
pub use bring::bring_in;
pub use copies::copy;
pub use exprs::{all_flat, flat};
pub use heads::{accesses, are_same_keys, are_same_maps, is_one_head};
pub use kept_types::{keys_copied, type_copied};
pub use leaves::local;
pub use line::Line;
pub use seen::Seen;
pub use table::{Head, Term};
pub use terms::Terms;
pub use types::{head_type, read_type};
