//! Kinds: what written types stand for, synonyms unfolded, with the faults in them, and which of several faults is answered.
//!
//! Others rely on `bg_types::check_types` alone, and of this crate on the types in its answer and on `push_type`, which
//! writes a type. The other functions are parts of that check.
#![tactic(auto, using(crate::proofs::Firsts::first_of_append, crate::proofs::Firsts::is_none_append))]

mod answers;
mod faults;
mod kinds;
mod synonyms;
mod texts;
mod written;

pub use answers::{Fault, WantedType, owned};
pub use faults::{Found, Wanted, note, want};
pub use kinds::{
    Base, IndexType, Keys, TypeRef, ValueType, is_same_type, key_type, kind_ref, plain,
};
pub use synonyms::{edges_of, is_unfolded, table_of};
pub use texts::push_type;
pub use written::judge_type;
