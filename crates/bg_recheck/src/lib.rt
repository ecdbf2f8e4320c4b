//! The check of a certificate's text against a program's, from files to the answer. Nothing here searches.
#![tactic(auto)]

mod answer;
mod files;
mod lines;

pub use files::{Names, recheck};
