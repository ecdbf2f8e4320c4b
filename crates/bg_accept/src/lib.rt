//! Whether a program accepts the text of a certificate, checked without search, and the answer in words.
#![tactic(auto)]

mod all;
mod answer;
mod extra;
mod firsts;
mod implementation;
mod kept;
pub mod laws;
mod lines;
mod numbers;
mod places;
mod program;
mod reading;
mod retained;
mod rows;
mod section;
mod text;

pub use answer::Answer;
pub use program::check;
pub use text::answer_text;
