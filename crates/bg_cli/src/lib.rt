//! The command line.
#![tactic(auto)]

mod job;
mod laws;
mod line;

pub use job::Job;
pub use laws::{
    plain_words_are_taken, plain_words_of_annotate_are_taken, plain_words_of_bench_are_taken,
    plain_words_of_certify_are_taken, plain_words_of_check_are_taken,
    plain_words_of_generate_are_taken, plain_words_with_a_number_are_taken,
    plain_words_with_two_numbers_are_taken, plain_words_with_workers_are_taken,
};
pub use line::{Line, LineError, NODES, ROWS, WORKERS, cli, read_line};
