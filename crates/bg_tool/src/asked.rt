//! What is asked.
use bg_cli::Job;
use bg_tree::Budget;

/// What a search may use up, whether the program is judged with its guesses, whether the history is told behind the report, and what is
/// written: the report, the program with its retained annotations, the certificate, or a part of the report; and the seed and the size of
/// a program that is made.
#[derive(Clone, Copy)]
pub struct Asked {
    pub budget: Budget,
    pub guess: bool,
    pub history: bool,
    pub job: Job,
    pub seed: u64,
    pub size: u32,
}
