//! The report: the text of what is known of each implementation and place.
#![tactic(auto)]

mod candidates;
mod choices;
mod declared;
mod fates;
mod functions;
mod history;
mod kept;
mod laws;
mod place;
mod places;
mod put;
mod report;
mod value;
mod values;
mod word;

pub use history::history_text;
pub use laws::{
    equal_reports_retain_equal_sets, equal_reports_say_equal_words, equal_texts_tell_equal_values,
    names_in_texts_are_told_whole, settled_reports_agree, verified_is_all_proved,
    verified_is_each_verified,
};
pub use report::{bench_text, result_text};
pub use word::{Word, word_of};
