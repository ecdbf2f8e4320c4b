//! The pure machine of the shared set.
#![tactic(auto)]

mod law;
mod runs;
mod sets;
mod steps;

pub use law::{
    Meaning, a_running_table_is_reached, a_table_is_a_sound_state, an_opening_is_the_start,
    each_step_is_an_event, every_state_is_sound, right_answers_are_inductive,
    right_history_is_inductive, the_first_seat_is_worker_zero,
};
pub use runs::{run, start};
pub use steps::step;
