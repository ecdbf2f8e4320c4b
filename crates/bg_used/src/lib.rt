//! Certificates whose leaves tell the decisions that they use: they hold on each path that has these.
#![tactic(auto)]

pub mod laws;
