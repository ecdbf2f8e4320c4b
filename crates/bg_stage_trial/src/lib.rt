//! Tests of the crates between a program and its clauses, and between a valuation and its run.
#![tactic(auto)]

#[cfg(test)]
mod atoms;
#[cfg(test)]
mod clause;
#[cfg(test)]
mod flat;
#[cfg(test)]
mod forms;
#[cfg(test)]
mod kinds;
#[cfg(test)]
mod model;
#[cfg(test)]
mod replay;
#[cfg(test)]
mod slice;
#[cfg(test)]
mod text;
#[cfg(test)]
mod values;
