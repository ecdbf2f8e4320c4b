//! Tests of the crates of rows, of the search over them, and of graphs.
#![tactic(auto)]

#[cfg(test)]
mod conflict;
#[cfg(test)]
mod elim;
#[cfg(test)]
mod graph;
#[cfg(test)]
mod learn;
#[cfg(test)]
mod made;
#[cfg(test)]
mod pick;
#[cfg(test)]
mod point;
#[cfg(test)]
mod rows;
#[cfg(test)]
mod tree;
#[cfg(test)]
mod whole;
