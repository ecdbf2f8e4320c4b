//! Tests of the crates of texts: from bytes to a program, and what is printed.
#![tactic(auto)]

#[cfg(test)]
mod expr;
#[cfg(test)]
mod front;
#[cfg(test)]
mod guesses;
#[cfg(test)]
mod keep;
#[cfg(test)]
mod lex;
#[cfg(test)]
mod line;
#[cfg(test)]
mod names;
#[cfg(test)]
mod parse;
#[cfg(test)]
mod print;
#[cfg(test)]
mod types;
