//! Tests of the outside, of the command line, of the report, and of the top call.
#![tactic(auto)]

#[cfg(test)]
mod annotated;
#[cfg(test)]
mod certified;
#[cfg(test)]
mod cli;
#[cfg(test)]
mod inferred;
#[cfg(test)]
mod io;
#[cfg(test)]
mod made;
#[cfg(test)]
mod told;
#[cfg(test)]
mod tool;
