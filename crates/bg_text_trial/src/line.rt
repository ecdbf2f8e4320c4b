//! The lines of texts.
use bg_front::{ReadError, read_program};
use std::alloc::{AllocError, Global};

/// The line that refuses a text, with its guesses where these are asked for; an empty one where it has a program.
fn line_of(alloc: Global, text: &[u8], guess: bool) -> Result<Vec<u8>, AllocError> {
    match read_program(alloc, text, guess) {
        Ok(_) => Ok(Vec::new(alloc)),
        Err(ReadError::Refused(refusal)) => refusal.line(alloc),
        Err(ReadError::Memory) => Err(AllocError),
    }
}

fn push(text: &mut Vec<u8>, piece: &[u8], count: u32) -> Result<(), AllocError> {
    for _ in 0..count {
        text.extend_from_slice(piece)?;
    }
    Ok(())
}

/// Whether the text has this line, with its guesses where these are asked for; an empty one stands for a program.
pub fn says(alloc: Global, text: &[u8], guess: bool, line: &[u8]) -> Result<bool, AllocError> {
    Ok(line_of(alloc, text, guess)?.as_slice() == line)
}

/// Whether the text of these pieces, each so many times, has this line; an empty one stands for a program.
pub fn say(alloc: Global, pieces: &[(&[u8], u32)], line: &[u8]) -> Result<bool, AllocError> {
    let mut text = Vec::new(alloc);
    for (piece, count) in pieces {
        push(&mut text, piece, *count)?;
    }
    says(alloc, &text, false, line)
}
