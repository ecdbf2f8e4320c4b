//! The lines in which columns stand.
use std::alloc::{AllocError, Global};

/// The lines in which a column stands, in the order in which they came, each at its seat, and how many they are. A seat that was left
/// is empty until the lines get new ones, so that a line leaves without a search; the last seat isn't empty.
#[derive(Drop)]
pub struct Users {
    pub seats: Vec<Option<u32>>,
    pub count: usize,
}

/// No lines.
pub fn no_users(alloc: Global) -> Users {
    Users {
        seats: Vec::new(alloc),
        count: 0,
    }
}

/// A line stands among those of a column. Answers its seat; 2^32 seats count as want of memory.
pub fn join(users: &mut [Users], column: u32, line: u32) -> Result<u32, AllocError> {
    let Some(mine) = users.get_mut(column as usize) else {
        return Ok(0);
    };
    let Ok(seat) = u32::try_from(mine.seats.len()) else {
        return Err(AllocError);
    };
    mine.seats.push(Some(line))?;
    mine.count = mine.count.saturating_add(1);
    Ok(seat)
}

/// A line stands no more among those of a column, where it had this seat.
pub fn leave(users: &mut [Users], column: u32, seat: u32) {
    if let Some(mine) = users.get_mut(column as usize) {
        if let Some(place) = mine.seats.get_mut(seat as usize) {
            *place = None;
            mine.count = mine.count.saturating_sub(1);
            close_up(&mut mine.seats);
        }
    }
}

/// Takes the empty seats from the end.
fn close_up(seats: &mut Vec<Option<u32>>) {
    for _ in 0..seats.len() {
        match seats.last() {
            Some(None) => seats.truncate(seats.len().saturating_sub(1)),
            _ => return,
        }
    }
}

/// Whether most seats are empty.
pub fn is_sparse(users: &Users) -> bool {
    users.seats.len() / 2 > users.count.saturating_add(8)
}
