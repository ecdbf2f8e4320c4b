//! Sets of numbers that are held in a list.
use std::alloc::{AllocError, Global};

/// Numbers below a limit, each held at most once, in the order in which they came.
#[derive(Drop)]
pub struct Numbers {
    pub list: Vec<u32>,
    pub is_in: Vec<bool>,
}

/// No numbers, with the limit 0.
pub fn no_numbers(alloc: Global) -> Numbers {
    Numbers {
        list: Vec::new(alloc),
        is_in: Vec::new(alloc),
    }
}

/// A limit that is one further. Room for all numbers below it is made here, so that none is needed to hold one.
pub fn widen(n: &mut Numbers) -> Result<(), AllocError> {
    n.is_in.push(false)?;
    let more = n.is_in.len().saturating_sub(n.list.len());
    n.list.reserve(more)
}

/// Holds a number, where it is below the limit.
pub fn hold(n: &mut Numbers, x: u32) {
    if let Some(is_in) = n.is_in.get_mut(x as usize) {
        if !*is_in {
            *is_in = n.list.push(x).is_ok();
        }
    }
}

/// Holds a number no more that was taken off the list.
pub fn let_go(n: &mut Numbers, x: u32) {
    if let Some(is_in) = n.is_in.get_mut(x as usize) {
        *is_in = false;
    }
}

/// Holds none any more. Takes time for those that it held.
pub fn let_all_go(n: &mut Numbers) {
    for _ in 0..n.list.len() {
        if let Some(x) = n.list.pop() {
            let_go(n, x);
        }
    }
}
