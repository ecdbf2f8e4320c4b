//! The nearest rows that are connected, by shared variables, with those that came in since the last
//! elimination.

use crate::class::Class;
use crate::ledger::Ledger;
use std::alloc::{AllocError, Global};

/// The variables that were reached, in their order, and the numbers of the decisions whose rows were.
#[derive(Drop)]
struct Reached {
    variables: Vec<u32>,
    numbers: Vec<usize>,
}

/// Reaches a class, and by it its variables, unless they were reached in this turn.
fn reach(
    reached: &mut Reached,
    class: &mut Class,
    stamps: &mut [u64],
    turn: u64,
) -> Result<(), AllocError> {
    if class.stamp == turn {
        return Ok(());
    }
    class.stamp = turn;
    if let Some(near) = class.nearest {
        reached.numbers.push(near.at)?;
    }
    for x in &class.variables {
        if let Some(stamp) = stamps.get_mut(*x as usize) {
            if *stamp != turn {
                *stamp = turn;
                reached.variables.push(*x)?;
            }
        }
    }
    Ok(())
}

/// Reaches the class of a change in the log.
fn reach_logged(
    reached: &mut Reached,
    ledger: &mut Ledger,
    place: usize,
) -> Result<(), AllocError> {
    if let Some(undo) = ledger.log.get(place) {
        if let Some(class) = ledger.classes.get_mut(undo.class) {
            reach(reached, class, &mut ledger.stamps, ledger.turn)?;
        }
    }
    Ok(())
}

/// Reaches the classes of a variable that have a nearest row.
fn reach_standing(reached: &mut Reached, ledger: &mut Ledger, x: u32) -> Result<(), AllocError> {
    if let Some(classes) = ledger.standing.get(x as usize) {
        for number in classes {
            if let Some(class) = ledger.classes.get_mut(*number) {
                reach(reached, class, &mut ledger.stamps, ledger.turn)?;
            }
        }
    }
    Ok(())
}

/// The numbers of the decisions of the nearest rows that are connected with one that became the
/// nearest since the last elimination in vain, rising. Takes time for these rows alone.
pub fn near(alloc: Global, ledger: &mut Ledger) -> Result<Vec<usize>, AllocError> {
    let mut reached = Reached {
        variables: Vec::new(alloc),
        numbers: Vec::new(alloc),
    };
    ledger.turn = ledger.turn.saturating_add(1);
    for place in ledger.told..ledger.log.len() {
        reach_logged(&mut reached, ledger, place)?;
    }
    for place in 0..ledger.stamps.len() {
        let Some(x) = reached.variables.get(place) else {
            break;
        };
        let x = *x;
        reach_standing(&mut reached, ledger, x)?;
    }
    let mut numbers = reached.numbers;
    numbers.sort_unstable();
    Ok(numbers)
}

/// The elimination of what is near was in vain.
pub fn tell(ledger: &mut Ledger) {
    ledger.told = ledger.log.len();
}
