//! Numbers for incarnations and terms before anything is searched: easy ones, that are made up.
//!
//! Of these numbers nothing is claimed: they say where to look for lines that a place may want, and any numbers do for that. What the blocks
//! suppose to be equal is what makes lines wanted, so an equality is heeded where it gives a number at once; all other suppositions, and
//! from which block to which a walk goes, are left aside.
use crate::leaf::target_at;
use bg_ast::resolved::{Expr, Link};
use bg_incarnate::{Edge, PassiveBlock, PassiveCmd};
use bg_linear::Sort;
use bg_term_table::local;
use bg_text::InfixSign;
use std::alloc::{AllocError, Global};

/// Numbers of incarnations and terms, and which of them are given and don't change any more; what isn't a number counts as given.
#[derive(Drop)]
pub struct Guess {
    pub numbers: Vec<i128>,
    pub given: Vec<bool>,
}

/// The target of what has this number, and where that is 0 a number of its own: what nothing says to be equal isn't equal then.
fn own_number(targets: &[i128], j: usize) -> i128 {
    let target = target_at(targets, j);
    if target == 0 {
        1_000_000_000_000 + j as i128
    } else {
        target
    }
}

/// The number that is fixed of what has this number, if one is.
pub fn fixed_at(fixed: &[Option<i128>], j: usize) -> Option<i128> {
    match fixed.get(j) {
        None => None,
        Some(z) => *z,
    }
}

/// At first each has the number that is fixed, and that is given; or else its target or a number of its own.
fn first_guess(
    alloc: Global,
    sorts: &[Sort],
    targets: &[i128],
    fixed: &[Option<i128>],
) -> Result<Guess, AllocError> {
    let mut numbers = Vec::with_capacity(alloc, sorts.len())?;
    let mut given = Vec::with_capacity(alloc, sorts.len())?;
    for (j, sort) in sorts.iter().enumerate() {
        match fixed_at(fixed, j) {
            None => {
                numbers.push(own_number(targets, j))?;
                given.push(*sort != Sort::Number)?;
            }
            Some(z) => {
                numbers.push(z)?;
                given.push(true)?;
            }
        }
    }
    Ok(Guess { numbers, given })
}

/// The number of an incarnation or a term, if it is there.
fn number_of(numbers: &[i128], x: Option<u32>) -> Option<i128> {
    match x {
        None => None,
        Some(j) => match numbers.get(j as usize) {
            None => None,
            Some(z) => Some(*z),
        },
    }
}

/// A sum, a difference or a product within 128 bits.
fn joined(sign: InfixSign, a: i128, b: i128) -> Option<i128> {
    match sign {
        InfixSign::Plus => a.checked_add(b),
        InfixSign::Minus => a.checked_sub(b),
        InfixSign::Times => a.checked_mul(b),
        _ => None,
    }
}

/// The number of a chain whose first operand has this one, by the numbers so far.
#[cycle(easy)]
fn easy_chain(numbers: &[i128], first: i128, links: &[Link]) -> Option<i128> {
    let mut made = first;
    for l in links {
        match easy(numbers, &l.operand) {
            None => return None,
            Some(z) => match joined(l.sign, made, z) {
                None => return None,
                Some(y) => made = y,
            },
        }
    }
    Some(made)
}

/// The number of an expression by the numbers so far, where it is easy to tell: of a numeral, of what it reads, and of sums, differences
/// and products of such.
#[cycle(easy)]
pub fn easy(numbers: &[i128], e: &Expr) -> Option<i128> {
    match e {
        Expr::Number(_, z) => Some(*z),
        Expr::Read(_, _) => number_of(numbers, local(e)),
        Expr::Parens(_, e) => easy(numbers, e),
        Expr::Chain(e, links) => match easy(numbers, e) {
            None => None,
            Some(z) => easy_chain(numbers, z, links),
        },
        _ => None,
    }
}

/// Gives this number to what has none yet, and says whether it did.
fn give(guess: &mut Guess, x: usize, z: i128) -> bool {
    if x < guess.given.len() && x < guess.numbers.len() && !guess.given[x] {
        guess.given[x] = true;
        guess.numbers[x] = z;
        return true;
    }
    false
}

/// Gives to what the first expression reads the number of the second, and says whether it did.
fn give_easy(guess: &mut Guess, to: &Expr, e: &Expr) -> bool {
    match (local(to), easy(&guess.numbers, e)) {
        (Some(x), Some(z)) => give(guess, x as usize, z),
        _ => false,
    }
}

/// Makes two expressions equal, if one of them reads what has no number yet and the other is easy: the left one, or else the right one.
fn equate(guess: &mut Guess, a: &Expr, b: &Expr) {
    if !give_easy(guess, a, b) {
        give_easy(guess, b, a);
    }
}

/// Supposes each operand of these links.
#[cycle(supposing)]
fn suppose_links(guess: &mut Guess, links: &[Link]) {
    for l in links {
        suppose(guess, &l.operand);
    }
}

/// Supposes an expression: an equality, or equalities with `&&` between them.
#[cycle(supposing)]
fn suppose(guess: &mut Guess, e: &Expr) {
    match e {
        Expr::Parens(_, e) => suppose(guess, e),
        Expr::Chain(a, links) => match links.split_first() {
            None => {}
            Some((l, rest)) => match l.sign {
                InfixSign::Equal => {
                    if rest.is_empty() {
                        equate(guess, a, &l.operand);
                    }
                }
                InfixSign::And => {
                    suppose(guess, a);
                    suppose_links(guess, links);
                }
                _ => {}
            },
        },
        _ => {}
    }
}

/// Supposes what these commands suppose, in their order.
fn run(guess: &mut Guess, cs: &[PassiveCmd]) {
    for c in cs {
        match c {
            PassiveCmd::Supposes(_, e) => suppose(guess, e),
            PassiveCmd::Claims(_, _, _) => {}
        }
    }
}

/// The same of commands on the way to later blocks.
fn run_edges(guess: &mut Guess, edges: &[Edge]) {
    for e in edges {
        run(guess, &e.cmds);
    }
}

/// The same of all commands of blocks.
fn run_all(guess: &mut Guess, blocks: &[PassiveBlock]) {
    for b in blocks {
        run(guess, &b.cmds);
        run_edges(guess, &b.next);
    }
}

/// Numbers for incarnations and terms of these sorts: those that are fixed; else what blocks suppose to be equal to an easy expression has
/// the number of that, all else its target or a number of its own.
pub fn easy_numbers(
    alloc: Global,
    sorts: &[Sort],
    targets: &[i128],
    fixed: &[Option<i128>],
    blocks: &[PassiveBlock],
) -> Result<Guess, AllocError> {
    let mut guess = first_guess(alloc, sorts, targets, fixed)?;
    run_all(&mut guess, blocks);
    Ok(guess)
}
