//! Nodes that are counted, and parameters that are read.
ghost use Rattle.std.specs.Prelude.{◌≡◌, ◌+◌, ◌*◌, ◌<◌, ◌≤◌, ℕ, List, [], length, get_or, drop, OnOk};
ghost use Rattle.bg_ast.specs.Views.{var_of};
ghost use Rattle.bg_expanded.specs.Weights.{total, weight_of_read};
ghost use Rattle.bg_expanded.specs.Bodies.{IsAlike, product, worth, Adds};

use bg_ast::resolved::Variable;
use std::alloc::{AllocError, Global};

/// How many nodes expressions have, as far as 64 bits tell it: nodes of their own, and each parameter's so often.
#[derive(Drop)]
pub struct Count {
    pub own: u64,
    pub reads: Vec<u64>,
}

/// No node.
pub fn nothing(alloc: Global) -> Count
    ensures { (ws : List ℕ) → worth result ws ≡ 0 }
{
    Count {
        own: 0,
        reads: Vec::new(alloc),
    }
}

/// Adds nodes.
pub fn add_own(count: &mut Count, n: u64)
    ensures { Adds count.old count.new (λ ws. n) }
{
    count.own = count.own.saturating_add(n);
}

/// Makes room for so many.
fn widen(reads: &mut Vec<u64>, n: usize) -> Result<(), AllocError>
    ensures room { OnOk result (n ≤ length reads.new.items) }
    ensures same { OnOk result ((ws : List ℕ) → product reads.new.items ws ≡ product reads.old.items ws) }
{
    if reads.len() < n {
        reads.resize(n, 0)?;
    }
    Ok(())
}

/// Adds so many reads of a parameter that has room.
fn add_at(reads: &mut Vec<u64>, place: usize, times: u64)
    requires { place < length reads.old.items }
    ensures { (ws : List ℕ) → IsAlike (product reads.new.items ws) (product reads.old.items ws + times * get_or ws place 1) }
{
    reads[place] = reads[place].saturating_add(times);
}

/// Adds so many reads of a variable.
pub fn add_read(count: &mut Count, times: u64, x: Variable) -> Result<(), AllocError>
    ensures { OnOk result (Adds count.old count.new (λ ws. times * weight_of_read ws (var_of x))) }
{
    match x {
        Variable::Global(_) => {
            add_own(count, times);
            Ok(())
        }
        Variable::Local(j) => {
            widen(&mut count.reads, j as usize + 1)?;
            add_at(&mut count.reads, j as usize, times);
            Ok(())
        }
    }
}

/// How often the parameter in this place is read.
pub fn read_at(reads: &[u64], place: usize) -> u64
    ensures { result ≡ get_or reads.now place 0 }
{
    match reads.get(place) {
        None => 0,
        Some(n) => *n,
    }
}

/// How often the parameters from this place on are read.
pub fn rest_of(reads: &[u64], from: usize) -> u64
    ensures { IsAlike result (total (drop from reads.now)) }
{
    let mut sum: u64 = 0;
    for place in from..reads.len() {
        sum = sum.saturating_add(reads[place]);
    }
    sum
}

/// All nodes, where each parameter is one.
pub fn nodes_in(count: &Count) -> u64
    ensures { IsAlike result (worth count.now []) }
{
    count.own.saturating_add(rest_of(&count.reads, 0))
}
