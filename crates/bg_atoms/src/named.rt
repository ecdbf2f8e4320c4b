//! The atoms of truth incarnations.
ghost use Rattle.std.specs.Prelude.{◌≡◌, ◌+◌, ◌≤◌, IfOk};
ghost use Rattle.bg_ast.specs.Meaning as m;
ghost use Rattle.bg_ast.specs.Views.{ex_of, var_of};
ghost use Rattle.bg_atoms.specs.Ranks.{truths, ranks_from, one_for, read_var};

use bg_ast::resolved::{Expr, Variable};
use bg_base::Pos;
use bg_linear::Sort;
use std::alloc::{AllocError, Global};

/// The sorts of incarnations, for each the number of truth incarnations before it, and the atom from which on rows stand, behind those of
/// truth incarnations.
#[derive(Drop)]
pub struct Names {
    pub sorts: Vec<Sort>,
    pub ranks: Vec<u32>,
    pub base: u32,
    ghost ranked: { ranks.items ≡ ranks_from 0 sorts.items },
    ghost counted: { truths sorts.items ≤ base },
}

/// One for a truth incarnation.
fn one_for(s: Sort) -> u32
    ensures { result ≡ one_for s }
{
    match s {
        Sort::Truth => 1,
        Sort::Number => 0,
        Sort::Other => 0,
    }
}

/// The sum; 2^32 atoms count as want of memory.
pub fn sum(a: u32, b: u32) -> Result<u32, AllocError>
    ensures { IfOk result (λ c. c ≡ a + b) }
{
    match a.checked_add(b) {
        Some(c) => Ok(c),
        None => Err(AllocError),
    }
}

/// How many truth incarnations there are.
pub fn truths(sorts: &[Sort]) -> Result<u32, AllocError>
    ensures { IfOk result (λ n. n ≡ truths sorts.now) }
{
    let mut made: u32 = 0;
    for s in sorts {
        made = sum(made, one_for(*s))?;
    }
    Ok(made)
}

/// The same sorts.
fn copied(alloc: Global, sorts: &[Sort]) -> Result<Vec<Sort>, AllocError>
    ensures { IfOk result (λ made. made.items ≡ sorts.now) }
{
    Ok(sorts.to_vec(alloc)?)
}

/// For each incarnation the number of truth incarnations before it.
fn ranks(alloc: Global, sorts: &[Sort]) -> Result<Vec<u32>, AllocError>
    ensures { IfOk result (λ made. made.items ≡ ranks_from 0 sorts.now) }
{
    let mut made = Vec::new(alloc);
    let mut next: u32 = 0;
    for s in sorts {
        made.push(next)?;
        next = sum(next, one_for(*s))?;
    }
    Ok(made)
}

impl Names {
    /// The names of incarnations of these sorts, where the rows begin at this atom.
    pub fn new(alloc: Global, sorts: &[Sort], base: u32) -> Result<Names, AllocError>
        requires { truths sorts.now ≤ base }
        ensures sorts { IfOk result (λ made. made.sorts.items ≡ sorts.now) }
        ensures base { IfOk result (λ made. made.base ≡ base) }
    {
        let ranks = ranks(alloc, sorts)?;
        let sorts = copied(alloc, sorts)?;
        Ok(Names { sorts, ranks, base })
    }

    /// What reads the atom of an incarnation.
    pub fn read(&self, pos: Pos, x: Variable) -> Expr
        ensures { m.ex_of (ex_of result) ≡ read_var self.now.ranks.items (var_of x) }
    {
        match x {
            Variable::Local(j) => match self.ranks.get(j as usize) {
                Some(a) => Expr::Read(pos, Variable::Local(*a)),
                None => Expr::Truth(pos, false),
            },
            Variable::Global(_) => Expr::Truth(pos, false),
        }
    }
}
