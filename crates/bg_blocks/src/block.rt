//! Blocks.
use bg_ast::resolved::{Call, Clause, Expr, Guard, Placed, Procedure, Target, Variable};
use bg_places::Group;

/// Which of some clauses are assumed: each one, those that are checked, or those that are free.
#[derive(Clone, Copy)]
pub enum Kept {
    Each,
    Checked,
    Free,
}

/// A command: clauses that are checked or assumed, an assumption, variables that take any values, an assignment, a call with what its
/// procedure modifies, or the end of an execution. What it says is borrowed from the program.
#[derive(Drop)]
pub enum Cmd<'p> {
    Check(Group, &'p [Clause]),
    Suppose(Kept, &'p [Clause]),
    Assume(&'p Expr),
    Forget(Vec<Variable>),
    Put(&'p [Target], &'p [Expr]),
    Perform(&'p Call, &'p Procedure, &'p [Variable]),
    Finish,
}

/// Where a block leads, counted from the next one: to one of these, or by a guard to one of two.
#[derive(Drop)]
pub enum Exit<'p> {
    Leap(Vec<usize>),
    Either(&'p Guard, usize, usize),
}

/// Commands, and where they lead.
#[derive(Drop)]
pub struct Block<'p> {
    pub cmds: Vec<Cmd<'p>>,
    pub exit: Exit<'p>,
}
