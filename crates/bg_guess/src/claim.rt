//! What a guess says.
ghost use Rattle.std.specs.Prelude.{◌≡◌, ◌++◌, [], IfOk, OnOk};
ghost use Rattle.bg_ast.specs.Views.{ex_of};
ghost use Rattle.bg_guess.specs.Claims as c;
ghost use Rattle.bg_guess.specs.Loops.{size};

use bg_ast::resolved::{Expr, Link, Variable};
use bg_base::Pos;
use bg_text::InfixSign;
use std::alloc::{AllocError, Global};

/// What a guess says: a variable is at least 0, it is at most another, or a global has its value at entry.
#[derive(Clone, Copy)]
pub enum Claim {
    NotNegative(Variable),
    AtMost(Variable, Variable),
    Unchanged(u32),
}

/// Of what a list of guesses speaks: variables of type `int`, and globals that are compared with their values at entry.
#[derive(Drop)]
pub struct Subjects {
    pub numbers: Vec<Variable>,
    pub kept: Vec<u32>,
}

/// A variable in relation to an operand.
fn relation(
    alloc: Global,
    pos: Pos,
    v: Variable,
    sign: InfixSign,
    operand: Expr,
) -> Result<Expr, AllocError>
    ensures { IfOk result (λ e. ex_of e ≡ c.relation pos v sign (ex_of operand)) }
{
    let first = Box::new(alloc, Expr::Read(pos, v))?;
    let mut links = Vec::new(alloc);
    links.push(Link { pos, sign, operand })?;
    Ok(Expr::Chain(first, links))
}

/// The formula of a guess that stands at this position.
pub fn says(alloc: Global, pos: Pos, claim: Claim) -> Result<Expr, AllocError>
    ensures { IfOk result (λ e. ex_of e ≡ c.says pos claim) }
{
    match claim {
        Claim::NotNegative(v) => {
            relation(alloc, pos, v, InfixSign::AtLeast, Expr::Number(pos, 0))
        }
        Claim::AtMost(v, w) => relation(alloc, pos, v, InfixSign::AtMost, Expr::Read(pos, w)),
        Claim::Unchanged(g) => {
            let x = Variable::Global(g);
            let before = Box::new(alloc, Expr::Read(pos, x))?;
            relation(alloc, pos, x, InfixSign::Equal, Expr::Old(pos, before))
        }
    }
}

/// Adds that a variable is at most each of these.
fn push_bounds(out: &mut Vec<Claim>, v: Variable, ws: &[Variable]) -> Result<(), AllocError>
    ensures { OnOk result (out.new.items ≡ out.old.items ++ c.bounds v ws.now) }
{
    for w in ws {
        out.push(Claim::AtMost(v, *w))?;
    }
    Ok(())
}

/// Adds that each variable is at most each other one.
fn push_pairs(out: &mut Vec<Claim>, vs: &[Variable]) -> Result<(), AllocError>
    ensures { OnOk result (out.new.items ≡ out.old.items ++ c.pairs [] vs.now) }
{
    for i in 0..vs.len() {
        push_bounds(out, vs[i], &vs[..i])?;
        push_bounds(out, vs[i], &vs[i + 1..])?;
    }
    Ok(())
}

/// The guesses of a list, in order.
pub fn claims(alloc: Global, s: &Subjects) -> Result<Vec<Claim>, AllocError>
    ensures { IfOk result (λ made. made.items ≡ c.claims (c.subjects_of s.now)) }
{
    let mut made = Vec::new(alloc);
    for v in &s.numbers {
        made.push(Claim::NotNegative(*v))?;
    }
    push_pairs(&mut made, &s.numbers)?;
    for g in &s.kept {
        made.push(Claim::Unchanged(*g))?;
    }
    Ok(made)
}

/// How many guesses a list has.
#[tactic(auto, using(crate::proofs::Sizes::size_is))]
pub fn size(s: &Subjects) -> u128
    ensures { result ≡ size (c.subjects_of s.now) }
{
    let n = s.numbers.len() as u128;
    n * n + s.kept.len() as u128
}
