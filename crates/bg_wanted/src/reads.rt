//! What a flat expression reads.
use bg_ast::resolved::{Expr, Link, Variable};
use std::alloc::AllocError;

/// One more number, if this names an incarnation or a term.
fn put_read(made: &mut Vec<u32>, x: Variable) -> Result<(), AllocError> {
    match x {
        Variable::Global(_) => Ok(()),
        Variable::Local(j) => {
            made.push(j)?;
            Ok(())
        }
    }
}

/// The numbers of all that operands of a chain read, behind others.
#[cycle(reading)]
fn read_by_links(links: &[Link], made: &mut Vec<u32>) -> Result<(), AllocError> {
    for l in links {
        read_by(&l.operand, made)?;
    }
    Ok(())
}

/// The numbers of the incarnations and terms that a flat expression reads, in the order of reading, behind others; in one that isn't flat
/// nothing within an application, an old value or a row of brackets counts.
#[cycle(reading)]
pub fn read_by(e: &Expr, made: &mut Vec<u32>) -> Result<(), AllocError> {
    match e {
        Expr::Number(_, _) => Ok(()),
        Expr::Truth(_, _) => Ok(()),
        Expr::Constant(_, _) => Ok(()),
        Expr::Read(_, x) => put_read(made, *x),
        Expr::Apply(_, _, _) => Ok(()),
        Expr::Old(_, _) => Ok(()),
        Expr::Parens(_, e) => read_by(e, made),
        Expr::Prefix(_, e) => read_by(e, made),
        Expr::Postfix(e, _) => read_by(e, made),
        Expr::Chain(e, links) => {
            read_by(e, made)?;
            read_by_links(links, made)
        }
    }
}
