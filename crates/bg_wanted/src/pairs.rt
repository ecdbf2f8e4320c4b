//! Which incarnations and terms a flat expression says to be equal.
use bg_ast::resolved::{Expr, Link};
use bg_term_table::local;
use bg_text::InfixSign;
use std::alloc::AllocError;

/// Two operands with this sign between them, if both are numbers of what is there.
fn put_pair(
    made: &mut Vec<(u32, u32)>,
    before: Option<u32>,
    sign: InfixSign,
    operand: Option<u32>,
) -> Result<(), AllocError> {
    if sign != InfixSign::Equal {
        return Ok(());
    }
    match (before, operand) {
        (Some(a), Some(b)) => {
            made.push((a, b))?;
            Ok(())
        }
        _ => Ok(()),
    }
}

/// What the links of a chain behind this operand say to be equal, behind others.
#[cycle(pairing)]
fn equal_by_links(
    links: &[Link],
    made: &mut Vec<(u32, u32)>,
    first: Option<u32>,
) -> Result<(), AllocError> {
    let mut before = first;
    for l in links {
        let operand = local(&l.operand);
        put_pair(made, before, l.sign, operand)?;
        equal_by(&l.operand, made)?;
        before = operand;
    }
    Ok(())
}

/// The pairs of incarnations and terms between which a flat expression has `==`, behind others.
#[cycle(pairing)]
pub fn equal_by(e: &Expr, made: &mut Vec<(u32, u32)>) -> Result<(), AllocError> {
    match e {
        Expr::Number(_, _) => Ok(()),
        Expr::Truth(_, _) => Ok(()),
        Expr::Constant(_, _) => Ok(()),
        Expr::Read(_, _) => Ok(()),
        Expr::Apply(_, _, _) => Ok(()),
        Expr::Old(_, _) => Ok(()),
        Expr::Parens(_, e) => equal_by(e, made),
        Expr::Prefix(_, e) => equal_by(e, made),
        Expr::Postfix(e, _) => equal_by(e, made),
        Expr::Chain(e, links) => {
            equal_by(e, made)?;
            equal_by_links(links, made, local(e))
        }
    }
}
