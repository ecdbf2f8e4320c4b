//! Which maps the blocks of an implementation compare.
use bg_ast::resolved::{Expr, Link};
use bg_incarnate::{Edge, PassiveBlock, PassiveCmd};
use bg_kinds::ValueType;
use bg_term_table::local;
use bg_text::InfixSign;
use std::alloc::{AllocError, Global};
use std::collections::BTreeMap;

/// Beside the number of each incarnation and term those with which blocks compare it.
pub type Beside = BTreeMap<u32, Vec<u32>>;

/// One more beside a map.
fn put_one(alloc: Global, made: &mut Beside, a: u32, b: u32) -> Result<(), AllocError> {
    let mut all = match made.remove(&a) {
        None => Vec::new(alloc),
        Some(v) => v,
    };
    all.push(b)?;
    made.insert(a, all)?;
    Ok(())
}

/// Whether what has this number is a map.
fn is_map(kinds: &[ValueType], a: u32) -> bool {
    match kinds.get(a as usize) {
        None => false,
        Some(t) => !t.maps.is_empty(),
    }
}

/// Two that are compared, if they are maps.
fn put(
    alloc: Global,
    kinds: &[ValueType],
    made: &mut Beside,
    a: u32,
    b: u32,
) -> Result<(), AllocError> {
    if !is_map(kinds, a) {
        return Ok(());
    }
    put_one(alloc, made, a, b)?;
    put_one(alloc, made, b, a)
}

/// Two operands with this sign between them.
fn compared(
    alloc: Global,
    kinds: &[ValueType],
    made: &mut Beside,
    before: Option<u32>,
    sign: InfixSign,
    operand: Option<u32>,
) -> Result<(), AllocError> {
    if sign != InfixSign::Equal {
        return Ok(());
    }
    match (before, operand) {
        (Some(a), Some(b)) => put(alloc, kinds, made, a, b),
        _ => Ok(()),
    }
}

#[cycle(equating)]
fn in_links(
    links: &[Link],
    alloc: Global,
    kinds: &[ValueType],
    made: &mut Beside,
    first: Option<u32>,
) -> Result<(), AllocError> {
    let mut before = first;
    for l in links {
        let operand = local(&l.operand);
        compared(alloc, kinds, made, before, l.sign, operand)?;
        in_ex(&l.operand, alloc, kinds, made)?;
        before = operand;
    }
    Ok(())
}

#[cycle(equating)]
fn in_ex(
    e: &Expr,
    alloc: Global,
    kinds: &[ValueType],
    made: &mut Beside,
) -> Result<(), AllocError> {
    match e {
        Expr::Parens(_, e) => in_ex(e, alloc, kinds, made),
        Expr::Prefix(_, e) => in_ex(e, alloc, kinds, made),
        Expr::Postfix(e, _) => in_ex(e, alloc, kinds, made),
        Expr::Chain(e, links) => {
            in_ex(e, alloc, kinds, made)?;
            in_links(links, alloc, kinds, made, local(e))
        }
        Expr::Number(_, _) => Ok(()),
        Expr::Truth(_, _) => Ok(()),
        Expr::Constant(_, _) => Ok(()),
        Expr::Read(_, _) => Ok(()),
        Expr::Apply(_, _, _) => Ok(()),
        Expr::Old(_, _) => Ok(()),
    }
}

fn in_cmds(
    alloc: Global,
    kinds: &[ValueType],
    made: &mut Beside,
    cmds: &[PassiveCmd],
) -> Result<(), AllocError> {
    for c in cmds {
        match c {
            PassiveCmd::Claims(_, _, e) => in_ex(e, alloc, kinds, made)?,
            PassiveCmd::Supposes(_, e) => in_ex(e, alloc, kinds, made)?,
        }
    }
    Ok(())
}

fn in_edges(
    alloc: Global,
    kinds: &[ValueType],
    made: &mut Beside,
    edges: &[Edge],
) -> Result<(), AllocError> {
    for e in edges {
        in_cmds(alloc, kinds, made, &e.cmds)?;
    }
    Ok(())
}

/// Beside each map those with which these blocks compare it, where incarnations and terms have these types.
pub fn compared_maps(
    alloc: Global,
    kinds: &[ValueType],
    blocks: &[PassiveBlock],
) -> Result<Beside, AllocError> {
    let mut made = BTreeMap::new(alloc);
    for b in blocks {
        in_cmds(alloc, kinds, &mut made, &b.cmds)?;
        in_edges(alloc, kinds, &mut made, &b.next)?;
    }
    Ok(made)
}
