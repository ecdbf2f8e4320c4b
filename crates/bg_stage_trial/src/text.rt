//! Programs of texts whose names are right, typed or not, and what is made of them.
use bg_ast::resolved::{Expr, Link, Resolved, Variable};
use bg_base::Pos;
use bg_blocks::{blocks, callees_of};
use bg_incarnate::{Passive, passive};
use bg_lex::lex;
use bg_parse::parse;
use bg_resolve::resolve;
use bg_text::InfixSign;
use std::alloc::{AllocError, Global};
use std::test::Fail;

fn push(text: &mut Vec<u8>, piece: &[u8], count: u32) -> Result<(), AllocError> {
    for _ in 0..count {
        text.extend_from_slice(piece)?;
    }
    Ok(())
}

/// The program of these pieces, each so many times.
pub fn program(alloc: Global, pieces: &[(&[u8], u32)]) -> Result<Resolved, Fail> {
    let mut text = Vec::new(alloc);
    for (piece, count) in pieces {
        push(&mut text, piece, *count)?;
    }
    match resolved(alloc, &text) {
        Some(p) => Ok(p),
        None => Err("no program".into()),
    }
}

/// The program of a text; none where it has none, or memory ran out.
fn resolved(alloc: Global, text: &[u8]) -> Option<Resolved> {
    if text.len() >= 1_000_000 {
        return None;
    }
    let tokens = lex(alloc, text).ok()?;
    if tokens.list.len() >= 1_000_000 {
        return None;
    }
    let tree = parse(alloc, &tokens.list).ok()?;
    resolve(alloc, &tree.decls).ok()
}

/// A chain of so many incarnations, with one sign between them.
pub fn chain(alloc: Global, sign: InfixSign, many: u32) -> Result<Expr, AllocError> {
    let pos = Pos { line: 1, column: 1 };
    let first = Expr::Read(pos, Variable::Local(0));
    let mut links = Vec::new(alloc);
    for j in 1..many {
        let operand = Expr::Read(pos, Variable::Local(j));
        links.push(Link { pos, sign, operand })?;
    }
    Ok(Expr::Chain(Box::new(alloc, first)?, links))
}

/// How many variables the frame of the first implementation has.
pub fn frame(p: &Resolved) -> usize {
    match p.implementations.first() {
        Some(m) => m
            .params
            .len()
            .saturating_add(m.results.len())
            .saturating_add(m.locals.len()),
        None => 0,
    }
}

/// The passive blocks of the first implementation.
pub fn passive_of(alloc: Global, p: &Resolved) -> Result<Passive, AllocError> {
    let callees = callees_of(alloc, p)?;
    let blocks = blocks(alloc, p, &callees, 0)?;
    passive(alloc, p, frame(p), &blocks)
}
