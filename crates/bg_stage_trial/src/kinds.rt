//! The types of declared variables and of their incarnations.
use crate::text::{frame, program};
use bg_ast::resolved::Resolved;
use bg_blocks::{blocks, callees_of};
use bg_fits::base_in;
use bg_incarnate::passive;
use bg_kinds::{Base, ValueType};
use bg_sorts::incarnation_kinds;
use std::alloc::{AllocError, Global};
use std::test::Fail;

const TEXT: &[u8] = b"type A = B; type B = (int); type C; var a: A; var c: C;
procedure P() modifies a, c; { var l: bool; havoc l; if (*) { havoc a; } havoc c; }";

/// The types: of the variables at first; of the local; of `a` in the block, and where the ways meet; of `c` behind it.
const WANTED: [Option<Base>; 7] = [
    Some(Base::Int),
    Some(Base::User(2)),
    Some(Base::Bool),
    Some(Base::Bool),
    Some(Base::Int),
    Some(Base::Int),
    Some(Base::User(2)),
];

fn found(alloc: Global, p: &Resolved) -> Result<Vec<Option<Base>>, AllocError> {
    let callees = callees_of(alloc, p)?;
    let blocks = blocks(alloc, p, &callees, 0)?;
    let passive = passive(alloc, p, frame(p), &blocks)?;
    let mut locals = Vec::new(alloc);
    locals.push(ValueType {
        maps: Vec::new(alloc),
        base: Base::Bool,
    })?;
    let mut made = Vec::new(alloc);
    for t in &incarnation_kinds(alloc, p, &locals, &blocks, &passive)? {
        made.push(base_in(t.as_ref()))?;
    }
    Ok(made)
}

#[test]
fn a_join_has_the_type_of_its_variable(rt: HostRuntime) -> Result<(), Fail> {
    let p = program(rt.alloc(), &[(TEXT, 1)])?;
    assert!(rt; found(rt.alloc(), &p)?.as_slice() == &WANTED[..]);
    Ok(())
}
