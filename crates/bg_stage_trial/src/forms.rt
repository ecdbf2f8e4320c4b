//! What long chains are worth.
use crate::text::chain;
use bg_forms::{form_ex, is_worth};
use bg_text::InfixSign;
use std::alloc::{AllocError, Global};
use std::test::Fail;

/// A sign, how many operands, the truth values of the first ones, where the others are false, and what the chain is worth: one of
/// pairs that are worth the same holds where an even number is false.
const CHAINS: [(InfixSign, u32, &[bool], bool); 4] = [
    (InfixSign::And, 50_000, &[true, true], false),
    (InfixSign::Or, 50_000, &[false, true], true),
    (InfixSign::Iff, 50_001, &[true], true),
    (InfixSign::Iff, 50_001, &[true, true], false),
];

fn is_told(alloc: Global, sign: InfixSign, many: u32, truths: &[bool]) -> Result<bool, AllocError> {
    Ok(is_worth(truths, &form_ex(alloc, &chain(alloc, sign, many)?)?))
}

#[test]
fn the_worth_of_long_chains(rt: HostRuntime) -> Result<(), Fail> {
    for (sign, many, truths, wanted) in &CHAINS {
        assert!(rt; is_told(rt.alloc(), *sign, *many, truths)? == *wanted);
    }
    Ok(())
}
