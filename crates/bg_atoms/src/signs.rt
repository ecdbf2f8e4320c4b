//! Rows of signs, and what signs join.
ghost use Rattle.std.specs.Prelude.{◌≡◌, IfOk};
ghost use Rattle.bg_linear.specs.Chains.{is_implies};
ghost use Rattle.bg_linear.specs.Relations.{relates, op_of};
ghost use Rattle.bg_atoms.specs.Heads.{is_arithmetic};
ghost use Rattle.bg_atoms.specs.Turned.{is_explies};

use bg_text::{InfixSign, TreePrefix};
use std::alloc::{AllocError, Global};

/// Whether the sign makes a number of two.
pub fn is_arithmetic(sign: InfixSign) -> bool
    ensures { result ≡ is_arithmetic sign }
{
    match sign {
        InfixSign::Iff => false,
        InfixSign::Implies => false,
        InfixSign::Explies => false,
        InfixSign::And => false,
        InfixSign::Or => false,
        InfixSign::Equal => false,
        InfixSign::Unequal => false,
        InfixSign::Less => false,
        InfixSign::AtMost => false,
        InfixSign::Greater => false,
        InfixSign::AtLeast => false,
        InfixSign::Plus => true,
        InfixSign::Minus => true,
        InfixSign::Times => true,
    }
}

pub fn is_implies(sign: InfixSign) -> bool
    ensures { result ≡ is_implies sign }
{
    sign == InfixSign::Implies
}

pub fn is_explies(sign: InfixSign) -> bool
    ensures { result ≡ is_explies sign }
{
    sign == InfixSign::Explies
}

/// Whether the sign relates numbers.
pub fn relates(sign: InfixSign) -> bool
    ensures { result ≡ relates (op_of sign) }
{
    match sign {
        InfixSign::Iff => false,
        InfixSign::Implies => false,
        InfixSign::Explies => false,
        InfixSign::And => false,
        InfixSign::Or => false,
        InfixSign::Equal => true,
        InfixSign::Unequal => true,
        InfixSign::Less => true,
        InfixSign::AtMost => true,
        InfixSign::Greater => true,
        InfixSign::AtLeast => true,
        InfixSign::Plus => false,
        InfixSign::Minus => false,
        InfixSign::Times => false,
    }
}

/// The same signs.
pub fn copied(alloc: Global, signs: &[TreePrefix]) -> Result<Vec<TreePrefix>, AllocError>
    ensures { IfOk result (λ made. made.items ≡ signs.now) }
{
    Ok(signs.to_vec(alloc)?)
}
