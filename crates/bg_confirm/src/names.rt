//! The names of constants.
ghost use Rattle.std.specs.Prelude.{◌≡◌};
ghost use Rattle.bg_confirm.specs.Pairs.{each_fits};
ghost use Rattle.bg_confirm.specs.Named.{same_name};

use bg_ast::resolved::Constant;
use bg_certtext::Given;

/// Whether a value is given to this constant.
fn is_for(constant: &Constant, given: &Given) -> bool
    ensures { result ≡ same_name constant.now given.now }
{
    constant.name.text.as_slice() == given.name
}

/// Whether a value is given to each of these constants, in order.
pub fn are_for(constants: &[Constant], given: &[Given]) -> bool
    ensures { result ≡ each_fits same_name constants.now given.now }
{
    if constants.len() != given.len() {
        return false;
    }
    for k in 0..given.len() {
        if !is_for(&constants[k], &given[k]) {
            return false;
        }
    }
    true
}
