//! Which operation of a chain that leaves the range comes first.
ghost use Rattle.std.specs.Prelude.{◌≡◌};
ghost use Rattle.bg_formed.specs.Used.{first_of};
ghost use Rattle.bg_atoms.specs.Orders.{before_sign, behind_sign};

use bg_base::OutOfRange;
use bg_text::InfixSign;

/// The first operation of a chain that leaves the range, as far as the chain has come: of what stands before the last `==>`, and of
/// what stands behind it.
#[derive(Clone, Copy)]
pub struct Order {
    before: Option<OutOfRange>,
    here: Option<OutOfRange>,
}

/// The first one, if there is any.
fn first_of(a: Option<OutOfRange>, b: Option<OutOfRange>) -> Option<OutOfRange>
    ensures { result ≡ first_of a b }
{
    match a {
        Some(o) => Some(o),
        None => b,
    }
}

impl Order {
    /// Of an expression that has this one.
    pub fn new(first: Option<OutOfRange>) -> Order
        ensures before { result.before ≡ None }
        ensures here { result.here ≡ first }
    {
        Order {
            before: None,
            here: first,
        }
    }

    /// Behind one more sign with its operand. `a <== b` means `b ==> a`, so what b has comes first.
    pub fn then(self, sign: InfixSign, operand: Option<OutOfRange>) -> Order
        ensures before { result.before ≡ before_sign sign self.before self.here }
        ensures here { result.here ≡ behind_sign sign self.here operand }
    {
        match sign {
            InfixSign::Implies => Order {
                before: first_of(self.before, self.here),
                here: operand,
            },
            InfixSign::Explies => Order {
                before: self.before,
                here: first_of(operand, self.here),
            },
            _ => Order {
                before: self.before,
                here: first_of(self.here, operand),
            },
        }
    }

    /// The first one of all.
    pub fn first(self) -> Option<OutOfRange>
        ensures { result ≡ first_of self.before self.here }
    {
        first_of(self.before, self.here)
    }
}
