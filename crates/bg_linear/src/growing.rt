//! Forms that grow by sums and differences, so that a chain takes no longer than its operands together.
ghost use Rattle.std.specs.Prelude.{◌≡◌, IfOk};
ghost use Rattle.bg_rows.specs.Rows.{Told};
ghost use Rattle.bg_linear.specs.Lins.{together};
ghost use Rattle.bg_linear.specs.Views.{lin_of, sum_in};

use crate::lin::Lin;
use crate::sum::Sum;
use crate::terms::{list_of, map_of, operate, put_all};
use bg_base::Op;
use bg_rows::Refused;
use std::alloc::{AllocError, Global};

impl Sum {
    /// The same form.
    pub fn of(alloc: Global, f: &Lin) -> Result<Sum, AllocError>
        ensures { IfOk result (λ s. sum_in s ≡ lin_of f.now) }
    {
        let terms = map_of(alloc, &f.entries)?;
        let constant = f.constant;
        Ok(Sum { terms, constant })
    }

    /// The same form.
    pub fn list(&self, alloc: Global) -> Result<Lin, AllocError>
        ensures { IfOk result (λ f. lin_of f ≡ sum_in self.now) }
    {
        let entries = list_of(alloc, &self.terms)?;
        let constant = self.constant;
        Ok(Lin { entries, constant })
    }

    /// The sum or the difference with a form. Refused at the first operation that leaves the range.
    #[tactic(auto, using(crate::proofs::Normal::joined_stay))]
    pub fn join(self, op: Op, g: &Lin) -> Result<Sum, Refused>
        ensures { Told sum_in result (together op (sum_in self) (lin_of g.now)) }
    {
        let mut terms = self.terms;
        put_all(&mut terms, op, &g.entries)?;
        let constant = operate(op, self.constant, g.constant)?;
        Ok(Sum { terms, constant })
    }
}
