//! What stands in a form in a block's place.
ghost use Rattle.std.specs.Prelude.{◌≡◌, true, false, MatchOption};
ghost use Rattle.bg_clause.specs.Told.{is_short};
ghost use Rattle.bg_forms.specs.Views.{form_in};
ghost use Rattle.bg_clause.specs.Lends.{lent_in};
ghost use Rattle.bg_clause.specs.Views.{short_in};

use crate::lent::{Leaf, Lent};
use bg_forms::Form;
use bg_formula::Literal;

/// A form that needs no atom in its place.
#[derive(Clone, Copy)]
pub enum Short {
    Plain(bool),
    Is(Literal),
}

/// The same, as a form.
pub fn form_at<'a>(s: Short) -> Lent<'a>
    ensures { lent_in result ≡ short_in s }
{
    match s {
        Short::Plain(b) => Lent::Plain(b),
        Short::Is(l) => Lent::Leaf(Leaf::Is(l)),
    }
}

/// A block's form, if it needs no atom in its place.
fn form_short(f: &Form) -> Option<Short>
    ensures { MatchOption result (is_short (form_in f.now) ≡ false) (λ s. (is_short (form_in f.now) ≡ true) × (short_in s ≡ form_in f.now)) }
{
    match f {
        Form::Plain(b) => Some(Short::Plain(*b)),
        Form::Is(l) => Some(Short::Is(*l)),
        Form::NotSo(_) => None,
        Form::Both(_, _) => None,
        Form::Same(_, _) => None,
    }
}

/// The form, if it needs no atom in its place.
pub fn short_of(f: &Lent<'_>) -> Option<Short>
    ensures { MatchOption result (is_short (lent_in f.now) ≡ false) (λ s. (is_short (lent_in f.now) ≡ true) × (short_in s ≡ lent_in f.now)) }
{
    match f {
        Lent::Plain(b) => Some(Short::Plain(*b)),
        Lent::Leaf(Leaf::Is(l)) => Some(Short::Is(*l)),
        Lent::Leaf(Leaf::Of(true, f)) => form_short(*f),
        Lent::Leaf(Leaf::Of(false, _)) => None,
        Lent::Behind(true, _, _) => None,
        Lent::Behind(false, _, _) => None,
        Lent::Both(true, _, _) => None,
        Lent::Both(false, _, _) => None,
    }
}
