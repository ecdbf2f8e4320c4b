//! What forms are worth.
ghost use Rattle.std.specs.Prelude.{◌≡◌};
ghost use Rattle.bg_forms.specs.Forms.{literal_in, form_true};
ghost use Rattle.bg_forms.specs.Views.{form_in};
ghost use Rattle.bg_forms.specs.Worth.{bools_at};

use crate::form::Form;
use bg_formula::Literal;

fn is_met(truths: &[bool], l: Literal) -> bool
    ensures { result ≡ literal_in (bools_at truths.now) l }
{
    match truths.get(l.atom as usize) {
        Some(b) => *b == l.sign,
        None => !l.sign,
    }
}

/// What a form is worth where the atoms have these truth values, and false past the end of the list. What stands behind others is
/// walked in a loop.
pub fn is_worth(truths: &[bool], f: &Form) -> bool
    ensures { result ≡ form_true (bools_at truths.now) (form_in f.now) }
{
    let mut left: &Form = f;
    let mut sign = true;
    loop {
        match left {
            Form::Plain(b) => return *b == sign,
            Form::Is(l) => return is_met(truths, *l) == sign,
            Form::NotSo(f) => {
                sign = !sign;
                left = &**f;
            }
            Form::Both(f, g) => {
                if !is_worth(truths, f) {
                    return !sign;
                }
                left = &**g;
            }
            Form::Same(f, g) => {
                sign = is_worth(truths, f) == sign;
                left = &**g;
            }
        }
    }
}
