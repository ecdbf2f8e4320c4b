//! The law of forms, which is proved of the definitions alone.
ghost use Rattle.std.specs.Prelude.{◌≡◌, ℕ, Bool, true};
ghost use Rattle.bg_ast.specs.Values.{Truth};
ghost use Rattle.bg_ast.specs.Syntax.{Ex};
ghost use Rattle.bg_sense.specs.Eval.{Scope, ev};
ghost use Rattle.bg_forms.specs.Forms.{form_true, form_of};
ghost use Rattle.bg_forms.specs.Fitting.{fits_ex};
ghost use Rattle.bg_forms.specs.Worth.{truth_values};

/// An expression over truth values is worth what its form is worth.
pub fn forms_mean_expressions()
    ensures { (t : ℕ → Bool) (n : ℕ) (c : Scope) → c.frame ≡ truth_values t n → (e : Ex) → fits_ex n e ≡ true → ev e c ≡ Truth (form_true t (form_of e)) }
{}
