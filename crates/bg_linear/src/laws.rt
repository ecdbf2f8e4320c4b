//! Laws on the definitions, each the contract of a function that does nothing.
ghost use Rattle.std.specs.Prelude.{◌≡◌, ℕ, ℤ, Bool, true, List, length, Ok, Some};
ghost use Rattle.bg_ast.specs.Values.{Num, Truth};
ghost use Rattle.bg_ast.specs.Syntax.{Ex, Op, Binary};
ghost use Rattle.bg_sense.specs.Eval.{Scope, ev};
ghost use Rattle.bg_rows.specs.Entries.{rising};
ghost use Rattle.bg_formula.specs.Atoms.{AtomOf};
ghost use Rattle.bg_formula.specs.Formulas.{rows_below};
ghost use Rattle.bg_formula.specs.Meaning.{Valuation};
ghost use Rattle.bg_linear.specs.declared.scalar.Sort.{Sort};
ghost use Rattle.bg_linear.specs.declared.scalar.Sort.TheVariants as sort;
ghost use Rattle.bg_linear.specs.Lins.{LinOf, worth};
ghost use Rattle.bg_linear.specs.Forms.{linear};
ghost use Rattle.bg_linear.specs.Relations.{relation, relates, says, all_true};
ghost use Rattle.bg_linear.specs.Sorts.{sort_ex, scalar_values, HoldScalars};

/// A linear form is worth what its expression is.
pub fn forms_are_exact()
    ensures { (sorts : List Sort) (v : Valuation) (c : Scope) → HoldScalars sorts v.numbers v.truths c.frame →
        (e : Ex) (f : LinOf) → sort_ex sorts e ≡ Some sort.Number → linear e ≡ Ok f → ev e c ≡ Num (worth v.numbers f) }
{}

/// The rows of a relation between numbers are all true exactly where it holds; those of `!=` exactly where it doesn't.
pub fn relations_are_exact()
    ensures { (sorts : List Sort) (v : Valuation) (c : Scope) → HoldScalars sorts v.numbers v.truths c.frame →
        (o : Op) (a b : Ex) (rows : List AtomOf) → relates o ≡ true → sort_ex sorts a ≡ Some sort.Number → sort_ex sorts b ≡ Some sort.Number →
        relation o a b ≡ Ok rows → ev (Binary o a b) c ≡ Truth (says o (all_true v rows)) }
{}

/// The entries of a linear form stand by variable number, each variable once, and no coefficient is 0.
pub fn forms_are_normal()
    ensures { (e : Ex) (f : LinOf) → linear e ≡ Ok f → rising 0 f.entries ≡ true }
{}

/// The rows of a relation between numbers name incarnations that are there.
pub fn rows_name_incarnations()
    ensures { (sorts : List Sort) (o : Op) (a b : Ex) (rows : List AtomOf) → sort_ex sorts a ≡ Some sort.Number → sort_ex sorts b ≡ Some sort.Number →
        relation o a b ≡ Ok rows → rows_below (length sorts) rows ≡ true }
{}

/// The values that a valuation gives incarnations hold its numbers and truth values.
pub fn scalar_values_hold()
    ensures { (sorts : List Sort) (numbers : ℕ → ℤ) (truths : ℕ → Bool) → HoldScalars sorts numbers truths (scalar_values numbers truths sorts) }
{}
