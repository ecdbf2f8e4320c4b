//! Laws on formulas, each the contract of a function that does nothing.
ghost use Rattle.bg_formula.specs.declared.clauses.Clauses.{Clauses};
ghost use Rattle.bg_formula.specs.Formulas.{formula_of};
ghost use Rattle.bg_formula.specs.Meaning.{AtomsAgree};

/// Each row among a formula's atoms stands there with its denial.
pub fn atoms_agree()
    ensures { (f : Clauses) → AtomsAgree (formula_of f).atoms }
{}
