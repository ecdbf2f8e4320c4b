//! Laws of evaluation, which are proved of the definitions alone.
ghost use Rattle.std.specs.Prelude.{◌≡◌, ℕ, true, List, None, slice_get};
ghost use Rattle.bg_ast.specs.Values.{Val, Ty, Table};
ghost use Rattle.bg_ast.specs.Syntax.{Ex, Exs, Fun, Prog};
ghost use Rattle.bg_ast.specs.Execution.{Interp};
ghost use Rattle.bg_sense.specs.Eval.{ev, evs, body_of, functions_of};
ghost use Rattle.bg_sense.specs.Tables.{are_tables};
ghost use Rattle.bg_sense.specs.Typing.{Sig, HasType, HaveTypes};
ghost use Rattle.bg_scalar.specs.Worths.{Is, Are, Seen, worth, worths};
ghost use Rattle.bg_scalar.specs.Values.{scope_in, MeanTables};
ghost use Rattle.bg_scalar.specs.Typed.{is_valued, are_valued, HaveTables, HasWorth, HaveWorths, Sees};

/// Where functions mean their tables and no operation leaves the range, an expression is worth its value over whole numbers without bound.
pub fn worths_are_values()
    ensures { (functions : ℕ → List Val → Val) (constants : List Val) (e : Ex) (s : Seen) (x : Val) → MeanTables functions s.tables → worth e s ≡ Is x →
        ev e (scope_in functions constants s) ≡ x }
{}

/// Where functions mean their tables and no operation leaves the range, a list of expressions is worth its values.
pub fn lists_are_values()
    ensures { (functions : ℕ → List Val → Val) (constants : List Val) (es : Exs) (s : Seen) (xs : List Val) → MeanTables functions s.tables → worths es s ≡ Are xs →
        evs es (scope_in functions constants s) ≡ xs }
{}

/// A typed expression without constants is worth a value of its type, where functions have tables of their types and variables values of
/// theirs, unless an operation leaves the range. The same of lists.
pub fn typed_expressions_have_worths()
    ensures one { (e : Ex) (s : Seen) (g : Sig) (t : Ty) → is_valued e ≡ true → HasType e g t → Sees g s → HasWorth t (worth e s) }
    ensures all { (es : Exs) (s : Seen) (g : Sig) (ts : List Ty) → are_valued es ≡ true → HaveTypes es g ts → Sees g s → HaveWorths ts (worths es s) }
{}

/// Tables of functions' types say values of their results' types.
pub fn tables_are_typed()
    ensures { (functions : List Fun) (tables : List Table) → are_tables functions tables ≡ true → HaveTables functions tables }
{}

/// The functions of a program without bodies mean the tables of an interpretation.
pub fn tables_are_meant()
    ensures { (p : Prog) (i : Interp) → ((f : ℕ) → body_of (slice_get p.functions f) ≡ None) → MeanTables (functions_of p i) i.tables }
{}
