//! Laws of expressions made flat, which are proved of the definitions alone.
ghost use Rattle.std.specs.Prelude.{◌≡◌, true, List, length};
ghost use Rattle.bg_ast.specs.Values.{Ty};
ghost use Rattle.bg_ast.specs.Syntax.{Ex, Exs, Fun};
ghost use Rattle.bg_terms.specs.Terms.{Term};
ghost use Rattle.bg_terms.specs.Flat.{IsFlat, AreFlat};
ghost use Rattle.bg_numbered.specs.Fair.{Fair, AllFair, FairTerms, Grows};
ghost use Rattle.bg_numbered.specs.Numbered.{behind, numbered, all_behind, all_numbered};
ghost use Rattle.bg_numbered.specs.Lines.{Line, after_lines, HaveIndices};
ghost use Rattle.bg_numbered.specs.Indexed.{are_indexed, GiveIndexed};

/// What is made flat says what the expression says, over a table that begins with the one before; the terms of the table stay fair; and
/// each map that is selected from or updated has an index, where that is so of the types of incarnations and of what functions give.
pub fn numbered_expressions_are_flat()
    ensures grows { (fs : List Fun) (incs : List Ty) (ts : List Term) (e : Ex) → Grows ts (behind fs incs e ts) }
    ensures flat { (fs : List Fun) (incs : List Ty) (ts : List Term) (e : Ex) → Fair fs incs e →
        IsFlat (length incs) (behind fs incs e ts) e (numbered fs incs e ts) }
    ensures fair { (fs : List Fun) (incs : List Ty) (ts : List Term) (e : Ex) → Fair fs incs e → FairTerms fs incs ts →
        FairTerms fs incs (behind fs incs e ts) }
    ensures indexed { (fs : List Fun) (incs : List Ty) (ts : List Term) (e : Ex) → GiveIndexed fs → are_indexed incs ≡ true → Fair fs incs e →
        FairTerms fs incs ts → HaveIndices ts → HaveIndices (behind fs incs e ts) }
{}

/// The same of lists.
pub fn numbered_lists_are_flat()
    ensures grows { (fs : List Fun) (incs : List Ty) (ts : List Term) (es : Exs) → Grows ts (all_behind fs incs es ts) }
    ensures flat { (fs : List Fun) (incs : List Ty) (ts : List Term) (es : Exs) → AllFair fs incs es →
        AreFlat (length incs) (all_behind fs incs es ts) es (all_numbered fs incs es ts) }
    ensures fair { (fs : List Fun) (incs : List Ty) (ts : List Term) (es : Exs) → AllFair fs incs es → FairTerms fs incs ts →
        FairTerms fs incs (all_behind fs incs es ts) }
{}

/// Lines bring fair terms behind fair ones, whatever they name; and each map that is selected from or updated has an index where that is so before.
pub fn lines_bring_fair_terms()
    ensures grows { (incs : List Ty) (ts : List Term) (ls : List Line) → Grows ts (after_lines incs ts ls) }
    ensures fair { (fs : List Fun) (incs : List Ty) (ts : List Term) (ls : List Line) → FairTerms fs incs ts → FairTerms fs incs (after_lines incs ts ls) }
    ensures indexed { (incs : List Ty) (ts : List Term) (ls : List Line) → HaveIndices ts → HaveIndices (after_lines incs ts ls) }
{}
