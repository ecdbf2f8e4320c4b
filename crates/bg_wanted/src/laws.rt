//! Laws of leaves, which are proved of the definitions alone.
ghost use Rattle.std.specs.Prelude.{◌≡◌, true, List, length, map};
ghost use Rattle.bg_ast.specs.Values.{Val, Ty};
ghost use Rattle.bg_ast.specs.Syntax.{Fun};
ghost use Rattle.bg_sense.specs.Types.{are_of};
ghost use Rattle.bg_terms.specs.Terms.{Term};
ghost use Rattle.bg_terms.specs.Alike.{scalar_ty};
ghost use Rattle.bg_terms.specs.Typed.{TermsTyped, types_with};
ghost use Rattle.bg_terms.specs.Closed.{IsFinished};
ghost use Rattle.bg_wanted.specs.Settled.{IsSettled};

/// A leaf over whole numbers and truth values is finished exactly where it is settled.
pub fn finished_leaves_are_settled()
    ensures settled { (fs : List Fun) (incs : List Ty) (ts : List Term) (s : List Val) → TermsTyped fs incs ts →
        are_of (map scalar_ty (types_with incs ts)) s ≡ true → IsFinished s (length incs) ts (types_with incs ts) →
        IsSettled s (length incs) ts (types_with incs ts) }
    ensures finished { (fs : List Fun) (incs : List Ty) (ts : List Term) (s : List Val) → TermsTyped fs incs ts →
        are_of (map scalar_ty (types_with incs ts)) s ≡ true → IsSettled s (length incs) ts (types_with incs ts) →
        IsFinished s (length incs) ts (types_with incs ts) }
{}
