// Laws of programs whose names are resolved.

ghost use Rattle.std.specs.Prelude.{◌≡◌, ℕ, Some, map, slice_get, Contains};
ghost use Rattle.bg_ast.specs.Syntax.{Global, Proc, Prog};
ghost use Rattle.bg_ast.specs.Execution.{Place};
ghost use Rattle.bg_sense.specs.Run.{modified};
ghost use Rattle.bg_sense.specs.Claims.{places};
ghost use Rattle.bg_sense.specs.Resolved.{IsResolved};

/// Two places have two spots. So a spot names its place, and has the one candidate of it.
pub fn places_have_spots_of_their_own()
    ensures place { (p : Prog) (i j : ℕ) (t u : Place) → IsResolved p →
        slice_get (places p) i ≡ Some t → slice_get (places p) j ≡ Some u → t.spot ≡ u.spot → i ≡ j }
    ensures candidate { (p : Prog) (t u : Place) → IsResolved p →
        Contains (places p) t → Contains (places p) u → t.spot ≡ u.spot → t.candidate ≡ u.candidate }
{}

/// What a procedure modifies is what its list names, in its order.
pub fn what_is_modified_is_as_listed()
    ensures { (p : Prog) (k : ℕ) (q : Proc) → IsResolved p → slice_get p.procedures k ≡ Some q →
        modified p q ≡ map Global q.modifies }
{}
