//! How many incarnations there are.
ghost use Rattle.std.specs.Prelude.{◌≡◌, ◌+◌, List, [], length};
ghost use Rattle.bg_ast.specs.Syntax.{Decl, Prog};
ghost use Rattle.bg_flow.specs.Blocks.{Block};
ghost use Rattle.bg_passive.specs.Incarnations.{entry_env, incarnations};
ghost use Rattle.bg_passive.specs.Arrivals.{arrived};
ghost use Rattle.bg_incarnate.specs.Walked.{walk_after};
ghost use Rattle.bg_incarnate.specs.Even.{BlocksEven};

/// Where each assignment has as many values as targets, and each call as many arguments as parameters, the next new incarnation
/// behind all blocks is the number of all incarnations.
pub fn incarnations_are_counted()
    ensures { (p : Prog) (ds : List Decl) (bs : List Block) → BlocksEven bs → walk_after (entry_env p ds) bs [] (length p.globals + length ds) ≡ length (incarnations p ds (arrived p ds bs).made) }
{}
