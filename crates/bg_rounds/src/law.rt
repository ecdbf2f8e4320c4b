//! What a true outcome means.
ghost use Rattle.std.specs.Prelude.{◌≡◌, ℕ, ◌<◌};
ghost use Rattle.bg_words.specs.Sets.{has};
ghost use Rattle.bg_core.specs.Inductive.{Inductive, Greatest};
ghost use Rattle.bg_rounds.specs.Outcomes.{TrueOutcome, NoneUnknown};
ghost use Rattle.bg_rounds.specs.declared.outcome.Outcome.{Outcome};

use crate::Checker;

/// The retained set of a true outcome is inductive: no target of a candidate in it fails under it.
pub fn retained_is_inductive<P: Drop, V: Drop, D: Drop, C: Checker<P, V, D>>()
    ensures { (s : C) (o : Outcome P V) → C.stands s → TrueOutcome (C.cands s) (C.targets s) (C.cand s) (C.passes s) (C.finds s) o
        → Inductive (λ t. t < C.targets s) (C.cand s) (C.fails s) (has o.retained) }
{}

/// Where no drop was unknown, it is the greatest inductive set.
pub fn retained_is_greatest<P: Drop, V: Drop, D: Drop, C: Checker<P, V, D>>()
    ensures { (s : C) (o : Outcome P V) → C.stands s → TrueOutcome (C.cands s) (C.targets s) (C.cand s) (C.passes s) (C.finds s) o → NoneUnknown o
        → Greatest (λ t. t < C.targets s) (C.cand s) (C.fails s) (C.cands s) (has o.retained) }
{}

/// Two true outcomes without unknown drops, of one checker, retain the same set, whoever checked what in
/// which order.
pub fn outcomes_agree<P: Drop, V: Drop, D: Drop, C: Checker<P, V, D>>()
    ensures { (s : C) (o q : Outcome P V) → C.stands s
        → TrueOutcome (C.cands s) (C.targets s) (C.cand s) (C.passes s) (C.finds s) o → NoneUnknown o
        → TrueOutcome (C.cands s) (C.targets s) (C.cand s) (C.passes s) (C.finds s) q → NoneUnknown q
        → o.retained ≡ q.retained }
{}
