// The definitions, tried on small programs.

ghost use Rattle.std.specs.Prelude.{◌≡◌, pos, [], ◌∷◌};
ghost use Rattle.bg_ast.specs.Values.{Num};
ghost use Rattle.bg_ast.specs.Execution.{Chosen, Branch, AtAssert, AtReturn, AtEntry};
ghost use Rattle.bg_sense.specs.Run.{Blocked, Ended, BadChoice, Failed, Going, source_run, induction_run};
ghost use Rattle.bg_sense.specs.Typed.{IsTyped};
ghost use Rattle.bg_sense.specs.Recursion.{HasNoRecursion};
ghost use Rattle.bg_sense.specs.Resolved.{IsResolved};
ghost use Rattle.bg_sense.specs.Examples.{nothing, forgetful, five, count, up_to, all_three, without_one, frame, swap, two_ways, two_writes, at_indices, breaking, trusting, two_globals, at_globals};

/// A call in a loop may change a global, which both runs see.
pub fn forgotten_global()
    ensures source { source_run forgetful all_three nothing 0 five (Chosen (Num (pos 6)) ∷ []) 20 ≡ Failed (AtAssert 0) }
    ensures induction { induction_run forgetful all_three nothing 0 five (Chosen (Num (pos 7)) ∷ Chosen (Num (pos 1)) ∷ []) ≡ Failed (AtAssert 0) }
    ensures short { source_run forgetful all_three nothing 0 five (Chosen (Num (pos 6)) ∷ []) 3 ≡ Going }
{}

/// A loop turns as often as it must, and a candidate that is false on arrival fails there.
pub fn counting()
    ensures turns { source_run count without_one nothing 0 (up_to 2) [] 40 ≡ Ended }
    ensures dropped { source_run count all_three nothing 0 (up_to 2) [] 40 ≡ Failed (AtEntry 3) }
    ensures cut { induction_run count without_one nothing 0 (up_to 2) (Chosen (Num (pos 1)) ∷ []) ≡ Ended }
{}

/// All right sides are read before the first write.
pub fn swapping()
    ensures { source_run swap all_three nothing 0 (frame (1 ∷ 2 ∷ 7 ∷ 8 ∷ [])) [] 20 ≡ Ended }
{}

/// A `goto` chooses, and passes over what lies before its label.
pub fn jumping()
    ensures first { source_run two_ways all_three nothing 0 (frame (5 ∷ [])) (Branch 0 ∷ []) 20 ≡ Ended }
    ensures second { source_run two_ways all_three nothing 0 (frame (5 ∷ [])) (Branch 1 ∷ []) 20 ≡ Failed (AtReturn 0 0) }
    ensures third { source_run two_ways all_three nothing 0 (frame (5 ∷ [])) (Branch 2 ∷ []) 20 ≡ BadChoice }
    ensures none { source_run two_ways all_three nothing 0 (frame (5 ∷ [])) [] 20 ≡ BadChoice }
{}

/// A write to a map is seen at its index alone.
pub fn writing()
    ensures same { source_run two_writes all_three nothing 0 (at_indices 3 3) [] 20 ≡ Failed (AtAssert 0) }
    ensures other { source_run two_writes all_three nothing 0 (at_indices 3 4) [] 20 ≡ Ended }
    ensures before { source_run two_writes all_three nothing 0 (at_indices 4 3) [] 20 ≡ Ended }
{}

/// A `break` leaves the loop from inside a conditional, in either run.
pub fn leaving()
    ensures source { source_run breaking all_three nothing 0 (frame (0 ∷ [])) (Branch 0 ∷ Branch 0 ∷ []) 20 ≡ Ended }
    ensures induction { induction_run breaking all_three nothing 0 (frame (1 ∷ [])) (Branch 0 ∷ Branch 0 ∷ []) ≡ Failed (AtAssert 1) }
    ensures stays { induction_run breaking all_three nothing 0 (frame (1 ∷ [])) (Branch 0 ∷ Branch 1 ∷ []) ≡ Failed (AtAssert 0) }
{}

/// A free postcondition is assumed at a call, and not checked at the end.
pub fn trusted()
    ensures inside { source_run trusting all_three nothing 0 (frame (4 ∷ [])) [] 20 ≡ Ended }
    ensures held { source_run trusting all_three nothing 1 (frame (4 ∷ [])) (Chosen (Num (pos 1)) ∷ []) 20 ≡ Ended }
    ensures broken { source_run trusting all_three nothing 1 (frame (4 ∷ [])) (Chosen (Num (pos 0)) ∷ []) 20 ≡ Blocked }
{}

/// A call takes the modified globals by declaration, each once, however its procedure lists them.
pub fn modifying()
    ensures both { source_run two_globals all_three nothing 0 (at_globals 5 6) (Chosen (Num (pos 1)) ∷ Chosen (Num (pos 2)) ∷ []) 20 ≡ Ended }
    ensures turned { source_run two_globals all_three nothing 0 (at_globals 5 6) (Chosen (Num (pos 2)) ∷ Chosen (Num (pos 1)) ∷ []) 20 ≡ Blocked }
    ensures lacking { source_run two_globals all_three nothing 0 (at_globals 5 6) (Chosen (Num (pos 1)) ∷ []) 20 ≡ BadChoice }
{}

/// Worked programs keep the rules of types and of names, so these rules can be kept.
pub fn the_rules_are_kept()
    ensures counting { IsTyped count × IsResolved count × HasNoRecursion count }
    ensures calling { IsTyped forgetful × IsResolved forgetful × HasNoRecursion forgetful }
{}
