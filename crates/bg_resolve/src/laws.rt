//! What holds of faults.
ghost use Rattle.std.specs.Prelude.{◌≡◌, List, [], Some, None, ◌∷◌, ◌++◌};
ghost use Rattle.bg_text.specs.Trees as t;
ghost use Rattle.bg_graph.specs.Graphs.{IsGraph};
ghost use Rattle.bg_names.specs.Spaces.{names_of};
ghost use Rattle.bg_spaces.specs.Declarations.{function_ids};
ghost use Rattle.bg_resolve.specs.Calls.{calls_in};
ghost use Rattle.bg_resolve.specs.Program.{plain_faults};
ghost use Rattle.bg_resolve.specs.Resolves.{Recursion, IsToldFault};
ghost use Rattle.bg_names.specs.Faults.{Fault, better, fault, IsFirst};
ghost use Rattle.bg_names.specs.declared.error.FaultKind.TheVariants.{UnknownName, Duplicate, AssignsInput, NotModified, BadTarget, BadOld, UnnamedArgument};
ghost use Rattle.bg_bodies.specs.Bodies.{break_word};
ghost use Rattle.bg_resolve.specs.Examples.{at, first_fault, unknown_x, input_x, duplicate_a, modifies_g, target_break, target_a, unnamed, old_axiom, synonym, two_values};

/// The best of faults is one of them, and none comes before it; there is none only where there is no fault.
pub fn the_best_is_first()
    ensures some { (fs : List Fault) (f : Fault) → better None fs ≡ Some f → IsFirst f fs }
    ensures none { (fs : List Fault) → better None fs ≡ None → fs ≡ [] }
{}

/// The fault of names that is answered is one alone, with its name, and none of the others comes before it.
pub fn told_faults_are_one()
    ensures one { (ds : List t.Decl) (f g : Fault) → IsToldFault ds f → IsToldFault ds g → f ≡ g }
    ensures first { (ds : List t.Decl) (f : Fault) → IsToldFault ds f → (rs : List Fault) × Recursion ds rs × IsFirst f (plain_faults ds ++ rs) }
{}

#[tactic(auto, unfolding(bg_names::specs::Spaces::with_name, bg_names::specs::Spaces::place, bg_names::specs::Spaces::meaning, bg_names::specs::Faults::is_before))]
/// The rules of names, tried on small texts.
pub fn faults_of_small_texts()
    ensures unknown { first_fault unknown_x ≡ Some (fault UnknownName (at 17) (120 ∷ [])) }
    ensures input { first_fault input_x ≡ Some (fault AssignsInput (at 23) (120 ∷ [])) }
    ensures duplicate { first_fault duplicate_a ≡ Some (fault Duplicate (at 33) (97 ∷ [])) }
    ensures modifies_ { first_fault modifies_g ≡ Some (fault NotModified (at 29) (103 ∷ [])) }
    ensures target { first_fault target_break ≡ Some (fault BadTarget (at 17) break_word) }
    ensures label { first_fault target_a ≡ Some (fault BadTarget (at 25) (65 ∷ [])) }
    ensures unnamed { first_fault unnamed ≡ Some (fault UnnamedArgument (at 12) []) }
    ensures old { first_fault old_axiom ≡ Some (fault BadOld (at 7) []) }
    ensures cyclic { first_fault synonym ≡ None }
    ensures arity { first_fault two_values ≡ None }
{}

/// Each call in the body of a function goes to a function of the program.
pub fn calls_go_to_functions()
    ensures { (ds : List t.Decl) → IsGraph (calls_in (names_of (function_ids ds)) ds) }
{}
