//! What holds of all texts.
ghost use Rattle.std.specs.Prelude.{◌≡◌, ℕ, Bool, List};
ghost use Rattle.bg_text.specs.Tokens.{Tok};
ghost use Rattle.bg_text.specs.Trees.{Decl};
ghost use Rattle.bg_ast.specs.Resolved.{Program};
ghost use Rattle.bg_ast.specs.Meaning.{meaning_of};
ghost use Rattle.bg_sense.specs.Typed.{IsTyped};
ghost use Rattle.bg_sense.specs.Recursion.{HasNoRecursion};
ghost use Rattle.bg_sense.specs.Resolved.{IsResolved};
ghost use Rattle.bg_resolve.specs.Program.{named};
ghost use Rattle.bg_front.specs.Programs.{IsProgramFrom, IsProgramOf, IsRefusedBy, with_guesses};
ghost use Rattle.bg_front.specs.Refusals.{Refusal};
ghost use Rattle.bg_front.specs.Trees.{IsTreeOf, HasNoTree};

/// A text has one tree, or it is refused for one reason, and never both.
pub fn a_text_has_one_tree_or_one_refusal()
    ensures tree { (bytes : List ℕ) (ts us : List Tok) (ds es : List Decl) → IsTreeOf bytes ts ds → IsTreeOf bytes us es → (ts ≡ us) × (ds ≡ es) }
    ensures both { (bytes : List ℕ) (ts : List Tok) (ds : List Decl) (r : Refusal) → IsTreeOf bytes ts ds → HasNoTree bytes r → ⊥ }
    ensures refusal { (bytes : List ℕ) (r s : Refusal) → HasNoTree bytes r → HasNoTree bytes s → r ≡ s }
{
    bg_lex::laws::a_text_holds_one_list_of_tokens();
    bg_lex::laws::a_text_has_one_refusal();
    bg_lex::laws::a_text_that_holds_tokens_is_not_refused();
    bg_parse::tokens_spell_one_program();
    bg_parse::answers_exclude_one_another();
    bg_parse::there_is_one_refusal();
}

/// A text has one program, with guesses and without, or it is refused for one reason, and never both.
pub fn a_text_has_one_program_or_one_refusal()
    ensures program { (guess : Bool) (bytes : List ℕ) (p q : Program) → IsProgramOf guess bytes p → IsProgramOf guess bytes q → p ≡ q }
    ensures both { (guess : Bool) (bytes : List ℕ) (p : Program) (r : Refusal) → IsProgramOf guess bytes p → IsRefusedBy guess bytes r → ⊥ }
    ensures refusal { (guess : Bool) (bytes : List ℕ) (r s : Refusal) → IsRefusedBy guess bytes r → IsRefusedBy guess bytes s → r ≡ s }
{
    bg_lex::laws::a_text_holds_one_list_of_tokens();
    bg_lex::laws::a_text_has_one_refusal();
    bg_lex::laws::a_text_that_holds_tokens_is_not_refused();
    bg_parse::tokens_spell_one_program();
    bg_parse::answers_exclude_one_another();
    bg_parse::there_is_one_refusal();
    bg_typed::laws::programs_that_keep_the_rules_have_no_fault();
}

/// The program of a text is typed in the sense of its meaning, and no function of it reaches itself.
pub fn programs_are_typed()
    ensures { (guess : Bool) (bytes : List ℕ) (p : Program) → IsProgramOf guess bytes p → IsTyped (meaning_of p) × HasNoRecursion (meaning_of p) }
{
    bg_meant::laws::programs_are_resolved();
    bg_guess::laws::guesses_are_typed();
}

/// In the program of a text clauses, calls, loops, conditionals and labels have numbers of their own, and procedures and candidates that
/// are named are there.
pub fn programs_are_resolved()
    ensures { (guess : Bool) (bytes : List ℕ) (p : Program) → IsProgramOf guess bytes p → IsResolved (meaning_of p) }
{
    bg_meant::laws::programs_are_resolved();
    bg_guess::laws::guesses_are_resolved();
}

/// The program of a text is what the names of its declarations mean, with its guesses where these are asked for.
pub fn programs_are_named()
    ensures { (guess : Bool) (bytes : List ℕ) (ds : List Decl) (p : Program) → IsProgramFrom guess bytes ds p → p ≡ with_guesses guess (named ds) }
{}
