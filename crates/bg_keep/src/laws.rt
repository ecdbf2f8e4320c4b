//! What holds of what is kept.
ghost use Rattle.std.specs.Prelude.{◌≡◌, Bool, List, []};
ghost use Rattle.bg_text.specs.Declarations.{SpellsTree};
ghost use Rattle.bg_text.specs.Tokens.{Tok};
ghost use Rattle.bg_text.specs.Trees.{Decl};
ghost use Rattle.bg_words.specs.Sets.{Numbers};
ghost use Rattle.bg_resolve.specs.Program.{named};
ghost use Rattle.bg_keep.specs.Kept.{kept};
ghost use Rattle.bg_keep.specs.Annotated.{annotated};

/// A program with its retained annotations has no candidates.
pub fn no_candidate_is_kept()
    ensures { (guess : Bool) (set : Numbers) (ds : List Decl) → (named (annotated guess set ds)).candidates ≡ [] }
{}

/// What is kept of a program that tokens spell is a program that tokens spell.
pub fn what_is_kept_is_spelled()
    ensures { (set : Numbers) (ds : List Decl) (ts : List Tok) → SpellsTree ds ts → (us : List Tok) × SpellsTree (kept set ds) us }
{}
