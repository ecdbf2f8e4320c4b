//! What is kept where a tree is printed and read again.
ghost use Rattle.std.specs.Prelude.{◌≡◌, ◌⊎◌, ℕ, List};
ghost use Rattle.bg_base.specs.declared.pos.Pos as place;
ghost use Rattle.bg_text.specs.Declarations.{SpellsTree, SpellsTreeAt};
ghost use Rattle.bg_text.specs.Text as text;
ghost use Rattle.bg_text.specs.Text.{Text, Refused};
ghost use Rattle.bg_text.specs.Tokens.{Tok};
ghost use Rattle.bg_text.specs.Trees.{Decl};
ghost use Rattle.bg_reader.specs.Told.{IsTooDeep};
ghost use Rattle.bg_parse.specs.Programs.{IsProgram, IsStopped};
ghost use Rattle.bg_print.specs.Printed.{printed};
ghost use Rattle.bg_reread.specs.Bare.{bare_decls};
ghost use Rattle.bg_reread.specs.Nowhere.{all_nowhere};

/// Positions are forgotten, and nothing else. A tree without its positions is the one that its tokens spell where they
/// stand at no place; trees that are the same, positions apart, have the same tokens; and a tree without positions stays.
pub fn positions_alone_are_forgotten()
    ensures placed { (ds : List Decl) (ts : List Tok) → SpellsTree ds ts → SpellsTreeAt (bare_decls ds) (all_nowhere ts) }
    ensures same { (ds es : List Decl) (ts : List Tok) → bare_decls ds ≡ bare_decls es → SpellsTree ds ts → SpellsTree es ts }
    ensures twice { (ds : List Decl) → bare_decls (bare_decls ds) ≡ bare_decls ds }
{}

/// Trees that the same tokens spell are the same, positions apart.
pub fn twins_differ_in_positions_alone()
    ensures { (ds es : List Decl) (ts : List Tok) → SpellsTree ds ts → SpellsTree es ts → bare_decls ds ≡ bare_decls es }
{
    bg_parse::tokens_spell_one_program();
}

/// The printed text of a tree that some tokens spell holds tokens, and they spell that tree and no other, positions apart.
/// So what is read of it is the tree; neither its bytes nor a token of it is refused, but for a bracket too many.
pub fn printed_text_gives_the_tree()
    ensures tokens { (ds : List Decl) (ts : List Tok) → SpellsTree ds ts →
        (us : List Tok) × Text (printed ds) us × SpellsTree ds us × ((es : List Decl) → SpellsTree es us → bare_decls es ≡ bare_decls ds) }
    ensures read { (d : ℕ) (ds es : List Decl) (ts us : List Tok) → SpellsTree ds ts → Text (printed ds) us → IsProgram d us es → bare_decls es ≡ bare_decls ds }
    ensures answered { (d : ℕ) (ds : List Decl) (ts us : List Tok) → SpellsTree ds ts → Text (printed ds) us →
        ((es : List Decl) × IsProgram d us es) ⊎ ((rest : List Tok) × IsTooDeep SpellsTree d us rest) }
    ensures bytes { (ds : List Decl) (ts : List Tok) (at : place.Pos) (fault : text.Fault) → SpellsTree ds ts → Refused (printed ds) at fault → ⊥ }
    ensures syntax { (d : ℕ) (ds : List Decl) (ts us rest : List Tok) → SpellsTree ds ts → Text (printed ds) us → IsStopped d us rest → ⊥ }
{
    bg_print::printed_is_read();
    bg_parse::tokens_spell_one_program();
    bg_lex::laws::a_text_holds_one_list_of_tokens();
    bg_lex::laws::a_text_that_holds_tokens_is_not_refused();
    twins_differ_in_positions_alone();
}
