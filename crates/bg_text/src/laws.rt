//! Laws of what tokens and spellings are.
ghost use Rattle.std.specs.Prelude.{◌≡◌, ℕ, ◌+◌, List, [], ◌∷◌, ◌++◌, Some, None, codes};
ghost use Rattle.bg_base.specs.declared.pos.Pos.{Pos};
ghost use Rattle.bg_text.specs.declared.token.Kind.TheVariants as kinds;
ghost use Rattle.bg_text.specs.declared.expr.InfixSign.TheVariants.{And, Or, Less, Plus, Minus, Times};
ghost use Rattle.bg_text.specs.Tokens.{Tok};
ghost use Rattle.bg_text.specs.Pieces.{Token, Reserved, TooBig, Layout, piece_of};
ghost use Rattle.bg_text.specs.Trees.{Ex, Named, Apply, Chain, Link, NoLink, More, NoMore};
ghost use Rattle.bg_text.specs.Marks.{sign, name_at};
ghost use Rattle.bg_text.specs.Spelling.{ex_marks, IsEx};
ghost use Rattle.bg_text.specs.Brackets.{left};

/// `x'` is a name, and `int` is none.
pub fn a_reserved_word_is_no_name()
    ensures name { piece_of (codes "x'") ≡ Some (Token kinds.Name) }
    ensures word { piece_of (codes "int") ≡ Some (Token kinds.Int) }
{}

/// `bv32` stands in no token list, as `div` doesn't.
pub fn words_of_other_profiles_are_reserved()
    ensures vector { piece_of (codes "bv32") ≡ Some (Reserved (codes "bv32")) }
    ensures word { piece_of (codes "div") ≡ Some (Reserved (codes "div")) }
{}

/// The largest number is 2^127 - 1.
pub fn the_next_number_is_too_big()
    ensures { piece_of (codes "170141183460469231731687303715884105728") ≡ Some TooBig }
{}

/// A comment in a comment is closed before it.
pub fn comments_are_nested()
    ensures closed { piece_of (codes "/* a /* b */ c */") ≡ Some Layout }
    ensures open { piece_of (codes "/* a /* b */ c") ≡ None }
{}

/// `a + b - c` is one chain.
pub fn sums_and_differences_mix()
    ensures { (a b c : List ℕ) (p q r s t : Pos) → IsEx (Chain (Named p a) (Link q Plus (Named r b) (Link s Minus (Named t c) NoLink))) }
{}

/// `a && b || c` is no chain.
pub fn and_and_or_do_not_mix()
    ensures { (a b c : Ex) (p q : Pos) → IsEx (Chain a (Link p And b (Link q Or c NoLink))) → ⊥ }
{}

/// `a < b < c` is no chain.
pub fn comparisons_are_no_chain()
    ensures { (a b c : Ex) (p q : Pos) → IsEx (Chain a (Link p Less b (Link q Less c NoLink))) → ⊥ }
{}

/// A factor that is a sum needs parentheses.
pub fn a_sum_is_no_factor()
    ensures { (a b c : Ex) (p q : Pos) → IsEx (Chain (Chain a (Link p Plus b NoLink)) (Link q Times c NoLink)) → ⊥ }
{}

/// `f(a, b)` has one comma.
pub fn arguments_have_commas_between_them()
    ensures { (f a b : List ℕ) (p q r : Pos) →
        ex_marks (Apply p f (More (Named q a) (More (Named r b) NoMore)))
        ≡ name_at p f ∷ sign kinds.Open ∷ name_at q a ∷ sign kinds.Comma ∷ name_at r b ∷ sign kinds.Close ∷ [] }
{}

/// Where no bracket may be opened, an open bracket is one too many.
pub fn a_bracket_may_be_one_too_many()
    ensures { (t : Tok) (rest : List Tok) → t.kind ≡ kinds.OpenBrace → left (t ∷ rest) 0 ≡ None }
{}
