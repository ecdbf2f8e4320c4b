//! What holds of all tokens and expressions.
ghost use Rattle.std.specs.Prelude.{◌≡◌, ◌≤◌, ℕ, List, [], Some, length};
ghost use Rattle.bg_text.specs.Brackets.{left};
ghost use Rattle.bg_text.specs.Tokens.{Tok};
ghost use Rattle.bg_text.specs.Trees.{Ex};
ghost use Rattle.bg_text.specs.Spelling.{Spells, SpellsAt};
ghost use Rattle.bg_reader.specs.Reading.{Got};
ghost use Rattle.bg_reader.specs.Exact.{Good, Nests};
ghost use Rattle.bg_reader.specs.Told.{IsRead, IsRefused, IsTooDeep};
ghost use Rattle.bg_expr.specs.Bare.{bare};
ghost use Rattle.bg_expr.specs.Ends.{ends};
ghost use Rattle.bg_expr.specs.Exprs.{expr_at};
ghost use Rattle.bg_expr.specs.Nodes.{ex_nodes};
ghost use Rattle.bg_expr.specs.Places.{HasPlaces};

/// Expressions are read exactly: what is answered is so, what is spelled is read, and brackets are counted.
pub fn expressions_are_read_exactly()
    ensures exact { (n d : ℕ) → Good n d (ends 0) (SpellsAt 0) (expr_at n d) }
    ensures nests { (n d : ℕ) → Nests d d (expr_at n d) }
    ensures whole { (n d o : ℕ) (e : Ex) (ts : List Tok) → SpellsAt 0 e ts → length ts ≤ n → left ts d ≡ Some o → expr_at n d ts ≡ Got e [] }
{}

/// The three answers of a reading exclude one another.
pub fn answers_exclude_one_another()
    ensures syntax { (d : ℕ) (ts x y : List Tok) (e : Ex) → IsRead (Spells 0) d ts e x → IsRefused (Spells 0) d ts y → ⊥ }
    ensures deep { (d : ℕ) (ts x y : List Tok) (e : Ex) → IsRead (Spells 0) d ts e x → IsTooDeep (Spells 0) d ts y → ⊥ }
    ensures refusals { (d : ℕ) (ts x y : List Tok) → IsRefused (Spells 0) d ts x → IsTooDeep (Spells 0) d ts y → ⊥ }
{}

/// There is one reading, positions apart, and one with the positions of the tokens.
pub fn there_is_one_reading()
    ensures rest { (d : ℕ) (ts x y : List Tok) (e f : Ex) → IsRead (Spells 0) d ts e x → IsRead (Spells 0) d ts f y → x ≡ y }
    ensures tree { (d : ℕ) (ts x y : List Tok) (e f : Ex) → IsRead (Spells 0) d ts e x → IsRead (Spells 0) d ts f y → bare e ≡ bare f }
    ensures positions { (d : ℕ) (ts x y : List Tok) (e f : Ex) → IsRead (Spells 0) d ts e x → IsRead (Spells 0) d ts f y → HasPlaces ts e x → HasPlaces ts f y → e ≡ f }
{}

/// One token is refused, and one bracket is the first that is one too many.
pub fn there_is_one_refusal()
    ensures syntax { (d : ℕ) (ts x y : List Tok) → IsRefused (Spells 0) d ts x → IsRefused (Spells 0) d ts y → x ≡ y }
    ensures deep { (d : ℕ) (ts x y : List Tok) → IsTooDeep (Spells 0) d ts x → IsTooDeep (Spells 0) d ts y → x ≡ y }
{}

/// An expression has no more nodes than tokens.
pub fn nodes_are_few()
    ensures { (k : ℕ) (e : Ex) (ts : List Tok) → Spells k e ts → ex_nodes e ≤ length ts }
{}

/// Tokens that spell an expression spell one, positions apart, and one of them has their positions.
pub fn positions_are_the_tokens()
    ensures twin { (k : ℕ) (e : Ex) (ts : List Tok) → Spells k e ts → (f : Ex) × (bare f ≡ bare e) × SpellsAt k f ts }
    ensures words { (k : ℕ) (e : Ex) (ts : List Tok) → SpellsAt k e ts → Spells k e ts }
    ensures one { (e f : Ex) (ts : List Tok) → Spells 0 e ts → Spells 0 f ts → bare e ≡ bare f }
    ensures placed { (e f : Ex) (ts : List Tok) → SpellsAt 0 e ts → SpellsAt 0 f ts → e ≡ f }
{}
