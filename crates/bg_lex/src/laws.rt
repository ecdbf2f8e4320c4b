//! What a text holds, as laws: each is the contract of a function that does nothing.
ghost use Rattle.std.specs.Prelude.{◌≡◌, ◌⊎◌, ℕ, List};
ghost use Rattle.bg_base.specs.declared.pos.Pos as place;
ghost use Rattle.bg_text.specs.Text as text;
ghost use Rattle.bg_text.specs.Text.{Text, Refused};
ghost use Rattle.bg_text.specs.Tokens.{Tok};

/// A text holds one list of tokens.
pub fn a_text_holds_one_list_of_tokens()
    ensures { (bytes : List ℕ) (ts us : List Tok) → Text bytes ts → Text bytes us → ts ≡ us }
{}

/// A text that is refused holds no tokens.
pub fn a_refused_text_holds_no_tokens()
    ensures { (bytes : List ℕ) (at : place.Pos) (fault : text.Fault) (ts : List Tok) → Refused bytes at fault → Text bytes ts → ⊥ }
{}

/// A text is refused at one position and with one fault.
pub fn a_text_has_one_refusal()
    ensures { (bytes : List ℕ) (a b : place.Pos) (f g : text.Fault) → Refused bytes a f → Refused bytes b g → (a ≡ b) × (f ≡ g) }
{}

/// A text that holds tokens isn't refused.
pub fn a_text_that_holds_tokens_is_not_refused()
    ensures { (bytes : List ℕ) (ts : List Tok) (at : place.Pos) (fault : text.Fault) → Text bytes ts → Refused bytes at fault → ⊥ }
{}

/// Each text holds tokens or is refused.
pub fn each_text_holds_tokens_or_is_refused()
    ensures { (bytes : List ℕ) → ((ts : List Tok) × Text bytes ts) ⊎ ((at : place.Pos) × (fault : text.Fault) × Refused bytes at fault) }
{}
