//! What holds of all tokens and programs.
ghost use Rattle.std.specs.Prelude.{◌≡◌, ◌≤◌, ℕ, List, length};
ghost use Rattle.bg_text.specs.Tokens.{Tok};
ghost use Rattle.bg_text.specs.Trees.{Decl};
ghost use Rattle.bg_text.specs.Declarations.{SpellsTree, SpellsTreeAt};
ghost use Rattle.bg_reader.specs.Told.{IsTooDeep};
ghost use Rattle.bg_parse.specs.Programs.{IsProgram, IsStopped};
ghost use Rattle.bg_parse.specs.Nodes.{nodes};

/// Tokens spell one program with their positions; what has its words has such a twin; and positions may be forgotten.
pub fn tokens_spell_one_program()
    ensures one { (ds es : List Decl) (ts : List Tok) → SpellsTreeAt ds ts → SpellsTreeAt es ts → ds ≡ es }
    ensures twin { (ds : List Decl) (ts : List Tok) → SpellsTree ds ts → (es : List Decl) × SpellsTreeAt es ts }
    ensures words { (ds : List Decl) (ts : List Tok) → SpellsTreeAt ds ts → SpellsTree ds ts }
{}

/// The three answers of `parse` exclude one another.
pub fn answers_exclude_one_another()
    ensures syntax { (d : ℕ) (ts x : List Tok) (ds : List Decl) → IsProgram d ts ds → IsStopped d ts x → ⊥ }
    ensures deep { (d : ℕ) (ts x : List Tok) (ds : List Decl) → IsProgram d ts ds → IsTooDeep SpellsTree d ts x → ⊥ }
    ensures refusals { (d : ℕ) (ts x y : List Tok) → IsStopped d ts x → IsTooDeep SpellsTree d ts y → ⊥ }
{}

/// One place is refused: one token, or one bracket.
pub fn there_is_one_refusal()
    ensures syntax { (d : ℕ) (ts x y : List Tok) → IsStopped d ts x → IsStopped d ts y → x ≡ y }
    ensures deep { (d : ℕ) (ts x y : List Tok) → IsTooDeep SpellsTree d ts x → IsTooDeep SpellsTree d ts y → x ≡ y }
{}

/// A program has no more nodes than tokens.
pub fn each_node_has_a_token()
    ensures { (ds : List Decl) (ts : List Tok) → SpellsTree ds ts → nodes ds ≤ length ts }
{}
