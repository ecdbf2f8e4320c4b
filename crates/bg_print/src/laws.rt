//! Laws of printed texts, which are proved of the definitions alone.
ghost use Rattle.std.specs.Prelude.{List};
ghost use Rattle.bg_text.specs.Declarations.{SpellsTree};
ghost use Rattle.bg_text.specs.Text.{Text};
ghost use Rattle.bg_text.specs.Tokens.{Tok};
ghost use Rattle.bg_text.specs.Trees as t;
ghost use Rattle.bg_print.specs.Printed.{printed};

/// A tree that some tokens spell is spelled by the tokens of its printed text, which holds no fault.
pub fn printed_is_read()
    ensures { (ds : List t.Decl) (ts : List Tok) → SpellsTree ds ts →
        (us : List Tok) × Text (printed ds) us × SpellsTree ds us }
{}
