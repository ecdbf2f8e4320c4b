//! Laws of the text, which are proved of the definitions alone.
ghost use Rattle.std.specs.Prelude.{◌≡◌, ◌++◌, [], ℕ, List, Result};
ghost use Rattle.bg_certtext.specs.declared.error.ReadError.{ReadError};
ghost use Rattle.bg_certtext.specs.declared.text.CertText.{CertText};
ghost use Rattle.bg_certtext.specs.Views.{CertOf};
ghost use Rattle.bg_certtext.specs.Spellable.{IsSpellable};
ghost use Rattle.bg_certtext.specs.Texts.{text_of};
ghost use Rattle.bg_certtext.specs.Reading.{Reads, GivesBack};

/// Whatever reads the text of a certificate gives back that certificate, or has no memory.
pub fn written_certificates_are_read()
    ensures { (c : CertOf) (r : Result CertText ReadError) → IsSpellable c → Reads (text_of c) r → GivesBack c r }
{}

/// No text is in front of another; so no two certificates have the same text.
pub fn no_text_is_in_front_of_another()
    ensures { (c d : CertOf) (more : List ℕ) → IsSpellable c → IsSpellable d → text_of c ++ more ≡ text_of d → (c ≡ d) × (more ≡ []) }
{}
