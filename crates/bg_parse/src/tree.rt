//! A program as it is written.
ghost use Rattle.std.specs.Prelude.{◌<◌, ◌^◌};
ghost use Rattle.bg_text.specs.Views.{decls_of};
ghost use Rattle.bg_parse.specs.Nodes.{IsSpelled, nodes};

use bg_text::Decl;

/// A program as it is written: its declarations one after the other. Some tokens spell it, and it has fewer than 2^32
/// nodes.
#[derive(Drop)]
pub struct Tree {
    pub decls: Vec<Decl>,
    ghost spelled: { ∥ IsSpelled (decls_of decls.items) ∥₁ },
    ghost few: { nodes (decls_of decls.items) < 2 ^ 32 },
}
