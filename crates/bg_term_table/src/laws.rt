//! Laws of chains made flat, which are proved of the definitions alone.
ghost use Rattle.std.specs.Prelude.{◌≡◌, List};
ghost use Rattle.bg_text.specs.declared.expr.InfixSign.{InfixSign};
ghost use Rattle.bg_ast.specs.Values.{Ty};
ghost use Rattle.bg_ast.specs.Syntax.{Ex, Fun};
ghost use Rattle.bg_terms.specs.Terms.{Term};
ghost use Rattle.bg_numbered.specs.Numbered.{behind, numbered};
ghost use Rattle.bg_term_table.specs.Chains.{chain_from};
ghost use Rattle.bg_term_table.specs.Linked.{turned, behind_turned, numbered_turned, behind_links, numbered_links};

/// A chain is made flat link by link, where what stands behind each `<==` back to the last `==>` is made first: so the table and what is made
/// of the chain are those of its meaning.
pub fn chains_are_numbered_link_by_link()
    ensures table { (fs : List Fun) (incs : List Ty) (signs : List InfixSign) (es : List Ex) (a : Ex) (ts : List Term) →
        behind fs incs (chain_from a signs es) ts ≡ behind_links fs incs signs es (behind fs incs a (behind_turned fs incs (turned signs es) ts)) }
    ensures made { (fs : List Fun) (incs : List Ty) (signs : List InfixSign) (es : List Ex) (a : Ex) (ts : List Term) →
        numbered fs incs (chain_from a signs es) ts
        ≡ chain_from (numbered fs incs a (behind_turned fs incs (turned signs es) ts)) signs
        (numbered_links fs incs signs es (numbered_turned fs incs (turned signs es) ts) (behind fs incs a (behind_turned fs incs (turned signs es) ts))) }
{}
