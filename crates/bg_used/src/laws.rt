//! Laws of certificates whose leaves tell the decisions that they use, each the contract of a function that does nothing.
ghost use Rattle.std.specs.Prelude.{◌≡◌, ◌++◌, ◌∷◌, [], ℕ, Bool, true, false, List};
ghost use Rattle.bg_formula.specs.Formulas.{Formula};
ghost use Rattle.bg_cert.specs.declared.cert.Decision.{Decision};
ghost use Rattle.bg_cert.specs.Paths.{PathOf};
ghost use Rattle.bg_cert.specs.Certs.{NodeOf, Accepts, accepts, bare, root};
ghost use Rattle.bg_cert.specs.Walks.{no_instance, path_of};
ghost use Rattle.bg_used.specs.Used.{Proof, ByClause, used, proves, is_in, all_in, nodes_on, denied};

/// A proof closes each path that has what it uses, in the path's own numbers.
pub fn proofs_close_where_used()
    ensures { (f : Formula) (set : ℕ → Bool) (p : Proof) (ds : List Decision) (ps : List PathOf) (rest : List NodeOf) →
        proves f set p ≡ true → all_in (used f p) ds ≡ true →
        accepts f set no_instance (path_of f ds ∷ ps) (nodes_on f ds p ++ rest) ≡ accepts f set no_instance ps rest }
{}

/// A node's first side that doesn't use the node's decision proves the node.
pub fn unused_decisions_are_left_out()
    ensures { (f : Formula) (set : ℕ → Bool) (p : Proof) (ds : List Decision) (d : Decision) (ps : List PathOf) (rest : List NodeOf) →
        proves f set p ≡ true → all_in (used f p) (ds ++ (d ∷ [])) ≡ true → is_in d (used f p) ≡ false →
        accepts f set no_instance (path_of f ds ∷ ps) (nodes_on f ds p ++ rest) ≡ accepts f set no_instance ps rest }
{}

/// A proof that was found at the root is a certificate.
pub fn proofs_at_the_root_are_certificates()
    ensures { (f : Formula) (set : ℕ → Bool) (p : Proof) →
        proves f set p ≡ true → all_in (used f p) [] ≡ true → Accepts f set no_instance (bare (nodes_on f [] p)) }
{}

/// A side that uses the node's decision proves the side alone.
pub fn used_decisions_are_needed()
    ensures { (set : ℕ → Bool) → accepts denied set no_instance (root denied ∷ []) (nodes_on denied [] (ByClause 0)) ≡ false }
{}
