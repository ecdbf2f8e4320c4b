//! What an accepted certificate means, each the contract of a function that does nothing.
ghost use Rattle.std.specs.Prelude.{◌≡◌, ◌<◌, ◌++◌, ◌∷◌, ℕ, Bool, true, false, List, [], length, map, Option, Some};
ghost use Rattle.bg_formula.specs.declared.atom.Literal.{Literal};
ghost use Rattle.bg_formula.specs.declared.atom.Linear.{Linear};
ghost use Rattle.bg_formula.specs.declared.clauses.Clauses.{Clauses};
ghost use Rattle.bg_formula.specs.Atoms.{AtomOf, IsTruth, at, view_linear};
ghost use Rattle.bg_formula.specs.Formulas.{Formula, formula_of};
ghost use Rattle.bg_formula.specs.Meaning.{AtomsAgree};
ghost use Rattle.bg_formula.specs.Instances.{Instance, SignedAtom, atoms_of, atoms_differ, with_clauses};
ghost use Rattle.bg_cert.specs.declared.cert.Decision.{Decision};
ghost use Rattle.bg_cert.specs.declared.cert.Decision.TheVariants.{Atom};
ghost use Rattle.bg_cert.specs.Paths.{clause_false};
ghost use Rattle.bg_cert.specs.Certs.{NodeOf, CertOf, Accepts, HasNoValuation, uses};
ghost use Rattle.bg_cert.specs.Walks.{no_instance};
ghost use Rattle.bg_cert.specs.Causes.{is_among, is_unit};

/// Where a certificate is accepted, no valuation meets the clauses, the units of the set and all
/// instances. For a formula and a table of the code, and no instances, there is no premise else.
pub fn accepted_has_no_valuation()
    ensures code { (f : Clauses) (set : ℕ → Bool) (table : List Linear) (nodes : List NodeOf) →
        Accepts (formula_of f) set no_instance (record { table = map view_linear table; nodes = nodes }) → HasNoValuation (formula_of f) set no_instance }
    ensures any { (f : Formula) (set : ℕ → Bool) (adds : Instance → Option (List (List SignedAtom))) (cert : CertOf) →
        AtomsAgree f.atoms → AtomsAgree cert.table → ((i : Instance) (cs : List (List SignedAtom)) → adds i ≡ Some cs → AtomsAgree (atoms_of cs)) → Accepts f set adds cert → HasNoValuation f set adds }
{}

/// An accepted certificate uses members of the set alone, all of them candidates that are there,
/// and is accepted under each set that has what it uses.
pub fn accepted_where_used()
    ensures inside { (f : Formula) (set : ℕ → Bool) (adds : Instance → Option (List (List SignedAtom))) (cert : CertOf) →
        Accepts f set adds cert → (c : ℕ) → uses cert.nodes c ≡ true → set c ≡ true }
    ensures there { (f : Formula) (set : ℕ → Bool) (adds : Instance → Option (List (List SignedAtom))) (cert : CertOf) →
        Accepts f set adds cert → (c : ℕ) → uses cert.nodes c ≡ true → c < length f.candidates }
    ensures above { (f : Formula) (set other : ℕ → Bool) (adds : Instance → Option (List (List SignedAtom))) (cert : CertOf) →
        Accepts f set adds cert → ((c : ℕ) → uses cert.nodes c ≡ true → other c ≡ true) → Accepts f other adds cert }
{}

/// A decision makes only clauses false, or units, in which its atom stands.
pub fn untouched_clauses_stay()
    ensures is_false { (a : ℕ) (s : Bool) (ds : List Decision) (c : List Literal) → is_among a c ≡ false →
        clause_false (ds ++ (Atom a s ∷ [])) c ≡ clause_false ds c }
    ensures unit { (a : ℕ) (s : Bool) (ds : List Decision) (c : List Literal) → is_among a c ≡ false →
        is_unit (ds ++ (Atom a s ∷ [])) c ≡ is_unit ds c }
{}

/// What an instance adds keeps the numbers of the atoms that are there and keeps atoms different,
/// and where atoms differ a truth variable has one number.
pub fn atoms_keep_numbers()
    ensures stays { (xs : List AtomOf) (cs : List (List SignedAtom)) (n : ℕ) (a : AtomOf) →
        at xs n ≡ Some a → at (with_clauses xs cs) n ≡ Some a }
    ensures differ { (xs : List AtomOf) (cs : List (List SignedAtom)) →
        atoms_differ xs ≡ true → atoms_differ (with_clauses xs cs) ≡ true }
    ensures once { (xs : List AtomOf) (x m n : ℕ) →
        atoms_differ xs ≡ true → at xs m ≡ Some (IsTruth x) → at xs n ≡ Some (IsTruth x) → m ≡ n }
{}
