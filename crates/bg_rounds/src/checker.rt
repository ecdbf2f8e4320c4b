//! What a checker of targets is.
ghost use Rattle.std.specs.Prelude.{◌≡◌, ℕ, ◌<◌, Bool, true, false, length, IfOk};
ghost use Rattle.bg_words.specs.Sets.{has};
ghost use Rattle.bg_core.specs.Inductive.{Candidates, Subset};
ghost use Rattle.bg_rounds.specs.Answers.{IsAnswer};

use bg_base::{CandId, TargetId};
use bg_words::CandSet;
use std::alloc::{AllocError, Global};

/// A proof that a target passes, and the candidates that it used.
#[derive(Drop)]
pub struct Kept<P: Drop> {
    pub used: CandSet,
    pub proof: P,
}

/// What was found where a target doesn't pass. The flag says that its check ended unknown.
#[derive(Drop)]
pub struct Finding<V: Drop> {
    pub unknown: bool,
    pub told: V,
}

/// What a check told.
#[derive(Drop)]
pub enum Answer<P: Drop, V: Drop> {
    Passes(Kept<P>),
    Drops(Finding<V>),
}

/// Checks targets, each of which has a candidate, under sets of candidates. `P` is a proof that a target
/// passes, `V` what is told where it doesn't, and `D` a desk: what one worker needs for its checks, made
/// once and used for all of them.
pub trait Checker<P: Drop, V: Drop, D: Drop> {
    /// What the checker was made of is as it has to be.
    ghost stands: { Self → Type 0 };

    /// How many candidates are declared.
    ghost cands: { Self → ℕ };

    /// How many targets there are.
    ghost targets: { Self → ℕ };

    /// The candidate of a target.
    ghost cand: { Self → ℕ → ℕ };

    /// The target fails under the set.
    ghost fails: { Self → ℕ → Candidates → Type 0 };

    /// The proof shows that the target passes by the used candidates.
    ghost passes: { Self → ℕ → Candidates → P → Type 0 };

    /// What was told shows that the target fails under the set, or, where the flag says so, why its
    /// check ended unknown.
    ghost finds: { Self → ℕ → Candidates → Bool → V → Type 0 };

    /// How many candidates are declared. Their numbers are those below it.
    fn cand_count(&self) -> u32
        requires { stands self.now }
        ensures { result ≡ cands self.now };

    /// How many targets there are. Their numbers are those below it.
    fn target_count(&self) -> u32
        requires { stands self.now }
        ensures { result ≡ targets self.now };

    /// The candidate of the target.
    fn cand_of(&self, t: TargetId) -> CandId
        requires stands { stands self.now }
        requires target { t.0 < targets self.now }
        ensures is { result.0 ≡ cand self.now t.0 }
        ensures below { result.0 < cands self.now };

    /// A desk for one worker. Fails for want of memory alone.
    fn desk(&self, alloc: Global) -> Result<D, AllocError>;

    /// Checks the target under the set. Fails for want of memory alone.
    fn check(
        &self,
        alloc: Global,
        desk: &mut D,
        t: TargetId,
        set: &CandSet,
    ) -> Result<Answer<P, V>, AllocError>
        requires stands { stands self.now }
        requires target { t.0 < targets self.now }
        requires set { length set.now ≡ cands self.now }
        requires inside { has set.now (cand self.now t.0) ≡ true }
        ensures { IfOk result (IsAnswer (passes self.now) (finds self.now) t.0 set.now) };

    /// A target's candidate is a declared one.
    ghost below: { (s : Self) → stands s → (t : ℕ) → t < targets s → cand s t < cands s };

    /// What fails under a set fails under each subset that has the target's candidate.
    ghost shrinks: { (s : Self) → stands s → (t : ℕ) (set sub : Candidates) → Subset sub set → sub (cand s t) ≡ true → fails s t set → fails s t sub };

    /// What passes by some candidates fails under no set that has them.
    ghost passing: { (s : Self) → stands s → (t : ℕ) (used set : Candidates) (proof : P) → passes s t used proof → Subset used set → fails s t set → ⊥ };

    /// What is found, and isn't unknown, is a failure.
    ghost failing: { (s : Self) → stands s → (t : ℕ) (set : Candidates) (told : V) → finds s t set false told → fails s t set };
}
