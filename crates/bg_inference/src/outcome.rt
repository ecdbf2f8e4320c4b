//! What an inference comes to.
use bg_ast::resolved::Resolved;
use bg_check::Verdict;

/// The opened program, which is judged in the place of the program; how many of its globals are globals of the program, those behind
/// them being constants; for each of its functions whether it has a body in the program; what is known of the one place of the axioms'
/// own program, which is refuted by an interpretation that meets the program and proved where none does; and what the inference of the
/// opened program comes to.
#[derive(Drop)]
pub struct Outcome {
    pub opened: Resolved,
    pub globals: usize,
    pub bodies: Vec<bool>,
    pub axioms: Verdict,
    pub judged: bg_houdini::Outcome,
}
