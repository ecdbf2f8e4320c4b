//! What holds of a program holds of the program with its guesses.
ghost use Rattle.std.specs.Prelude.{◌≡◌, true, length, map, Some};
ghost use Rattle.bg_ast.specs.Resolved.{Program};
ghost use Rattle.bg_ast.specs.Meaning.{meaning_of};
ghost use Rattle.bg_sense.specs.Typed.{IsTyped};
ghost use Rattle.bg_sense.specs.Resolved.{IsResolved};
ghost use Rattle.bg_fits.specs.Valued.{is_over_values};
ghost use Rattle.bg_sense.specs.Variables.{count_from};
ghost use Rattle.bg_guess.specs.Guessed.{guess_count, guessed};
ghost use Rattle.bg_guess.specs.Erased.{erased};
ghost use Rattle.bg_guess.specs.Order.{in_order};

/// A typed program with its guesses is typed.
pub fn guesses_are_typed()
    ensures { (p : Program) → IsTyped (meaning_of p) → IsResolved (meaning_of p) → IsTyped (meaning_of (guessed p)) }
{}

/// A resolved program with its guesses is resolved: each guess has a candidate of the program, and its clause a number of its own.
pub fn guesses_are_resolved()
    ensures { (p : Program) → IsResolved (meaning_of p) → IsResolved (meaning_of (guessed p)) }
{}

/// A resolved program over values stays one with its guesses.
pub fn guesses_are_over_values()
    ensures { (p : Program) → IsResolved (meaning_of p) → is_over_values (meaning_of p) ≡ true → is_over_values (meaning_of (guessed p)) ≡ true }
{}

/// Without the candidates that it has behind its own, and their clauses, a resolved program with its guesses is what it was.
pub fn erased_guesses_leave_the_program()
    ensures { (p : Program) → IsResolved (meaning_of p) → erased (length p.candidates) (guessed p) ≡ p }
{}

/// By procedure, first the preconditions, then the postconditions, then the loops of the implementations, the guesses of a resolved program
/// are guarded by the candidates behind its own, one after the other.
pub fn guesses_are_in_order()
    ensures { (p : Program) → IsResolved (meaning_of p) → in_order (length p.candidates) (guessed p) ≡ map Some (count_from (length p.candidates) (guess_count p)) }
{}
