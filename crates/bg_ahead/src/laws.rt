//! Laws on the definitions, each the contract of a function that does nothing.
ghost use Rattle.std.specs.Prelude.{◌≡◌, ℕ, true, List, ◌++◌};
ghost use Rattle.bg_ast.specs.Syntax.{Ex};
ghost use Rattle.bg_passive.specs.Passive.{PassiveBlock};
ghost use Rattle.bg_linear.specs.declared.scalar.Sort.{Sort};
ghost use Rattle.bg_atoms.specs.Sorted.{blocks_sorted};
ghost use Rattle.bg_atoms.specs.declared.product.Atoms.{Atoms};
ghost use Rattle.bg_faithful.specs.Encoded.{Encodes};
ghost use Rattle.bg_flat.specs.Blocks.{in_front};
ghost use Rattle.bg_ahead.specs.Exact.{IsExact, encoding_of, blanks};
ghost use Rattle.bg_ahead.specs.Ahead.{IsAhead};

/// Blocks of forms of passive blocks, with those of commands in front of them, which may speak of more incarnations, are those of these
/// passive blocks behind the commands.
pub fn blocks_with_more_in_front_are_exact()
    ensures { (sorts more : List Sort) (candidates : ℕ) (xs : List Ex) (bs : List PassiveBlock) (front base made : Atoms) → blocks_sorted sorts candidates bs ≡ true → blocks_sorted (sorts ++ more) candidates (in_front xs bs) ≡ true → IsExact (sorts ++ more) (in_front xs (blanks bs)) front → IsExact sorts bs base → IsAhead front base made → IsExact (sorts ++ more) (in_front xs bs) made }
{}

/// They say what these say.
pub fn blocks_with_more_in_front_say_the_same()
    ensures { (sorts more : List Sort) (candidates : ℕ) (xs : List Ex) (bs : List PassiveBlock) (front base made : Atoms) → Encodes (sorts ++ more) candidates (in_front xs (blanks bs)) (encoding_of candidates front) → Encodes sorts candidates bs (encoding_of candidates base) → IsAhead front base made → Encodes (sorts ++ more) candidates (in_front xs bs) (encoding_of candidates made) }
{}
