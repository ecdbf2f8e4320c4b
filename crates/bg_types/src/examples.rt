//! The definitions, tried on small programs.
ghost use Rattle.std.specs.Prelude.{◌≡◌, None, Some, [], ◌∷◌};
ghost use Rattle.bg_ast.specs.Values.{IntTy, BoolTy};
ghost use Rattle.bg_kinds.specs.Faults.{Arity, Nonlinear, MapIndex, Mismatch, Wants, first_of};
ghost use Rattle.bg_types.specs.Programs.{program_faults};
ghost use Rattle.bg_kinds.specs.Synonyms.{synonym_graph};
ghost use Rattle.bg_types.specs.Examples.{at, plain, itself, two_for_one, product, by_truth, sum_of_truth};

/// `type A = A;` names itself.
pub fn a_synonym_names_itself()
    ensures { synonym_graph itself ≡ (0 ∷ []) ∷ [] }
{}

/// `procedure P() { var a: int; a := 1, 2; }`
pub fn two_sides_for_one()
    ensures { first_of None (program_faults plain two_for_one) ≡ Some (Arity (at 31)) }
{}

/// `procedure P(x: int, y: int) { assume x * y == 0; }`
pub fn a_product_of_two_variables()
    ensures { first_of None (program_faults plain product) ≡ Some (Nonlinear (at 40)) }
{}

/// `var m: [bool]int;`
pub fn an_index_by_truth()
    ensures { first_of None (program_faults plain by_truth) ≡ Some (MapIndex (at 9)) }
{}

/// `axiom 1 + true;` has the inner fault, and the whole has no type.
pub fn an_inner_fault_alone()
    ensures { program_faults plain sum_of_truth ≡ Mismatch (at 11) (Wants IntTy) BoolTy ∷ [] }
{}
