//! Laws of what the forms of writing mean.
ghost use Rattle.std.specs.Prelude.{◌≡◌, ℕ, suc, List, [], ◌∷◌, Some, None};
ghost use Rattle.bg_base.specs.declared.pos.Pos.{Pos};
ghost use Rattle.bg_text.specs.Trees.{Id};
ghost use Rattle.bg_text.specs.declared.expr.InfixSign.TheVariants.{Implies, Explies, Minus};
ghost use Rattle.bg_text.specs.declared.expr.TreePrefix.{TreePrefix};
ghost use Rattle.bg_ast.specs.Values.{Ty, BoolTy, IntTy, IntKey, MapTy};
ghost use Rattle.bg_ast.specs.Syntax as s;
ghost use Rattle.bg_ast.specs.Resolved.{Ex, Exs, Chain, Link, NoLink, Prefix, Postfix, Select, NoBracket, Sts, Guard, Arm, NoArm, If, BoolType, IntType, DeclaredType, MapType, Index, NoIndex, OneType, NoType, TypeName};
ghost use Rattle.bg_ast.specs.Meaning.{ex_of, exs_of, prefix_of, written, st_of, sts_of, guard_of, type_in, named_of};

/// `a ==> b ==> c` is `a ==> (b ==> c)`.
pub fn implies_groups_to_the_right()
    ensures { (a b c : Ex) (p q : Pos) →
        ex_of (Chain a (Link p Implies b (Link q Implies c NoLink))) ≡ s.Binary s.Implies (ex_of a) (s.Binary s.Implies (ex_of b) (ex_of c)) }
{}

/// `a - b - c` is `(a - b) - c`.
pub fn minus_groups_to_the_left()
    ensures { (a b c : Ex) (p q : Pos) →
        ex_of (Chain a (Link p Minus b (Link q Minus c NoLink))) ≡ s.Binary s.Minus (s.Binary s.Minus (ex_of a) (ex_of b)) (ex_of c) }
{}

/// `a <== b` is `b ==> a`.
pub fn explies_is_implies_turned_round()
    ensures { (a b : Ex) (p : Pos) → ex_of (Chain a (Link p Explies b NoLink)) ≡ s.Binary s.Implies (ex_of b) (ex_of a) }
{}

/// Of several prefix signs the first is the outermost.
pub fn the_first_sign_is_the_outermost()
    ensures { (x y : TreePrefix) (e : Ex) → ex_of (Prefix (x ∷ y ∷ []) e) ≡ prefix_of x.sign (prefix_of y.sign (ex_of e)) }
{}

/// Of several brackets behind an expression the first is read first.
pub fn the_first_bracket_is_the_innermost()
    ensures { (m : Ex) (is js : Exs) (p q : Pos) →
        ex_of (Postfix m (Select p is (Select q js NoBracket))) ≡ s.Select (s.Select (ex_of m) (exs_of is)) (exs_of js) }
{}

/// `m[i][j] := e` writes `m[i := m[i][j := e]]` to `m`.
pub fn an_element_is_written_through_its_row()
    ensures { (m e : s.Ex) (is js : Exs) (p q : Pos) →
        written m ((p, is) ∷ (q, js) ∷ []) e ≡ s.Update m (exs_of is) (s.Update (s.Select m (exs_of is)) (exs_of js) e) }
{}

/// `if (g) { a } else if (h) { b } else { c }` is an `if` with an `if` behind its `else`, and each has a number of its own.
pub fn a_chain_of_arms_is_nested()
    ensures { (n : ℕ) (g h : Guard) (a b c : Sts) →
        st_of (If n (Arm g a (Arm h b NoArm)) c) ≡ s.If n (guard_of g) (sts_of a) (s.If (suc n) (guard_of h) (sts_of b) (sts_of c)) }
{}

/// `[int][int]bool` is a map of maps.
pub fn the_first_bracket_of_a_type_is_the_outermost()
    ensures { (named : ℕ → Ty) (p q r t : Pos) →
        type_in named (MapType (Index p (OneType (IntType q) NoType) (Index p (OneType (IntType r) NoType) NoIndex)) (BoolType t))
        ≡ MapTy (IntKey ∷ []) (MapTy (IntKey ∷ []) BoolTy) }
{}

/// Where the first type is a synonym of the second, and that of `int`, it stands for `int`.
pub fn a_synonym_stands_for_what_its_right_side_stands_for()
    ensures { (a b : Id) (p q : Pos) →
        named_of (record { name = a; synonym = Some (DeclaredType p 1) } ∷ record { name = b; synonym = Some (IntType q) } ∷ []) 0 ≡ IntTy }
{}
