// Laws of values: equality, and maps.

ghost use Rattle.std.specs.Prelude.{◌≡◌, ◌↔◌, ◌⊎◌, ℤ, true, List, ◌∷◌, length, IsTrue};
ghost use Rattle.bg_ast.specs.Values.{Val, Ty, MapTy, KeyType, val_eq, select, update, is_of};
ghost use Rattle.bg_sense.specs.Claims.{are_of, val_lt, vals_lt};

/// The test of equality says whether two values are the same.
pub fn equality_is_sameness()
    ensures { (v w : Val) → val_eq v w ≡ true ↔ v ≡ w }
{}

/// Maps of one type are equal exactly where they agree at each index.
pub fn maps_are_equal_where_they_agree()
    ensures { (k : KeyType) (ks : List KeyType) (t : Ty) (m n : Val) →
        IsTrue (is_of (MapTy (k ∷ ks) t) m) → IsTrue (is_of (MapTy (k ∷ ks) t) n) →
        (val_eq m n ≡ true ↔ ((q : List ℤ) → length q ≡ length (k ∷ ks) → select m q ≡ select n q)) }
{}

/// An update of a map gives the new value at its index, and elsewhere what the map gave.
pub fn an_update_is_seen_at_its_index_alone()
    ensures here { (ks : List KeyType) (t : Ty) (m v : Val) (q : List ℤ) →
        IsTrue (is_of (MapTy ks t) m) → select (update m q v) q ≡ v }
    ensures elsewhere { (ks : List KeyType) (t : Ty) (m v : Val) (q r : List ℤ) →
        IsTrue (is_of (MapTy ks t) m) → (q ≡ r → ⊥) → select (update m q v) r ≡ select m r }
{}

/// The values of one type are ordered, and so are the keys of one function's table.
pub fn values_of_one_type_are_ordered()
    ensures values { (t : Ty) (v w : Val) → IsTrue (is_of t v) → IsTrue (is_of t w) →
        (val_lt v w ≡ true) ⊎ ((v ≡ w) ⊎ (val_lt w v ≡ true)) }
    ensures strict { (v : Val) → val_lt v v ≡ true → ⊥ }
    ensures transitive { (u v w : Val) → val_lt u v ≡ true → val_lt v w ≡ true → val_lt u w ≡ true }
    ensures keys { (ts : List Ty) (vs ws : List Val) → IsTrue (are_of ts vs) → IsTrue (are_of ts ws) →
        (vals_lt vs ws ≡ true) ⊎ ((vs ≡ ws) ⊎ (vals_lt ws vs ≡ true)) }
    ensures strict_keys { (vs : List Val) → vals_lt vs vs ≡ true → ⊥ }
    ensures transitive_keys { (us vs ws : List Val) → vals_lt us vs ≡ true → vals_lt vs ws ≡ true → vals_lt us ws ≡ true }
{}
