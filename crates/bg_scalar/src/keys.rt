//! Keys of maps: numbers, one for each index type.
ghost use Rattle.std.specs.Prelude.{◌≡◌};
ghost use Rattle.bg_ast.specs.Values.{keys_eq, keys_lt};

/// Whether two keys are the same.
#[tactic(auto, using(crate::proofs::KeyParts::keys_differ))]
pub fn are_same_keys(a: &[i128], b: &[i128]) -> bool
    ensures { result ≡ keys_eq a.now b.now }
{
    if a.len() != b.len() {
        return false;
    }
    for i in 0..a.len() {
        if a[i] != b[i] {
            return false;
        }
    }
    true
}

/// Whether the first key stands before the second one: part by part, then by the length.
pub fn is_before(a: &[i128], b: &[i128]) -> bool
    ensures { result ≡ keys_lt a.now b.now }
{
    let mut i = 0;
    while i < a.len() && i < b.len() {
        let x = a[i];
        let y = b[i];
        if x < y {
            return true;
        }
        if x != y {
            return false;
        }
        i += 1;
    }
    i < b.len()
}
