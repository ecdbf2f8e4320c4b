//! Whether first tries at places are worth while.

/// How many more first tries at places may be made that tell nothing.
#[derive(Clone, Copy)]
pub struct Tries {
    pub left: u8,
}

/// So many at the most: where tries tell something there are more, as long as there aren't too many.
const MOST_TRIES: u8 = 4;

/// At first.
pub fn some_tries() -> Tries {
    Tries { left: 2 }
}

/// None.
pub fn no_tries() -> Tries {
    Tries { left: 0 }
}

/// After a try: one less where it told nothing.
pub fn after(tries: Tries, told: bool) -> Tries {
    if told {
        Tries {
            left: tries.left.saturating_add(1).min(MOST_TRIES),
        }
    } else {
        Tries {
            left: tries.left.saturating_sub(1),
        }
    }
}
