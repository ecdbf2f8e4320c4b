//! Numbers drawn in turn, by a linear congruential generator with the constants of the C standard's example of `rand`.
ghost use Rattle.std.specs.Prelude.{◌≡◌, ◌<◌, ◌*◌, ◌+◌, ◌/◌, ◌%◌};
ghost use Rattle.bg_gen.specs.Generated.{next};

/// One past the greatest state.
const STATES: u64 = 2_147_483_648;

/// The state of a seed, before the first draw.
pub fn start(seed: u64) -> u64
    ensures is { result ≡ seed % 2147483648 }
    ensures below { result < 2147483648 }
{
    seed % STATES
}

/// The state after a draw; the number that is drawn is this state divided by 65,536.
pub fn next(state: u64) -> u64
    requires { state < 2147483648 }
    ensures is { result ≡ next state }
    ensures below { result < 2147483648 }
{
    (state * 1_103_515_245 + 12_345) % STATES
}
