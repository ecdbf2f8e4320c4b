//! How often a path decides an atom.
ghost use Rattle.std.specs.Prelude.{◌≡◌, ◌<◌, ◌-◌, ◌^◌, nat_lt};
ghost use Rattle.bg_cert.specs.Counts.{tally_of, one_more, one_less};

/// How often a path decides an atom true, and how often false.
#[derive(Clone, Copy)]
pub struct Tally {
    pub yes: usize,
    pub no: usize,
}

pub fn one_more(t: Tally, s: bool) -> Tally
    requires { tally_of t s < 2 ^ 64 - 1 }
    ensures { result ≡ one_more t s }
{
    if s {
        Tally {
            yes: t.yes + 1,
            no: t.no,
        }
    } else {
        Tally {
            yes: t.yes,
            no: t.no + 1,
        }
    }
}

pub fn one_less(t: Tally, s: bool) -> Tally
    requires { 0 < tally_of t s }
    ensures { result ≡ one_less t s }
{
    if s {
        Tally {
            yes: t.yes - 1,
            no: t.no,
        }
    } else {
        Tally {
            yes: t.yes,
            no: t.no - 1,
        }
    }
}

pub fn is_counted(t: Tally, s: bool) -> bool
    ensures { result ≡ nat_lt 0 (tally_of t s) }
{
    if s { t.yes > 0 } else { t.no > 0 }
}
