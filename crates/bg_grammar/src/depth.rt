//! How deep brackets may nest.
ghost use Rattle.std.specs.Prelude.{◌≡◌, ◌<◌, IfSome};
ghost use Rattle.bg_grammar.specs.Rules.{below};

/// How many brackets more may be opened within one that is opened, where `depth` may be opened; None where there are none.
pub fn below(depth: u32) -> Option<u32>
    ensures is { result ≡ below depth }
    ensures less { IfSome result (λ d. d < depth) }
{
    if depth == 0 { None } else { Some(depth - 1) }
}
