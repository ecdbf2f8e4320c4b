//! What names mean in an expression.
ghost use Rattle.std.specs.Prelude.{◌≡◌, IfOk, IfErr};
ghost use Rattle.bg_names.specs.Spaces.{meaning, seen, value_at, place};
ghost use Rattle.bg_names.specs.Views.{scope_of, listed};
ghost use Rattle.bg_names.specs.declared.error.ResolveError.TheVariants.{Memory};

use crate::error::ResolveError;
use crate::names::{Names, number, place};

/// What a name means.
#[derive(Clone, Copy)]
pub enum Meaning {
    Nothing,
    Constant(u32),
    Candidate(u32),
    Global(u32),
    Local(u32),
}

/// What names mean in an expression: the frame hides constants, candidates and globals.
#[derive(Clone, Copy)]
pub struct Scope<'s, 'a> {
    pub values: &'s Names<'a>,
    pub meanings: &'s [Meaning],
    pub functions: &'s Names<'a>,
    pub frame: &'s Names<'a>,
    pub sees_globals: bool,
    pub has_old: bool,
}

/// What a constant, candidate or global means.
fn value(scope: &Scope, name: &[u8]) -> Meaning
    ensures { result ≡ seen scope.now.sees_globals (value_at scope.now.meanings.now (place (listed scope.now.values.now) name.now)) }
{
    let Some(at) = place(scope.values, name) else {
        return Meaning::Nothing;
    };
    let Some(meaning) = scope.meanings.get(at) else {
        return Meaning::Nothing;
    };
    match meaning {
        Meaning::Global(_) => if scope.sees_globals {
            *meaning
        } else {
            Meaning::Nothing
        },
        _ => *meaning,
    }
}

#[tactic(auto, unfolding(crate::specs::Spaces::meaning))]
/// What a name means. Errors: Memory, where its number has more than 32 bits.
pub fn look_up(scope: &Scope, name: &[u8]) -> Result<Meaning, ResolveError>
    ensures ok { IfOk result (λ m. m ≡ meaning (scope_of scope.now) name.now) }
    ensures err { IfErr result (λ e. e ≡ Memory) }
{
    match place(scope.frame, name) {
        Some(at) => Ok(Meaning::Local(number(at)?)),
        None => Ok(value(scope, name)),
    }
}
