//! Incarnations.
ghost use Rattle.std.specs.Prelude.{◌≡◌, slice_get};
ghost use Rattle.bg_ast.specs.Views.{ex_of, var_of};
ghost use Rattle.bg_renamed.specs.Renamed.{read_at, read_var};
ghost use Rattle.bg_renamed.specs.Views.{env_of, before_of};

use bg_ast::resolved::{Expr, Variable};
use bg_base::Pos;

/// Which incarnation each variable has: the globals now, the globals that `old` speaks of, and the frame.
#[derive(Clone, Copy)]
pub struct Env<'v> {
    pub globals: &'v [u32],
    pub before: &'v [u32],
    pub frame: &'v [u32],
}

/// What `old` sees.
pub fn before<'v>(env: &Env<'v>) -> Env<'v>
    ensures { env_of result ≡ before_of (env_of env.now) }
{
    Env {
        globals: env.before,
        before: env.before,
        frame: env.frame,
    }
}

/// The incarnation at this place.
fn read_in(pos: Pos, incarnations: &[u32], k: u32) -> Expr
    ensures { ex_of result ≡ read_at pos (slice_get incarnations.now k) }
{
    match incarnations.get(k as usize) {
        Some(j) => Expr::Read(pos, Variable::Local(*j)),
        None => Expr::Number(pos, 0),
    }
}

/// The incarnation of a variable; 0 where it has none.
pub fn read(pos: Pos, env: &Env<'_>, x: Variable) -> Expr
    ensures { ex_of result ≡ read_var pos (env_of env.now) (var_of x) }
{
    match x {
        Variable::Global(k) => read_in(pos, env.globals, k),
        Variable::Local(k) => read_in(pos, env.frame, k),
    }
}
