//! Nodes of expressions.
ghost use Rattle.std.specs.Prelude.{◌≡◌, map};
ghost use Rattle.bg_ast.specs.Resolved as r;
ghost use Rattle.bg_ast.specs.Views.{ex_of, exs_of};

use bg_ast::resolved::Expr;
use bg_base::Pos;

/// An application.
#[tactic(auto, using(crate::proofs::Forms::forms))]
pub fn apply_node(pos: Pos, function: u32, args: Vec<Expr>) -> Expr
    ensures { ex_of result ≡ r.Apply pos function (exs_of (map ex_of args.items)) }
{
    Expr::Apply(pos, function, args)
}
