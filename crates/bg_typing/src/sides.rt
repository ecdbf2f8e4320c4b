//! What is known of an expression, and of a node over parts of which it is known.
ghost use Rattle.std.specs.Prelude.{◌≡◌, ◌++◌, map, IsTrue, IfOk, Some};
ghost use Rattle.bg_kinds.specs.Faults.{Wants, first_of, is_none};
ghost use Rattle.bg_typing.specs.Sides.{wanting, does_fit, infix_side, infix_faults, prefix_side, prefix_type, is_arithmetic, two_faults, sign_wants, sign_gives, product_fault, infix_faults_at, infix_kind_at};
ghost use Rattle.bg_kinds.specs.FaultViews.{wanted_of, best_of};
ghost use Rattle.bg_kinds.specs.Views.{base_of, ref_of};
ghost use Rattle.bg_kinds.specs.KindViews.{kind_of, kind_of_base};
ghost use Rattle.bg_typing.specs.SideViews.{side_of};

use bg_base::Pos;
use bg_kinds::{Base, Found, TypeRef, Wanted, note, plain, want};
use bg_text::{InfixSign, PrefixSign, TreePrefix};

/// What is known of an expression: where it begins, its type where it has one, and whether it is a constant.
#[derive(Clone, Copy)]
pub struct Side<'a> {
    pub start: Pos,
    pub kind: Option<TypeRef<'a>>,
    pub is_constant: bool,
}

/// Notes where a part has a type that isn't wanted; true where it has one that is.
pub fn want_of<'a>(best: &mut Option<Found<'a>>, wanted: Wanted<'a>, a: Side<'a>) -> bool
    ensures best { best_of best.new ≡ first_of (best_of best.old) (wanting (wanted_of wanted.entry) (side_of a.entry)) }
    ensures fits { result ≡ does_fit (wanted_of wanted.entry) (side_of a.entry) }
{
    match a.kind {
        None => false,
        Some(t) => want(best, a.start, wanted, t),
    }
}

/// The type of both sides of a sign; none where they are to be of one type.
fn wanted_by(sign: InfixSign) -> Option<Base>
    ensures { kind_of_base result ≡ sign_wants sign }
{
    match sign {
        InfixSign::Iff | InfixSign::Implies | InfixSign::Explies | InfixSign::And | InfixSign::Or =>
            Some(Base::Bool),
        InfixSign::Equal | InfixSign::Unequal => None,
        InfixSign::Less
        | InfixSign::AtMost
        | InfixSign::Greater
        | InfixSign::AtLeast
        | InfixSign::Plus
        | InfixSign::Minus
        | InfixSign::Times => Some(Base::Int),
    }
}

/// The type of two sides with this sign between them.
fn given_by(sign: InfixSign) -> Base
    ensures { base_of result ≡ sign_gives sign }
{
    if is_arithmetic(sign) {
        Base::Int
    } else {
        Base::Bool
    }
}

fn is_arithmetic(sign: InfixSign) -> bool
    ensures { result ≡ is_arithmetic sign }
{
    match sign {
        InfixSign::Plus | InfixSign::Minus | InfixSign::Times => true,
        _ => false,
    }
}

/// Two sides of these types; true where they fit.
fn fit_two<'a>(
    best: &mut Option<Found<'a>>,
    wanted: Option<Base>,
    a: Pos,
    b: Pos,
    t: TypeRef<'a>,
    u: TypeRef<'a>,
) -> bool
    ensures best { best_of best.new ≡ first_of (best_of best.old) (two_faults (kind_of_base wanted) a b (ref_of t.entry) (ref_of u.entry)) }
    ensures fits { result ≡ is_none (two_faults (kind_of_base wanted) a b (ref_of t.entry) (ref_of u.entry)) }
{
    match wanted {
        None => want(best, b, Wanted::Wants(t), u),
        Some(base) => {
            let left = want(best, a, Wanted::Wants(plain(base)), t);
            let right = want(best, b, Wanted::Wants(plain(base)), u);
            left && right
        }
    }
}

/// Notes a product without a constant.
fn note_product<'a>(best: &mut Option<Found<'a>>, sign: InfixSign, p: Pos, a: bool, b: bool)
    ensures { best_of best.new ≡ first_of (best_of best.old) (product_fault sign p a b) }
{
    if let InfixSign::Times = sign
        && !a
        && !b
    {
        note(best, Found::Nonlinear(p));
    }
}

/// The type of two sides with a sign between them, where both have one.
fn infix_kind<'a>(
    best: &mut Option<Found<'a>>,
    sign: InfixSign,
    p: Pos,
    a: Side<'a>,
    b: Side<'a>,
) -> Option<TypeRef<'a>>
    ensures best { best_of best.new ≡ first_of (best_of best.old) (infix_faults sign p (side_of a.entry) (side_of b.entry)) }
    ensures kind { kind_of result ≡ (infix_side sign (side_of a.entry) (side_of b.entry)).kind }
{
    let (Some(t), Some(u)) = (a.kind, b.kind) else {
        return None;
    };
    let fits = fit_two(best, wanted_by(sign), a.start, b.start, t, u);
    note_product(best, sign, p, a.is_constant, b.is_constant);
    if fits {
        Some(plain(given_by(sign)))
    } else {
        None
    }
}

/// Two sides with a sign between them, which stands at `p`.
pub fn join<'a>(
    best: &mut Option<Found<'a>>,
    sign: InfixSign,
    p: Pos,
    a: Side<'a>,
    b: Side<'a>,
) -> Side<'a>
    ensures best { best_of best.new ≡ first_of (best_of best.old) (infix_faults sign p (side_of a.entry) (side_of b.entry)) }
    ensures side { side_of result ≡ infix_side sign (side_of a.entry) (side_of b.entry) }
{
    Side {
        start: a.start,
        kind: infix_kind(best, sign, p, a, b),
        is_constant: is_arithmetic(sign) && a.is_constant && b.is_constant,
    }
}
