//! The forms that say that commands fail.
ghost use Rattle.std.specs.Prelude.{◌≡◌, [], ◌∷◌, IfOk};
ghost use Rattle.bg_text.specs.Views.{option_of};
ghost use Rattle.bg_ast.specs.Views.{candidate_of};
ghost use Rattle.bg_places.specs.Views.{spot_of};
ghost use Rattle.bg_formed.specs.Formed.{said};
ghost use Rattle.bg_formed.specs.Seen.{use_of};
ghost use Rattle.bg_formed.specs.Views.{says_of, form_cmd_of, form_cmds_of};
ghost use Rattle.bg_forms.specs.Forms.{both_of, any_of, denied};
ghost use Rattle.bg_clause.specs.Tables.{atom_in};
ghost use Rattle.bg_slice.specs.Slices.{kept, kept_guard, slice_cmds};
ghost use Rattle.bg_clause.specs.Failing.{is_there, is_not_there, fail_cmds};
ghost use Rattle.bg_clause.specs.Cutting.{ahead_of, cut_cmds};
ghost use Rattle.bg_clause.specs.Lends.{lent_in};

use crate::lent::{Leaf, Lent, any_of, both_of, lend};
use bg_base::CandId;
use bg_formed::{FormCmd, Says, Use, is_spot, use_cmd};
use bg_formula::Literal;
use bg_places::Spot;
use std::alloc::{AllocError, Global};

/// What stands behind commands: the form that says that it fails, and what is reached there.
#[derive(Drop)]
pub struct Ahead<'a> {
    pub form: Lent<'a>,
    pub on: Use,
}

/// The atom of a candidate, if it has one.
fn atom_in(units: &[Option<u32>], b: CandId) -> Option<u32>
    ensures { result ≡ atom_in units.now b.0 }
{
    match units.get(b.0 as usize) {
        Some(a) => *a,
        None => None,
    }
}

/// The candidate, if any, is there.
fn is_there<'a>(units: &[Option<u32>], b: Option<CandId>) -> Lent<'a>
    ensures { lent_in result ≡ is_there units.now (option_of candidate_of b) }
{
    match b {
        None => Lent::Plain(true),
        Some(b) => match atom_in(units, b) {
            Some(a) => Lent::Leaf(Leaf::Is(Literal {
                atom: a,
                sign: true,
            })),
            None => Lent::Plain(false),
        },
    }
}

/// What a command says; where no form could be made, nothing is said.
fn said<'a>(r: &'a Says) -> Lent<'a>
    ensures { lent_in result ≡ said (says_of r.now) }
{
    match r {
        Says::Form(f) => lend(f),
        Says::Outside(_) => Lent::Plain(false),
    }
}

/// What is supposed holds, and what is behind it fails.
fn supposed<'a>(
    alloc: Global,
    units: &[Option<u32>],
    b: Option<CandId>,
    r: &'a Says,
    rest: Lent<'a>,
) -> Result<Lent<'a>, AllocError>
    ensures { IfOk result (λ x. lent_in x ≡ both_of (any_of (is_not_there units.now (option_of candidate_of b)) (said (says_of r.now))) (lent_in rest.entry)) }
{
    if b.is_none() {
        return both_of(alloc, said(r).denied().denied(), rest);
    }
    let absent = is_there(units, b).denied();
    let here = any_of(alloc, absent, said(r))?;
    both_of(alloc, here, rest)
}

/// What is claimed is there and doesn't hold, or what is behind it fails.
fn claimed<'a>(
    alloc: Global,
    units: &[Option<u32>],
    b: Option<CandId>,
    r: &'a Says,
    rest: Lent<'a>,
) -> Result<Lent<'a>, AllocError>
    ensures { IfOk result (λ x. lent_in x ≡ any_of (both_of (is_there units.now (option_of candidate_of b)) (denied (said (says_of r.now)))) (lent_in rest.entry)) }
{
    let here = both_of(alloc, is_there(units, b), said(r).denied())?;
    any_of(alloc, here, rest)
}

/// What is supposed holds, and what is behind it fails; one that doesn't count isn't passed.
fn supposed_if<'a>(
    alloc: Global,
    units: &[Option<u32>],
    counts: bool,
    b: Option<CandId>,
    r: &'a Says,
    rest: Lent<'a>,
) -> Result<Lent<'a>, AllocError>
    ensures { IfOk result (λ x. lent_in x ≡ both_of (any_of (is_not_there units.now (kept_guard counts (option_of candidate_of b))) (said (kept counts (says_of r.now)))) (lent_in rest.entry)) }
{
    if counts {
        supposed(alloc, units, b, r, rest)
    } else {
        Ok(Lent::Plain(false))
    }
}

/// The form of one command in front of what is behind it.
fn cut_form<'a>(
    alloc: Global,
    units: &[Option<u32>],
    target: Spot,
    k: &'a FormCmd,
    on: Use,
    rest: Lent<'a>,
) -> Result<Lent<'a>, AllocError>
    ensures { IfOk result (λ x. lent_in x ≡ fail_cmds units.now (spot_of target) (slice_cmds (spot_of target) (form_cmd_of k.now ∷ []) (use_of on)) (lent_in rest.entry)) }
{
    match k {
        FormCmd::Claims(s, b, r) => {
            if is_spot(*s, target) {
                claimed(alloc, units, *b, r, rest)
            } else {
                supposed_if(alloc, units, on.reached, *b, r, rest)
            }
        }
        FormCmd::Supposes(b, r) => supposed_if(alloc, units, on.reached, *b, r, rest),
    }
}

/// One command in front of what is behind it.
fn cut_cmd<'a>(
    alloc: Global,
    units: &[Option<u32>],
    target: Spot,
    k: &'a FormCmd,
    ahead: Ahead<'a>,
) -> Result<Ahead<'a>, AllocError>
    ensures { IfOk result (λ x. ahead_of x ≡ cut_cmds units.now (spot_of target) (form_cmd_of k.now ∷ []) (ahead_of ahead.entry)) }
{
    let Ahead { form, on } = ahead;
    let made = cut_form(alloc, units, target, k, on, form)?;
    let on = use_cmd(target, k, on);
    Ok(Ahead { form: made, on })
}

/// Those of the commands that count fail in front of what is behind them.
#[tactic(auto, using(crate::proofs::Onward::cut_rules))]
pub fn cut_cmds<'a>(
    alloc: Global,
    units: &[Option<u32>],
    target: Spot,
    cmds: &'a [FormCmd],
    ahead: Ahead<'a>,
) -> Result<Ahead<'a>, AllocError>
    ensures { IfOk result (λ x. ahead_of x ≡ cut_cmds units.now (spot_of target) (form_cmds_of cmds.now) (ahead_of ahead.entry)) }
{
    let mut made = ahead;
    let mut left: &'a [FormCmd] = cmds;
    while let Some((last, before)) = left.split_last() {
        made = cut_cmd(alloc, units, target, last, made)?;
        left = before;
    }
    Ok(made)
}
