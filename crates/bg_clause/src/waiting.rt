//! Forms that wait for their clauses.
ghost use Rattle.std.specs.Prelude.{◌≡◌, true, false, [], ◌∷◌, ◌++◌, map, OnOk};
ghost use Rattle.bg_forms.specs.Forms.{opposite};
ghost use Rattle.bg_clause.specs.Lends.{lent_in};
ghost use Rattle.bg_clause.specs.Waiting.{Says, Defines, waits_of};

use crate::lent::Lent;
use crate::naming::alone;
use bg_forms::opposite;
use bg_formula::Literal;
use std::alloc::{AllocError, Global};
use std::collections::VecDeque;

/// One of the literals is to be true or the form to be worth this.
#[derive(Drop)]
pub struct Saying<'a> {
    pub literals: Vec<Literal>,
    pub form: Lent<'a>,
    pub sign: bool,
}

/// A form that waits for its clauses: it is to be worth something, or the literal is to be worth what the form is.
#[derive(Drop)]
pub enum Waiting<'a> {
    Says(Saying<'a>),
    Defines(Literal, Lent<'a>),
}

/// A form waits in front of others, to be worth this where none of the literals is true.
pub fn say<'a>(
    waiting: &mut VecDeque<Waiting<'a>>,
    sign: bool,
    literals: Vec<Literal>,
    form: Lent<'a>,
) -> Result<(), AllocError>
    ensures { OnOk result (map waits_of waiting.new.items ≡ Says sign literals.items (lent_in form.entry) ∷ map waits_of waiting.old.items) }
{
    waiting.push_front(Waiting::Says(Saying {
        literals,
        form,
        sign,
    }))?;
    Ok(())
}

/// A form waits in front of others, for the literal to be worth the same.
pub fn define<'a>(
    waiting: &mut VecDeque<Waiting<'a>>,
    k: Literal,
    form: Lent<'a>,
) -> Result<(), AllocError>
    ensures { OnOk result (map waits_of waiting.new.items ≡ Defines k (lent_in form.entry) ∷ map waits_of waiting.old.items) }
{
    waiting.push_front(Waiting::Defines(k, form))?;
    Ok(())
}

/// Two forms wait, of which both are to be true beside the literals.
pub fn say_both<'a>(
    alloc: Global,
    waiting: &mut VecDeque<Waiting<'a>>,
    literals: Vec<Literal>,
    f: Lent<'a>,
    g: Lent<'a>,
) -> Result<(), AllocError>
    ensures { OnOk result (map waits_of waiting.new.items ≡ Says true literals.items (lent_in f.entry) ∷ Says true literals.items (lent_in g.entry) ∷ map waits_of waiting.old.items) }
{
    let again = literals.as_slice().to_vec(alloc)?;
    say(waiting, true, again, g)?;
    say(waiting, true, literals, f)
}

/// Two forms wait, of which one is to be false beside the literals, where this literal stands for the first.
pub fn say_not_both<'a>(
    alloc: Global,
    waiting: &mut VecDeque<Waiting<'a>>,
    literals: Vec<Literal>,
    k: Literal,
    f: Lent<'a>,
    g: Lent<'a>,
) -> Result<(), AllocError>
    ensures { OnOk result (map waits_of waiting.new.items ≡ Says false (k ∷ []) (lent_in f.entry) ∷ Says false (literals.items ++ opposite k ∷ []) (lent_in g.entry) ∷ map waits_of waiting.old.items) }
{
    let mut more = literals;
    more.push(opposite(k))?;
    say(waiting, false, more, g)?;
    let first = alone(alloc, k)?;
    say(waiting, false, first, f)
}

/// Two forms wait, for which these literals stand.
pub fn define_both<'a>(
    waiting: &mut VecDeque<Waiting<'a>>,
    k: Literal,
    f: Lent<'a>,
    l: Literal,
    g: Lent<'a>,
) -> Result<(), AllocError>
    ensures { OnOk result (map waits_of waiting.new.items ≡ Defines k (lent_in f.entry) ∷ Defines l (lent_in g.entry) ∷ map waits_of waiting.old.items) }
{
    define(waiting, l, g)?;
    define(waiting, k, f)
}
