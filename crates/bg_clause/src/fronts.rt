//! Literals in front of forms, whose clauses wait for nothing.
ghost use Rattle.std.specs.Prelude.{◌≡◌, ◌≤◌, ℕ, true, [], ◌∷◌, ◌++◌, map, IfOk, OnOk};
ghost use Rattle.bg_forms.specs.Forms.{Plain};
ghost use Rattle.bg_forms.specs.Views.{form_in};
ghost use Rattle.bg_clause.specs.Emitted.{clause_of};
ghost use Rattle.bg_clause.specs.Lends.{leaf_in, lent_in};
ghost use Rattle.bg_clause.specs.Views.{clauses_in};
ghost use Rattle.bg_clause.specs.Waiting.{Says, IsLeft, waits_of, emitted_all, after_all, size_all};

use crate::clause::add;
use crate::lent::{Front, Leaf, Lent, form_literal, leaf_of, lend};
use crate::waiting::{Waiting, say, say_both};
use bg_forms::Form;
use bg_formula::Literal;
use std::alloc::{AllocError, Global};
use std::collections::VecDeque;

/// One of the literals or this one is true.
fn add_beside(
    alloc: Global,
    out: &mut Vec<Vec<Literal>>,
    literals: &mut Vec<Literal>,
    l: Literal,
) -> Result<(), AllocError>
    ensures clauses { OnOk result (clauses_in out.new.items ≡ clauses_in out.old.items ++ clause_of (literals.old.items ++ l ∷ [])) }
    ensures same { OnOk result (literals.new.items ≡ literals.old.items) }
{
    literals.push(l)?;
    add(alloc, out, literals.as_slice())?;
    literals.pop();
    Ok(())
}

/// One of the literals is true or a form of a block is: the literals in front of it have their clauses, and this is what is left of it.
/// Where nothing is, it is plain.
fn form_front<'a>(
    alloc: Global,
    out: &mut Vec<Vec<Literal>>,
    literals: &mut Vec<Literal>,
    f: &'a Form,
) -> Result<Lent<'a>, AllocError>
    ensures left { IfOk result (λ x. IsLeft literals.old.items (form_in f.now) (lent_in x) (clauses_in out.old.items) (clauses_in out.new.items)) }
    ensures same { OnOk result (literals.new.items ≡ literals.old.items) }
{
    let mut left: &'a Form = f;
    loop {
        match left {
            Form::Plain(_) => return Ok(lend(left)),
            Form::Is(l) => {
                add_beside(alloc, out, literals, *l)?;
                return Ok(Lent::Plain(true));
            }
            Form::NotSo(_) => return Ok(lend(left)),
            Form::Both(g, h) => {
                let Some(l) = form_literal(g) else {
                    return Ok(lend(left));
                };
                add_beside(alloc, out, literals, l)?;
                left = &**h;
            }
            Form::Same(_, _) => return Ok(lend(left)),
        }
    }
}

/// The same of a leaf.
fn leaf_front<'a>(
    alloc: Global,
    out: &mut Vec<Vec<Literal>>,
    literals: &mut Vec<Literal>,
    x: Leaf<'a>,
) -> Result<Lent<'a>, AllocError>
    ensures left { IfOk result (λ y. IsLeft literals.old.items (leaf_in x.entry) (lent_in y) (clauses_in out.old.items) (clauses_in out.new.items)) }
    ensures same { OnOk result (literals.new.items ≡ literals.old.items) }
{
    match x {
        Leaf::Is(l) => {
            add_beside(alloc, out, literals, l)?;
            Ok(Lent::Plain(true))
        }
        Leaf::Of(true, f) => form_front(alloc, out, literals, f),
        Leaf::Of(false, f) => Ok(Lent::Leaf(Leaf::Of(false, f))),
    }
}

/// Whether nothing is left to say.
fn is_said(f: &Lent<'_>) -> bool
    ensures { result ≡ true → lent_in f.now ≡ Plain true }
{
    match f {
        Lent::Plain(b) => *b,
        Lent::Leaf(_) => false,
        Lent::Behind(_, _, _) => false,
        Lent::Both(_, _, _) => false,
    }
}

/// One of the literals is true or the form is: the literals in front of it have their clauses, and what is behind them waits.
pub fn say_true<'a>(
    alloc: Global,
    out: &mut Vec<Vec<Literal>>,
    waiting: &mut VecDeque<Waiting<'a>>,
    literals: Vec<Literal>,
    f: Lent<'a>,
) -> Result<(), AllocError>
    ensures clauses { OnOk result ((n : ℕ) → clauses_in out.new.items ++ emitted_all (map waits_of waiting.new.items) n ≡ clauses_in out.old.items ++ emitted_all (Says true literals.items (lent_in f.entry) ∷ map waits_of waiting.old.items) n) }
    ensures more { OnOk result ((n : ℕ) → after_all (map waits_of waiting.new.items) n ≡ after_all (Says true literals.items (lent_in f.entry) ∷ map waits_of waiting.old.items) n) }
    ensures smaller { OnOk result (size_all (map waits_of waiting.new.items) ≤ size_all (Says true literals.items (lent_in f.entry) ∷ map waits_of waiting.old.items)) }
{
    let mut literals = literals;
    let mut left = f;
    loop {
        match left.front() {
            Front::Alone(x) => {
                let rest = leaf_front(alloc, out, &mut literals, x)?;
                if is_said(&rest) {
                    return Ok(());
                }
                return say(waiting, true, literals, rest);
            }
            Front::Before(x, g) => {
                let rest = leaf_front(alloc, out, &mut literals, x)?;
                if !is_said(&rest) {
                    return say_both(alloc, waiting, literals, rest, g);
                }
                left = g;
            }
            Front::Other(f) => return say(waiting, true, literals, f),
        }
    }
}

/// One of the literals is true or both forms are: the literals in front have their clauses, and what is behind them waits.
pub fn say_each<'a>(
    alloc: Global,
    out: &mut Vec<Vec<Literal>>,
    waiting: &mut VecDeque<Waiting<'a>>,
    literals: Vec<Literal>,
    f: Lent<'a>,
    g: Lent<'a>,
) -> Result<(), AllocError>
    ensures clauses { OnOk result ((n : ℕ) → clauses_in out.new.items ++ emitted_all (map waits_of waiting.new.items) n ≡ clauses_in out.old.items ++ emitted_all (Says true literals.items (lent_in f.entry) ∷ Says true literals.items (lent_in g.entry) ∷ map waits_of waiting.old.items) n) }
    ensures more { OnOk result ((n : ℕ) → after_all (map waits_of waiting.new.items) n ≡ after_all (Says true literals.items (lent_in f.entry) ∷ Says true literals.items (lent_in g.entry) ∷ map waits_of waiting.old.items) n) }
    ensures smaller { OnOk result (size_all (map waits_of waiting.new.items) ≤ size_all (Says true literals.items (lent_in f.entry) ∷ Says true literals.items (lent_in g.entry) ∷ map waits_of waiting.old.items)) }
{
    let Some(x) = leaf_of(&f) else {
        return say_both(alloc, waiting, literals, f, g);
    };
    let mut all = literals;
    let rest = leaf_front(alloc, out, &mut all, x)?;
    if is_said(&rest) {
        say_true(alloc, out, waiting, all, g)
    } else {
        say_both(alloc, waiting, all, rest, g)
    }
}
