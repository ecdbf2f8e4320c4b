//! Clauses of forms.
ghost use Rattle.std.specs.Prelude.{◌≡◌, ◌<◌, false, ◌∷◌, ◌++◌, map, IfOk, OnOk};
ghost use Rattle.bg_forms.specs.Forms.{Both};
ghost use Rattle.bg_clause.specs.Emitted.{after, emitted};
ghost use Rattle.bg_clause.specs.Lends.{lent_in};
ghost use Rattle.bg_clause.specs.Views.{clauses_in};
ghost use Rattle.bg_clause.specs.Waiting.{Says, Defines, says_of, waits_of, emitted_all, after_all, size_of, size_all};

use crate::clause::add;
use crate::fronts::{say_each, say_true};
use crate::lent::{Lent, Parts, literal_of};
use crate::naming::{name_for, signed_as};
use crate::pairs::{add_both, add_equal, add_same};
use crate::waiting::{Saying, Waiting, define, define_both, say, say_not_both};
use bg_forms::opposite;
use bg_formula::Literal;
use std::alloc::{AllocError, Global};
use std::collections::VecDeque;

/// One of the literals is true or one of both forms is false: one that is a literal needs no clause of its own.
#[tactic(auto, using(crate::proofs::Emits::emit_forms))]
fn emit_not_both<'a>(
    alloc: Global,
    waiting: &mut VecDeque<Waiting<'a>>,
    literals: Vec<Literal>,
    f: Lent<'a>,
    g: Lent<'a>,
    next: &mut u32,
) -> Result<(), AllocError>
    ensures clauses { OnOk result (emitted_all (map waits_of waiting.new.items) next.new ≡ emitted_all (Says false literals.items (Both (lent_in f.entry) (lent_in g.entry)) ∷ map waits_of waiting.old.items) next.old) }
    ensures more { OnOk result (after_all (map waits_of waiting.new.items) next.new ≡ after_all (Says false literals.items (Both (lent_in f.entry) (lent_in g.entry)) ∷ map waits_of waiting.old.items) next.old) }
    ensures smaller { OnOk result (size_all (map waits_of waiting.new.items) < size_all (Says false literals.items (Both (lent_in f.entry) (lent_in g.entry)) ∷ map waits_of waiting.old.items)) }
{
    match literal_of(&f) {
        Some(l) => {
            let mut more = literals;
            more.push(opposite(l))?;
            say(waiting, false, more, g)
        }
        None => {
            let k = name_for(&f, next)?;
            say_not_both(alloc, waiting, literals, k, f, g)
        }
    }
}

/// One of the literals is true or the form is worth this: it has its clauses, or parts of it wait.
#[tactic(auto, using(crate::proofs::Emits::emit_forms))]
fn emit_says<'a>(
    alloc: Global,
    out: &mut Vec<Vec<Literal>>,
    waiting: &mut VecDeque<Waiting<'a>>,
    says: Saying<'a>,
    next: &mut u32,
) -> Result<(), AllocError>
    ensures clauses { OnOk result (clauses_in out.new.items ++ emitted_all (map waits_of waiting.new.items) next.new ≡ clauses_in out.old.items ++ emitted_all (says_of says.entry ∷ map waits_of waiting.old.items) next.old) }
    ensures more { OnOk result (after_all (map waits_of waiting.new.items) next.new ≡ after_all (says_of says.entry ∷ map waits_of waiting.old.items) next.old) }
    ensures smaller { OnOk result (size_all (map waits_of waiting.new.items) < size_all (says_of says.entry ∷ map waits_of waiting.old.items)) }
{
    let Saying {
        literals,
        form,
        sign,
    } = says;
    match form.parts() {
        Parts::Plain(b) => {
            if b == sign {
                Ok(())
            } else {
                add(alloc, out, literals.as_slice())
            }
        }
        Parts::Is(l) => {
            let mut more = literals;
            more.push(signed_as(sign, l))?;
            add(alloc, out, more.as_slice())
        }
        Parts::NotSo(f) => {
            if sign {
                say(waiting, false, literals, f)
            } else {
                say_true(alloc, out, waiting, literals, f)
            }
        }
        Parts::Both(f, g) => {
            if sign {
                say_each(alloc, out, waiting, literals, f, g)
            } else {
                emit_not_both(alloc, waiting, literals, f, g, next)
            }
        }
        Parts::Same(f, g) => {
            let k = name_for(&f, next)?;
            let l = name_for(&g, next)?;
            add_equal(alloc, out, literals.as_slice(), k, signed_as(sign, l))?;
            define_both(waiting, k, f, l, g)
        }
    }
}

/// The literal is worth what the form is: it has its clauses, or parts of it wait.
#[tactic(auto, using(crate::proofs::Emits::emit_forms))]
fn emit_defines<'a>(
    alloc: Global,
    out: &mut Vec<Vec<Literal>>,
    waiting: &mut VecDeque<Waiting<'a>>,
    k: Literal,
    form: Lent<'a>,
    next: &mut u32,
) -> Result<(), AllocError>
    ensures clauses { OnOk result (clauses_in out.new.items ++ emitted_all (map waits_of waiting.new.items) next.new ≡ clauses_in out.old.items ++ emitted_all (Defines k (lent_in form.entry) ∷ map waits_of waiting.old.items) next.old) }
    ensures more { OnOk result (after_all (map waits_of waiting.new.items) next.new ≡ after_all (Defines k (lent_in form.entry) ∷ map waits_of waiting.old.items) next.old) }
    ensures smaller { OnOk result (size_all (map waits_of waiting.new.items) < size_all (Defines k (lent_in form.entry) ∷ map waits_of waiting.old.items)) }
{
    match form.parts() {
        Parts::Plain(b) => add(alloc, out, &[signed_as(b, k)]),
        Parts::Is(l) => add_equal(alloc, out, &[], k, l),
        Parts::NotSo(f) => define(waiting, opposite(k), f),
        Parts::Both(f, g) => {
            let l = name_for(&f, next)?;
            let m = name_for(&g, next)?;
            add_both(alloc, out, k, l, m)?;
            define_both(waiting, l, f, m, g)
        }
        Parts::Same(f, g) => {
            let l = name_for(&f, next)?;
            let m = name_for(&g, next)?;
            add_same(alloc, out, k, l, m)?;
            define_both(waiting, l, f, m, g)
        }
    }
}

/// One form more has its clauses, or parts of it wait.
fn emit_one<'a>(
    alloc: Global,
    out: &mut Vec<Vec<Literal>>,
    waiting: &mut VecDeque<Waiting<'a>>,
    w: Waiting<'a>,
    next: &mut u32,
) -> Result<(), AllocError>
    ensures clauses { OnOk result (clauses_in out.new.items ++ emitted_all (map waits_of waiting.new.items) next.new ≡ clauses_in out.old.items ++ emitted_all (waits_of w.entry ∷ map waits_of waiting.old.items) next.old) }
    ensures more { OnOk result (after_all (map waits_of waiting.new.items) next.new ≡ after_all (waits_of w.entry ∷ map waits_of waiting.old.items) next.old) }
    ensures smaller { OnOk result (size_all (map waits_of waiting.new.items) < size_all (waits_of w.entry ∷ map waits_of waiting.old.items)) }
{
    match w {
        Waiting::Says(says) => emit_says(alloc, out, waiting, says, next),
        Waiting::Defines(k, f) => emit_defines(alloc, out, waiting, k, f, next),
    }
}

/// Adds clauses that say that one of the literals or the form is true.
#[tactic(auto, using(crate::proofs::Emits::emit_forms))]
pub fn emit<'a>(
    alloc: Global,
    out: &mut Vec<Vec<Literal>>,
    literals: Vec<Literal>,
    f: Lent<'a>,
    next: &mut u32,
) -> Result<(), AllocError>
    ensures clauses { OnOk result (clauses_in out.new.items ≡ clauses_in out.old.items ++ emitted literals.items (lent_in f.entry) next.old) }
    ensures more { OnOk result (next.new ≡ after (lent_in f.entry) next.old) }
{
    let mut waiting = VecDeque::new(alloc);
    say_true(alloc, out, &mut waiting, literals, f)?;
    while let Some(w) = waiting.pop_front() {
        emit_one(alloc, out, &mut waiting, w, next)?;
    }
    Ok(())
}
