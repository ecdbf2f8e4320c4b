//! Forms whose parts are lent by those of blocks.
ghost use Rattle.std.specs.Prelude.{◌≡◌, IfOk, IfSome, false, true};
ghost use Rattle.bg_forms.specs.Forms.{plain_of, is_literal, denied, both_beside, both_behind, both_of, any_of, Both};
ghost use Rattle.bg_forms.specs.Views.{form_in};
ghost use Rattle.bg_clause.specs.Lends.{literal_in_form, leaf_in, lent_in, front_in, parts_in};

use bg_forms::{Form, opposite};
use bg_formula::Literal;
use std::alloc::{AllocError, Global};

/// A literal; or a form of a block, or where the sign is false its denial.
#[derive(Clone, Copy)]
pub enum Leaf<'a> {
    Is(Literal),
    Of(bool, &'a Form),
}

/// A form: a conjunction has a sign, which is false where it is denied.
pub enum Lent<'a> {
    Plain(bool),
    Leaf(Leaf<'a>),
    Behind(bool, Leaf<'a>, Box<Lent<'a>>),
    Both(bool, Box<Lent<'a>>, Box<Lent<'a>>),
}

/// A form taken apart.
#[derive(Drop)]
pub enum Parts<'a> {
    Plain(bool),
    Is(Literal),
    NotSo(Lent<'a>),
    Both(Lent<'a>, Lent<'a>),
    Same(Lent<'a>, Lent<'a>),
}

/// A form by what stands in front of it.
#[derive(Drop)]
pub enum Front<'a> {
    Alone(Leaf<'a>),
    Before(Leaf<'a>, Lent<'a>),
    Other(Lent<'a>),
}

/// What stands behind others is let go in a loop, since commands make long rows of it.
impl<'a> Drop for Lent<'a> {
    fn drop(mut self) {
        loop {
            match self {
                Lent::Plain(_) => return,
                Lent::Leaf(_) => return,
                Lent::Behind(_, _, g) => self = Box::into_inner(g),
                Lent::Both(_, _f, g) => self = Box::into_inner(g),
            }
        }
    }
}

/// A form of a block.
pub fn lend<'a>(f: &'a Form) -> Lent<'a>
    ensures { lent_in result ≡ form_in f.now }
{
    match f {
        Form::Plain(b) => Lent::Plain(*b),
        Form::Is(l) => Lent::Leaf(Leaf::Is(*l)),
        Form::NotSo(g) => Lent::Leaf(Leaf::Of(false, &**g)),
        Form::Both(_, _) => Lent::Leaf(Leaf::Of(true, f)),
        Form::Same(_, _) => Lent::Leaf(Leaf::Of(true, f)),
    }
}

/// The denial of a form of a block.
fn deny<'a>(f: &'a Form) -> Lent<'a>
    ensures { lent_in result ≡ denied (form_in f.now) }
{
    match f {
        Form::Plain(b) => Lent::Plain(!*b),
        Form::Is(l) => Lent::Leaf(Leaf::Is(opposite(*l))),
        Form::NotSo(g) => lend(&**g),
        Form::Both(_, _) => Lent::Leaf(Leaf::Of(false, f)),
        Form::Same(_, _) => Lent::Leaf(Leaf::Of(false, f)),
    }
}

fn leaf_denied<'a>(x: Leaf<'a>) -> Lent<'a>
    ensures { lent_in result ≡ denied (leaf_in x.entry) }
{
    match x {
        Leaf::Is(l) => Lent::Leaf(Leaf::Is(opposite(l))),
        Leaf::Of(true, f) => deny(f),
        Leaf::Of(false, f) => lend(f),
    }
}

/// A form of a block, taken apart.
fn form_parts<'a>(f: &'a Form) -> Parts<'a>
    ensures { parts_in result ≡ form_in f.now }
{
    match f {
        Form::Plain(b) => Parts::Plain(*b),
        Form::Is(l) => Parts::Is(*l),
        Form::NotSo(g) => Parts::NotSo(lend(&**g)),
        Form::Both(g, h) => Parts::Both(lend(&**g), lend(&**h)),
        Form::Same(g, h) => Parts::Same(lend(&**g), lend(&**h)),
    }
}

/// A leaf, taken apart.
fn leaf_parts<'a>(x: Leaf<'a>) -> Parts<'a>
    ensures { parts_in result ≡ leaf_in x.entry }
{
    match x {
        Leaf::Is(l) => Parts::Is(l),
        Leaf::Of(true, f) => form_parts(f),
        Leaf::Of(false, f) => Parts::NotSo(lend(f)),
    }
}

impl<'a> Lent<'a> {
    /// The form, taken apart.
    pub fn parts(self) -> Parts<'a>
        ensures { parts_in result ≡ lent_in self.entry }
    {
        match self {
            Lent::Plain(b) => Parts::Plain(b),
            Lent::Leaf(x) => leaf_parts(x),
            Lent::Behind(true, x, g) => Parts::Both(Lent::Leaf(x), Box::into_inner(g)),
            Lent::Behind(false, x, g) => Parts::NotSo(Lent::Behind(true, x, g)),
            Lent::Both(true, f, g) => Parts::Both(Box::into_inner(f), Box::into_inner(g)),
            Lent::Both(false, f, g) => Parts::NotSo(Lent::Both(true, f, g)),
        }
    }

    /// The form, by what stands in front of it.
    pub fn front(self) -> Front<'a>
        ensures { front_in result ≡ lent_in self.entry }
    {
        match self {
            Lent::Plain(b) => Front::Other(Lent::Plain(b)),
            Lent::Leaf(x) => Front::Alone(x),
            Lent::Behind(true, x, g) => Front::Before(x, Box::into_inner(g)),
            Lent::Behind(false, x, g) => Front::Other(Lent::Behind(false, x, g)),
            Lent::Both(s, f, g) => Front::Other(Lent::Both(s, f, g)),
        }
    }

    /// The denial: it is marked, and what is marked loses its mark.
    pub fn denied(self) -> Lent<'a>
        ensures { lent_in result ≡ denied (lent_in self.entry) }
    {
        match self {
            Lent::Plain(b) => Lent::Plain(!b),
            Lent::Leaf(x) => leaf_denied(x),
            Lent::Behind(true, x, g) => Lent::Behind(false, x, g),
            Lent::Behind(false, x, g) => Lent::Behind(true, x, g),
            Lent::Both(true, f, g) => Lent::Both(false, f, g),
            Lent::Both(false, f, g) => Lent::Both(true, f, g),
        }
    }

    /// Both forms, as they are.
    fn beside(self, alloc: Global, g: Lent<'a>) -> Result<Lent<'a>, AllocError>
        ensures { IfOk result (λ x. lent_in x ≡ Both (lent_in self.entry) (lent_in g.entry)) }
    {
        match self {
            Lent::Plain(b) => paired(alloc, Lent::Plain(b), g),
            Lent::Leaf(x) => Ok(Lent::Behind(true, x, Box::new(alloc, g)?)),
            Lent::Behind(s, x, h) => paired(alloc, Lent::Behind(s, x, h), g),
            Lent::Both(s, f, h) => paired(alloc, Lent::Both(s, f, h), g),
        }
    }
}

/// Two forms that have boxes of their own.
fn paired<'a>(alloc: Global, f: Lent<'a>, g: Lent<'a>) -> Result<Lent<'a>, AllocError>
    ensures { IfOk result (λ x. lent_in x ≡ Both (lent_in f.entry) (lent_in g.entry)) }
{
    Ok(Lent::Both(true, Box::new(alloc, f)?, Box::new(alloc, g)?))
}

fn form_plain(f: &Form) -> Option<bool>
    ensures { result ≡ plain_of (form_in f.now) }
{
    match f {
        Form::Plain(b) => Some(*b),
        Form::Is(_) => None,
        Form::NotSo(_) => None,
        Form::Both(_, _) => None,
        Form::Same(_, _) => None,
    }
}

fn plain(f: &Lent<'_>) -> Option<bool>
    ensures { result ≡ plain_of (lent_in f.now) }
{
    match f {
        Lent::Plain(b) => Some(*b),
        Lent::Leaf(Leaf::Is(_)) => None,
        Lent::Leaf(Leaf::Of(true, f)) => form_plain(*f),
        Lent::Leaf(Leaf::Of(false, _)) => None,
        Lent::Behind(true, _, _) => None,
        Lent::Behind(false, _, _) => None,
        Lent::Both(true, _, _) => None,
        Lent::Both(false, _, _) => None,
    }
}

/// The literal that a form of a block is, if it is one.
pub fn form_literal(f: &Form) -> Option<Literal>
    ensures { result ≡ literal_in_form (form_in f.now) }
{
    match f {
        Form::Plain(_) => None,
        Form::Is(l) => Some(*l),
        Form::NotSo(_) => None,
        Form::Both(_, _) => None,
        Form::Same(_, _) => None,
    }
}

/// The leaf that a form is, if it is one.
pub fn leaf_of<'a>(f: &Lent<'a>) -> Option<Leaf<'a>>
    ensures { IfSome result (λ x. leaf_in x ≡ lent_in f.now) }
{
    match f {
        Lent::Plain(_) => None,
        Lent::Leaf(x) => Some(*x),
        Lent::Behind(_, _, _) => None,
        Lent::Both(_, _, _) => None,
    }
}

/// The literal that a form is, if it is one.
pub fn literal_of(f: &Lent<'_>) -> Option<Literal>
    ensures { result ≡ literal_in_form (lent_in f.now) }
{
    match f {
        Lent::Plain(_) => None,
        Lent::Leaf(Leaf::Is(l)) => Some(*l),
        Lent::Leaf(Leaf::Of(true, f)) => form_literal(*f),
        Lent::Leaf(Leaf::Of(false, _)) => None,
        Lent::Behind(true, _, _) => None,
        Lent::Behind(false, _, _) => None,
        Lent::Both(true, _, _) => None,
        Lent::Both(false, _, _) => None,
    }
}

fn is_literal(f: &Lent<'_>) -> bool
    ensures { result ≡ is_literal (lent_in f.now) }
{
    literal_of(f).is_some()
}

fn both_beside<'a>(alloc: Global, f: Lent<'a>, g: Lent<'a>) -> Result<Lent<'a>, AllocError>
    ensures { IfOk result (λ x. lent_in x ≡ both_beside (lent_in f.entry) (lent_in g.entry)) }
{
    if is_literal(&g) && !is_literal(&f) {
        g.beside(alloc, f)
    } else {
        f.beside(alloc, g)
    }
}

fn both_behind<'a>(alloc: Global, f: Lent<'a>, g: Lent<'a>) -> Result<Lent<'a>, AllocError>
    ensures { IfOk result (λ x. lent_in x ≡ both_behind (lent_in f.entry) (lent_in g.entry)) }
{
    match plain(&g) {
        Some(true) => Ok(f),
        Some(false) => Ok(Lent::Plain(false)),
        None => both_beside(alloc, f, g),
    }
}

/// The conjunction.
pub fn both_of<'a>(alloc: Global, f: Lent<'a>, g: Lent<'a>) -> Result<Lent<'a>, AllocError>
    ensures { IfOk result (λ x. lent_in x ≡ both_of (lent_in f.entry) (lent_in g.entry)) }
{
    match plain(&f) {
        Some(true) => Ok(g),
        Some(false) => Ok(Lent::Plain(false)),
        None => both_behind(alloc, f, g),
    }
}

/// The disjunction.
pub fn any_of<'a>(alloc: Global, f: Lent<'a>, g: Lent<'a>) -> Result<Lent<'a>, AllocError>
    ensures { IfOk result (λ x. lent_in x ≡ any_of (lent_in f.entry) (lent_in g.entry)) }
{
    let neither = both_of(alloc, f.denied(), g.denied())?;
    Ok(neither.denied())
}
