//! Formulas over truth values: conjunctions, denials, and pairs that are worth the same.
ghost use Rattle.std.specs.Prelude.{◌≡◌, IfOk};
ghost use Rattle.bg_forms.specs.Forms.{plain_of, is_literal, is_true, opposite, denied, both_beside, both_behind, both_of, any_of, same_behind, same_of};
ghost use Rattle.bg_forms.specs.Views.{form_in, parts_in};

use bg_formula::Literal;
use std::alloc::{AllocError, Global};

/// A form. `NotSo` denies one; `Same` says that two are worth the same.
pub enum Form {
    Plain(bool),
    Is(Literal),
    NotSo(Box<Form>),
    Both(Box<Form>, Box<Form>),
    Same(Box<Form>, Box<Form>),
}

/// A form taken apart.
#[derive(Drop)]
pub enum Parts {
    Plain(bool),
    Is(Literal),
    NotSo(Form),
    Both(Form, Form),
    Same(Form, Form),
}

impl Form {
    /// The form, taken apart.
    pub fn parts(self) -> Parts
        ensures { parts_in result ≡ form_in self }
    {
        match self {
            Form::Plain(b) => Parts::Plain(b),
            Form::Is(l) => Parts::Is(l),
            Form::NotSo(f) => Parts::NotSo(Box::into_inner(f)),
            Form::Both(f, g) => Parts::Both(Box::into_inner(f), Box::into_inner(g)),
            Form::Same(f, g) => Parts::Same(Box::into_inner(f), Box::into_inner(g)),
        }
    }

    /// The denial.
    fn denial(self, alloc: Global) -> Result<Form, AllocError>
        ensures { IfOk result (λ x. form_in x ≡ denied (form_in self)) }
    {
        match self {
            Form::Plain(b) => Ok(Form::Plain(!b)),
            Form::Is(l) => Ok(Form::Is(opposite(l))),
            Form::NotSo(f) => Ok(Box::into_inner(f)),
            Form::Both(f, g) => Ok(Form::NotSo(Box::new(alloc, Form::Both(f, g))?)),
            Form::Same(f, g) => Ok(Form::NotSo(Box::new(alloc, Form::Same(f, g))?)),
        }
    }

    /// The denial of the denial, without a new mark where one would be taken away again.
    fn denied_twice(self, alloc: Global) -> Result<Form, AllocError>
        ensures { IfOk result (λ x. form_in x ≡ denied (denied (form_in self))) }
    {
        match self {
            Form::Plain(b) => denied(alloc, Form::Plain(!b)),
            Form::Is(l) => denied(alloc, Form::Is(opposite(l))),
            Form::NotSo(f) => denied(alloc, Box::into_inner(f)),
            Form::Both(f, g) => Ok(Form::Both(f, g)),
            Form::Same(f, g) => Ok(Form::Same(f, g)),
        }
    }

    /// This form or another one: what is plain needs nothing new.
    fn or(self, alloc: Global, g: Form) -> Result<Form, AllocError>
        ensures { IfOk result (λ x. form_in x ≡ any_of (form_in self) (form_in g)) }
    {
        match self {
            Form::Plain(true) => Ok(Form::Plain(true)),
            Form::Plain(false) => g.denied_twice(alloc),
            Form::Is(l) => any_beside(alloc, Form::Is(l), g),
            Form::NotSo(f) => any_beside(alloc, Form::NotSo(f), g),
            Form::Both(f, h) => any_beside(alloc, Form::Both(f, h), g),
            Form::Same(f, h) => any_beside(alloc, Form::Same(f, h), g),
        }
    }
}

/// What stands behind others is let go in a loop, since chains and commands make long rows of it.
impl Drop for Form {
    fn drop(mut self) {
        loop {
            match self {
                Form::Plain(_) => return,
                Form::Is(_) => return,
                Form::NotSo(f) => self = Box::into_inner(f),
                Form::Both(_f, g) => self = Box::into_inner(g),
                Form::Same(_f, g) => self = Box::into_inner(g),
            }
        }
    }
}

fn plain(f: &Form) -> Option<bool>
    ensures { result ≡ plain_of (form_in f.now) }
{
    match f {
        Form::Plain(b) => Some(*b),
        Form::Is(_) => None,
        Form::NotSo(_) => None,
        Form::Both(_, _) => None,
        Form::Same(_, _) => None,
    }
}

fn is_literal(f: &Form) -> bool
    ensures { result ≡ is_literal (form_in f.now) }
{
    match f {
        Form::Plain(_) => false,
        Form::Is(_) => true,
        Form::NotSo(_) => false,
        Form::Both(_, _) => false,
        Form::Same(_, _) => false,
    }
}

/// The atom is true.
pub fn is_true(atom: u32) -> Form
    ensures { form_in result ≡ is_true atom }
{
    Form::Is(Literal { atom, sign: true })
}

/// The literal that holds where this one does not.
pub fn opposite(l: Literal) -> Literal
    ensures { result ≡ opposite l }
{
    Literal {
        atom: l.atom,
        sign: !l.sign,
    }
}

/// The denial: it is marked, and what is marked loses its mark.
pub fn denied(alloc: Global, f: Form) -> Result<Form, AllocError>
    ensures { IfOk result (λ x. form_in x ≡ denied (form_in f)) }
{
    f.denial(alloc)
}

fn both_beside(alloc: Global, f: Form, g: Form) -> Result<Form, AllocError>
    ensures { IfOk result (λ x. form_in x ≡ both_beside (form_in f) (form_in g)) }
{
    if is_literal(&g) && !is_literal(&f) {
        Ok(Form::Both(Box::new(alloc, g)?, Box::new(alloc, f)?))
    } else {
        Ok(Form::Both(Box::new(alloc, f)?, Box::new(alloc, g)?))
    }
}

fn both_behind(alloc: Global, f: Form, g: Form) -> Result<Form, AllocError>
    ensures { IfOk result (λ x. form_in x ≡ both_behind (form_in f) (form_in g)) }
{
    match plain(&g) {
        Some(true) => Ok(f),
        Some(false) => Ok(Form::Plain(false)),
        None => both_beside(alloc, f, g),
    }
}

/// The conjunction.
pub fn both_of(alloc: Global, f: Form, g: Form) -> Result<Form, AllocError>
    ensures { IfOk result (λ x. form_in x ≡ both_of (form_in f) (form_in g)) }
{
    match plain(&f) {
        Some(true) => Ok(g),
        Some(false) => Ok(Form::Plain(false)),
        None => both_behind(alloc, f, g),
    }
}

/// The disjunction of forms that aren't plain.
fn any_beside(alloc: Global, f: Form, g: Form) -> Result<Form, AllocError>
    ensures { IfOk result (λ x. form_in x ≡ any_of (form_in f) (form_in g)) }
{
    let not_f = denied(alloc, f)?;
    let not_g = denied(alloc, g)?;
    let neither = both_of(alloc, not_f, not_g)?;
    denied(alloc, neither)
}

/// The disjunction.
pub fn any_of(alloc: Global, f: Form, g: Form) -> Result<Form, AllocError>
    ensures { IfOk result (λ x. form_in x ≡ any_of (form_in f) (form_in g)) }
{
    f.or(alloc, g)
}

fn same_behind(alloc: Global, f: Form, g: Form) -> Result<Form, AllocError>
    ensures { IfOk result (λ x. form_in x ≡ same_behind (form_in f) (form_in g)) }
{
    match plain(&g) {
        Some(true) => Ok(f),
        Some(false) => denied(alloc, f),
        None => Ok(Form::Same(Box::new(alloc, f)?, Box::new(alloc, g)?)),
    }
}

/// Two forms that are worth the same.
pub fn same_of(alloc: Global, f: Form, g: Form) -> Result<Form, AllocError>
    ensures { IfOk result (λ x. form_in x ≡ same_of (form_in f) (form_in g)) }
{
    match plain(&f) {
        Some(true) => Ok(g),
        Some(false) => denied(alloc, g),
        None => same_behind(alloc, f, g),
    }
}
