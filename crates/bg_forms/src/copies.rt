//! Copies of forms.
ghost use Rattle.std.specs.Prelude.{◌≡◌, IfOk, OnOk};
ghost use Rattle.bg_forms.specs.Forms.{Form as FormOf};
ghost use Rattle.bg_forms.specs.Views.{form_in};
ghost use Rattle.bg_forms.specs.Spines.{wrap, wrapped};

use crate::form::Form;
use std::alloc::{AllocError, Global};

/// A part of a form in front of what stands last in it.
#[derive(Drop)]
pub enum Piece {
    Not,
    Both(Form),
    Same(Form),
}

fn wrap(alloc: Global, p: Piece, f: Form) -> Result<Form, AllocError>
    ensures { IfOk result (λ x. form_in x ≡ wrap p (form_in f)) }
{
    match p {
        Piece::Not => Ok(Form::NotSo(Box::new(alloc, f)?)),
        Piece::Both(g) => Ok(Form::Both(Box::new(alloc, g)?, Box::new(alloc, f)?)),
        Piece::Same(g) => Ok(Form::Same(Box::new(alloc, g)?, Box::new(alloc, f)?)),
    }
}

#[tactic(auto, using(crate::proofs::Spines::wrapped_last))]
fn wrapped(alloc: Global, parts: Vec<Piece>, f: Form) -> Result<Form, AllocError>
    ensures { IfOk result (λ x. form_in x ≡ wrapped parts.items (form_in f)) }
{
    let mut parts = parts;
    let mut made = f;
    while let Some(p) = parts.pop() {
        made = wrap(alloc, p, made)?;
    }
    Ok(made)
}

/// One more part in front of what stands last.
#[tactic(auto, using(crate::proofs::Spines::wrapped_last))]
fn put(parts: &mut Vec<Piece>, p: Piece) -> Result<(), AllocError>
    ensures { OnOk result ((f : FormOf) → wrapped parts.new.items f ≡ wrapped parts.old.items (wrap p f)) }
{
    parts.push(p)?;
    Ok(())
}

/// The same form. What stands last in a form is copied in a loop.
pub fn copy(alloc: Global, f: &Form) -> Result<Form, AllocError>
    ensures { IfOk result (λ x. form_in x ≡ form_in f.now) }
{
    let mut parts = Vec::new(alloc);
    let mut left: &Form = f;
    loop {
        match left {
            Form::Plain(b) => return wrapped(alloc, parts, Form::Plain(*b)),
            Form::Is(l) => return wrapped(alloc, parts, Form::Is(*l)),
            Form::NotSo(g) => {
                put(&mut parts, Piece::Not)?;
                left = &**g;
            }
            Form::Both(g, h) => {
                let first = copy(alloc, g)?;
                put(&mut parts, Piece::Both(first))?;
                left = &**h;
            }
            Form::Same(g, h) => {
                let first = copy(alloc, g)?;
                put(&mut parts, Piece::Same(first))?;
                left = &**h;
            }
        }
    }
}
