//! Blocks of forms whose atoms go elsewhere.
ghost use Rattle.std.specs.Prelude.{◌≡◌, [], ◌∷◌, ◌++◌, map, IfOk, OnOk};
ghost use Rattle.bg_forms.specs.Forms.{Form as FormOf};
ghost use Rattle.bg_forms.specs.Views.{form_in};
ghost use Rattle.bg_formed.specs.Views.{says_of, form_cmd_of, form_cmds_of, form_edge_of, form_block_of};
ghost use Rattle.bg_ahead.specs.Moved.{moved, moved_form, moved_says, moved_cmd, moved_edge, moved_block, moved_blocks, behind_cmds};
ghost use Rattle.bg_ahead.specs.Spines.{wrap, wrapped};

use bg_formed::{FormBlock, FormCmd, FormEdge, Says};
use bg_forms::Form;
use bg_formula::Literal;
use std::alloc::{AllocError, Global};

/// A part of a form in front of what stands last in it.
#[derive(Drop)]
pub enum Piece {
    Not,
    Both(Form),
    Same(Form),
}

fn wrap(alloc: Global, p: Piece, f: Form) -> Result<Form, AllocError>
    ensures { IfOk result (λ x. form_in x ≡ wrap p (form_in f)) }
{
    match p {
        Piece::Not => Ok(Form::NotSo(Box::new(alloc, f)?)),
        Piece::Both(g) => Ok(Form::Both(Box::new(alloc, g)?, Box::new(alloc, f)?)),
        Piece::Same(g) => Ok(Form::Same(Box::new(alloc, g)?, Box::new(alloc, f)?)),
    }
}

#[tactic(auto, using(crate::proofs::Spines::wrapped_last))]
fn wrapped(alloc: Global, parts: Vec<Piece>, f: Form) -> Result<Form, AllocError>
    ensures { IfOk result (λ x. form_in x ≡ wrapped parts.items (form_in f)) }
{
    let mut parts = parts;
    let mut made = f;
    while let Some(p) = parts.pop() {
        made = wrap(alloc, p, made)?;
    }
    Ok(made)
}

/// One more part in front of what stands last.
#[tactic(auto, using(crate::proofs::Spines::wrapped_last))]
fn put(parts: &mut Vec<Piece>, p: Piece) -> Result<(), AllocError>
    ensures { OnOk result ((f : FormOf) → wrapped parts.new.items f ≡ wrapped parts.old.items (wrap p f)) }
{
    parts.push(p)?;
    Ok(())
}

/// The literal to which another one goes.
fn moved(goes: &[Literal], l: Literal) -> Literal
    ensures { result ≡ moved goes.now l }
{
    let to = match goes.get(l.atom as usize) {
        Some(to) => *to,
        None => Literal {
            atom: l.atom,
            sign: true,
        },
    };
    if l.sign {
        to
    } else {
        Literal {
            atom: to.atom,
            sign: !to.sign,
        }
    }
}

/// The form whose atoms go there. What stands last in a form is copied in a loop.
fn form(alloc: Global, goes: &[Literal], f: &Form) -> Result<Form, AllocError>
    ensures { IfOk result (λ x. form_in x ≡ moved_form goes.now (form_in f.now)) }
{
    let mut parts = Vec::new(alloc);
    let mut left: &Form = f;
    loop {
        match left {
            Form::Plain(b) => return wrapped(alloc, parts, Form::Plain(*b)),
            Form::Is(l) => return wrapped(alloc, parts, Form::Is(moved(goes, *l))),
            Form::NotSo(g) => {
                put(&mut parts, Piece::Not)?;
                left = &**g;
            }
            Form::Both(g, h) => {
                let first = form(alloc, goes, g)?;
                put(&mut parts, Piece::Both(first))?;
                left = &**h;
            }
            Form::Same(g, h) => {
                let first = form(alloc, goes, g)?;
                put(&mut parts, Piece::Same(first))?;
                left = &**h;
            }
        }
    }
}

fn says(alloc: Global, goes: &[Literal], r: &Says) -> Result<Says, AllocError>
    ensures { IfOk result (λ x. says_of x ≡ moved_says goes.now (says_of r.now)) }
{
    match r {
        Says::Form(f) => Ok(Says::Form(form(alloc, goes, f)?)),
        Says::Outside(e) => Ok(Says::Outside(*e)),
    }
}

fn cmd(alloc: Global, goes: &[Literal], k: &FormCmd) -> Result<FormCmd, AllocError>
    ensures { IfOk result (λ x. form_cmd_of x ≡ moved_cmd goes.now (form_cmd_of k.now)) }
{
    match k {
        FormCmd::Claims(s, b, r) => Ok(FormCmd::Claims(*s, *b, says(alloc, goes, r)?)),
        FormCmd::Supposes(b, r) => Ok(FormCmd::Supposes(*b, says(alloc, goes, r)?)),
    }
}

/// Commands behind others.
fn cmds(
    alloc: Global,
    goes: &[Literal],
    front: Vec<FormCmd>,
    cmds: &[FormCmd],
) -> Result<Vec<FormCmd>, AllocError>
    ensures { IfOk result (λ made. form_cmds_of made.items ≡ form_cmds_of front.items ++ map (moved_cmd goes.now) (form_cmds_of cmds.now)) }
{
    let mut made = front;
    for k in cmds {
        let x = cmd(alloc, goes, k)?;
        made.push(x)?;
    }
    Ok(made)
}

fn edge(alloc: Global, goes: &[Literal], e: &FormEdge) -> Result<FormEdge, AllocError>
    ensures { IfOk result (λ x. form_edge_of x ≡ moved_edge goes.now (form_edge_of e.now)) }
{
    let cmds = cmds(alloc, goes, Vec::new(alloc), &e.cmds)?;
    Ok(FormEdge { cmds, to: e.to })
}

fn edges(alloc: Global, goes: &[Literal], edges: &[FormEdge]) -> Result<Vec<FormEdge>, AllocError>
    ensures { IfOk result (λ made. map form_edge_of made.items ≡ map (moved_edge goes.now) (map form_edge_of edges.now)) }
{
    let mut made = Vec::with_capacity(alloc, edges.len())?;
    for e in edges {
        let x = edge(alloc, goes, e)?;
        made.push(x)?;
    }
    Ok(made)
}

/// A block behind more commands.
fn block(
    alloc: Global,
    goes: &[Literal],
    front: Vec<FormCmd>,
    b: &FormBlock,
) -> Result<FormBlock, AllocError>
    ensures { IfOk result (λ x. form_block_of x ∷ [] ≡ behind_cmds (form_cmds_of front.items) (moved_block goes.now (form_block_of b.now) ∷ [])) }
{
    let cmds = cmds(alloc, goes, front, &b.cmds)?;
    let next = edges(alloc, goes, &b.next)?;
    Ok(FormBlock { cmds, next })
}

/// Blocks of forms whose atoms go there, behind more commands.
pub fn moved_behind(
    alloc: Global,
    goes: &[Literal],
    front: Vec<FormCmd>,
    blocks: &[FormBlock],
) -> Result<Vec<FormBlock>, AllocError>
    ensures { IfOk result (λ made. map form_block_of made.items ≡ behind_cmds (form_cmds_of front.items) (moved_blocks goes.now (map form_block_of blocks.now))) }
{
    let mut made = Vec::with_capacity(alloc, blocks.len())?;
    let mut cmds = front;
    for b in blocks {
        let x = block(alloc, goes, cmds, b)?;
        made.push(x)?;
        cmds = Vec::new(alloc);
    }
    Ok(made)
}
