//! The forms of expressions.
ghost use Rattle.std.specs.Prelude.{◌≡◌, map, IfOk};
ghost use Rattle.bg_ast.specs.Meaning as m;
ghost use Rattle.bg_ast.specs.Resolved.{Links};
ghost use Rattle.bg_ast.specs.Views.{ex_of, links_of, link_view};
ghost use Rattle.bg_forms.specs.Forms.{form_of};
ghost use Rattle.bg_forms.specs.Views.{form_in};
ghost use Rattle.bg_forms.specs.ChainForms.{sign_form, is_implies, chain_forms, chain_one, folded, prefix_form, signed_form};

use crate::form::{Form, any_of, both_of, denied, is_true, same_of};
use bg_ast::resolved::{Expr, Link, Variable};
use bg_text::{InfixSign, PrefixSign, TreePrefix};
use std::alloc::{AllocError, Global};

/// Two forms with a sign between them.
fn joined(alloc: Global, sign: InfixSign, f: Form, g: Form) -> Result<Form, AllocError>
    ensures { IfOk result (λ x. form_in x ≡ sign_form sign (form_in f) (form_in g)) }
{
    match sign {
        InfixSign::Iff => same_of(alloc, g, f),
        InfixSign::Implies => {
            let f = denied(alloc, f)?;
            any_of(alloc, f, g)
        }
        InfixSign::Explies => {
            let g = denied(alloc, g)?;
            any_of(alloc, g, f)
        }
        InfixSign::And => both_of(alloc, g, f),
        InfixSign::Or => any_of(alloc, g, f),
        InfixSign::Equal => same_of(alloc, g, f),
        InfixSign::Unequal => {
            let same = same_of(alloc, g, f)?;
            denied(alloc, same)
        }
        InfixSign::Less => Ok(Form::Plain(false)),
        InfixSign::AtMost => Ok(Form::Plain(false)),
        InfixSign::Greater => Ok(Form::Plain(false)),
        InfixSign::AtLeast => Ok(Form::Plain(false)),
        InfixSign::Plus => Ok(Form::Plain(false)),
        InfixSign::Minus => Ok(Form::Plain(false)),
        InfixSign::Times => Ok(Form::Plain(false)),
    }
}

fn is_implies(sign: InfixSign) -> bool
    ensures { result ≡ is_implies sign }
{
    sign == InfixSign::Implies
}

/// Disjunctions that wait for this form.
fn close(alloc: Global, waiting: Vec<Form>, f: Form) -> Result<Form, AllocError>
    ensures { IfOk result (λ x. form_in x ≡ folded (map form_in waiting.items) (form_in f)) }
{
    let mut waiting = waiting;
    let mut made = f;
    while let Some(p) = waiting.pop() {
        made = any_of(alloc, p, made)?;
    }
    Ok(made)
}

fn prefixed(alloc: Global, sign: PrefixSign, f: Form) -> Result<Form, AllocError>
    ensures { IfOk result (λ x. form_in x ≡ prefix_form sign (form_in f)) }
{
    match sign {
        PrefixSign::Not => denied(alloc, f),
        PrefixSign::Minus => Ok(Form::Plain(false)),
    }
}

/// A form behind prefix signs, of which the first is the outermost.
#[tactic(auto, using(crate::proofs::ChainForms::signed_last))]
fn signed(alloc: Global, signs: &[TreePrefix], f: Form) -> Result<Form, AllocError>
    ensures { IfOk result (λ x. form_in x ≡ signed_form signs.now (form_in f)) }
{
    let mut made = f;
    let mut left: &[TreePrefix] = signs;
    while let Some((last, before)) = left.split_last() {
        made = prefixed(alloc, last.sign, made)?;
        left = before;
    }
    Ok(made)
}

/// One more operand of a chain: what stands before an implication waits.
fn one_more(
    alloc: Global,
    waiting: &mut Vec<Form>,
    sign: InfixSign,
    f: Form,
    g: Form,
) -> Result<Form, AllocError>
    ensures { IfOk result (λ x. (ls : Links) → folded (map form_in waiting.new.items) (chain_forms (form_in x) ls) ≡ folded (map form_in waiting.old.items) (chain_one sign (form_in f) (form_in g) ls)) }
{
    if is_implies(sign) {
        let not_f = denied(alloc, f)?;
        waiting.push(not_f)?;
        return Ok(g);
    }
    joined(alloc, sign, f, g)
}

/// A chain behind a form.
#[tactic(auto, using(crate::proofs::ChainForms::chain_rules))]
#[cycle(forming)]
fn chain(alloc: Global, links: &[Link], first: Form) -> Result<Form, AllocError>
    ensures { IfOk result (λ x. form_in x ≡ chain_forms (form_in first) (links_of (map link_view links.now))) }
{
    let mut waiting = Vec::new(alloc);
    let mut made = first;
    for l in links {
        let g = form_ex(alloc, &l.operand)?;
        made = one_more(alloc, &mut waiting, l.sign, made, g)?;
    }
    close(alloc, waiting, made)
}

/// The form of an expression over truth values.
#[tactic(auto, using(crate::proofs::ChainForms::chain_rules))]
#[cycle(forming)]
pub fn form_ex(alloc: Global, e: &Expr) -> Result<Form, AllocError>
    ensures { IfOk result (λ x. form_in x ≡ form_of (m.ex_of (ex_of e.now))) }
{
    match e {
        Expr::Truth(_, b) => Ok(Form::Plain(*b)),
        Expr::Read(_, Variable::Local(j)) => Ok(is_true(*j)),
        Expr::Parens(_, e) => form_ex(alloc, e),
        Expr::Prefix(signs, e) => {
            let f = form_ex(alloc, e)?;
            signed(alloc, signs, f)
        }
        Expr::Postfix(e, brackets) => {
            if brackets.is_empty() {
                form_ex(alloc, e)
            } else {
                Ok(Form::Plain(false))
            }
        }
        Expr::Chain(e, links) => {
            let f = form_ex(alloc, e)?;
            chain(alloc, links, f)
        }
        Expr::Number(_, _) => Ok(Form::Plain(false)),
        Expr::Constant(_, _) => Ok(Form::Plain(false)),
        Expr::Read(_, Variable::Global(_)) => Ok(Form::Plain(false)),
        Expr::Apply(_, _, _) => Ok(Form::Plain(false)),
        Expr::Old(_, _) => Ok(Form::Plain(false)),
    }
}
