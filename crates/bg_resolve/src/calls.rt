//! The functions that expressions call.
ghost use Rattle.std.specs.Prelude.{◌≡◌, ◌++◌, flat_map, IfErr, OnOk};
ghost use Rattle.bg_names.specs.Spaces.{place};
ghost use Rattle.bg_resolve.specs.Calls.{called, tree_calls, link_calls, bracket_calls};
ghost use Rattle.bg_names.specs.Views.{listed};
ghost use Rattle.bg_names.specs.declared.error.ResolveError.TheVariants.{Memory};

use bg_names::error::ResolveError;
use bg_names::names::{Names, number, place};
use bg_text::{Name, TreeBracket, TreeExpr, TreeLink};

/// Adds the number of a function that is called.
fn push_called(out: &mut Vec<u32>, functions: &Names, name: &Name) -> Result<(), ResolveError>
    ensures ok { OnOk result (out.new.items ≡ out.old.items ++ called (place (listed functions.now) name.now.text.items)) }
    ensures err { IfErr result (λ e. e ≡ Memory) }
{
    if let Some(at) = place(functions, &name.text) {
        out.push(number(at)?)?;
    }
    Ok(())
}

/// Adds the functions that an expression calls. Errors: Memory.
#[tactic(auto, using(crate::proofs::CallForms::call_forms))]
#[cycle(push_calls)]
pub fn push_calls(out: &mut Vec<u32>, functions: &Names, e: &TreeExpr) -> Result<(), ResolveError>
    ensures ok { OnOk result (out.new.items ≡ out.old.items ++ tree_calls (listed functions.now) e.now) }
    ensures err { IfErr result (λ e. e ≡ Memory) }
{
    match e {
        TreeExpr::Apply(name, args) => {
            push_called(out, functions, name)?;
            of_exprs(out, functions, args)
        }
        TreeExpr::Old(_, e) => push_calls(out, functions, e),
        TreeExpr::Parens(_, e) => push_calls(out, functions, e),
        TreeExpr::Prefix(_, e) => push_calls(out, functions, e),
        TreeExpr::Postfix(e, bs) => {
            push_calls(out, functions, e)?;
            of_brackets(out, functions, bs)
        }
        TreeExpr::Chain(e, ls) => {
            push_calls(out, functions, e)?;
            of_links(out, functions, ls)
        }
        _ => Ok(()),
    }
}

#[tactic(auto, using(crate::proofs::CallForms::call_forms))]
#[cycle(push_calls)]
fn of_exprs(out: &mut Vec<u32>, functions: &Names, es: &[TreeExpr]) -> Result<(), ResolveError>
    ensures ok { OnOk result (out.new.items ≡ out.old.items ++ flat_map (tree_calls (listed functions.now)) es.now) }
    ensures err { IfErr result (λ e. e ≡ Memory) }
{
    for e in es {
        push_calls(out, functions, e)?;
    }
    Ok(())
}

#[tactic(auto, using(crate::proofs::CallForms::call_forms))]
#[cycle(push_calls)]
fn of_bracket(out: &mut Vec<u32>, functions: &Names, b: &TreeBracket) -> Result<(), ResolveError>
    ensures ok { OnOk result (out.new.items ≡ out.old.items ++ bracket_calls (listed functions.now) b.now) }
    ensures err { IfErr result (λ e. e ≡ Memory) }
{
    match b {
        TreeBracket::Select(_, es) => of_exprs(out, functions, es),
        TreeBracket::Update(_, es, e) => {
            of_exprs(out, functions, es)?;
            push_calls(out, functions, e)
        }
    }
}

#[tactic(auto, using(crate::proofs::CallForms::call_forms))]
#[cycle(push_calls)]
fn of_brackets(
    out: &mut Vec<u32>,
    functions: &Names,
    bs: &[TreeBracket],
) -> Result<(), ResolveError>
    ensures ok { OnOk result (out.new.items ≡ out.old.items ++ flat_map (bracket_calls (listed functions.now)) bs.now) }
    ensures err { IfErr result (λ e. e ≡ Memory) }
{
    for b in bs {
        of_bracket(out, functions, b)?;
    }
    Ok(())
}

#[tactic(auto, using(crate::proofs::CallForms::call_forms))]
#[cycle(push_calls)]
fn of_links(out: &mut Vec<u32>, functions: &Names, ls: &[TreeLink]) -> Result<(), ResolveError>
    ensures ok { OnOk result (out.new.items ≡ out.old.items ++ flat_map (link_calls (listed functions.now)) ls.now) }
    ensures err { IfErr result (λ e. e ≡ Memory) }
{
    for l in ls {
        push_calls(out, functions, &l.operand)?;
    }
    Ok(())
}
