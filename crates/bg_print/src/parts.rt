//! Attributes, groups of names, clauses and left sides.
ghost use Rattle.std.specs.Prelude.{◌≡◌, ◌++◌, OnOk, map};
ghost use Rattle.bg_text.specs.declared.token.Kind.{Kind};
ghost use Rattle.bg_text.specs.declared.token.Kind.TheVariants as kinds;
ghost use Rattle.bg_text.specs.Views.{arg_of, attr_of, group_of, clause_of, guard_of, bracket_of, target_of, call_of, id_of};
ghost use Rattle.bg_print.specs.Docs.{Say, Space, ◌⨾◌, text, each, commas, in_brackets, line};
ghost use Rattle.bg_print.specs.Parts.{arg_doc, args_doc, attr_doc, group_doc, word_doc, says_doc, clause_doc, guard_doc, bracket_doc, target_doc, takes_doc, invoked_doc, call_doc};

use crate::exprs::{put_expr, put_exprs};
use crate::names::{put_name, put_names};
use crate::put::{put_gap, put_margin};
use crate::types::put_type;
use bg_text::{
    Attribute, AttributeArg, Formals, Name, TreeCall, TreeClause, TreeGuard, TreeIndices,
    TreeTarget,
};
use std::alloc::AllocError;

fn put_arg(out: &mut Vec<u8>, arg: &AttributeArg) -> Result<(), AllocError>
    ensures { OnOk result (out.new.items ≡ out.old.items ++ text (arg_doc (arg_of arg.now))) }
{
    match arg {
        AttributeArg::Formula(e) => put_expr(out, e),
        AttributeArg::Quoted(quoted) => out.extend_from_slice(quoted),
    }
}

fn put_arg_list(out: &mut Vec<u8>, args: &[AttributeArg]) -> Result<(), AllocError>
    ensures { OnOk result (out.new.items ≡ out.old.items ++ text (commas arg_doc (map arg_of args.now))) }
{
    let mut behind = false;
    for arg in args {
        put_gap(out, behind)?;
        put_arg(out, arg)?;
        behind = true;
    }
    Ok(())
}

/// The arguments of an attribute, behind its name.
fn put_args(out: &mut Vec<u8>, args: &[AttributeArg]) -> Result<(), AllocError>
    ensures { OnOk result (out.new.items ≡ out.old.items ++ text (args_doc (map arg_of args.now))) }
{
    if args.is_empty() {
        return Ok(());
    }
    out.extend_from_slice(b" ")?;
    put_arg_list(out, args)
}

fn put_attribute(out: &mut Vec<u8>, attribute: &Attribute) -> Result<(), AllocError>
    ensures { OnOk result (out.new.items ≡ out.old.items ++ text (attr_doc (attr_of attribute.now))) }
{
    out.extend_from_slice(b"{:")?;
    put_name(out, &attribute.name)?;
    put_args(out, &attribute.args)?;
    out.extend_from_slice(b"} ")
}

pub fn put_attributes(out: &mut Vec<u8>, attributes: &[Attribute]) -> Result<(), AllocError>
    ensures { OnOk result (out.new.items ≡ out.old.items ++ text (each attr_doc (map attr_of attributes.now))) }
{
    for attribute in attributes {
        put_attribute(out, attribute)?;
    }
    Ok(())
}

fn put_group(out: &mut Vec<u8>, group: &Formals) -> Result<(), AllocError>
    ensures { OnOk result (out.new.items ≡ out.old.items ++ text (group_doc (group_of group.now))) }
{
    put_attributes(out, &group.attributes)?;
    put_names(out, &group.names)?;
    out.extend_from_slice(b": ")?;
    put_type(out, &group.ty)
}

/// Groups of names with commas between them.
pub fn put_groups(out: &mut Vec<u8>, groups: &[Formals]) -> Result<(), AllocError>
    ensures { OnOk result (out.new.items ≡ out.old.items ++ text (commas group_doc (map group_of groups.now))) }
{
    let mut behind = false;
    for group in groups {
        put_gap(out, behind)?;
        put_group(out, group)?;
        behind = true;
    }
    Ok(())
}

fn put_free(out: &mut Vec<u8>, is_free: bool) -> Result<(), AllocError>
    ensures { OnOk result (out.new.items ≡ out.old.items ++ text (word_doc is_free kinds.Free)) }
{
    if is_free {
        out.extend_from_slice(b"free ")
    } else {
        Ok(())
    }
}

/// What a clause says, with its attributes.
fn put_says(out: &mut Vec<u8>, clause: &TreeClause) -> Result<(), AllocError>
    ensures { OnOk result (out.new.items ≡ out.old.items ++ text (says_doc (clause_of clause.now))) }
{
    put_attributes(out, &clause.attributes)?;
    put_expr(out, &clause.formula)?;
    out.extend_from_slice(b";")
}

/// A clause on a line of its own, at an indent of n, where its first word is given with the space behind it.
pub fn put_clause(
    out: &mut Vec<u8>,
    n: usize,
    word: &[u8],
    clause: &TreeClause,
) -> Result<(), AllocError>
    ensures { (k : Kind) → word.now ≡ text (Say k ⨾ Space) → OnOk result (out.new.items ≡ out.old.items ++ text (line n (clause_doc k (clause_of clause.now)))) }
{
    put_margin(out, n)?;
    put_free(out, clause.is_free)?;
    out.extend_from_slice(word)?;
    put_says(out, clause)?;
    out.extend_from_slice(b"\n")
}

pub fn put_guard(out: &mut Vec<u8>, guard: &TreeGuard) -> Result<(), AllocError>
    ensures { OnOk result (out.new.items ≡ out.old.items ++ text (guard_doc (guard_of guard.now))) }
{
    match guard {
        TreeGuard::Star(_) => out.extend_from_slice(b"(*)"),
        TreeGuard::Test(e) => {
            out.extend_from_slice(b"(")?;
            put_expr(out, e)?;
            out.extend_from_slice(b")")
        }
    }
}

fn put_target_bracket(out: &mut Vec<u8>, bracket: &TreeIndices) -> Result<(), AllocError>
    ensures { OnOk result (out.new.items ≡ out.old.items ++ text (bracket_doc (bracket_of bracket.now))) }
{
    out.extend_from_slice(b"[")?;
    put_exprs(out, &bracket.indices)?;
    out.extend_from_slice(b"]")
}

fn put_target_brackets(out: &mut Vec<u8>, brackets: &[TreeIndices]) -> Result<(), AllocError>
    ensures { OnOk result (out.new.items ≡ out.old.items ++ text (each bracket_doc (map bracket_of brackets.now))) }
{
    for bracket in brackets {
        put_target_bracket(out, bracket)?;
    }
    Ok(())
}

fn put_target(out: &mut Vec<u8>, target: &TreeTarget) -> Result<(), AllocError>
    ensures { OnOk result (out.new.items ≡ out.old.items ++ text (target_doc (target_of target.now))) }
{
    put_name(out, &target.name)?;
    put_target_brackets(out, &target.brackets)
}

/// Left sides with commas between them.
pub fn put_targets(out: &mut Vec<u8>, targets: &[TreeTarget]) -> Result<(), AllocError>
    ensures { OnOk result (out.new.items ≡ out.old.items ++ text (commas target_doc (map target_of targets.now))) }
{
    let mut behind = false;
    for target in targets {
        put_gap(out, behind)?;
        put_target(out, target)?;
        behind = true;
    }
    Ok(())
}

/// The names that take the results of a call.
fn put_takes(out: &mut Vec<u8>, names: &[Name]) -> Result<(), AllocError>
    ensures { OnOk result (out.new.items ≡ out.old.items ++ text (takes_doc (map id_of names.now))) }
{
    if names.is_empty() {
        return Ok(());
    }
    put_names(out, names)?;
    out.extend_from_slice(b" := ")
}

fn put_invoked(out: &mut Vec<u8>, call: &TreeCall) -> Result<(), AllocError>
    ensures { OnOk result (out.new.items ≡ out.old.items ++ text (invoked_doc (call_of call.now))) }
{
    put_name(out, &call.procedure)?;
    out.extend_from_slice(b"(")?;
    put_exprs(out, &call.args)?;
    out.extend_from_slice(b");")
}

pub fn put_call(out: &mut Vec<u8>, call: &TreeCall) -> Result<(), AllocError>
    ensures { OnOk result (out.new.items ≡ out.old.items ++ text (call_doc (call_of call.now))) }
{
    out.extend_from_slice(b"call ")?;
    put_attributes(out, &call.attributes)?;
    put_takes(out, &call.takes)?;
    put_invoked(out, call)
}
