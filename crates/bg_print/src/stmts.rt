//! Statements, each on lines of its own.
ghost use Rattle.std.specs.Prelude.{◌≡◌, ◌+◌, ◌++◌, OnOk, map, false};
ghost use Rattle.bg_text.specs.declared.token.Kind.TheVariants as kinds;
ghost use Rattle.bg_text.specs.Trees.{Label, Assert, Assume, Havoc, Assign, Invoke, Break, Goto, Return};
ghost use Rattle.bg_text.specs.Views.{id_of, exs_in, target_of, call_of, clause_of, guard_of, option_of, sts_in};
ghost use Rattle.bg_print.specs.Docs.{Say, Space, ◌⨾◌, text, each, commas, if_there, spaced, line};
ghost use Rattle.bg_print.specs.Exprs.{list_doc};
ghost use Rattle.bg_print.specs.Parts.{id_doc, target_doc, call_doc, clause_doc};
ghost use Rattle.bg_print.specs.Stmts.{behind_doc, else_if, arm_doc, while_doc, sts_doc};
ghost use Rattle.bg_print.specs.Rows.{stmt_doc, tree_block, tree_arms_from};

use crate::exprs::put_exprs;
use crate::names::{put_name, put_names};
use crate::parts::{put_call, put_clause, put_guard, put_targets};
use crate::put::{deeper, put_margin};
use bg_text::{Name, TreeArm, TreeCall, TreeClause, TreeExpr, TreeGuard, TreeStmt, TreeTarget};
use std::alloc::AllocError;

fn put_label(out: &mut Vec<u8>, n: usize, name: &Name) -> Result<(), AllocError>
    ensures { OnOk result (out.new.items ≡ out.old.items ++ text (line n (id_doc (id_of name.now) ⨾ Say kinds.Colon))) }
{
    put_margin(out, n)?;
    put_name(out, name)?;
    out.extend_from_slice(b":\n")
}

fn put_assert(out: &mut Vec<u8>, n: usize, clause: &TreeClause) -> Result<(), AllocError>
    ensures { OnOk result (out.new.items ≡ out.old.items ++ text (line n (clause_doc kinds.Assert (clause_of clause.now)))) }
{
    put_clause(out, n, b"assert ", clause)
}

fn put_assume(out: &mut Vec<u8>, n: usize, clause: &TreeClause) -> Result<(), AllocError>
    ensures { OnOk result (out.new.items ≡ out.old.items ++ text (line n (clause_doc kinds.Assume (clause_of clause.now)))) }
{
    put_clause(out, n, b"assume ", clause)
}

fn put_invariant(out: &mut Vec<u8>, n: usize, clause: &TreeClause) -> Result<(), AllocError>
    ensures { OnOk result (out.new.items ≡ out.old.items ++ text (line n (clause_doc kinds.Invariant (clause_of clause.now)))) }
{
    put_clause(out, n, b"invariant ", clause)
}

fn put_havoc(out: &mut Vec<u8>, n: usize, names: &[Name]) -> Result<(), AllocError>
    ensures { OnOk result (out.new.items ≡ out.old.items ++ text (line n (Say kinds.Havoc ⨾ Space ⨾ commas id_doc (map id_of names.now) ⨾ Say kinds.Semicolon))) }
{
    put_margin(out, n)?;
    out.extend_from_slice(b"havoc ")?;
    put_names(out, names)?;
    out.extend_from_slice(b";\n")
}

fn put_assign(
    out: &mut Vec<u8>,
    n: usize,
    targets: &[TreeTarget],
    values: &[TreeExpr],
) -> Result<(), AllocError>
    ensures { OnOk result (out.new.items ≡ out.old.items ++ text (line n (commas target_doc (map target_of targets.now) ⨾ spaced kinds.Becomes (list_doc (exs_in values.now)) ⨾ Say kinds.Semicolon))) }
{
    put_margin(out, n)?;
    put_targets(out, targets)?;
    out.extend_from_slice(b" := ")?;
    put_exprs(out, values)?;
    out.extend_from_slice(b";\n")
}

fn put_invoke(out: &mut Vec<u8>, n: usize, call: &TreeCall) -> Result<(), AllocError>
    ensures { OnOk result (out.new.items ≡ out.old.items ++ text (line n (call_doc (call_of call.now)))) }
{
    put_margin(out, n)?;
    put_call(out, call)?;
    out.extend_from_slice(b"\n")
}

fn put_behind(out: &mut Vec<u8>, name: &Option<Name>) -> Result<(), AllocError>
    ensures { OnOk result (out.new.items ≡ out.old.items ++ text (if_there behind_doc (option_of id_of name.now))) }
{
    match name {
        None => Ok(()),
        Some(name) => {
            out.extend_from_slice(b" ")?;
            put_name(out, name)
        }
    }
}

fn put_break(out: &mut Vec<u8>, n: usize, name: &Option<Name>) -> Result<(), AllocError>
    ensures { OnOk result (out.new.items ≡ out.old.items ++ text (line n (Say kinds.Break ⨾ if_there behind_doc (option_of id_of name.now) ⨾ Say kinds.Semicolon))) }
{
    put_margin(out, n)?;
    out.extend_from_slice(b"break")?;
    put_behind(out, name)?;
    out.extend_from_slice(b";\n")
}

fn put_goto(out: &mut Vec<u8>, n: usize, names: &[Name]) -> Result<(), AllocError>
    ensures { OnOk result (out.new.items ≡ out.old.items ++ text (line n (Say kinds.Goto ⨾ Space ⨾ commas id_doc (map id_of names.now) ⨾ Say kinds.Semicolon))) }
{
    put_margin(out, n)?;
    out.extend_from_slice(b"goto ")?;
    put_names(out, names)?;
    out.extend_from_slice(b";\n")
}

fn put_return(out: &mut Vec<u8>, n: usize) -> Result<(), AllocError>
    ensures { OnOk result (out.new.items ≡ out.old.items ++ text (line n (Say kinds.Return ⨾ Say kinds.Semicolon))) }
{
    put_margin(out, n)?;
    out.extend_from_slice(b"return;\n")
}

fn put_invariants(out: &mut Vec<u8>, n: usize, clauses: &[TreeClause]) -> Result<(), AllocError>
    ensures { OnOk result (out.new.items ≡ out.old.items ++ text (each (λ c. line n (clause_doc kinds.Invariant c)) (map clause_of clauses.now))) }
{
    for clause in clauses {
        put_invariant(out, n, clause)?;
    }
    Ok(())
}

/// The first lines of a loop.
fn put_while(
    out: &mut Vec<u8>,
    n: usize,
    guard: &TreeGuard,
    clauses: &[TreeClause],
) -> Result<(), AllocError>
    ensures { OnOk result (out.new.items ≡ out.old.items ++ text (while_doc n (guard_of guard.now) (map clause_of clauses.now))) }
{
    put_margin(out, n)?;
    out.extend_from_slice(b"while ")?;
    put_guard(out, guard)?;
    out.extend_from_slice(b"\n")?;
    let inner = deeper(n)?;
    put_invariants(out, inner, clauses)
}

fn put_else_if(out: &mut Vec<u8>, behind: bool) -> Result<(), AllocError>
    ensures { OnOk result (out.new.items ≡ out.old.items ++ text (else_if behind)) }
{
    if behind {
        out.extend_from_slice(b" else if")
    } else {
        Ok(())
    }
}

#[cycle(print_stmt)]
fn put_stmt(out: &mut Vec<u8>, n: usize, stmt: &TreeStmt) -> Result<(), AllocError>
    ensures { OnOk result (out.new.items ≡ out.old.items ++ text (stmt_doc n stmt.now)) }
{
    match stmt {
        TreeStmt::Label(name) => put_label(out, n, name),
        TreeStmt::Assert(clause) => put_assert(out, n, clause),
        TreeStmt::Assume(clause) => put_assume(out, n, clause),
        TreeStmt::Havoc(_, names) => put_havoc(out, n, names),
        TreeStmt::Assign(_, targets, values) => put_assign(out, n, targets, values),
        TreeStmt::Call(call) => put_invoke(out, n, call),
        TreeStmt::If(_, arms) => {
            put_if(out, n, arms)?;
            Ok(())
        }
        TreeStmt::IfElse(_, arms, stmts) => {
            put_margin(out, n)?;
            out.extend_from_slice(b"if")?;
            put_arms(out, n, arms)?;
            out.extend_from_slice(b" else ")?;
            put_block(out, n, stmts)?;
            out.extend_from_slice(b"\n")?;
            Ok(())
        }
        TreeStmt::While(_, guard, clauses, stmts) => {
            put_while(out, n, guard, clauses)?;
            put_margin(out, n)?;
            put_block(out, n, stmts)?;
            out.extend_from_slice(b"\n")?;
            Ok(())
        }
        TreeStmt::Break(_, name) => put_break(out, n, name),
        TreeStmt::Goto(_, names) => put_goto(out, n, names),
        TreeStmt::Return(_) => put_return(out, n),
    }
}

#[cycle(print_stmt)]
fn put_if(out: &mut Vec<u8>, n: usize, arms: &[TreeArm]) -> Result<(), AllocError>
    ensures { OnOk result (out.new.items ≡ out.old.items ++ text (line n (Say kinds.If ⨾ tree_arms_from false n arms.now))) }
{
    put_margin(out, n)?;
    out.extend_from_slice(b"if")?;
    put_arms(out, n, arms)?;
    out.extend_from_slice(b"\n")
}

/// Statements in braces.
#[cycle(print_stmt)]
fn put_block(out: &mut Vec<u8>, n: usize, stmts: &[TreeStmt]) -> Result<(), AllocError>
    ensures { OnOk result (out.new.items ≡ out.old.items ++ text (tree_block n stmts.now)) }
{
    out.extend_from_slice(b"{\n")?;
    let inner = deeper(n)?;
    put_list(out, inner, stmts)?;
    put_margin(out, n)?;
    out.extend_from_slice(b"}")
}

#[cycle(print_stmt)]
fn put_list(out: &mut Vec<u8>, n: usize, stmts: &[TreeStmt]) -> Result<(), AllocError>
    ensures { OnOk result (out.new.items ≡ out.old.items ++ text (each (stmt_doc n) stmts.now)) }
{
    for stmt in stmts {
        put_stmt(out, n, stmt)?;
    }
    Ok(())
}

/// A guard and its block.
#[cycle(print_stmt)]
fn put_arm(out: &mut Vec<u8>, n: usize, arm: &TreeArm) -> Result<(), AllocError>
    ensures { OnOk result (out.new.items ≡ out.old.items ++ text (arm_doc n (guard_of arm.now.guard) (each (stmt_doc (n + 2)) arm.now.block.items))) }
{
    out.extend_from_slice(b" ")?;
    put_guard(out, &arm.guard)?;
    out.extend_from_slice(b" ")?;
    put_block(out, n, &arm.block)
}

/// The arms of a chain, with ` else if` between them.
#[cycle(print_stmt)]
fn put_arms(out: &mut Vec<u8>, n: usize, arms: &[TreeArm]) -> Result<(), AllocError>
    ensures { OnOk result (out.new.items ≡ out.old.items ++ text (tree_arms_from false n arms.now)) }
{
    let mut behind = false;
    for arm in arms {
        put_else_if(out, behind)?;
        put_arm(out, n, arm)?;
        behind = true;
    }
    Ok(())
}

/// Statements at an indent of n.
pub fn put_stmts(out: &mut Vec<u8>, n: usize, stmts: &[TreeStmt]) -> Result<(), AllocError>
    ensures { OnOk result (out.new.items ≡ out.old.items ++ text (sts_doc n (sts_in stmts.now))) }
{
    put_list(out, n, stmts)?;
    Ok(())
}
