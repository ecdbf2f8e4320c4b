//! Declarations, each on lines of its own.
ghost use Rattle.std.specs.Prelude.{◌≡◌, ◌++◌, OnOk, map};
ghost use Rattle.bg_text.specs.declared.token.Kind.TheVariants as kinds;
ghost use Rattle.bg_text.specs.Views.{type_of, ex_of, option_of, attr_of, clause_of, new_type_of, id_of, fun_arg_of, fun_result_of, group_of, groups_of, sig_of, spec_of, vars_of, body_of, consts_of, fun_of, proc_of, impl_of, decl_of};
ghost use Rattle.bg_text.specs.Trees.{Types, Axiom};
ghost use Rattle.bg_print.specs.Docs.{Say, Space, ◌⨾◌, text, each, commas, if_there, spaced, line};
ghost use Rattle.bg_print.specs.Exprs.{ex_doc};
ghost use Rattle.bg_print.specs.Parts.{attr_doc, clause_doc, word_doc};
ghost use Rattle.bg_print.specs.Printed.{synonym_doc, new_type_doc, typed_doc, fun_arg_doc, fun_result_doc, fun_end_doc, groups_doc, returns_doc, sig_doc, modified_doc, spec_doc, vars_doc, local_doc, body_doc, tail_doc, types_line, const_doc, fun_doc, proc_doc, impl_doc, decl_doc};

use crate::exprs::put_expr;
use crate::names::{put_name, put_names};
use crate::parts::{put_attributes, put_clause, put_groups};
use crate::put::put_gap;
use crate::stmts::put_stmts;
use crate::types::put_type;
use bg_text::{
    Attribute, Body, Constants, Decl, Formals, Function, FunctionArg, FunctionResult,
    Implementation, Name, Procedure, Signature, Spec, TreeClause, TreeExpr, TreeType, TypeDecl,
    Variables,
};
use std::alloc::AllocError;

fn put_synonym(out: &mut Vec<u8>, synonym: &Option<TreeType>) -> Result<(), AllocError>
    ensures { OnOk result (out.new.items ≡ out.old.items ++ text (if_there synonym_doc (option_of type_of synonym.now))) }
{
    match synonym {
        None => Ok(()),
        Some(ty) => {
            out.extend_from_slice(b" = ")?;
            put_type(out, ty)
        }
    }
}

fn put_new_type(out: &mut Vec<u8>, decl: &TypeDecl) -> Result<(), AllocError>
    ensures { OnOk result (out.new.items ≡ out.old.items ++ text (new_type_doc (new_type_of decl.now))) }
{
    put_name(out, &decl.name)?;
    put_synonym(out, &decl.synonym)
}

fn put_new_types(out: &mut Vec<u8>, decls: &[TypeDecl]) -> Result<(), AllocError>
    ensures { OnOk result (out.new.items ≡ out.old.items ++ text (commas new_type_doc (map new_type_of decls.now))) }
{
    let mut behind = false;
    for decl in decls {
        put_gap(out, behind)?;
        put_new_type(out, decl)?;
        behind = true;
    }
    Ok(())
}

fn put_typed(out: &mut Vec<u8>, name: &Option<Name>) -> Result<(), AllocError>
    ensures { OnOk result (out.new.items ≡ out.old.items ++ text (if_there typed_doc (option_of id_of name.now))) }
{
    match name {
        None => Ok(()),
        Some(name) => {
            put_name(out, name)?;
            out.extend_from_slice(b": ")
        }
    }
}

fn put_function_arg(out: &mut Vec<u8>, arg: &FunctionArg) -> Result<(), AllocError>
    ensures { OnOk result (out.new.items ≡ out.old.items ++ text (fun_arg_doc (fun_arg_of arg.now))) }
{
    put_typed(out, &arg.name)?;
    put_type(out, &arg.ty)
}

fn put_function_args(out: &mut Vec<u8>, args: &[FunctionArg]) -> Result<(), AllocError>
    ensures { OnOk result (out.new.items ≡ out.old.items ++ text (commas fun_arg_doc (map fun_arg_of args.now))) }
{
    let mut behind = false;
    for arg in args {
        put_gap(out, behind)?;
        put_function_arg(out, arg)?;
        behind = true;
    }
    Ok(())
}

fn put_function_result(out: &mut Vec<u8>, given: &FunctionResult) -> Result<(), AllocError>
    ensures { OnOk result (out.new.items ≡ out.old.items ++ text (fun_result_doc (fun_result_of given.now))) }
{
    match given {
        FunctionResult::Returns(arg) => {
            out.extend_from_slice(b" returns (")?;
            put_function_arg(out, arg)?;
            out.extend_from_slice(b")")
        }
        FunctionResult::Colon(ty) => {
            out.extend_from_slice(b": ")?;
            put_type(out, ty)
        }
    }
}

fn put_function_end(out: &mut Vec<u8>, body: &Option<TreeExpr>) -> Result<(), AllocError>
    ensures { OnOk result (out.new.items ≡ out.old.items ++ text (fun_end_doc (option_of ex_of body.now))) }
{
    match body {
        None => out.extend_from_slice(b";"),
        Some(e) => {
            out.extend_from_slice(b" { ")?;
            put_expr(out, e)?;
            out.extend_from_slice(b" }")
        }
    }
}

fn put_function(out: &mut Vec<u8>, function: &Function) -> Result<(), AllocError>
    ensures { OnOk result (out.new.items ≡ out.old.items ++ text (fun_doc (fun_of function.now))) }
{
    out.extend_from_slice(b"function ")?;
    put_attributes(out, &function.attributes)?;
    put_name(out, &function.name)?;
    out.extend_from_slice(b"(")?;
    put_function_args(out, &function.args)?;
    out.extend_from_slice(b")")?;
    put_function_result(out, &function.result)?;
    put_function_end(out, &function.body)?;
    Ok(())
}

fn put_unique(out: &mut Vec<u8>, is_unique: bool) -> Result<(), AllocError>
    ensures { OnOk result (out.new.items ≡ out.old.items ++ text (word_doc is_unique kinds.Unique)) }
{
    if is_unique {
        out.extend_from_slice(b"unique ")
    } else {
        Ok(())
    }
}

fn put_constants(out: &mut Vec<u8>, constants: &Constants) -> Result<(), AllocError>
    ensures { OnOk result (out.new.items ≡ out.old.items ++ text (const_doc (consts_of constants.now))) }
{
    out.extend_from_slice(b"const ")?;
    put_attributes(out, &constants.formals.attributes)?;
    put_unique(out, constants.is_unique)?;
    put_names(out, &constants.formals.names)?;
    out.extend_from_slice(b": ")?;
    put_type(out, &constants.formals.ty)?;
    out.extend_from_slice(b";")
}

fn put_variables(out: &mut Vec<u8>, variables: &Variables) -> Result<(), AllocError>
    ensures { OnOk result (out.new.items ≡ out.old.items ++ text (vars_doc (vars_of variables.now))) }
{
    out.extend_from_slice(b"var ")?;
    put_groups(out, &variables.groups)?;
    out.extend_from_slice(b";")
}

fn put_results(out: &mut Vec<u8>, results: &Option<Vec<Formals>>) -> Result<(), AllocError>
    ensures { OnOk result (out.new.items ≡ out.old.items ++ text (if_there returns_doc (option_of (λ gs. groups_of gs.items) results.now))) }
{
    match results {
        None => Ok(()),
        Some(groups) => {
            out.extend_from_slice(b" returns (")?;
            put_groups(out, groups)?;
            out.extend_from_slice(b")")
        }
    }
}

fn put_signature(out: &mut Vec<u8>, signature: &Signature) -> Result<(), AllocError>
    ensures { OnOk result (out.new.items ≡ out.old.items ++ text (sig_doc (sig_of signature.now))) }
{
    out.extend_from_slice(b"(")?;
    put_groups(out, &signature.params)?;
    out.extend_from_slice(b")")?;
    put_results(out, &signature.results)
}

fn put_modified(out: &mut Vec<u8>, names: &[Name]) -> Result<(), AllocError>
    ensures { OnOk result (out.new.items ≡ out.old.items ++ text (modified_doc (map id_of names.now))) }
{
    if names.is_empty() {
        return Ok(());
    }
    out.extend_from_slice(b" ")?;
    put_names(out, names)
}

fn put_requires(out: &mut Vec<u8>, clause: &TreeClause) -> Result<(), AllocError>
    ensures { OnOk result (out.new.items ≡ out.old.items ++ text (line 2 (clause_doc kinds.Requires (clause_of clause.now)))) }
{
    put_clause(out, 2, b"requires ", clause)
}

fn put_ensures(out: &mut Vec<u8>, clause: &TreeClause) -> Result<(), AllocError>
    ensures { OnOk result (out.new.items ≡ out.old.items ++ text (line 2 (clause_doc kinds.Ensures (clause_of clause.now)))) }
{
    put_clause(out, 2, b"ensures ", clause)
}

fn put_modifies(out: &mut Vec<u8>, names: &[Name]) -> Result<(), AllocError>
    ensures { OnOk result (out.new.items ≡ out.old.items ++ text (line 2 (Say kinds.Modifies ⨾ modified_doc (map id_of names.now) ⨾ Say kinds.Semicolon))) }
{
    out.extend_from_slice(b"  modifies")?;
    put_modified(out, names)?;
    out.extend_from_slice(b";\n")
}

fn put_spec(out: &mut Vec<u8>, spec: &Spec) -> Result<(), AllocError>
    ensures { OnOk result (out.new.items ≡ out.old.items ++ text (spec_doc (spec_of spec.now))) }
{
    match spec {
        Spec::Requires(clause) => put_requires(out, clause),
        Spec::Ensures(clause) => put_ensures(out, clause),
        Spec::Modifies(_, names) => put_modifies(out, names),
    }
}

fn put_specs(out: &mut Vec<u8>, specs: &[Spec]) -> Result<(), AllocError>
    ensures { OnOk result (out.new.items ≡ out.old.items ++ text (each spec_doc (map spec_of specs.now))) }
{
    for spec in specs {
        put_spec(out, spec)?;
    }
    Ok(())
}

fn put_local(out: &mut Vec<u8>, variables: &Variables) -> Result<(), AllocError>
    ensures { OnOk result (out.new.items ≡ out.old.items ++ text (local_doc (vars_of variables.now))) }
{
    out.extend_from_slice(b"  ")?;
    put_variables(out, variables)?;
    out.extend_from_slice(b"\n")
}

fn put_locals(out: &mut Vec<u8>, locals: &[Variables]) -> Result<(), AllocError>
    ensures { OnOk result (out.new.items ≡ out.old.items ++ text (each local_doc (map vars_of locals.now))) }
{
    for variables in locals {
        put_local(out, variables)?;
    }
    Ok(())
}

fn put_body(out: &mut Vec<u8>, body: &Body) -> Result<(), AllocError>
    ensures { OnOk result (out.new.items ≡ out.old.items ++ text (body_doc (body_of body.now))) }
{
    out.extend_from_slice(b"{\n")?;
    put_locals(out, &body.locals)?;
    put_stmts(out, 2, &body.stmts)?;
    out.extend_from_slice(b"}\n")
}

/// What follows a procedure's signature.
fn put_tail(out: &mut Vec<u8>, specs: &[Spec], body: &Option<Body>) -> Result<(), AllocError>
    ensures { OnOk result (out.new.items ≡ out.old.items ++ text (tail_doc (map spec_of specs.now) (option_of body_of body.now))) }
{
    match body {
        None => {
            out.extend_from_slice(b";\n")?;
            put_specs(out, specs)
        }
        Some(body) => {
            out.extend_from_slice(b"\n")?;
            put_specs(out, specs)?;
            put_body(out, body)
        }
    }
}

fn put_procedure(out: &mut Vec<u8>, procedure: &Procedure) -> Result<(), AllocError>
    ensures { OnOk result (out.new.items ≡ out.old.items ++ text (proc_doc (proc_of procedure.now))) }
{
    out.extend_from_slice(b"procedure ")?;
    put_attributes(out, &procedure.attributes)?;
    put_name(out, &procedure.name)?;
    put_signature(out, &procedure.signature)?;
    put_tail(out, &procedure.specs, &procedure.body)
}

fn put_implementation(out: &mut Vec<u8>, implementation: &Implementation) -> Result<(), AllocError>
    ensures { OnOk result (out.new.items ≡ out.old.items ++ text (impl_doc (impl_of implementation.now))) }
{
    out.extend_from_slice(b"implementation ")?;
    put_attributes(out, &implementation.attributes)?;
    put_name(out, &implementation.name)?;
    put_signature(out, &implementation.signature)?;
    out.extend_from_slice(b"\n")?;
    put_body(out, &implementation.body)
}

fn put_type_decl(
    out: &mut Vec<u8>,
    attributes: &[Attribute],
    decls: &[TypeDecl],
) -> Result<(), AllocError>
    ensures { OnOk result (out.new.items ≡ out.old.items ++ text (line 0 (Say kinds.Type ⨾ Space ⨾ each attr_doc (map attr_of attributes.now) ⨾ types_line (map new_type_of decls.now)))) }
{
    out.extend_from_slice(b"type ")?;
    put_attributes(out, attributes)?;
    put_new_types(out, decls)?;
    out.extend_from_slice(b";\n")
}

fn put_axiom(out: &mut Vec<u8>, attributes: &[Attribute], e: &TreeExpr) -> Result<(), AllocError>
    ensures { OnOk result (out.new.items ≡ out.old.items ++ text (line 0 (Say kinds.Axiom ⨾ Space ⨾ each attr_doc (map attr_of attributes.now) ⨾ ex_doc (ex_of e.now) ⨾ Say kinds.Semicolon))) }
{
    out.extend_from_slice(b"axiom ")?;
    put_attributes(out, attributes)?;
    put_expr(out, e)?;
    out.extend_from_slice(b";\n")
}

fn put_decl(out: &mut Vec<u8>, decl: &Decl) -> Result<(), AllocError>
    ensures { OnOk result (out.new.items ≡ out.old.items ++ text (decl_doc (decl_of decl.now))) }
{
    match decl {
        Decl::Types(_, attributes, decls) => put_type_decl(out, attributes, decls),
        Decl::Constants(constants) => {
            put_constants(out, constants)?;
            out.extend_from_slice(b"\n")
        }
        Decl::Function(function) => {
            put_function(out, function)?;
            out.extend_from_slice(b"\n")
        }
        Decl::Axiom(_, attributes, e) => put_axiom(out, attributes, e),
        Decl::Variables(variables) => {
            put_variables(out, variables)?;
            out.extend_from_slice(b"\n")
        }
        Decl::Procedure(procedure) => put_procedure(out, procedure),
        Decl::Implementation(implementation) => put_implementation(out, implementation),
    }
}

/// Declarations one after the other.
pub fn put_decls(out: &mut Vec<u8>, decls: &[Decl]) -> Result<(), AllocError>
    ensures { OnOk result (out.new.items ≡ out.old.items ++ text (each decl_doc (map decl_of decls.now))) }
{
    for decl in decls {
        put_decl(out, decl)?;
    }
    Ok(())
}
