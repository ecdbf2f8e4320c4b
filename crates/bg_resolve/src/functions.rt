//! Functions.
ghost use Rattle.std.specs.Prelude.{◌≡◌, false, ◌++◌, [], ◌||◌, map, flat_map, IfOk, IfErr, OnOk};
ghost use Rattle.bg_base.specs.declared.pos.Pos.{Pos};
ghost use Rattle.bg_text.specs.Views as v;
ghost use Rattle.bg_ast.specs.Views.{fun_of, type_of, ex_of};
ghost use Rattle.bg_names.specs.Faults.{better};
ghost use Rattle.bg_names.specs.Exprs.{ty_faults, named_ex};
ghost use Rattle.bg_resolve.specs.Program.{arg_ids, type_pos, arg_faults, arg_type, result_type, has_body, body_faults, function_faults, named_function, named_functions};
ghost use Rattle.bg_spaces.specs.Declarations.{scope_in};
ghost use Rattle.bg_names.specs.Spaces.{names_of, repeats};
ghost use Rattle.bg_names.specs.Views.{id_in, listed, first_of, scope_of};
ghost use Rattle.bg_spaces.specs.SpaceViews.{spaces_in};
ghost use Rattle.bg_resolve.specs.Parts.{function_faults_of};
ghost use Rattle.bg_names.specs.declared.error.ResolveError.TheVariants.{Memory};

use bg_ast::resolved::{Expr, Function as Made, WrittenType};
use bg_base::Pos;
use bg_names::changes::declare;
use bg_names::copy::copy_name;
use bg_names::error::{FaultKind, ResolveError};
use bg_names::exprs::expr;
use bg_names::names::Names;
use bg_names::notes::{Notes, note_unless};
use bg_names::scope::Scope;
use bg_spaces::groups::{note_ty, quiet_ty};
use bg_spaces::space::{Space, scope_in};
use bg_text::{Decl, Function, FunctionArg, FunctionResult, Name, TreeExpr, TreeType};
use std::alloc::Global;

/// Adds the name of an argument.
fn push_arg_name<'a>(out: &mut Vec<&'a Name>, a: &'a FunctionArg) -> Result<(), ResolveError>
    ensures ok { OnOk result (map id_in out.new.items ≡ map id_in out.old.items ++ arg_ids (v.fun_arg_of a.now)) }
    ensures err { IfErr result (λ e. e ≡ Memory) }
{
    if let Some(name) = &a.name {
        out.push(name)?;
    }
    Ok(())
}

/// The names of arguments.
fn arg_names<'a>(alloc: Global, args: &'a [FunctionArg]) -> Result<Vec<&'a Name>, ResolveError>
    ensures ok { IfOk result (λ names. map id_in names.items ≡ flat_map arg_ids (map v.fun_arg_of args.now)) }
    ensures err { IfErr result (λ e. e ≡ Memory) }
{
    let mut out = Vec::new(alloc);
    for a in args {
        push_arg_name(&mut out, a)?;
    }
    Ok(out)
}

/// Where a type begins.
fn type_pos(e: &TreeType) -> Pos
    ensures { result ≡ type_pos (v.type_of e.now) }
{
    match e {
        TreeType::Int(pos) => *pos,
        TreeType::Bool(pos) => *pos,
        TreeType::Named(name) => name.pos,
        TreeType::Parens(pos, _) => *pos,
        TreeType::Map(brackets, e) => match brackets.first() {
            Some(b) => b.pos,
            None => type_pos(e),
        },
    }
}

/// Notes the faults of an argument, of a function with a body or without.
fn note_arg<'a>(
    alloc: Global,
    g: &Space,
    notes: &mut Notes<'a>,
    has_body: bool,
    a: &'a FunctionArg,
) -> Result<(), ResolveError>
    ensures first { OnOk result (first_of notes.new ≡ better (first_of notes.old) (arg_faults (spaces_in g.now) has_body (v.fun_arg_of a.now))) }
    ensures err { IfErr result (λ e. e ≡ Memory) }
{
    let fits = !has_body || a.name.is_some();
    note_unless(
        notes,
        fits,
        FaultKind::UnnamedArgument,
        type_pos(&a.ty),
        b"",
    );
    note_ty(alloc, g, notes, &a.ty)
}

/// Notes the faults of arguments.
fn note_args<'a>(
    alloc: Global,
    g: &Space,
    notes: &mut Notes<'a>,
    has_body: bool,
    args: &'a [FunctionArg],
) -> Result<(), ResolveError>
    ensures first { OnOk result (first_of notes.new ≡ better (first_of notes.old) (flat_map (arg_faults (spaces_in g.now) has_body) (map v.fun_arg_of args.now))) }
    ensures err { IfErr result (λ e. e ≡ Memory) }
{
    for a in args {
        note_arg(alloc, g, notes, has_body, a)?;
    }
    Ok(())
}

/// The types of arguments.
fn arg_types(
    alloc: Global,
    g: &Space,
    args: &[FunctionArg],
) -> Result<Vec<WrittenType>, ResolveError>
    ensures made { IfOk result (λ xs. map type_of xs.items ≡ map (arg_type (spaces_in g.now)) (map v.fun_arg_of args.now)) }
    ensures err { IfErr result (λ e. e ≡ Memory) }
{
    let mut out = Vec::new(alloc);
    for a in args {
        let ty = quiet_ty(alloc, g, &a.ty)?;
        out.push(ty)?;
    }
    Ok(out)
}

/// The type of a result.
fn result_type(x: &FunctionResult) -> &TreeType
    ensures { v.type_of result.now ≡ result_type (v.fun_result_of x.now) }
{
    match x {
        FunctionResult::Returns(a) => &a.ty,
        FunctionResult::Colon(e) => e,
    }
}

/// A body.
fn body<'a>(
    alloc: Global,
    scope: &Scope,
    notes: &mut Notes<'a>,
    e: &'a Option<TreeExpr>,
) -> Result<Option<Expr>, ResolveError>
    ensures made { IfOk result (λ x. v.option_of ex_of x ≡ v.option_of (named_ex (scope_of scope.now)) (v.option_of v.ex_of e.now)) }
    ensures first { OnOk result (first_of notes.new ≡ better (first_of notes.old) (body_faults (scope_of scope.now) (v.option_of v.ex_of e.now))) }
    ensures err { IfErr result (λ e. e ≡ Memory) }
{
    match e {
        None => Ok(None),
        Some(e) => Ok(Some(expr(alloc, scope, notes, e)?)),
    }
}

/// A body, where the frame has the names of the arguments.
fn body_in<'s, 'a>(
    alloc: Global,
    g: &'s Space<'a>,
    frame: &'s Names<'a>,
    notes: &mut Notes<'a>,
    e: &'a Option<TreeExpr>,
) -> Result<Option<Expr>, ResolveError>
    ensures made { IfOk result (λ x. v.option_of ex_of x ≡ v.option_of (named_ex (scope_in (spaces_in g.now) (listed frame.now) false false)) (v.option_of v.ex_of e.now)) }
    ensures first { OnOk result (first_of notes.new ≡ better (first_of notes.old) (body_faults (scope_in (spaces_in g.now) (listed frame.now) false false) (v.option_of v.ex_of e.now))) }
    ensures err { IfErr result (λ e. e ≡ Memory) }
{
    let scope = scope_in(g, frame, false, false);
    body(alloc, &scope, notes, e)
}

/// The names of arguments, each once; a second one is a fault.
fn arg_frame<'a>(
    alloc: Global,
    notes: &mut Notes<'a>,
    args: &'a [FunctionArg],
) -> Result<Names<'a>, ResolveError>
    ensures made { IfOk result (λ names. listed names ≡ names_of (flat_map arg_ids (map v.fun_arg_of args.now))) }
    ensures first { OnOk result (first_of notes.new ≡ better (first_of notes.old) (repeats [] (flat_map arg_ids (map v.fun_arg_of args.now)))) }
    ensures err { IfErr result (λ e. e ≡ Memory) }
{
    let names = arg_names(alloc, args)?;
    declare(alloc, notes, &names)
}

/// Notes the faults of the arguments and the result of a function.
fn note_types<'a>(
    alloc: Global,
    g: &Space,
    notes: &mut Notes<'a>,
    f: &'a Function,
) -> Result<(), ResolveError>
    ensures first { OnOk result (first_of notes.new ≡ better (first_of notes.old) (flat_map (arg_faults (spaces_in g.now) (has_body (v.fun_of f.now).body)) (v.fun_of f.now).args ++ ty_faults (spaces_in g.now).types (result_type (v.fun_of f.now).result))) }
    ensures err { IfErr result (λ e. e ≡ Memory) }
{
    note_args(alloc, g, notes, f.body.is_some(), &f.args)?;
    note_ty(alloc, g, notes, result_type(&f.result))
}

/// A function with this body.
fn with_body(
    alloc: Global,
    g: &Space,
    f: &Function,
    body: Option<Expr>,
) -> Result<Made, ResolveError>
    ensures made { IfOk result (λ x. fun_of x ≡ record (named_function (spaces_in g.now) (v.fun_of f.now)) { body = v.option_of ex_of body }) }
    ensures err { IfErr result (λ e. e ≡ Memory) }
{
    let name = copy_name(alloc, &f.name)?;
    let params = arg_types(alloc, g, &f.args)?;
    let result = quiet_ty(alloc, g, result_type(&f.result))?;
    Ok(Made {
        name,
        params,
        result,
        body,
    })
}

/// A function.
fn function<'a>(
    alloc: Global,
    g: &Space<'a>,
    notes: &mut Notes<'a>,
    f: &'a Function,
) -> Result<Made, ResolveError>
    ensures made { IfOk result (λ x. fun_of x ≡ named_function (spaces_in g.now) (v.fun_of f.now)) }
    ensures first { OnOk result (first_of notes.new ≡ better (first_of notes.old) (function_faults (spaces_in g.now) (v.fun_of f.now))) }
    ensures err { IfErr result (λ e. e ≡ Memory) }
{
    let frame = arg_frame(alloc, notes, &f.args)?;
    note_types(alloc, g, notes, f)?;
    let body = body_in(alloc, &*g, &frame, notes, &f.body)?;
    with_body(alloc, g, f, body)
}

/// Adds the function of a declaration. Errors: Memory.
pub fn push_functions<'a>(
    alloc: Global,
    g: &Space<'a>,
    notes: &mut Notes<'a>,
    out: &mut Vec<Made>,
    d: &'a Decl,
) -> Result<(), ResolveError>
    ensures made { OnOk result (map fun_of out.new.items ≡ map fun_of out.old.items ++ named_functions (spaces_in g.now) (v.decl_of d.now)) }
    ensures first { OnOk result (first_of notes.new ≡ better (first_of notes.old) (function_faults_of (spaces_in g.now) (v.decl_of d.now))) }
    ensures err { IfErr result (λ e. e ≡ Memory) }
{
    match d {
        Decl::Function(f) => {
            let x = function(alloc, g, notes, f)?;
            out.push(x)?;
            Ok(())
        }
        _ => Ok(()),
    }
}
