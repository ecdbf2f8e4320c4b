//! Bodies of implementations.
ghost use Rattle.std.specs.Prelude.{◌≡◌, ◌+◌, ◌++◌, [], false, map, flat_map, IfOk, IfErr, OnOk, length};
ghost use Rattle.bg_base.specs.declared.pos.Pos.{Pos};
ghost use Rattle.bg_text.specs.Views as v;
ghost use Rattle.bg_ast.specs.Views.{declared_of, impl_of, sts_in};
ghost use Rattle.bg_names.specs.Faults.{better};
ghost use Rattle.bg_names.specs.Spaces.{with_names, place, repeats};
ghost use Rattle.bg_bodies.specs.Bodies.{changes_at, named_sts, sts_faults, sts_count, sts_labels};
ghost use Rattle.bg_resolve.specs.Program.{frame_ids, inside, vars_faults, named_vars, code_faults, named_code};
ghost use Rattle.bg_spaces.specs.Declarations.{param_ids, vars_ids, named_groups};
ghost use Rattle.bg_names.specs.Views.{id_in, listed, first_of, inside_of};
ghost use Rattle.bg_bodies.specs.Views.{tree_sts};
ghost use Rattle.bg_spaces.specs.SpaceViews.{spaces_in};
ghost use Rattle.bg_resolve.specs.Pieces.{inside_in};
ghost use Rattle.bg_names.specs.declared.error.ResolveError.TheVariants.{Memory};

use bg_ast::resolved::{Declared, Implementation as Made, Stmt};
use bg_base::Pos;
use bg_bodies::bodies::stmts;
use bg_bodies::labels::push_labels;
use bg_names::changes::{Inside, declare};
use bg_names::copy::copy_name;
use bg_names::error::ResolveError;
use bg_names::exprs::number_of;
use bg_names::names::{Names, len, place};
use bg_names::notes::Notes;
use bg_names::walk::Walk;
use bg_spaces::entries::push_vars;
use bg_spaces::groups::{note_groups, push_groups};
use bg_spaces::signatures::{frame_names, param_names, results};
use bg_spaces::space::{Space, scope_in};
use bg_text::{Body, Formals, Name, Signature, TreeStmt, Variables};
use std::alloc::Global;

/// An implementation as it is written: where it begins, and the procedure's name, the signature and the body that it has.
#[derive(Clone, Copy)]
pub struct Written<'a> {
    pub pos: Pos,
    pub name: &'a Name,
    pub signature: &'a Signature,
    pub body: &'a Body,
}

/// The names of a list, each once; no fault is noted. Errors: Memory.
pub fn quiet_names<'a>(alloc: Global, ids: &[&'a Name]) -> Result<Names<'a>, ResolveError>
    ensures made { IfOk result (λ names. listed names ≡ with_names [] (map id_in ids.now)) }
    ensures err { IfErr result (λ e. e ≡ Memory) }
{
    let mut notes = Notes { first: None };
    let made = declare(alloc, &mut notes, ids);
    let Notes { first: _ } = notes;
    made
}

/// Variables of groups. Errors: Memory.
pub fn variables(alloc: Global, g: &Space, xs: &[Formals]) -> Result<Vec<Declared>, ResolveError>
    ensures made { IfOk result (λ made. map declared_of made.items ≡ named_groups (spaces_in g.now) (map v.group_of xs.now)) }
    ensures err { IfErr result (λ e. e ≡ Memory) }
{
    let mut out = Vec::new(alloc);
    push_groups(alloc, g, &mut out, xs)?;
    Ok(out)
}

/// Adds the names of locals.
fn push_locals<'a>(out: &mut Vec<&'a Name>, xs: &'a [Variables]) -> Result<(), ResolveError>
    ensures ok { OnOk result (map id_in out.new.items ≡ map id_in out.old.items ++ flat_map vars_ids (map v.vars_of xs.now)) }
    ensures err { IfErr result (λ e. e ≡ Memory) }
{
    for x in xs {
        push_vars(out, x)?;
    }
    Ok(())
}

/// The names of parameters, results and locals.
fn body_names<'a>(
    alloc: Global,
    s: &'a Signature,
    b: &'a Body,
) -> Result<Vec<&'a Name>, ResolveError>
    ensures ok { IfOk result (λ names. map id_in names.items ≡ frame_ids (v.sig_of s.now) (v.body_of b.now)) }
    ensures err { IfErr result (λ e. e ≡ Memory) }
{
    let mut out = frame_names(alloc, s)?;
    push_locals(&mut out, &b.locals)?;
    Ok(out)
}

/// Notes the faults of the groups behind one `var`.
fn note_local<'a>(
    alloc: Global,
    g: &Space,
    notes: &mut Notes<'a>,
    x: &'a Variables,
) -> Result<(), ResolveError>
    ensures first { OnOk result (first_of notes.new ≡ better (first_of notes.old) (vars_faults (spaces_in g.now) (v.vars_of x.now))) }
    ensures err { IfErr result (λ e. e ≡ Memory) }
{
    note_groups(alloc, g, notes, &x.groups)
}

/// Notes the faults of locals.
fn note_locals<'a>(
    alloc: Global,
    g: &Space,
    notes: &mut Notes<'a>,
    xs: &'a [Variables],
) -> Result<(), ResolveError>
    ensures first { OnOk result (first_of notes.new ≡ better (first_of notes.old) (flat_map (vars_faults (spaces_in g.now)) (map v.vars_of xs.now))) }
    ensures err { IfErr result (λ e. e ≡ Memory) }
{
    for x in xs {
        note_local(alloc, g, notes, x)?;
    }
    Ok(())
}

/// Adds the locals behind one `var`.
fn push_local(
    alloc: Global,
    g: &Space,
    out: &mut Vec<Declared>,
    x: &Variables,
) -> Result<(), ResolveError>
    ensures ok { OnOk result (map declared_of out.new.items ≡ map declared_of out.old.items ++ named_vars (spaces_in g.now) (v.vars_of x.now)) }
    ensures err { IfErr result (λ e. e ≡ Memory) }
{
    push_groups(alloc, g, out, &x.groups)
}

/// The locals, with their types.
fn locals(alloc: Global, g: &Space, xs: &[Variables]) -> Result<Vec<Declared>, ResolveError>
    ensures made { IfOk result (λ made. map declared_of made.items ≡ flat_map (named_vars (spaces_in g.now)) (map v.vars_of xs.now)) }
    ensures err { IfErr result (λ e. e ≡ Memory) }
{
    let mut out = Vec::new(alloc);
    for x in xs {
        push_local(alloc, g, &mut out, x)?;
    }
    Ok(out)
}

/// The globals that a procedure modifies.
fn modified_by<'s>(g: &'s Space, name: &[u8]) -> &'s [u32]
    ensures { result.now ≡ changes_at (spaces_in g.now).changes (place (spaces_in g.now).procedures name.now) }
{
    let Some(at) = place(&g.procedures, name) else {
        return &[];
    };
    match g.changes.get(at) {
        Some(ks) => ks.as_slice(),
        None => &[],
    }
}

/// What names mean in a body.
fn inside_in<'s, 'a>(
    g: &'s Space<'a>,
    frame: &'s Names<'a>,
    inputs: usize,
    name: &Name,
    labels: &'s Names<'a>,
) -> Inside<'s, 'a>
    ensures { inside_of result ≡ inside_in (spaces_in g.now) (listed frame.now) inputs (v.id_of name.now) (listed labels.now) }
{
    Inside {
        scope: scope_in(g, frame, true, true),
        inputs,
        modifies: modified_by(g, &name.text),
        globals: &g.globals,
        procedures: &g.procedures,
        changes: &g.changes,
        labels,
    }
}

/// The statements of a body, with the next numbers.
fn statements<'a>(
    alloc: Global,
    inside: &Inside<'_, 'a>,
    notes: &mut Notes<'a>,
    next: &mut usize,
    ss: &'a [TreeStmt],
) -> Result<Vec<Stmt>, ResolveError>
    ensures made { IfOk result (λ made. sts_in made.items ≡ named_sts (inside_of inside.now) next.old 0 [] [] (tree_sts ss.now)) }
    ensures first { OnOk result (first_of notes.new ≡ better (first_of notes.old) (sts_faults (inside_of inside.now) [] false [] [] (tree_sts ss.now))) }
    ensures next { OnOk result (next.new ≡ next.old + sts_count (tree_sts ss.now)) }
    ensures err { IfErr result (λ e. e ≡ Memory) }
{
    let mut walk = Walk {
        notes: Notes { first: notes.first },
        next: *next,
        ahead: Vec::new(alloc),
        blocks: Vec::new(alloc),
    };
    let made = stmts(alloc, inside, &mut walk, None, ss);
    let Walk {
        notes: Notes { first },
        next: after,
        ahead: _ahead,
        blocks: _blocks,
    } = walk;
    notes.first = first;
    *next = after;
    made
}

/// The names and faults of a body's frame.
fn frame<'a>(
    alloc: Global,
    notes: &mut Notes<'a>,
    s: &'a Signature,
    b: &'a Body,
) -> Result<Names<'a>, ResolveError>
    ensures made { IfOk result (λ names. listed names ≡ with_names [] (frame_ids (v.sig_of s.now) (v.body_of b.now))) }
    ensures first { OnOk result (first_of notes.new ≡ better (first_of notes.old) (repeats [] (frame_ids (v.sig_of s.now) (v.body_of b.now)))) }
    ensures err { IfErr result (λ e. e ≡ Memory) }
{
    let names = body_names(alloc, s, b)?;
    declare(alloc, notes, &names)
}

/// The labels of a body.
fn labels<'a>(
    alloc: Global,
    notes: &mut Notes<'a>,
    ss: &'a [TreeStmt],
) -> Result<Names<'a>, ResolveError>
    ensures made { IfOk result (λ names. listed names ≡ with_names [] (sts_labels (tree_sts ss.now))) }
    ensures first { OnOk result (first_of notes.new ≡ better (first_of notes.old) (repeats [] (sts_labels (tree_sts ss.now)))) }
    ensures err { IfErr result (λ e. e ≡ Memory) }
{
    let mut names = Vec::new(alloc);
    push_labels(&mut names, ss)?;
    declare(alloc, notes, &names)
}

/// How many names the parameters have.
fn inputs(alloc: Global, s: &Signature) -> Result<usize, ResolveError>
    ensures made { IfOk result (λ n. n ≡ length (with_names [] (param_ids (v.sig_of s.now)))) }
    ensures err { IfErr result (λ e. e ≡ Memory) }
{
    let names = param_names(alloc, s)?;
    let names = quiet_names(alloc, &names)?;
    Ok(len(&names))
}

/// A body's declarations and statements.
fn inner<'a>(
    alloc: Global,
    g: &Space<'a>,
    notes: &mut Notes<'a>,
    next: &mut usize,
    x: &Written<'a>,
) -> Result<Vec<Stmt>, ResolveError>
    ensures made { IfOk result (λ made. sts_in made.items ≡ named_sts (inside (spaces_in g.now) (v.id_of x.now.name.now) (v.sig_of x.now.signature.now) (v.body_of x.now.body.now)) next.old 0 [] [] (v.body_of x.now.body.now).stmts) }
    ensures first { OnOk result (first_of notes.new ≡ better (first_of notes.old) (code_faults (spaces_in g.now) (v.id_of x.now.name.now) (v.sig_of x.now.signature.now) (v.body_of x.now.body.now))) }
    ensures next { OnOk result (next.new ≡ next.old + sts_count (v.body_of x.now.body.now).stmts) }
    ensures err { IfErr result (λ e. e ≡ Memory) }
{
    let frame = frame(alloc, notes, x.signature, x.body)?;
    note_locals(alloc, g, notes, &x.body.locals)?;
    let labels = labels(alloc, notes, &x.body.stmts)?;
    let inputs = inputs(alloc, x.signature)?;
    let inside = inside_in(g, &frame, inputs, x.name, &labels);
    statements(alloc, &inside, notes, next, &x.body.stmts)
}

/// An implementation. Errors: Memory.
pub fn code<'a>(
    alloc: Global,
    g: &Space<'a>,
    notes: &mut Notes<'a>,
    next: &mut usize,
    x: &Written<'a>,
) -> Result<Made, ResolveError>
    ensures made { IfOk result (λ m. impl_of m ≡ named_code (spaces_in g.now) next.old x.now.pos (v.id_of x.now.name.now) (v.sig_of x.now.signature.now) (v.body_of x.now.body.now)) }
    ensures first { OnOk result (first_of notes.new ≡ better (first_of notes.old) (code_faults (spaces_in g.now) (v.id_of x.now.name.now) (v.sig_of x.now.signature.now) (v.body_of x.now.body.now))) }
    ensures next { OnOk result (next.new ≡ next.old + sts_count (v.body_of x.now.body.now).stmts) }
    ensures err { IfErr result (λ e. e ≡ Memory) }
{
    let procedure = number_of(&g.procedures, x.name)?;
    let name = copy_name(alloc, x.name)?;
    let params = variables(alloc, g, &x.signature.params)?;
    let results = variables(alloc, g, results(x.signature))?;
    let locals = locals(alloc, g, &x.body.locals)?;
    let body = inner(alloc, g, notes, next, x)?;
    Ok(Made {
        pos: x.pos,
        name,
        procedure,
        params,
        results,
        locals,
        body,
    })
}
