//! The types of declarations.
ghost use Rattle.std.specs.Prelude.{◌≡◌, ◌++◌, ◌∷◌, [], map, IfOk, OnOk};
ghost use Rattle.bg_ast.specs.Views.{type_of, declared_of, const_of, fun_of, proc_of, impl_of, type_name_of, program_of};
ghost use Rattle.bg_kinds.specs.Faults.{first_of};
ghost use Rattle.bg_kinds.specs.Kinds.{kind_in, named_by};
ghost use Rattle.bg_types.specs.Programs.{declared_kinds, declared_faults, written_faults, synonym_faults, synonyms_faults, consts_faults, const_kind, function_shape, shape_faults, functions_faults, procedure_shape, two_lists_faults, procedures_faults, frame_faults, frame_kinds, implementations_faults, procedure_frame, implementation_frame, types_part};
ghost use Rattle.bg_types.specs.Tables.{IsTables, frame_of};
ghost use Rattle.bg_kinds.specs.FaultViews.{best_of};
ghost use Rattle.bg_kinds.specs.KindViews.{kinds_in};
ghost use Rattle.bg_typing.specs.SideViews.{shape_of};

use bg_ast::resolved::{
    Constant, Declared, Function, Implementation, Procedure, Resolved, TypeName, WrittenType,
};
use bg_kinds::{Found, ValueType, judge_type};
use bg_typing::Shape;
use std::alloc::{AllocError, Global};

/// The types of a frame: parameters, results and locals.
#[derive(Drop)]
pub struct Frame {
    pub kinds: Vec<Option<ValueType>>,
}

/// Adds the types of declarations.
fn push_declared<'a>(
    alloc: Global,
    named: &[Option<ValueType>],
    best: &mut Option<Found<'a>>,
    out: &mut Vec<Option<ValueType>>,
    ds: &[Declared],
) -> Result<(), AllocError>
    ensures best { OnOk result (best_of best.new ≡ first_of (best_of best.old) (declared_faults (named_by (kinds_in named.now)) (map declared_of ds.now))) }
    ensures kinds { OnOk result (kinds_in out.new.items ≡ kinds_in out.old.items ++ declared_kinds (named_by (kinds_in named.now)) (map declared_of ds.now)) }
{
    for d in ds {
        out.push(judge_type(alloc, named, best, &d.ty)?)?;
    }
    Ok(())
}

/// The types of declarations.
pub fn declared<'a>(
    alloc: Global,
    named: &[Option<ValueType>],
    best: &mut Option<Found<'a>>,
    ds: &[Declared],
) -> Result<Vec<Option<ValueType>>, AllocError>
    ensures best { OnOk result (best_of best.new ≡ first_of (best_of best.old) (declared_faults (named_by (kinds_in named.now)) (map declared_of ds.now))) }
    ensures kinds { IfOk result (λ made. kinds_in made.items ≡ declared_kinds (named_by (kinds_in named.now)) (map declared_of ds.now)) }
{
    let mut made = Vec::new(alloc);
    push_declared(alloc, named, best, &mut made, ds)?;
    Ok(made)
}

fn written<'a>(
    alloc: Global,
    named: &[Option<ValueType>],
    best: &mut Option<Found<'a>>,
    ts: &[WrittenType],
) -> Result<Vec<Option<ValueType>>, AllocError>
    ensures best { OnOk result (best_of best.new ≡ first_of (best_of best.old) (written_faults (named_by (kinds_in named.now)) (map type_of ts.now))) }
    ensures kinds { IfOk result (λ made. kinds_in made.items ≡ map (kind_in (named_by (kinds_in named.now))) (map type_of ts.now)) }
{
    let mut made = Vec::new(alloc);
    for t in ts {
        made.push(judge_type(alloc, named, best, t)?)?;
    }
    Ok(made)
}

pub fn constants<'a>(
    alloc: Global,
    named: &[Option<ValueType>],
    best: &mut Option<Found<'a>>,
    cs: &[Constant],
) -> Result<Vec<Option<ValueType>>, AllocError>
    ensures best { OnOk result (best_of best.new ≡ first_of (best_of best.old) (consts_faults (named_by (kinds_in named.now)) (map const_of cs.now))) }
    ensures kinds { IfOk result (λ made. kinds_in made.items ≡ map (const_kind (named_by (kinds_in named.now))) (map const_of cs.now)) }
{
    let mut made = Vec::new(alloc);
    for c in cs {
        made.push(judge_type(alloc, named, best, &c.ty)?)?;
    }
    Ok(made)
}

fn shape_of_function<'a>(
    alloc: Global,
    named: &[Option<ValueType>],
    best: &mut Option<Found<'a>>,
    f: &Function,
) -> Result<Shape, AllocError>
    ensures best { OnOk result (best_of best.new ≡ first_of (best_of best.old) (shape_faults (named_by (kinds_in named.now)) (fun_of f.now))) }
    ensures shape { IfOk result (λ made. shape_of made ≡ function_shape (named_by (kinds_in named.now)) (fun_of f.now)) }
{
    let params = written(alloc, named, best, &f.params)?;
    let result = judge_type(alloc, named, best, &f.result)?;
    let mut results = Vec::new(alloc);
    results.push(result)?;
    Ok(Shape { params, results })
}

pub fn functions<'a>(
    alloc: Global,
    named: &[Option<ValueType>],
    best: &mut Option<Found<'a>>,
    fs: &[Function],
) -> Result<Vec<Shape>, AllocError>
    ensures best { OnOk result (best_of best.new ≡ first_of (best_of best.old) (functions_faults (named_by (kinds_in named.now)) (map fun_of fs.now))) }
    ensures shapes { IfOk result (λ made. map shape_of made.items ≡ map (function_shape (named_by (kinds_in named.now))) (map fun_of fs.now)) }
{
    let mut made = Vec::new(alloc);
    for f in fs {
        made.push(shape_of_function(alloc, named, best, f)?)?;
    }
    Ok(made)
}

fn shape_of_procedure<'a>(
    alloc: Global,
    named: &[Option<ValueType>],
    best: &mut Option<Found<'a>>,
    q: &Procedure,
) -> Result<Shape, AllocError>
    ensures best { OnOk result (best_of best.new ≡ first_of (best_of best.old) (two_lists_faults (named_by (kinds_in named.now)) (proc_of q.now).params (proc_of q.now).results)) }
    ensures shape { IfOk result (λ made. shape_of made ≡ procedure_shape (named_by (kinds_in named.now)) (proc_of q.now)) }
{
    let params = declared(alloc, named, best, &q.params)?;
    let results = declared(alloc, named, best, &q.results)?;
    Ok(Shape { params, results })
}

pub fn procedures<'a>(
    alloc: Global,
    named: &[Option<ValueType>],
    best: &mut Option<Found<'a>>,
    qs: &[Procedure],
) -> Result<Vec<Shape>, AllocError>
    ensures best { OnOk result (best_of best.new ≡ first_of (best_of best.old) (procedures_faults (named_by (kinds_in named.now)) (map proc_of qs.now))) }
    ensures shapes { IfOk result (λ made. map shape_of made.items ≡ map (procedure_shape (named_by (kinds_in named.now))) (map proc_of qs.now)) }
{
    let mut made = Vec::new(alloc);
    for q in qs {
        made.push(shape_of_procedure(alloc, named, best, q)?)?;
    }
    Ok(made)
}

/// The types of three rows of declarations.
pub fn make_frame<'a>(
    alloc: Global,
    named: &[Option<ValueType>],
    best: &mut Option<Found<'a>>,
    params: &[Declared],
    results: &[Declared],
    locals: &[Declared],
) -> Result<Frame, AllocError>
    ensures best { OnOk result (best_of best.new ≡ first_of (best_of best.old) (frame_faults (named_by (kinds_in named.now)) (map declared_of params.now) (map declared_of results.now) (map declared_of locals.now))) }
    ensures kinds { IfOk result (λ made. frame_of made ≡ frame_kinds (named_by (kinds_in named.now)) (map declared_of params.now) (map declared_of results.now) (map declared_of locals.now)) }
{
    let mut kinds = Vec::new(alloc);
    push_declared(alloc, named, best, &mut kinds, params)?;
    push_declared(alloc, named, best, &mut kinds, results)?;
    push_declared(alloc, named, best, &mut kinds, locals)?;
    Ok(Frame { kinds })
}

fn note_synonym<'a>(
    alloc: Global,
    named: &[Option<ValueType>],
    best: &mut Option<Found<'a>>,
    d: &TypeName,
) -> Result<(), AllocError>
    ensures { OnOk result (best_of best.new ≡ first_of (best_of best.old) (synonym_faults (named_by (kinds_in named.now)) (type_name_of d.now).synonym)) }
{
    match &d.synonym {
        None => Ok(()),
        Some(t) => {
            judge_type(alloc, named, best, t)?;
            Ok(())
        }
    }
}

pub fn note_synonyms<'a>(
    alloc: Global,
    named: &[Option<ValueType>],
    best: &mut Option<Found<'a>>,
    ds: &[TypeName],
) -> Result<(), AllocError>
    ensures { OnOk result (best_of best.new ≡ first_of (best_of best.old) (synonyms_faults (named_by (kinds_in named.now)) (map type_name_of ds.now))) }
{
    for d in ds {
        note_synonym(alloc, named, best, d)?;
    }
    Ok(())
}

fn implementation_frame<'a>(
    alloc: Global,
    named: &[Option<ValueType>],
    best: &mut Option<Found<'a>>,
    m: &Implementation,
) -> Result<Frame, AllocError>
    ensures best { OnOk result (best_of best.new ≡ first_of (best_of best.old) (frame_faults (named_by (kinds_in named.now)) (impl_of m.now).params (impl_of m.now).results (impl_of m.now).locals)) }
    ensures kinds { IfOk result (λ made. frame_of made ≡ implementation_frame (named_by (kinds_in named.now)) (impl_of m.now)) }
{
    let made = make_frame(alloc, named, best, &m.params, &m.results, &m.locals)?;
    Ok(made)
}

fn implementation_frames<'a>(
    alloc: Global,
    named: &[Option<ValueType>],
    best: &mut Option<Found<'a>>,
    ms: &[Implementation],
) -> Result<Vec<Frame>, AllocError>
    ensures best { OnOk result (best_of best.new ≡ first_of (best_of best.old) (implementations_faults (named_by (kinds_in named.now)) (map impl_of ms.now))) }
    ensures frames { IfOk result (λ made. map frame_of made.items ≡ map (implementation_frame (named_by (kinds_in named.now))) (map impl_of ms.now)) }
{
    let mut made = Vec::new(alloc);
    for m in ms {
        made.push(implementation_frame(alloc, named, best, m)?)?;
    }
    Ok(made)
}

fn procedure_frame(
    alloc: Global,
    named: &[Option<ValueType>],
    q: &Procedure,
) -> Result<Frame, AllocError>
    ensures { IfOk result (λ made. frame_of made ≡ procedure_frame (named_by (kinds_in named.now)) (proc_of q.now)) }
{
    let mut seen = None;
    let made = make_frame(alloc, named, &mut seen, &q.params, &q.results, &[])?;
    Ok(made)
}

fn procedure_frames(
    alloc: Global,
    named: &[Option<ValueType>],
    qs: &[Procedure],
) -> Result<Vec<Frame>, AllocError>
    ensures { IfOk result (λ made. map frame_of made.items ≡ map (procedure_frame (named_by (kinds_in named.now))) (map proc_of qs.now)) }
{
    let mut made = Vec::new(alloc);
    for q in qs {
        made.push(procedure_frame(alloc, named, q)?)?;
    }
    Ok(made)
}

/// The types of all declarations.
#[derive(Drop)]
pub struct Tables {
    pub constants: Vec<Option<ValueType>>,
    pub globals: Vec<Option<ValueType>>,
    pub functions: Vec<Shape>,
    pub procedures: Vec<Shape>,
    pub procedure_frames: Vec<Frame>,
    pub implementation_frames: Vec<Frame>,
}

/// The types of a program's declarations; the faults of all written types are noted.
pub fn tables_of<'a>(
    alloc: Global,
    named: &[Option<ValueType>],
    best: &mut Option<Found<'a>>,
    p: &Resolved,
) -> Result<Tables, AllocError>
    ensures best { OnOk result (best_of best.new ≡ first_of (best_of best.old) (types_part (named_by (kinds_in named.now)) (program_of p.now))) }
    ensures tables { IfOk result (λ made. IsTables (named_by (kinds_in named.now)) (program_of p.now) made) }
{
    note_synonyms(alloc, named, best, &p.types)?;
    let constants = constants(alloc, named, best, &p.constants)?;
    let globals = declared(alloc, named, best, &p.globals)?;
    let functions = functions(alloc, named, best, &p.functions)?;
    let procedures = procedures(alloc, named, best, &p.procedures)?;
    let implementation_frames = implementation_frames(alloc, named, best, &p.implementations)?;
    let procedure_frames = procedure_frames(alloc, named, &p.procedures)?;
    Ok(Tables {
        constants,
        globals,
        functions,
        procedures,
        procedure_frames,
        implementation_frames,
    })
}
