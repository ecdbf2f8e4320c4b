//! Calls.
ghost use Rattle.std.specs.Prelude.{◌≡◌, map, IfOk};
ghost use Rattle.bg_ast.specs.Meaning as m;
ghost use Rattle.bg_ast.specs.Execution.{AtCall};
ghost use Rattle.bg_ast.specs.Views.{program_of, declared_of, exs_in, placed_of, var_of};
ghost use Rattle.bg_kinds.specs.Views.{ref_in};
ghost use Rattle.bg_flow.specs.Core.{demands, sayings, each_one};
ghost use Rattle.bg_blocks.specs.Views.{clauses_in};
ghost use Rattle.bg_scalar.specs.Lists.{Are};
ghost use Rattle.bg_scalar.specs.Views.{vals_in};
ghost use Rattle.bg_replay.specs.Acts.{chosen, called, called_with, given_back};
ghost use Rattle.bg_replay.specs.Said.{on_said};
ghost use Rattle.bg_replay.specs.Holds.{results_in};
ghost use Rattle.bg_replay.specs.Views.{moment_of, around_of, said_of};

use crate::clauses::{check, suppose};
use crate::ending::{Ending, Step};
use crate::moment::{Around, Moment, forget, put_taken, rest_of, seen};
use crate::values::{append, chosen};
use bg_ast::resolved::{Call, Procedure, Variable};
use bg_blocks::Kept;
use bg_fits::push_kinds;
use bg_kinds::ValueType;
use bg_places::Group;
use bg_scalar::{ListWorth, Sight, Value, copies, worths};
use std::alloc::AllocError;

/// A call, the procedure that is called, the globals that it modifies, and the types of its results.
#[derive(Clone, Copy)]
struct Callee<'a> {
    call: &'a Call,
    procedure: &'a Procedure,
    modifies: &'a [Variable],
    results: &'a [ValueType],
}

/// The end of a call with these arguments, which began with these globals: the results are chosen.
#[tactic(auto, using(crate::proofs::Puts::back_forms))]
fn give_back(
    around: Around<'_>,
    moment: &mut Moment<'_>,
    callee: Callee<'_>,
    was: &[Value],
    args: Vec<Value>,
) -> Result<Step, AllocError>
    ensures { IfOk result (λ step. on_said (said_of step) (moment_of moment.new) ≡ given_back (chosen (map ref_in callee.entry.results.now) (moment_of moment.old).choices) (around_of around.entry) (vals_in was.now) (vals_in args.items) (sayings each_one (clauses_in callee.entry.procedure.now.ensures_.items)) (map m.variable_of (map placed_of callee.entry.call.now.takes.items)) (moment_of moment.old)) }
{
    let mut frame = args;
    let Some(values) = chosen(around.alloc, moment.left, callee.results)? else {
        return Ok(Step::Over(Ending::BadChoice));
    };
    moment.left = rest_of(moment.left, values.len());
    append(around.alloc, &mut frame, &values)?;
    let sight = Sight {
        tables: around.tables,
        globals: &moment.globals,
        before: was,
        frame: &frame,
    };
    match suppose(around, sight, Kept::Each, &callee.procedure.ensures_)? {
        Step::Over(e) => Ok(Step::Over(e)),
        Step::Goes => {
            put_taken(around.alloc, moment, &callee.call.takes, &values)?;
            Ok(Step::Goes)
        }
    }
}

/// A call with these arguments.
#[tactic(auto, using(crate::proofs::Plans::so_over))]
fn call_with(
    around: Around<'_>,
    moment: &mut Moment<'_>,
    callee: Callee<'_>,
    args: Vec<Value>,
) -> Result<Step, AllocError>
    ensures { IfOk result (λ step. on_said (said_of step) (moment_of moment.new) ≡ called_with (Are (vals_in args.items)) (around_of around.entry) (demands (AtCall callee.entry.call.now.site) (clauses_in callee.entry.procedure.now.requires_.items)) (map var_of callee.entry.modifies.now) (map ref_in callee.entry.results.now) (sayings each_one (clauses_in callee.entry.procedure.now.ensures_.items)) (map m.variable_of (map placed_of callee.entry.call.now.takes.items)) (moment_of moment.old)) }
{
    let sight = Sight {
        tables: around.tables,
        globals: &moment.globals,
        before: &moment.globals,
        frame: &args,
    };
    let group = Group::Call(callee.call.site);
    match check(around, sight, group, &callee.procedure.requires_)? {
        Step::Over(e) => return Ok(Step::Over(e)),
        Step::Goes => {}
    }
    let was = copies(around.alloc, &moment.globals)?;
    match forget(around, moment, callee.modifies)? {
        Step::Over(e) => return Ok(Step::Over(e)),
        Step::Goes => {}
    }
    give_back(around, moment, callee, &was, args)
}

/// A call of the procedure, which modifies these globals.
pub fn call(
    around: Around<'_>,
    moment: &mut Moment<'_>,
    k: &Call,
    q: &Procedure,
    modifies: &[Variable],
) -> Result<Step, AllocError>
    ensures { IfOk result (λ step. on_said (said_of step) (moment_of moment.new) ≡ called (around_of around.entry) (m.exs_of (exs_in k.now.args.items)) (demands (AtCall k.now.site) (clauses_in q.now.requires_.items)) (map var_of modifies.now) (results_in (program_of around.entry.program.now) (map declared_of q.now.results.items)) (sayings each_one (clauses_in q.now.ensures_.items)) (map m.variable_of (map placed_of k.now.takes.items)) (moment_of moment.old)) }
{
    let mut results = Vec::new(around.alloc);
    push_kinds(
        around.alloc,
        &around.program.types,
        &q.results,
        &mut results,
    )?;
    match worths(around.alloc, seen(around, moment), &k.args)? {
        ListWorth::Leave(o) => Ok(Step::Over(Ending::OutOfRange(o))),
        ListWorth::NoValues => Ok(Step::Over(Ending::NoValues)),
        ListWorth::Are(args) => {
            let callee = Callee {
                call: k,
                procedure: q,
                modifies,
                results: &results,
            };
            call_with(around, moment, callee, args)
        }
    }
}
