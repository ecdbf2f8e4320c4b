//! The guesses of a program: how many they are, and the program with them.
ghost use Rattle.std.specs.Prelude.{◌≡◌, ◌-◌, ◌^◌, ◌++◌, length, map, min, IfOk, OnOk};
ghost use Rattle.bg_text.specs.Views.{id_of};
ghost use Rattle.bg_ast.specs.Views.{type_name_of, declared_of, proc_of, impl_of, program_of};
ghost use Rattle.bg_guess.specs.Guessed as s;
ghost use Rattle.bg_guess.specs.Views.{survey_view};

use crate::calls::{Found, search_all};
use crate::frame::{Base, number_globals};
use crate::loops::Desk;
use crate::numbers::{exact, number, told};
use crate::procedures::{
    guess_implementations, guess_procedures, loop_counts, loop_starts, pass_implementation,
    pass_procedure,
};
use crate::survey::Survey;
use bg_ast::resolved::{Declared, Implementation, Procedure, Resolved, TypeName};
use bg_base::Pos;
use bg_text::Name;
use itoa::Buffer;
use std::alloc::{AllocError, Global};

/// What is left behind the guesses of procedures' clauses.
fn pass_procedures(
    alloc: Global,
    v: &Survey<'_>,
    procedures: &[Procedure],
) -> Result<u128, AllocError>
    ensures { IfOk result (λ n. n ≡ 2 ^ 128 - 1 - s.procs_count (survey_view v.now) 0 (map proc_of procedures.now)) }
{
    let mut left = u128::MAX;
    for k in 0..procedures.len() {
        left = pass_procedure(alloc, v, left, k, &procedures[k])?;
    }
    Ok(left)
}

/// How many guesses there are, as far as 64 bits tell it.
fn counted(
    alloc: Global,
    v: &Survey<'_>,
    procedures: &[Procedure],
    implementations: &[Implementation],
) -> Result<usize, AllocError>
    ensures { IfOk result (λ n. n ≡ min (2 ^ 64 - 1) (s.whole_count (survey_view v.now) (map proc_of procedures.now) (map impl_of implementations.now))) }
{
    let mut left = pass_procedures(alloc, v, procedures)?;
    for m in implementations {
        left = pass_implementation(alloc, v, left, procedures, m)?;
    }
    Ok(told(left))
}

/// How many guesses a program has, as far as 64 bits tell it: those of `guess`, of which none is made.
///
/// Only want of memory is an error.
pub fn count(alloc: Global, program: &Resolved) -> Result<usize, AllocError>
    ensures { IfOk result (λ n. n ≡ min (2 ^ 64 - 1) (s.guess_count (program_of program.now))) }
{
    let numbers = number_globals(alloc, &program.types, &program.globals)?;
    let Found {
        called,
        implemented,
        above: _,
    } = search_all(alloc, &program.procedures, &program.implementations)?;
    let base = Base {
        types: &program.types,
        globals: &program.globals,
        numbers: &numbers,
    };
    let v = Survey {
        base,
        called,
        implemented,
    };
    let count = counted(alloc, &v, &program.procedures, &program.implementations)?;
    Ok(count)
}

/// The name of a guess, by its number from 1; it stands nowhere in the text.
fn guess_name(alloc: Global, n: usize) -> Result<Name, AllocError>
    ensures { IfOk result (λ x. id_of x ≡ s.guess_name n) }
{
    let mut text = Vec::from_slice(alloc, b"guess:")?;
    let mut buffer = Buffer::new();
    text.extend_from_slice(buffer.format(n).as_bytes())?;
    Ok(Name {
        pos: Pos { line: 0, column: 0 },
        text,
    })
}

/// Adds the names of so many guesses.
fn push_names(alloc: Global, count: usize, out: &mut Vec<Name>) -> Result<(), AllocError>
    ensures { OnOk result (map id_of out.new.items ≡ map id_of out.old.items ++ s.guess_names count) }
{
    for n in 0..count {
        out.push(guess_name(alloc, n + 1)?)?;
    }
    Ok(())
}

/// Adds the guesses of procedures and implementations, of candidates from `first` on, and answers how many they are.
fn add_guesses(
    alloc: Global,
    types: &[TypeName],
    globals: &[Declared],
    first: u32,
    procedures: &mut Vec<Procedure>,
    implementations: &mut Vec<Implementation>,
) -> Result<usize, AllocError>
    ensures count { IfOk result (λ n. n ≡ s.whole_count (s.survey (map type_name_of types.now) (map declared_of globals.now) (map proc_of procedures.old.items) (map impl_of implementations.old.items)) (map proc_of procedures.old.items) (map impl_of implementations.old.items)) }
    ensures procedures { OnOk result (map proc_of procedures.new.items ≡ s.new_procs (s.survey (map type_name_of types.now) (map declared_of globals.now) (map proc_of procedures.old.items) (map impl_of implementations.old.items)) first (map proc_of procedures.old.items) (map impl_of implementations.old.items)) }
    ensures implementations { OnOk result (map impl_of implementations.new.items ≡ s.new_impls (s.survey (map type_name_of types.now) (map declared_of globals.now) (map proc_of procedures.old.items) (map impl_of implementations.old.items)) first (map proc_of procedures.old.items) (map impl_of implementations.old.items)) }
{
    let numbers = number_globals(alloc, types, globals)?;
    let Found {
        called,
        implemented,
        above,
    } = search_all(alloc, procedures, implementations)?;
    let base = Base {
        types,
        globals,
        numbers: &numbers,
    };
    let v = Survey {
        base,
        called,
        implemented,
    };
    let count = exact(counted(alloc, &v, procedures, implementations)?)?;
    let loops = loop_counts(alloc, &v, procedures, implementations)?;
    let mut starts = loop_starts(alloc, &v, &loops, first, procedures)?;
    let desk = Desk {
        alloc,
        above: number(above)?,
    };
    guess_implementations(desk, &v, procedures, &mut starts, implementations)?;
    guess_procedures(desk, &v, &loops, first, procedures)?;
    Ok(count)
}

/// The program with its guesses: candidates `guess:1`, `guess:2` and so on behind the declared ones, and a checked clause for each.
///
/// They are numbered by procedure: first those behind its preconditions, where an implementation of another procedure calls it; then
/// those behind its postconditions, where it has an implementation; then those behind the invariants of each loop of its
/// implementations. Each list has `v >= 0` for each variable of type `int`; `v <= w` for each two different ones; and, but for
/// preconditions, `g == old(g)` for each global that the procedure may modify. Nothing else is changed.
///
/// Only want of memory is an error; 2^32 candidates or clauses count as that.
pub fn guess(alloc: Global, program: Resolved) -> Result<Resolved, AllocError>
    ensures { IfOk result (λ made. program_of made ≡ s.guessed (program_of program)) }
{
    let mut made = program;
    let first = number(made.candidates.len())?;
    let count = add_guesses(
        alloc,
        &made.types,
        &made.globals,
        first,
        &mut made.procedures,
        &mut made.implementations,
    )?;
    push_names(alloc, count, &mut made.candidates)?;
    Ok(made)
}
