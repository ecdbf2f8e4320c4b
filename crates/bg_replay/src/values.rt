//! Values that are assigned and chosen.
ghost use Rattle.std.specs.Prelude.{◌≡◌, ◌++◌, map, IfOk, OnOk};
ghost use Rattle.bg_ast.specs.Syntax.{Read};
ghost use Rattle.bg_ast.specs.Meaning as m;
ghost use Rattle.bg_ast.specs.Views as view;
ghost use Rattle.bg_ast.specs.Views.{exs_in, target_of};
ghost use Rattle.bg_kinds.specs.Views.{ref_in};
ghost use Rattle.bg_scalar.specs.Worths as spec;
ghost use Rattle.bg_scalar.specs.Lists.{worths, listed};
ghost use Rattle.bg_scalar.specs.Choices.{choice_of};
ghost use Rattle.bg_scalar.specs.Views.{seen_of, vals_in, worth_in};
ghost use Rattle.bg_replay.specs.Acts.{chosen};
ghost use Rattle.bg_replay.specs.Levels.{level_of, levels, put_back};
ghost use Rattle.bg_replay.specs.Views.{items_of};

use crate::holds::typed_value;
use bg_ast::resolved::{Expr, Target};
use bg_kinds::ValueType;
use bg_scalar::{
    Choice, Found, ListWorth, Sight, Value, Worth, as_worth, copy, inside, owned, read, updated,
    worth, worths,
};
use std::alloc::{AllocError, Global};

/// A bracket of a target: the map before it, and its index.
#[derive(Drop)]
struct Level<'a> {
    map: Found<'a>,
    index: ListWorth,
}

/// The brackets of a target, from the first, with the map before each.
fn levels<'a>(
    alloc: Global,
    sight: Sight<'a>,
    target: &Target,
) -> Result<Vec<Level<'a>>, AllocError>
    ensures { IfOk result (λ made. map level_of made.items ≡ levels (spec.worth (Read (target_of target.now).placed.variable) (seen_of sight.entry)) (target_of target.now).brackets (seen_of sight.entry)) }
{
    let mut made = Vec::new(alloc);
    let mut map = read(sight, target.placed.variable);
    for b in &target.brackets {
        let index = worths(alloc, sight, &b.indices)?;
        let inner = inside(alloc, map, &index)?;
        made.push(Level { map, index })?;
        map = inner;
    }
    Ok(made)
}

/// The value of the first map, where the innermost has this new value at its index.
fn put_back<'a>(
    alloc: Global,
    levels: Vec<Level<'a>>,
    new: Worth<'a>,
) -> Result<Worth<'a>, AllocError>
    ensures { IfOk result (λ x. worth_in x ≡ put_back (map level_of levels.entry.items) (worth_in new.entry)) }
{
    let mut levels = levels;
    let mut new = new;
    while let Some(level) = levels.pop() {
        new = updated(alloc, as_worth(level.map), &level.index, new)?;
    }
    Ok(new)
}

/// The value that is assigned to a target: of `m[i] := e`, what is wrong with m, with i or with e, or else m with e at i.
fn value_for<'a>(
    alloc: Global,
    sight: Sight<'a>,
    target: &Target,
    e: &Expr,
) -> Result<Worth<'a>, AllocError>
    ensures { IfOk result (λ x. worth_in x ≡ spec.worth (m.written (Read (target_of target.now).placed.variable) (target_of target.now).brackets (m.ex_of (view.ex_of e.now))) (seen_of sight.entry)) }
{
    let levels = levels(alloc, sight, target)?;
    let new = worth(alloc, sight, e)?;
    put_back(alloc, levels, new)
}

/// The values that are assigned, one for each target, if they have values.
#[tactic(auto, using(crate::proofs::Written::value_forms))]
pub fn values_for(
    alloc: Global,
    sight: Sight<'_>,
    targets: &[Target],
    es: &[Expr],
) -> Result<ListWorth, AllocError>
    ensures { IfOk result (λ made. listed made ≡ worths (m.values_of (map target_of targets.now) (exs_in es.now)) (seen_of sight.entry)) }
{
    let mut made = Vec::new(alloc);
    for (i, target) in targets.iter().enumerate() {
        if i >= es.len() {
            return Ok(ListWorth::Are(made));
        }
        match value_for(alloc, sight, target, &es[i])? {
            Worth::Leaves(o) => return Ok(ListWorth::Leave(o)),
            Worth::NoValue => return Ok(ListWorth::NoValues),
            Worth::Is(x) => made.push(owned(alloc, x)?)?,
        }
    }
    Ok(ListWorth::Are(made))
}

/// A value that is chosen next, for each of these types.
#[tactic(auto, using(crate::proofs::Written::append_forms))]
pub fn chosen(
    alloc: Global,
    choices: &[Choice],
    kinds: &[ValueType],
) -> Result<Option<Vec<Value>>, AllocError>
    ensures { IfOk result (λ made. items_of made ≡ chosen (map ref_in kinds.now) (map choice_of choices.now)) }
{
    let mut made = Vec::new(alloc);
    let mut left = choices;
    for t in kinds {
        match left.split_first() {
            None => return Ok(None),
            Some((first, rest)) => match typed_value(t.as_ref(), first) {
                None => return Ok(None),
                Some(x) => {
                    made.push(copy(alloc, x)?)?;
                    left = rest;
                }
            },
        }
    }
    Ok(Some(made))
}

/// Adds copies of values.
#[tactic(auto, using(crate::proofs::Puts::values_join))]
pub fn append(alloc: Global, values: &mut Vec<Value>, more: &[Value]) -> Result<(), AllocError>
    ensures { OnOk result (vals_in values.new.items ≡ vals_in values.old.items ++ vals_in more.now) }
{
    for x in more {
        values.push(copy(alloc, x)?)?;
    }
    Ok(())
}
