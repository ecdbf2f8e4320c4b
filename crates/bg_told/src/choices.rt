//! The choices of a counterexample.
ghost use Rattle.std.specs.Prelude.{◌≡◌, ◌++◌, OnOk, codes, map};
ghost use Rattle.std.specs.Fmt.{decimal};
ghost use Rattle.bg_kinds.specs.Views.{ref_in};
ghost use Rattle.bg_scalar.specs.Choices.{choice_of};
ghost use Rattle.bg_told.specs.Lines.{texts};
ghost use Rattle.bg_told.specs.Entries.{types_in, choice_line};
ghost use Rattle.bg_told.specs.Places.{chosen_text};

use crate::value::put_value;
use bg_ast::resolved::TypeName;
use bg_kinds::ValueType;
use bg_lines::put_number;
use bg_scalar::Choice;
use std::alloc::AllocError;

fn put_branch(out: &mut Vec<u8>, branch: u32) -> Result<(), AllocError>
    ensures { OnOk result (out.new.items ≡ out.old.items ++ codes "branch " ++ decimal branch) }
{
    out.extend_from_slice(b"branch ")?;
    put_number(out, branch as u128)
}

/// The number of a branch, or a value of this type.
fn put_chosen(
    out: &mut Vec<u8>,
    types: &[TypeName],
    kind: &ValueType,
    choice: &Choice,
) -> Result<(), AllocError>
    ensures { OnOk result (out.new.items ≡ out.old.items ++ chosen_text (types_in types.now) (ref_in kind.now) (choice_of choice.now)) }
{
    match choice {
        Choice::Branch(branch) => put_branch(out, *branch),
        Choice::Chosen(value) => put_value(out, value, types, kind.as_ref()),
    }
}

/// The line of a choice.
fn put_choice(
    out: &mut Vec<u8>,
    types: &[TypeName],
    kind: &ValueType,
    choice: &Choice,
) -> Result<(), AllocError>
    ensures { OnOk result (out.new.items ≡ out.old.items ++ choice_line (types_in types.now) (ref_in kind.now) choice.now) }
{
    out.extend_from_slice(b"    choice ")?;
    put_chosen(out, types, kind, choice)?;
    out.extend_from_slice(b"\n")
}

/// The choices, in order, which are of these types.
pub fn put_choices(
    out: &mut Vec<u8>,
    types: &[TypeName],
    kinds: &[ValueType],
    choices: &[Choice],
) -> Result<(), AllocError>
    ensures { OnOk result (out.new.items ≡ out.old.items ++ texts (choice_line (types_in types.now)) (map ref_in kinds.now) choices.now) }
{
    for (i, kind) in kinds.iter().enumerate() {
        if i >= choices.len() {
            return Ok(());
        }
        put_choice(out, types, kind, &choices[i])?;
    }
    Ok(())
}
