//! What the next line makes of what is read so far.
ghost use Rattle.std.specs.Prelude.{◌≡◌, map, IfOk, OnOk};
ghost use Rattle.bg_certtext.specs.declared.draft.Stage.TheVariants as at;
ghost use Rattle.bg_certtext.specs.Words.{words_of};
ghost use Rattle.bg_certtext.specs.Machine.{draft_of, HasRoom, Takes, next, on_node, on_table, on_stated, on_section, on_retained, on_function, on_given, on_version, on_interp, by_stage};

use crate::draft::{
    Draft, Stage, add_function, add_given, add_node, add_row, add_stated, add_step,
};
use crate::nodes::node_in;
use crate::parts::{count_in, name_in, row_in, step_in, two};
use crate::stated::stated_in;
use crate::tables::{function_in, given_in};
use crate::text::Interp;
use crate::words::{behind_word, is_word};
use std::alloc::{AllocError, Global};

/// A line where a node may stand.
fn on_node<'a>(alloc: Global, draft: &mut Draft<'a>, words: &[&'a [u8]]) -> Result<bool, AllocError>
    requires { HasRoom (draft_of draft.old) }
    ensures made { IfOk result (λ yes. Takes (on_node (map (λ w. w.now) words.entry.now) (draft_of draft.old)) (draft_of draft.new) yes) }
    ensures room { OnOk result (HasRoom (draft_of draft.new)) }
{
    if let Some(m) = count_in(words, b"rows") {
        draft.stage = Stage::Steps;
        draft.left = m;
        return Ok(true);
    }
    let Some(node) = node_in(alloc, words)? else {
        return Ok(false);
    };
    add_node(alloc, draft, node)?;
    Ok(true)
}

/// A line where a table may stand.
fn on_table<'a>(
    alloc: Global,
    draft: &mut Draft<'a>,
    words: &[&'a [u8]],
) -> Result<bool, AllocError>
    requires { HasRoom (draft_of draft.old) }
    ensures made { IfOk result (λ yes. Takes (on_table (map (λ w. w.now) words.entry.now) (draft_of draft.old)) (draft_of draft.new) yes) }
    ensures room { OnOk result (HasRoom (draft_of draft.new)) }
{
    match count_in(words, b"table") {
        Some(m) => {
            draft.stage = Stage::Rows;
            draft.left = m;
            Ok(true)
        }
        None => on_node(alloc, draft, words),
    }
}

/// A line behind a place or an instance.
fn on_stated<'a>(
    alloc: Global,
    draft: &mut Draft<'a>,
    words: &[&'a [u8]],
) -> Result<bool, AllocError>
    requires { HasRoom (draft_of draft.old) }
    ensures made { IfOk result (λ yes. Takes (on_stated (map (λ w. w.now) words.entry.now) (draft_of draft.old)) (draft_of draft.new) yes) }
    ensures room { OnOk result (HasRoom (draft_of draft.new)) }
{
    match stated_in(words) {
        Some(stated) => {
            add_stated(draft, stated)?;
            Ok(true)
        }
        None => on_table(alloc, draft, words),
    }
}

/// A line where a place may stand, or the end.
fn on_section(draft: &mut Draft<'_>, words: &[&[u8]]) -> bool
    requires { HasRoom (draft_of draft.old) }
    ensures made { Takes (on_section (map (λ w. w.now) words.entry.now) (draft_of draft.old)) (draft_of draft.new) result }
    ensures room { HasRoom (draft_of draft.new) }
{
    let [key, rest @ ..] = words else {
        return false;
    };
    if is_word(key, b"place") {
        let Some((implementation, place)) = two(rest) else {
            return false;
        };
        draft.stage = Stage::Table;
        draft.implementation = implementation;
        draft.place = place;
        draft.stated.clear();
        draft.trees = 1;
        true
    } else if is_word(key, b"end") && rest.is_empty() {
        draft.stage = Stage::End;
        true
    } else {
        false
    }
}

/// A line where a name may stand, a place, or the end.
fn on_retained<'a>(draft: &mut Draft<'a>, words: &[&'a [u8]]) -> Result<bool, AllocError>
    requires { HasRoom (draft_of draft.old) }
    ensures made { IfOk result (λ yes. Takes (on_retained (map (λ w. w.now) words.entry.now) (draft_of draft.old)) (draft_of draft.new) yes) }
    ensures room { OnOk result (HasRoom (draft_of draft.new)) }
{
    let [key, rest @ ..] = words else {
        return Ok(false);
    };
    if !is_word(key, b"retain") {
        return Ok(on_section(draft, words));
    }
    let Some(name) = name_in(rest) else {
        return Ok(false);
    };
    draft.retained.push(name)?;
    draft.stage = Stage::Retained;
    Ok(true)
}

/// A line where a function may stand, a name, a place, or the end.
fn on_function<'a>(
    alloc: Global,
    draft: &mut Draft<'a>,
    words: &[&'a [u8]],
    line: &'a [u8],
) -> Result<bool, AllocError>
    requires room { HasRoom (draft_of draft.old) }
    requires words { map (λ w. w.now) words.now ≡ words_of line.now }
    ensures made { IfOk result (λ yes. Takes (on_function (map (λ w. w.now) words.entry.now) (draft_of draft.old)) (draft_of draft.new) yes) }
    ensures room { OnOk result (HasRoom (draft_of draft.new)) }
{
    let [key, rest @ ..] = words else {
        return Ok(false);
    };
    if !is_word(key, b"function") {
        return on_retained(draft, words);
    }
    let Some(function) = function_in(alloc, rest, behind_word(line))? else {
        return Ok(false);
    };
    add_function(draft, function)?;
    Ok(true)
}

/// A line where a constant may stand, a function, a name, a place, or the end.
fn on_given<'a>(
    alloc: Global,
    draft: &mut Draft<'a>,
    words: &[&'a [u8]],
    line: &'a [u8],
) -> Result<bool, AllocError>
    requires room { HasRoom (draft_of draft.old) }
    requires words { map (λ w. w.now) words.now ≡ words_of line.now }
    ensures made { IfOk result (λ yes. Takes (on_given (map (λ w. w.now) words.entry.now) (draft_of draft.old)) (draft_of draft.new) yes) }
    ensures room { OnOk result (HasRoom (draft_of draft.new)) }
{
    let [key, rest @ ..] = words else {
        return Ok(false);
    };
    if !is_word(key, b"const") {
        return on_function(alloc, draft, words, line);
    }
    let Some(given) = given_in(alloc, rest, behind_word(line))? else {
        return Ok(false);
    };
    add_given(draft, given)?;
    Ok(true)
}

/// The first line.
fn on_version(draft: &mut Draft<'_>, words: &[&[u8]]) -> bool
    ensures made { Takes (on_version (map (λ w. w.now) words.entry.now) (draft_of draft.old)) (draft_of draft.new) result }
    ensures room { HasRoom (draft_of draft.old) → HasRoom (draft_of draft.new) }
{
    match words {
        [key, version] => {
            if is_word(key, b"bg-cert") && is_word(version, b"1") {
                draft.stage = Stage::Interp;
                true
            } else {
                false
            }
        }
        _ => false,
    }
}

/// The second line.
fn on_interp(alloc: Global, draft: &mut Draft<'_>, words: &[&[u8]]) -> bool
    ensures made { Takes (on_interp (map (λ w. w.now) words.entry.now) (draft_of draft.old)) (draft_of draft.new) result }
    ensures room { HasRoom (draft_of draft.old) → HasRoom (draft_of draft.new) }
{
    match words {
        [key] => {
            if is_word(key, b"interp") {
                draft.stage = Stage::Givens;
                draft.interp = Some(Interp {
                    constants: Vec::new(alloc),
                    functions: Vec::new(alloc),
                });
                true
            } else {
                false
            }
        }
        [first, key] => {
            if is_word(first, b"no") && is_word(key, b"interp") {
                draft.stage = Stage::Retained;
                draft.interp = None;
                true
            } else {
                false
            }
        }
        _ => false,
    }
}

/// A row of the table.
fn on_row(alloc: Global, draft: &mut Draft<'_>, words: &[&[u8]]) -> Result<bool, AllocError>
    ensures made { IfOk result (λ yes. Takes (by_stage at.Rows (map (λ w. w.now) words.entry.now) (draft_of draft.old)) (draft_of draft.new) yes) }
    ensures room { HasRoom (draft_of draft.old) → OnOk result (HasRoom (draft_of draft.new)) }
{
    let Some(row) = row_in(alloc, words)? else {
        return Ok(false);
    };
    add_row(draft, row)?;
    Ok(true)
}

/// A step of the open node.
fn on_step(alloc: Global, draft: &mut Draft<'_>, words: &[&[u8]]) -> Result<bool, AllocError>
    requires { HasRoom (draft_of draft.old) }
    ensures made { IfOk result (λ yes. Takes (by_stage at.Steps (map (λ w. w.now) words.entry.now) (draft_of draft.old)) (draft_of draft.new) yes) }
    ensures room { OnOk result (HasRoom (draft_of draft.new)) }
{
    let Some(step) = step_in(draft.steps.len() as u128, words) else {
        return Ok(false);
    };
    add_step(alloc, draft, step)?;
    Ok(true)
}

/// The next line, by its words; false where it may not stand there.
pub(crate) fn take_line<'a>(
    alloc: Global,
    draft: &mut Draft<'a>,
    words: &[&'a [u8]],
    line: &'a [u8],
) -> Result<bool, AllocError>
    requires room { HasRoom (draft_of draft.old) }
    requires words { map (λ w. w.now) words.now ≡ words_of line.now }
    ensures made { IfOk result (λ yes. Takes (next (map (λ w. w.now) words.entry.now) (draft_of draft.old)) (draft_of draft.new) yes) }
    ensures room { OnOk result (HasRoom (draft_of draft.new)) }
{
    match draft.stage {
        Stage::Version => Ok(on_version(draft, words)),
        Stage::Interp => Ok(on_interp(alloc, draft, words)),
        Stage::Givens => on_given(alloc, draft, words, line),
        Stage::Functions => on_function(alloc, draft, words, line),
        Stage::Retained => on_retained(draft, words),
        Stage::Table => on_stated(alloc, draft, words),
        Stage::Rows => on_row(alloc, draft, words),
        Stage::Nodes => on_node(alloc, draft, words),
        Stage::Steps => on_step(alloc, draft, words),
        Stage::Sections => Ok(on_section(draft, words)),
        Stage::End => Ok(false),
    }
}
