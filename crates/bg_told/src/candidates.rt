//! The candidates, and the set of those that are retained.
ghost use Rattle.std.specs.Prelude.{◌≡◌, ◌++◌, OnOk, map, codes};
ghost use Rattle.bg_sound.specs.Told.{DroppedFor};
ghost use Rattle.bg_text.specs.Views.{id_of};
ghost use Rattle.bg_check.specs.Kept.{told_kept};
ghost use Rattle.bg_told.specs.Fates.{told_fate};
ghost use Rattle.bg_told.specs.Lines.{texts};
ghost use Rattle.bg_lines.specs.Lines.{line};
ghost use Rattle.bg_told.specs.Report.{fate_text, candidate_text, set_text, fates_text};

use crate::fates::{Fate, count_where};
use crate::kept::put_cause_word;
use bg_check::Kept;
use bg_lines::put_number;
use bg_text::Name;
use std::alloc::AllocError;

fn put_unknown_drop(out: &mut Vec<u8>, kept: Kept) -> Result<(), AllocError>
    ensures { OnOk result (out.new.items ≡ out.old.items ++ fate_text (DroppedFor (told_kept kept))) }
{
    out.extend_from_slice(b"dropped unknown ")?;
    put_cause_word(out, kept)
}

/// What became of a candidate.
fn put_fate(out: &mut Vec<u8>, fate: &Fate) -> Result<(), AllocError>
    ensures { OnOk result (out.new.items ≡ out.old.items ++ fate_text (told_fate fate.now)) }
{
    match fate {
        Fate::Retained => out.extend_from_slice(b"retained"),
        Fate::Unchecked => out.extend_from_slice(b"retained unchecked"),
        Fate::Dropped => out.extend_from_slice(b"dropped"),
        Fate::DroppedFor(kept) => put_unknown_drop(out, *kept),
    }
}

fn put_candidate(out: &mut Vec<u8>, name: &Name, fate: &Fate) -> Result<(), AllocError>
    ensures { OnOk result (out.new.items ≡ out.old.items ++ candidate_text (id_of name.now) (told_fate fate.now)) }
{
    out.extend_from_slice(b"candidate ")?;
    out.extend_from_slice(&name.text)?;
    out.push(b' ')?;
    put_fate(out, fate)?;
    out.extend_from_slice(b"\n")
}

/// A line for each candidate, by declaration.
pub fn put_candidates(out: &mut Vec<u8>, names: &[Name], fates: &[Fate]) -> Result<(), AllocError>
    ensures { OnOk result (out.new.items ≡ out.old.items ++ texts candidate_text (map id_of names.now) (map told_fate fates.now)) }
{
    for (i, name) in names.iter().enumerate() {
        if i >= fates.len() {
            return Ok(());
        }
        put_candidate(out, name, &fates[i])?;
    }
    Ok(())
}

/// Whether the retained set is called the greatest.
pub fn put_set(out: &mut Vec<u8>, is_greatest: bool) -> Result<(), AllocError>
    ensures { OnOk result (out.new.items ≡ out.old.items ++ line (codes "retained set: " ++ set_text is_greatest)) }
{
    if is_greatest {
        out.extend_from_slice(b"retained set: greatest\n")
    } else {
        out.extend_from_slice(b"retained set: inductive\n")
    }
}

/// How many candidates are retained and dropped.
pub fn put_fates_count(out: &mut Vec<u8>, fates: &[Fate]) -> Result<(), AllocError>
    ensures { OnOk result (out.new.items ≡ out.old.items ++ fates_text (map told_fate fates.now)) }
{
    put_number(out, count_where(fates, true) as u128)?;
    out.extend_from_slice(b" retained, ")?;
    put_number(out, count_where(fates, false) as u128)?;
    out.extend_from_slice(b" dropped; ")
}
