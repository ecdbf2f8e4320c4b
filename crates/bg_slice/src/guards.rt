//! Which candidates guard commands.
ghost use Rattle.std.specs.Prelude.{◌≡◌};
ghost use Rattle.bg_text.specs.Views.{option_of};
ghost use Rattle.bg_ast.specs.Views.{candidate_of};
ghost use Rattle.bg_formed.specs.Views.{form_cmd_of, form_cmds_of};
ghost use Rattle.bg_slice.specs.Slices.{is_guard, guards_cmd, guards_cmds};
ghost use Rattle.bg_slice.specs.Marks.{marked};

use bg_base::CandId;
use bg_formed::FormCmd;

/// One more candidate is marked, if any, where it has a mark.
fn mark_guard(marks: &mut [bool], b: Option<CandId>)
    ensures { marks.new ≡ marked (λ c. is_guard c (option_of candidate_of b)) 0 marks.old }
{
    if let Some(b) = b {
        let i = b.0 as usize;
        if i < marks.len() {
            marks[i] = true;
        }
    }
}

fn mark_cmd(marks: &mut [bool], k: &FormCmd)
    ensures { marks.new ≡ marked (λ c. guards_cmd c (form_cmd_of k.now)) 0 marks.old }
{
    match k {
        FormCmd::Claims(_, b, _) => mark_guard(marks, *b),
        FormCmd::Supposes(b, _) => mark_guard(marks, *b),
    }
}

/// The candidates that guard commands are marked.
pub fn mark_guards(marks: &mut [bool], cmds: &[FormCmd])
    ensures { marks.new ≡ marked (λ c. guards_cmds c (form_cmds_of cmds.now)) 0 marks.old }
{
    for k in cmds {
        mark_cmd(marks, k);
    }
}
