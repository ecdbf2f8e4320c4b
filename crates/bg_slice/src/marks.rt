//! Marks of the atoms that forms name.
ghost use Rattle.std.specs.Prelude.{◌≡◌, ◌==◌};
ghost use Rattle.bg_forms.specs.Views.{form_in};
ghost use Rattle.bg_formed.specs.Formed.{said};
ghost use Rattle.bg_formed.specs.Views.{says_of, form_cmd_of, form_cmds_of};
ghost use Rattle.bg_slice.specs.Slices.{names_form, names_cmd, names_cmds};
ghost use Rattle.bg_slice.specs.Marks.{marked};

use bg_formed::{FormCmd, Says};
use bg_forms::Form;

/// One more atom is marked, if it is one of those from `base` on that have marks.
#[tactic(auto, using(crate::proofs::Marking::one_rules))]
fn mark(base: u32, marks: &mut [bool], atom: u32)
    ensures { marks.new ≡ marked (λ n. n == atom) base marks.old }
{
    if atom < base {
        return;
    }
    let i = (atom - base) as usize;
    if i < marks.len() {
        marks[i] = true;
    }
}

/// The atoms that a form names are marked. What stands last in a form is walked in a loop.
fn mark_form(base: u32, marks: &mut [bool], f: &Form)
    ensures { marks.new ≡ marked (λ n. names_form n (form_in f.now)) base marks.old }
{
    let mut left: &Form = f;
    loop {
        match left {
            Form::Plain(_) => return,
            Form::Is(l) => {
                mark(base, marks, l.atom);
                return;
            }
            Form::NotSo(g) => left = &**g,
            Form::Both(g, h) => {
                mark_form(base, marks, g);
                left = &**h;
            }
            Form::Same(g, h) => {
                mark_form(base, marks, g);
                left = &**h;
            }
        }
    }
}

fn mark_says(base: u32, marks: &mut [bool], r: &Says)
    ensures { marks.new ≡ marked (λ n. names_form n (said (says_of r.now))) base marks.old }
{
    match r {
        Says::Form(f) => mark_form(base, marks, f),
        Says::Outside(_) => {}
    }
}

fn mark_cmd(base: u32, marks: &mut [bool], k: &FormCmd)
    ensures { marks.new ≡ marked (λ n. names_cmd n (form_cmd_of k.now)) base marks.old }
{
    match k {
        FormCmd::Claims(_, _, r) => mark_says(base, marks, r),
        FormCmd::Supposes(_, r) => mark_says(base, marks, r),
    }
}

/// The atoms that commands name are marked.
pub fn mark_cmds(base: u32, marks: &mut [bool], cmds: &[FormCmd])
    ensures { marks.new ≡ marked (λ n. names_cmds n (form_cmds_of cmds.now)) base marks.old }
{
    for k in cmds {
        mark_cmd(base, marks, k);
    }
}
