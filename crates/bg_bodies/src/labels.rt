//! The labels of a body.
ghost use Rattle.std.specs.Prelude.{◌≡◌, ◌++◌, map, IfErr, OnOk};
ghost use Rattle.bg_text.specs.Views as v;
ghost use Rattle.bg_bodies.specs.Bodies.{st_labels, sts_labels, arms_labels};
ghost use Rattle.bg_names.specs.Views.{id_in};
ghost use Rattle.bg_bodies.specs.Views.{tree_sts, tree_arms};
ghost use Rattle.bg_names.specs.declared.error.ResolveError.TheVariants.{Memory};

use bg_names::error::ResolveError;
use bg_text::{Name, TreeArm, TreeStmt};

/// Adds the labels of a statement.
#[tactic(auto, using(crate::proofs::LabelForms::label_forms))]
#[cycle(push_labels)]
fn of_stmt<'a>(out: &mut Vec<&'a Name>, s: &'a TreeStmt) -> Result<(), ResolveError>
    ensures ok { OnOk result (map id_in out.new.items ≡ map id_in out.old.items ++ st_labels (v.st_of s.now)) }
    ensures err { IfErr result (λ e. e ≡ Memory) }
{
    match s {
        TreeStmt::Label(name) => {
            out.push(name)?;
            Ok(())
        }
        TreeStmt::If(_, arms) => of_arms(out, arms),
        TreeStmt::IfElse(_, arms, ss) => {
            of_arms(out, arms)?;
            push_labels(out, ss)
        }
        TreeStmt::While(_, _, _, ss) => push_labels(out, ss),
        _ => Ok(()),
    }
}

/// Adds the labels of arms.
#[tactic(auto, using(crate::proofs::LabelForms::label_forms))]
#[cycle(push_labels)]
fn of_arms<'a>(out: &mut Vec<&'a Name>, arms: &'a [TreeArm]) -> Result<(), ResolveError>
    ensures ok { OnOk result (map id_in out.new.items ≡ map id_in out.old.items ++ arms_labels (tree_arms arms.now)) }
    ensures err { IfErr result (λ e. e ≡ Memory) }
{
    for a in arms {
        push_labels(out, &a.block)?;
    }
    Ok(())
}

/// Adds the labels of statements. Errors: Memory.
#[tactic(auto, using(crate::proofs::LabelForms::label_forms))]
#[cycle(push_labels)]
pub fn push_labels<'a>(out: &mut Vec<&'a Name>, ss: &'a [TreeStmt]) -> Result<(), ResolveError>
    ensures ok { OnOk result (map id_in out.new.items ≡ map id_in out.old.items ++ sts_labels (tree_sts ss.now)) }
    ensures err { IfErr result (λ e. e ≡ Memory) }
{
    for s in ss {
        of_stmt(out, s)?;
    }
    Ok(())
}
