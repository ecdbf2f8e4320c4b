//! What the instances of lines say, as commands.
ghost use Rattle.std.specs.Prelude.{◌≡◌, ◌++◌, List, IfOk, OnOk};
ghost use Rattle.bg_ast.specs.Syntax.{Fun};
ghost use Rattle.bg_incarnate.specs.Views.{cmds_of};
ghost use Rattle.bg_flat.specs.Blocks.{supposed};
ghost use Rattle.bg_flat.specs.Fronts.{stated};
ghost use Rattle.bg_numbered.specs.Lines.{instances_in, said_by};
ghost use Rattle.bg_term_table.specs.Views.{terms_in};
ghost use Rattle.bg_term_table.specs.Lines.{line_of, lines_of};
ghost use Rattle.bg_fronts.specs.Said.{supposed_by};

use crate::parts::apart;
use crate::selects::{at_index, elsewhere};
use crate::shape::Behind;
use crate::stated::numbered;
use bg_ast::resolved::Expr;
use bg_incarnate::PassiveCmd;
use bg_term_table::{Line, Term};
use std::alloc::{AllocError, Global};

/// What a line says, if it says something, where the terms stand behind so many incarnations.
fn said(alloc: Global, at: Behind<'_>, line: &Line) -> Result<Option<Expr>, AllocError>
    ensures { IfOk result (λ z. (fs : List Fun) → supposed_by z ≡ supposed (stated at.entry.count (terms_in fs at.entry.terms.now) (said_by (line_of line.now)))) }
{
    match line {
        Line::Pick(_, _) => Ok(None),
        Line::Names(_, _) => Ok(None),
        Line::Congruent(a, b) => Ok(Some(numbered(alloc, at.count, at.terms, *a, *b)?)),
        Line::AtIndex(u, s) => Ok(Some(at_index(alloc, at, *u, *s)?)),
        Line::Elsewhere(u, s, r) => Ok(Some(elsewhere(alloc, at, *u, *s, *r)?)),
        Line::Apart(s, r) => Ok(Some(apart(alloc, at, *s, *r)?)),
    }
}

/// A command more that supposes what is said, if something is.
fn put(made: &mut Vec<PassiveCmd>, said: Option<Expr>) -> Result<(), AllocError>
    ensures { OnOk result (cmds_of made.new.items ≡ cmds_of made.old.items ++ supposed_by said) }
{
    match said {
        None => Ok(()),
        Some(e) => {
            made.push(PassiveCmd::Supposes(None, e))?;
            Ok(())
        }
    }
}

/// Commands that suppose what lines say, where the terms stand behind so many incarnations.
pub fn supposing_lines(
    alloc: Global,
    count: u32,
    terms: &[Term],
    lines: &[Line],
) -> Result<Vec<PassiveCmd>, AllocError>
    ensures { IfOk result (λ made. (fs : List Fun) → cmds_of made.items ≡ supposed (stated count (terms_in fs terms.now) (instances_in (lines_of lines.now)))) }
{
    let at = Behind { count, terms };
    let mut made = Vec::new(alloc);
    for line in lines {
        let one = said(alloc, at, line)?;
        put(&mut made, one)?;
    }
    Ok(made)
}
