//! Relations of numbers as expressions over the atoms of their rows.
ghost use Rattle.std.specs.Prelude.{◌≡◌, List, map, IfOk, OnOk};
ghost use Rattle.bg_ast.specs.Syntax.{Binary};
ghost use Rattle.bg_ast.specs.Meaning as m;
ghost use Rattle.bg_ast.specs.Views.{ex_of};
ghost use Rattle.bg_rows.specs.Rows.{row_of};
ghost use Rattle.bg_formula.specs.Atoms.{AtomOf, view_linear};
ghost use Rattle.bg_linear.specs.Relations.{op_of};
ghost use Rattle.bg_atoms.specs.Built.{says_ex};
ghost use Rattle.bg_atoms.specs.Worlds.{Begins, SaysRow, SaysAll};
ghost use Rattle.bg_atoms.specs.Made.{rows_in, behind, IsRange, IsRelated};
ghost use Rattle.bg_atoms.specs.Listed.{with_row, with_rows, with_ex};
ghost use Rattle.bg_atoms.specs.Tables.{IsTable};
ghost use Rattle.bg_atoms.specs.Growing.{Grows};
ghost use Rattle.bg_atoms.specs.Heads.{Relates};

use crate::build::{both, literal, plain};
use crate::made::Made;
use crate::named::Names;
use crate::table::Table;
use bg_ast::resolved::{Expr, Link};
use bg_formula::Linear;
use bg_linear::relation_of_chain;
use bg_renamed::negated;
use bg_rows::Refused;
use bg_text::InfixSign;
use std::alloc::{AllocError, Global};

/// What says that a row holds, where the rows begin at this atom. A row without entries is plain.
fn row_expr(alloc: Global, table: &mut Table, base: u32, a: Linear) -> Result<Expr, AllocError>
    requires table { IsTable base table.old }
    ensures grows { OnOk result (Grows base (with_row (view_linear a)) table.old table.new) }
    ensures row { IfOk result (λ x. (all : List AtomOf) → Begins (rows_in table.new.rows) all → SaysRow base all (row_of a.row) (m.ex_of (ex_of x))) }
{
    if a.row.entries.is_empty() {
        return Ok(plain(0 <= a.row.bound));
    }
    let l = table.literal(alloc, base, a)?;
    literal(alloc, l)
}

/// What says that all rows hold.
fn all_rows(
    alloc: Global,
    table: &mut Table,
    base: u32,
    rows: Vec<Linear>,
) -> Result<Expr, AllocError>
    requires table { IsTable base table.old }
    ensures grows { OnOk result (Grows base (with_rows (map view_linear rows.items)) table.old table.new) }
    ensures rows { IfOk result (λ x. (all : List AtomOf) → Begins (rows_in table.new.rows) all → SaysAll base all (map view_linear rows.items) (m.ex_of (ex_of x))) }
{
    let mut rows = rows;
    let mut made = plain(true);
    while let Some(a) = rows.pop() {
        let x = row_expr(alloc, table, base, a)?;
        made = both(alloc, x, made)?;
    }
    Ok(made)
}

/// What says the same as rows, or that it is not so for `!=`.
fn said(alloc: Global, sign: InfixSign, all: Expr) -> Result<Expr, AllocError>
    ensures { IfOk result (λ x. m.ex_of (ex_of x) ≡ says_ex (op_of sign) (m.ex_of (ex_of all))) }
{
    if sign == InfixSign::Unequal {
        negated(alloc, all)
    } else {
        Ok(all)
    }
}

/// Of a refused relation nothing is said.
fn refused(r: Refused) -> Result<Made, AllocError>
    ensures { IfOk result (λ x. IsRange r x) }
{
    match r {
        Refused::Range(o) => Ok(Made {
            says: plain(false),
            refused: Some(o),
        }),
        Refused::Memory => Err(AllocError),
    }
}

/// A relation of numbers, of which the left one is a chain: `==` says that its two rows hold, and `!=` that not both do.
pub fn related(
    alloc: Global,
    table: &mut Table,
    names: &Names,
    first: &Expr,
    before: &[Link],
    l: &Link,
) -> Result<Made, AllocError>
    requires related { Relates names.now.sorts.items (m.ex_of (ex_of first.now)) before.now l.now }
    requires table { IsTable names.now.base table.old }
    ensures grows { OnOk result (Grows names.now.base (with_ex names.now.sorts.items (Binary (op_of l.now.sign) (behind (m.ex_of (ex_of first.now)) before.now) (m.ex_of (ex_of l.now.operand)))) table.old table.new) }
    ensures made { IfOk result (λ x. (all : List AtomOf) → Begins (rows_in table.new.rows) all → IsRelated names.now.sorts.items names.now.base all (op_of l.now.sign) (behind (m.ex_of (ex_of first.now)) before.now) (m.ex_of (ex_of l.now.operand)) x) }
{
    match relation_of_chain(alloc, l.sign, first, before, &l.operand) {
        Err(r) => refused(r),
        Ok(rows) => {
            let all = all_rows(alloc, table, names.base, rows)?;
            Ok(Made {
                says: said(alloc, l.sign, all)?,
                refused: None,
            })
        }
    }
}
