//! Expressions over incarnations as expressions over atoms.
ghost use Rattle.std.specs.Prelude.{◌≡◌, ◌≤◌, ◌+◌, List, ◌++◌, length, drop, IfOk, OnOk};
ghost use Rattle.bg_ast.specs.Syntax.{Ex};
ghost use Rattle.bg_ast.specs.Meaning as m;
ghost use Rattle.bg_ast.specs.Views.{ex_of};
ghost use Rattle.bg_formula.specs.Atoms.{AtomOf};
ghost use Rattle.bg_atoms.specs.Worlds.{Begins};
ghost use Rattle.bg_atoms.specs.Made.{rows_in, behind, Shows, IsMade, AreMade};
ghost use Rattle.bg_atoms.specs.Listed.{with_ex};
ghost use Rattle.bg_atoms.specs.Turned.{turned_by, turned_in, with_turned, with_links, with_operand, operand_in, AreTurned};
ghost use Rattle.bg_atoms.specs.Tables.{IsTable};
ghost use Rattle.bg_atoms.specs.Growing.{Grows};
ghost use Rattle.bg_atoms.specs.Heads.{IsRelation, IsNextIn};

use crate::build::plain;
use crate::chains::{joined, prefixed};
use crate::heads::{head, next, until_implies};
use crate::made::{Linked, Made, last};
use crate::named::Names;
use crate::order::Order;
use crate::relate::related;
use crate::signs::{is_explies, is_implies};
use crate::table::Table;
use bg_ast::resolved::{Expr, Link};
use bg_base::OutOfRange;
use std::alloc::{AllocError, Global};

/// An expression over atoms without relations of numbers.
fn without_relations(says: Expr) -> Made
    ensures { Shows (m.ex_of (ex_of says)) None result }
{
    Made {
        says,
        refused: None,
    }
}

/// An expression with the links of the relation that it begins, if it begins one.
#[cycle(abstracting)]
fn begun(
    alloc: Global,
    table: &mut Table,
    names: &Names,
    first: &Expr,
    front: &[Link],
) -> Result<Made, AllocError>
    requires front { IsRelation names.now.sorts.items (m.ex_of (ex_of first.now)) front.now }
    requires table { IsTable names.now.base table.old }
    ensures grows { OnOk result (Grows names.now.base (with_ex names.now.sorts.items (behind (m.ex_of (ex_of first.now)) front.now)) table.old table.new) }
    ensures made { IfOk result (λ x. (all : List AtomOf) → Begins (rows_in table.new.rows) all → IsMade names.now.sorts.items names.now.base all (behind (m.ex_of (ex_of first.now)) front.now) x) }
{
    match front.split_last() {
        Some((l, before)) => related(alloc, table, names, first, before, l),
        None => abstracted(alloc, table, names, first),
    }
}

/// What stands behind a link's sign on top of what was made, if the sign is `<==`.
#[cycle(abstracting)]
fn turn(
    alloc: Global,
    table: &mut Table,
    names: &Names,
    l: &Link,
    made: &mut Vec<Made>,
) -> Result<(), AllocError>
    requires table { IsTable names.now.base table.old }
    ensures grows { OnOk result (Grows names.now.base (with_turned names.now.sorts.items (turned_by l.now)) table.old table.new) }
    ensures made { OnOk result ((all : List AtomOf) → Begins (rows_in table.new.rows) all → (es : List Ex) → AreTurned names.now.sorts.items names.now.base all es made.old.items → AreTurned names.now.sorts.items names.now.base all (turned_by l.now ++ es) made.new.items) }
{
    if !is_explies(l.sign) {
        return Ok(());
    }
    let x = abstracted(alloc, table, names, &l.operand)?;
    made.push(x)?;
    Ok(())
}

/// What stands behind each `<==` from this link on and before the next `==>`, from the last one on: `a <== b` means `b ==> a`, so what b
/// has comes first.
#[cycle(abstracting)]
fn turned(
    alloc: Global,
    table: &mut Table,
    names: &Names,
    links: &[Link],
    from: usize,
) -> Result<Vec<Made>, AllocError>
    requires from { from ≤ length links.now }
    requires table { IsTable names.now.base table.old }
    ensures grows { OnOk result (Grows names.now.base (with_turned names.now.sorts.items (turned_in (drop from links.now))) table.old table.new) }
    ensures made { IfOk result (λ xs. (all : List AtomOf) → Begins (rows_in table.new.rows) all → AreTurned names.now.sorts.items names.now.base all (turned_in (drop from links.now)) xs.items) }
{
    let mut made = Vec::new(alloc);
    let mut i = from + until_implies(&links[from..]);
    while i > from {
        i -= 1;
        turn(alloc, table, names, &links[i], &mut made)?;
    }
    Ok(made)
}

/// Where memory is from, and the names that expressions are over.
#[derive(Drop)]
struct Over<'a> {
    alloc: Global,
    names: &'a Names,
}

/// The operand of link i with the n links of the relation that it begins; behind `<==` it was made before. `==>` begins a chain anew.
#[cycle(abstracting)]
fn operand(
    over: &Over<'_>,
    table: &mut Table,
    links: &[Link],
    i: usize,
    n: usize,
    made: &mut Vec<Made>,
) -> Result<Made, AllocError>
    requires within { i + 1 + n ≤ length links.now }
    requires next { IsNextIn over.now.names.now.sorts.items (drop i links.now) n }
    requires table { IsTable over.now.names.now.base table.old }
    requires made { (all : List AtomOf) → Begins (rows_in table.old.rows) all → AreTurned over.now.names.now.sorts.items over.now.names.now.base all (turned_in (drop i links.now)) made.old.items }
    ensures grows { OnOk result (Grows over.now.names.now.base (with_operand over.now.names.now.sorts.items (drop i links.now) n) table.old table.new) }
    ensures turned { OnOk result ((all : List AtomOf) → Begins (rows_in table.new.rows) all → AreTurned over.now.names.now.sorts.items over.now.names.now.base all (turned_in (drop (i + 1 + n) links.now)) made.new.items) }
    ensures made { IfOk result (λ x. (all : List AtomOf) → Begins (rows_in table.new.rows) all → IsMade over.now.names.now.sorts.items over.now.names.now.base all (operand_in (drop i links.now) n) x) }
{
    let l = &links[i];
    let next = i + 1 + n;
    if is_implies(l.sign) {
        *made = turned(over.alloc, table, over.names, links, next)?;
        return begun(
            over.alloc,
            table,
            over.names,
            &l.operand,
            &links[i + 1..next],
        );
    }
    if is_explies(l.sign) {
        return Ok(last(made));
    }
    abstracted(over.alloc, table, over.names, &l.operand)
}

/// The links of a chain from this one on, where what stands before it has this refusal, and what stands behind each `<==` before the
/// next `==>` is made already.
#[cycle(abstracting)]
fn links_from(
    over: &Over<'_>,
    table: &mut Table,
    first: Option<OutOfRange>,
    links: &[Link],
    from: usize,
    before: Vec<Made>,
) -> Result<Linked, AllocError>
    requires table { IsTable over.now.names.now.base table.old }
    requires before { (all : List AtomOf) → Begins (rows_in table.old.rows) all → AreTurned over.now.names.now.sorts.items over.now.names.now.base all (turned_in (drop from links.now)) before.items }
    ensures grows { OnOk result (Grows over.now.names.now.base (with_links over.now.names.now.sorts.items (drop from links.now)) table.old table.new) }
    ensures made { IfOk result (λ x. (all : List AtomOf) → Begins (rows_in table.new.rows) all → AreMade over.now.names.now.sorts.items over.now.names.now.base all first (drop from links.now) x) }
{
    let mut order = Order::new(first);
    let mut before = before;
    let mut made = Vec::new(over.alloc);
    let mut i = from;
    while i < links.len() {
        let l = &links[i];
        let rest = &links[i + 1..];
        let n = next(over.names, l, rest);
        let x = operand(over, table, links, i, n, &mut before)?;
        order = order.then(l.sign, x.refused);
        made.push(Link {
            pos: l.pos,
            sign: l.sign,
            operand: x.says,
        })?;
        i += 1 + n;
    }
    Ok(Linked {
        links: made,
        refused: order.first(),
    })
}

/// A truth over incarnations, as one over atoms; the rows of its relations are in the table from now on.
#[cycle(abstracting)]
pub fn abstracted(
    alloc: Global,
    table: &mut Table,
    names: &Names,
    e: &Expr,
) -> Result<Made, AllocError>
    requires table { IsTable names.now.base table.old }
    ensures grows { OnOk result (Grows names.now.base (with_ex names.now.sorts.items (m.ex_of (ex_of e.now))) table.old table.new) }
    ensures made { IfOk result (λ x. (all : List AtomOf) → Begins (rows_in table.new.rows) all → IsMade names.now.sorts.items names.now.base all (m.ex_of (ex_of e.now)) x) }
{
    match e {
        Expr::Truth(_, b) => Ok(without_relations(plain(*b))),
        Expr::Read(pos, x) => Ok(without_relations(names.read(*pos, *x))),
        Expr::Parens(_, e) => abstracted(alloc, table, names, e),
        Expr::Prefix(signs, e) => {
            let x = abstracted(alloc, table, names, e)?;
            prefixed(alloc, signs, x)
        }
        Expr::Postfix(e, brackets) => {
            if brackets.is_empty() {
                abstracted(alloc, table, names, e)
            } else {
                Ok(without_relations(plain(false)))
            }
        }
        Expr::Chain(e, links) => {
            let n = head(names, e, links);
            let before = turned(alloc, table, names, links, n)?;
            let first = begun(alloc, table, names, e, &links[..n])?;
            let over = Over { alloc, names };
            let rest = links_from(&over, table, first.refused, links, n, before)?;
            joined(alloc, first.says, rest)
        }
        Expr::Number(_, _) => Ok(without_relations(plain(false))),
        Expr::Constant(_, _) => Ok(without_relations(plain(false))),
        Expr::Apply(_, _, _) => Ok(without_relations(plain(false))),
        Expr::Old(_, _) => Ok(without_relations(plain(false))),
    }
}
