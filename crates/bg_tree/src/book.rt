//! How many nodes may count yet.
ghost use Rattle.std.specs.Prelude.{◌≡◌, ◌+◌, ◌<◌, ◌^◌, ◌∷◌, ◌++◌, [], ℕ, Bool, List, true, false, reverse, OnOk, IsTrue};
ghost use Rattle.bg_tree.specs.declared.book.Head.TheVariants.{First, Next, Due};
ghost use Rattle.bg_tree.specs.Counts.{cost};
ghost use Rattle.bg_tree.specs.Books.{beside, paid_at, value, IsTaken, Passes, HasRoom, spares, spared, one};

use std::alloc::{AllocError, Global};

/// What is known of the open path's node: the path is the root or a first child; a second child behind
/// a closed leaf; or a second child behind another first one, of a node that is paid for, or whose
/// second child is due to be closed.
#[derive(Clone, Copy)]
pub enum Head {
    First,
    Next,
    Paid,
    Due,
}

/// How many nodes may count yet, besides those paid for; the open path's node; and of each path that
/// waits whether its node is paid for.
#[derive(Drop)]
pub struct Book {
    pub left: u32,
    pub head: Head,
    pub owed: Vec<bool>,
}

/// The open path's node counts or doesn't, by its second child.
fn charge(book: &mut Book, is_closed: bool)
    requires room { book.old.head ≡ Next → 0 < book.old.left }
    requires due { book.old.head ≡ Due → is_closed ≡ true }
    requires small { book.old.left + paid_at book.old.head < 2 ^ 32 }
    ensures left { book.new.left + cost (beside book.old.head) is_closed ≡ book.old.left + paid_at book.old.head }
    ensures head { book.new.head ≡ book.old.head }
    ensures owed { book.new.owed ≡ book.old.owed }
{
    if is_closed {
        match book.head {
            Head::First => {}
            Head::Next => book.left -= 1,
            Head::Paid => book.left += 1,
            Head::Due => {}
        }
    }
}

/// Goes on with the next path's node.
fn take(book: &mut Book)
    ensures { IsTaken book.old book.new }
{
    match book.owed.pop() {
        None => book.head = Head::First,
        Some(true) => book.head = Head::Paid,
        Some(false) => book.head = Head::Due,
    }
}

/// The first child is a closed leaf: nothing is paid for.
fn spare(book: &mut Book)
    requires small { book.old.left + paid_at book.old.head < 2 ^ 32 }
    ensures left { book.new.left + paid_at book.new.head ≡ book.old.left + paid_at book.old.head }
    ensures head { book.new.head ≡ spared book.old.head }
    ensures owed { book.new.owed ≡ book.old.owed }
{
    match book.head {
        Head::First => {}
        Head::Next => {}
        Head::Paid => {
            book.left += 1;
            book.head = Head::Next;
        }
        Head::Due => book.head = Head::Next,
    }
}

/// Whether the open path is a first child that is a closed leaf.
fn spares(head: Head, is_closed: bool) -> bool
    ensures { result ≡ spares head is_closed }
{
    match head {
        Head::First => is_closed,
        _ => false,
    }
}

/// The open path's part is a leaf, or its tree is made: goes on with the next path.
pub fn pass(book: &mut Book, is_closed: bool)
    requires due { book.old.head ≡ Due → is_closed ≡ true }
    requires small { value book.old < 2 ^ 32 }
    requires room { HasRoom book.old.head (reverse book.old.owed.items) book.old.left }
    ensures { Passes book.old is_closed book.new }
{
    let is_spared = spares(book.head, is_closed);
    charge(book, is_closed);
    take(book);
    if is_spared {
        spare(book);
    }
}

/// The open path's node has two children: goes on with the first. The node is paid for, or its second child is due to be closed.
pub fn owe(book: &mut Book, is_paid: bool) -> Result<(), AllocError>
    requires { 0 < book.old.left }
    ensures owed { OnOk result (book.new.owed.items ≡ book.old.owed.items ++ (is_paid ∷ [])) }
    ensures head { OnOk result (book.new.head ≡ First) }
    ensures left { OnOk result (book.new.left + one is_paid ≡ book.old.left) }
{
    book.owed.push(is_paid)?;
    if is_paid {
        book.left -= 1;
    }
    book.head = Head::First;
    Ok(())
}
