//! Tables of terms, of which one with leaves as arguments stands there once.
ghost use Rattle.std.specs.Prelude.{◌≡◌, ◌+◌, ◌++◌, ◌∷◌, [], List, length, None, Some, IfOk, OnOk};
ghost use Rattle.std.proofs.Props.{props};
ghost use Rattle.bg_ast.specs.Syntax.{Fun};
ghost use Rattle.bg_numbered.specs.Put.{place_term, with_term};
ghost use Rattle.bg_term_table.specs.Views.{meanings, listed, head_of, terms_in};
ghost use Rattle.bg_term_table.specs.Keys.{leaves_in, kind_in, found_by, key_in, keys_of, IsKnown, HasHead};

use crate::heads::{is_one_head, kind};
use crate::kind::Kind;
use crate::leaf::Leaf;
use crate::leaves::leaves;
use crate::table::{Head, Term};
use bg_ast::resolved::Expr;
use std::alloc::{AllocError, Global};
use std::collections::BTreeMap;

/// What a term with leaves as arguments is found by: what makes it, but for the types of maps, and its arguments.
type Key = (Kind, Vec<Leaf>);

/// Terms, and the place of each one with leaves as arguments.
///
/// The definition says that such a term has the place of the first one that is the same, as a walk over the terms finds it. The map has for
/// each key the place of the first term that has it, and nothing for a key that no term has; a map that is read has one type, so the term
/// found has the head that is looked for. So it finds the same, in the time of a walk over the arguments and of the logarithm of how many
/// terms there are.
#[derive(Drop)]
pub struct Terms {
    pub terms: Vec<Term>,
    known: BTreeMap<Key, u32>,
    ghost found: { IsKnown known terms.items } by { Prim.hlevel props },
}

/// The number of a place behind so many incarnations; 2^32 count as want of memory.
fn behind(count: u32, place: usize) -> Result<u32, AllocError>
    ensures { IfOk result (λ j. j ≡ count + place) }
{
    match u32::try_from(place) {
        Ok(a) => match count.checked_add(a) {
            Some(j) => Ok(j),
            None => Err(AllocError),
        },
        Err(_) => Err(AllocError),
    }
}

/// Puts a term behind the others, and its place at its key, where nothing is at the key.
fn insert(
    terms: &mut Vec<Term>,
    known: &mut BTreeMap<Key, u32>,
    key: Key,
    term: Term,
) -> Result<(), AllocError>
    requires known { IsKnown known.old terms.old.items }
    requires key { key_in term ≡ Some (key.0, key.1.items) }
    requires new { found_by (key.0, key.1.items) 0 (keys_of terms.old.items) ≡ None }
    ensures known { IsKnown known.new terms.new.items }
    ensures terms { OnOk result (terms.new.items ≡ terms.old.items ++ term ∷ []) }
{
    let place = behind(0, terms.len())?;
    terms.reserve(1)?;
    known.insert(key, place)?;
    terms.push(term)?;
    Ok(())
}

impl Terms {
    /// No terms.
    pub fn new(alloc: Global) -> Terms
        ensures { result.terms.items ≡ [] }
    {
        Terms {
            terms: Vec::new(alloc),
            known: BTreeMap::new(alloc),
        }
    }

    /// The place of the first term with this key, if one is there.
    fn found(&self, key: &Key) -> Option<u32>
        ensures { result ≡ found_by (key.now.0, key.now.1.items) 0 (keys_of self.now.terms.items) }
    {
        self.known.get(key).copied()
    }

    /// A term whose arguments aren't all leaves, behind the others; the number that it has behind so many incarnations.
    fn add(&mut self, count: u32, head: Head, args: Vec<Expr>) -> Result<u32, AllocError>
        requires { leaves_in (meanings args.items) ≡ None }
        ensures number { IfOk result (λ j. j ≡ count + length self.old.terms.items) }
        ensures terms { OnOk result (self.new.terms.items ≡ self.old.terms.items ++ (record { head = head; args = args }) ∷ []) }
    {
        let number = behind(count, self.terms.len())?;
        self.terms.push(Term { head, args })?;
        Ok(number)
    }

    /// The same of a term with leaves as arguments, of which none with this key is there.
    fn add_known(
        &mut self,
        count: u32,
        key: Key,
        head: Head,
        args: Vec<Expr>,
    ) -> Result<u32, AllocError>
        requires kind { kind_in head ≡ key.0 }
        requires leaves { leaves_in (meanings args.items) ≡ Some key.1.items }
        requires new { found_by (key.0, key.1.items) 0 (keys_of self.old.terms.items) ≡ None }
        ensures number { IfOk result (λ j. j ≡ count + length self.old.terms.items) }
        ensures terms { OnOk result (self.new.terms.items ≡ self.old.terms.items ++ (record { head = head; args = args }) ∷ []) }
    {
        let number = behind(count, self.terms.len())?;
        insert(&mut self.terms, &mut self.known, key, Term { head, args })?;
        Ok(number)
    }

    /// The number behind so many incarnations of the term at this place, which has this head. A table in which terms that read one map have
    /// maps of two types counts as want of memory; nothing that is typed makes one.
    fn same(&self, count: u32, place: u32, head: &Head) -> Result<u32, AllocError>
        ensures { IfOk result (λ j. (j ≡ count + place) × HasHead place (head_of head.now) self.now.terms.items) }
    {
        match self.terms.get(place as usize) {
            None => Err(AllocError),
            Some(t) => {
                if is_one_head(&t.head, head) {
                    behind(count, place as usize)
                } else {
                    Err(AllocError)
                }
            }
        }
    }

    /// The number that a term with leaves as arguments has behind so many incarnations; it is there from now on.
    fn keyed(
        &mut self,
        count: u32,
        key: Key,
        head: Head,
        args: Vec<Expr>,
    ) -> Result<u32, AllocError>
        requires kind { kind_in head ≡ key.0 }
        requires leaves { leaves_in (meanings args.items) ≡ Some key.1.items }
        ensures number { IfOk result (λ j. (fs : List Fun) → j ≡ count + place_term (head_of head) (listed (meanings args.items)) (terms_in fs self.old.terms.items)) }
        ensures table { OnOk result ((fs : List Fun) → terms_in fs self.new.terms.items ≡ with_term fs (head_of head) (listed (meanings args.items)) (terms_in fs self.old.terms.items)) }
    {
        match self.found(&key) {
            Some(place) => self.same(count, place, &head),
            None => self.add_known(count, key, head, args),
        }
    }

    /// The number that a term of this head and these flat arguments has behind so many incarnations; it is there from now on.
    pub fn put(
        &mut self,
        alloc: Global,
        count: u32,
        head: Head,
        args: Vec<Expr>,
    ) -> Result<u32, AllocError>
        ensures number { IfOk result (λ j. (fs : List Fun) → j ≡ count + place_term (head_of head) (listed (meanings args.items)) (terms_in fs self.old.terms.items)) }
        ensures table { OnOk result ((fs : List Fun) → terms_in fs self.new.terms.items ≡ with_term fs (head_of head) (listed (meanings args.items)) (terms_in fs self.old.terms.items)) }
    {
        let known = leaves(alloc, &args)?;
        match known {
            None => self.add(count, head, args),
            Some(leaves) => {
                let key = (kind(&head), leaves);
                self.keyed(count, key, head, args)
            }
        }
    }

    /// The terms.
    pub fn into_terms(self) -> Vec<Term>
        ensures { result.items ≡ self.terms.items }
    {
        self.terms
    }
}
