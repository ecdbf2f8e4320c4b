//! Where points lie, with what was there before.
ghost use Rattle.std.specs.Prelude.{◌≡◌, ◌++◌, [], ◌∷◌, Some, None, take, drop, unwrap_or, OnOk, IfOk};
ghost use Rattle.bg_blocks.specs.Marks.{set_to, undone};
ghost use Rattle.bg_blocks.specs.MarkViews.{marked};

use std::alloc::{AllocError, Global};
use std::collections::BTreeMap;

/// What is marked at keys, and for each mark since the beginning what was there before it.
#[derive(Drop)]
pub struct Marks {
    pub at: BTreeMap<u128, usize>,
    pub undo: Vec<(u128, Option<usize>)>,
}

impl Marks {
    /// No marks.
    pub fn new(alloc: Global) -> Marks
        ensures marks { marked result ≡ (λ k. None) }
        ensures undo { result.undo.items ≡ [] }
    {
        Marks {
            at: BTreeMap::new(alloc),
            undo: Vec::new(alloc),
        }
    }

    /// What is marked at the key, or else 1.
    pub fn at(&self, key: u128) -> usize
        ensures { result ≡ unwrap_or (marked self.now key) 1 }
    {
        match self.at.get(&key) {
            Some(n) => *n,
            None => 1,
        }
    }

    /// Marks the key.
    pub fn mark(&mut self, key: u128, n: usize) -> Result<(), AllocError>
        ensures marks { OnOk result (marked self.new ≡ set_to key (Some n) (marked self.old)) }
        ensures undo { OnOk result (self.new.undo.items ≡ self.old.undo.items ++ (key, marked self.old key) ∷ []) }
    {
        let before = self.at.insert(key, n)?;
        self.undo.push((key, before))?;
        Ok(())
    }

    /// Takes the last mark back.
    fn undo_one(&mut self, key: u128, before: Option<usize>) -> Result<(), AllocError>
        ensures marks { OnOk result (marked self.new ≡ set_to key before (marked self.old)) }
        ensures undo { self.new.undo ≡ self.old.undo }
    {
        match before {
            Some(n) => {
                self.at.insert(key, n)?;
            }
            None => {
                self.at.remove(&key);
            }
        }
        Ok(())
    }

    /// Takes all marks back but the first ones.
    pub fn undo_to(&mut self, first: usize) -> Result<(), AllocError>
        ensures marks { OnOk result (marked self.new ≡ undone (drop first self.old.undo.items) (marked self.old)) }
        ensures undo { OnOk result (self.new.undo.items ≡ take first self.old.undo.items) }
    {
        while self.undo.len() > first {
            if let Some((key, before)) = self.undo.pop() {
                self.undo_one(key, before)?;
            }
        }
        Ok(())
    }
}
