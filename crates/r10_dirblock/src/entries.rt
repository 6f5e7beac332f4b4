// The entries of one block.
ghost use Rattle.std.specs.Prelude.{◌≡◌, ◌<◌, ◌≤◌, ◌-◌, ◌↔◌, [], ◌∷◌, ◌++◌, IsTrue, length, take};

use crate::Entry;
use arrayvec::ArrayVec;
use std::marker::Model;

/// The entries of a directory block, at most four. They take no memory.
#[derive(Drop)]
pub struct Entries {
    items: ArrayVec<Entry, 4>,
}

impl Model for Entries {
    ghost use Rattle.std.specs.Prelude.{List};
    ghost use Rattle.r10_dirblock.specs.declared.entry.Entry.{Entry};

    ghost Value = { List Entry };

    ghost view = { λ e. e.items.items };
}

impl Entries {
    pub fn new() -> Entries
        ensures { result ≡ [] }
    {
        Entries {
            items: ArrayVec::new(),
        }
    }

    pub fn as_slice(&self) -> &[Entry]
        ensures items { result.now ≡ self.now }
        ensures few { length result.now ≤ 4 }
    {
        self.items.as_slice()
    }

    pub fn len(&self) -> usize
        ensures len { result ≡ length self.now }
        ensures few { result ≤ 4 }
    {
        self.items.len()
    }

    /// Adds an entry after the others.
    pub fn push(&mut self, entry: Entry)
        requires { length self.old < 4 }
        ensures { self.new ≡ self.old ++ entry ∷ [] }
    {
        self.items.push(entry);
    }

    pub fn is_empty(&self) -> bool
        ensures { IsTrue result ↔ (self.now ≡ []) }
    {
        self.items.is_empty()
    }

    /// Whether there is no place for one entry more.
    pub fn is_full(&self) -> bool
        ensures { IsTrue result ↔ (4 ≤ length self.now) }
    {
        self.items.is_full()
    }

    /// Takes the last entry away, if there is one.
    pub fn pop(&mut self)
        ensures { self.new ≡ take (length self.old - 1) self.old }
    {
        let _ = self.items.pop();
    }
}
