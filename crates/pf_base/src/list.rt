//! A list that clauses see as its items.
ghost use Rattle.std.specs.Prelude.{◌≡◌, [], ◌∷◌, ◌++◌, IfOk, OnErr, OnOk};

use crate::memory::NoMemory;
use std::alloc::Global;
use std::marker::Model;

/// A list. Clauses see the list of its items.
#[derive(Debug, Drop)]
pub struct List<T> {
    items: Vec<T>,
}

impl<T> Model for List<T> {
    ghost use Rattle.std.specs.Prelude.{List as Items};
    ghost use Rattle.std.specs.Coded.{coded_list};

    ghost Value = { Items T };

    ghost coded = { coded_list T.code };

    ghost view = { λ a. a.items.items };
}

/// Bytes of a file, a file's name or a word.
pub type Text = List<u8>;

impl<T> List<T> {
    /// The list without items. Takes no memory.
    pub fn new(alloc: Global) -> List<T>
        ensures { result ≡ [] }
    {
        List {
            items: Vec::new(alloc),
        }
    }

    /// The list with these items. Takes no memory.
    pub fn of(items: Vec<T>) -> List<T>
        ensures { result ≡ items.items }
    {
        List { items }
    }

    /// The items, in order. Takes no memory.
    pub fn items(&self) -> &[T]
        ensures { result.now ≡ self.now }
    {
        self.items.as_slice()
    }

    /// The items, in order, out of the list. Takes no memory.
    pub fn into_items(self) -> Vec<T>
        ensures { result.items ≡ self }
    {
        self.items
    }
}

impl<T: Drop> List<T> {
    /// Adds an item behind the others. After NoMemory the list is as it was, and the item is gone.
    pub fn push(&mut self, item: T) -> Result<(), NoMemory>
        ensures ok { OnOk result (self.new ≡ self.old ++ item ∷ []) }
        ensures err { OnErr result (self.new ≡ self.old) }
    {
        self.items.push(item)?;
        Ok(())
    }
}

impl<T: Copy> List<T> {
    /// The list of copies of these items.
    pub fn copy_of(alloc: Global, items: &[T]) -> Result<List<T>, NoMemory>
        ensures { IfOk result (λ list. list ≡ items.now) }
    {
        Ok(List::of(Vec::from_slice(alloc, items)?))
    }

    /// The list of one item.
    pub fn one_copy(alloc: Global, item: &T) -> Result<List<T>, NoMemory>
        ensures { IfOk result (λ list. list ≡ item.now ∷ []) }
    {
        let mut list = List::new(alloc);
        list.push_copy(item)?;
        Ok(list)
    }

    /// Adds a copy of an item behind the others. After NoMemory the list is as it was.
    pub fn push_copy(&mut self, item: &T) -> Result<(), NoMemory>
        ensures ok { OnOk result (self.new ≡ self.old ++ item.now ∷ []) }
        ensures err { OnErr result (self.new ≡ self.old) }
    {
        self.items.push(*item)?;
        Ok(())
    }

    /// Adds copies of items behind the others, in order. After NoMemory the list is as it was.
    pub fn append_copy(&mut self, items: &[T]) -> Result<(), NoMemory>
        ensures ok { OnOk result (self.new ≡ self.old ++ items.now) }
        ensures err { OnErr result (self.new ≡ self.old) }
    {
        self.items.extend_from_slice(items)?;
        Ok(())
    }
}
