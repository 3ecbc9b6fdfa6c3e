//! Lists that contracts see as their items.

ghost use Rattle.std.specs.Prelude.{◌≡◌, [], ◌∷◌, ◌++◌, ◌<◌, ◌↔◌, IsTrue, length, take, slice_get, slice_set, IsNone, IfOk, IfSome, IfNone, OnOk, OnErr};

use crate::NoMemory;
use std::alloc::Global;
use std::marker::Model;
use std::mem;

/// Items in a row. Contracts see the list of them.
#[derive(Debug, Drop)]
pub struct List<T> {
    items: Vec<T>,
}

impl<T> Model for List<T> {
    ghost use Rattle.std.specs.Prelude.{List as Elements};
    ghost use Rattle.std.specs.Coded.{coded_list};

    ghost Value = { Elements T };

    ghost coded = { coded_list T.code };

    ghost view = { λ list. list.items.items };
}

impl<T> List<T> {
    /// A list without items. It takes no memory before the first push.
    pub fn new(alloc: Global) -> List<T>
        ensures { result ≡ [] }
    {
        List {
            items: Vec::new(alloc),
        }
    }

    /// A list without items, with room for so many: the first pushes up to there take no memory.
    pub fn with_capacity(alloc: Global, capacity: usize) -> Result<List<T>, NoMemory>
        ensures { IfOk result (λ list. list ≡ []) }
    {
        let items = Vec::with_capacity(alloc, capacity)?;
        Ok(List { items })
    }

    /// Makes room for so many items more, so that the pushes up to there take no memory. The items stay, also where there
    /// is no memory for the room.
    pub fn reserve(&mut self, additional: usize) -> Result<(), NoMemory>
        ensures { self.new ≡ self.old }
    {
        self.items.reserve(additional)?;
        Ok(())
    }

    /// The items that stand in this vector, without a copy.
    pub fn from_vec(items: Vec<T>) -> List<T>
        ensures { result ≡ items.items }
    {
        List { items }
    }

    /// The vector that holds the items, without a copy.
    pub fn into_vec(self) -> Vec<T>
        ensures { result.items ≡ self }
    {
        self.items
    }

    /// The items, first to last.
    pub fn items(&self) -> &[T]
        ensures { result.now ≡ self.now }
    {
        &self.items
    }

    /// How many items there are.
    pub fn len(&self) -> usize
        ensures { result ≡ length self.now }
    {
        self.items.len()
    }

    /// Whether there are no items.
    pub fn is_empty(&self) -> bool
        ensures { IsTrue result ↔ (self.now ≡ []) }
    {
        self.items.is_empty()
    }

    /// Takes the last item off. None comes exactly where there is none.
    pub fn pop(&mut self) -> Option<T>
        ensures empty { IsNone result ↔ (self.old ≡ []) }
        ensures last { IfSome result (λ item. self.old ≡ self.new ++ item ∷ []) }
        ensures unchanged { IfNone result (self.new ≡ self.old) }
    {
        self.items.pop()
    }

    /// Puts the item at that place, and answers the one that stood there.
    pub fn swap(&mut self, at: usize, item: T) -> T
        requires { at < length self.old }
        ensures answer { slice_get self.old at ≡ Some result }
        ensures list { self.new ≡ slice_set self.old at item }
    {
        mem::replace(&mut self.items[at], item)
    }
}

impl<T: Drop> List<T> {
    /// Appends the item. Where there is no memory for it, it is dropped, and the list is as before.
    pub fn push(&mut self, item: T) -> Result<(), NoMemory>
        ensures ok { OnOk result (self.new ≡ self.old ++ item ∷ []) }
        ensures err { OnErr result (self.new ≡ self.old) }
    {
        self.items.push(item)?;
        Ok(())
    }

    /// Drops all items. The memory stays.
    pub fn clear(&mut self)
        ensures { self.new ≡ [] }
    {
        self.items.clear();
    }

    /// Keeps the first so many items, and drops the rest.
    pub fn truncate(&mut self, len: usize)
        ensures { self.new ≡ take len self.old }
    {
        self.items.truncate(len);
    }

    /// Moves the items of another list to the end, so that it has none left. Where there is no memory for them, both lists
    /// are as before.
    pub fn append(&mut self, other: &mut List<T>) -> Result<(), NoMemory>
        ensures ok { OnOk result ((self.new ≡ self.old ++ other.old) × (other.new ≡ [])) }
        ensures err { OnErr result ((self.new ≡ self.old) × (other.new ≡ other.old)) }
    {
        self.items.append(&mut other.items)?;
        Ok(())
    }
}
