//! Lists of things with names.

ghost use Rattle.std.specs.Prelude.{◌≡◌, ◌≢◌, ◌↔◌, AllPairs, ◌<◌, ◌++◌, ◌∷◌, [], List, ℕ, true, false, length, position, take, IfSome, IsTrue, OnOk, OnErr};
ghost use Rattle.std.specs.Str.{bytes_eq};
ghost use Rattle.rc_keys.specs.Tables.{has_name, are_new};

use indexmap::IndexSet;
use rc_fixed::{List, NoMemory};
use std::alloc::Global;
use std::marker::Model;

/// Something with a name.
pub trait Named {
    /// Its name.
    ghost called: { Self → List ℕ };

    /// Its name.
    fn name(&self) -> &[u8]
        ensures { result.now ≡ called self.now };
}

/// Things of different names, in order of first appearance, which are found by name. Contracts see the list of them.
#[derive(Drop)]
pub struct Table<T: Named> {
    alloc: Global,
    items: List<T>,
    names: IndexSet<Vec<u8>>,
}

impl<T: Named> Model for Table<T> {
    ghost use Rattle.std.specs.Prelude.{◌≡◌, map, List as Elements, true, []};
    ghost use Rattle.std.specs.Coded.{coded_list};
    ghost use Rattle.rc_keys.specs.Tables.{are_new};

    ghost Value = { Elements T };

    ghost coded = { coded_list T.code };

    ghost view = { λ table. table.items };

    ghost invariant = { λ table. (map (λ key. key.items) table.names.keys ≡ map T.called table.items) × (are_new T.called [] table.items ≡ true) };
}

impl<T: Named> Table<T> {
    /// A table of nothing.
    pub fn new(alloc: Global) -> Table<T>
        ensures { result ≡ [] }
    {
        Table {
            alloc,
            items: List::new(alloc),
            names: IndexSet::new(alloc),
        }
    }

    /// The things, in order.
    pub fn items(&self) -> &[T]
        ensures { result.now ≡ self.now }
    {
        self.items.items()
    }

    /// Each of the things has a name of its own. Nothing is computed here.
    pub fn names_differ(&self)
        ensures { AllPairs (λ a b. T.called a ≢ T.called b) self.now }
    {
        let _ = self.items.items();
    }

    /// Where the thing of this name stands. None comes exactly where there is none.
    pub fn place(&self, name: &[u8]) -> Option<usize>
        ensures place { result ≡ position (λ item. bytes_eq name.now (T.called item)) self.now }
        ensures within { IfSome result (λ place. place < length self.now) }
    {
        self.names.get_index_of(name)
    }

    /// Whether a thing of this name is there.
    pub fn has(&self, name: &[u8]) -> bool
        ensures { result ≡ has_name T.called name.now self.now }
    {
        self.place(name).is_some()
    }

    /// How many things there are.
    pub fn len(&self) -> usize
        ensures { result ≡ length self.now }
    {
        self.items.len()
    }

    /// Whether there are none.
    pub fn is_empty(&self) -> bool
        ensures { IsTrue result ↔ (self.now ≡ []) }
    {
        self.items.is_empty()
    }
}

impl<T: Named + Drop> Table<T> {
    /// Appends a thing whose name isn't there. Where there is no memory for it, it is dropped, and the table is as before.
    ///
    /// # Errors
    ///
    /// `NoMemory` for want of memory.
    pub fn put(&mut self, item: T) -> Result<(), NoMemory>
        requires { has_name T.called (T.called item) self.old ≡ false }
        ensures ok { OnOk result (self.new ≡ self.old ++ item ∷ []) }
        ensures err { OnErr result (self.new ≡ self.old) }
    {
        let Ok(key) = Vec::from_slice(self.alloc, item.name()) else {
            return Err(NoMemory);
        };
        let Ok(()) = self.items.push(item) else {
            return Err(NoMemory);
        };
        let Ok(_) = self.names.insert(key) else {
            self.items.pop();
            return Err(NoMemory);
        };
        Ok(())
    }

    /// Keeps the first so many things, and drops the rest.
    pub fn truncate(&mut self, len: usize)
        ensures { self.new ≡ take len self.old }
    {
        self.items.truncate(len);
        self.names.truncate(len);
    }

    /// Appends things of new names. Where there is no memory for them, they are dropped, and the table is as before.
    ///
    /// # Errors
    ///
    /// `NoMemory` for want of memory.
    pub fn append(&mut self, others: List<T>) -> Result<(), NoMemory>
        requires { are_new T.called self.old others ≡ true }
        ensures ok { OnOk result (self.new ≡ self.old ++ others) }
        ensures err { OnErr result (self.new ≡ self.old) }
    {
        let before = self.items.len();
        for item in others.into_vec() {
            let Ok(()) = self.put(item) else {
                self.truncate(before);
                return Err(NoMemory);
            };
        }
        Ok(())
    }
}

impl<T: Named> Table<T> {
    /// The things, without their names' table.
    pub fn into_list(self) -> List<T>
        ensures { result ≡ self }
    {
        self.items
    }
}
