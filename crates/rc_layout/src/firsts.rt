//! Lists in which the first of a name counts.

ghost use Rattle.std.specs.Prelude.{◌≡◌, ◌<◌, ◌++◌, [], true, map, length, position, IfSome, IfOk};
ghost use Rattle.std.specs.Str.{bytes_eq};
ghost use Rattle.rc_keys.specs.Tables.{are_new};

use rc_fixed::{List, NoMemory, Text};
use rc_keys::{Named, Table};
use std::alloc::Global;
use std::marker::Model;

/// A name by itself.
#[derive(Debug, Drop)]
pub struct Name {
    pub text: Text,
}

impl Named for Name {
    ghost called = { λ name. name.text };

    fn name(&self) -> &[u8] {
        self.text.bytes()
    }
}

/// Things that are found by name: of two lists, in each of which the names differ, the first one's things come first, and
/// hide those of the second one. Contracts see the list of all.
#[derive(Drop)]
pub struct Firsts<T: Named> {
    items: List<T>,
    own: Table<Name>,
    others: Table<Name>,
}

impl<T: Named> Model for Firsts<T> {
    ghost use Rattle.std.specs.Prelude.{◌≡◌, ◌++◌, map, List as Elements};
    ghost use Rattle.std.specs.Coded.{coded_list};

    ghost Value = { Elements T };

    ghost coded = { coded_list T.code };

    ghost view = { λ firsts. firsts.items };

    ghost invariant = { λ firsts. map (λ name. name.text) firsts.own ++ map (λ name. name.text) firsts.others ≡ map T.called firsts.items };
}

/// The names of these things.
fn names_of<T: Named>(alloc: Global, items: &[T]) -> Result<Table<Name>, NoMemory>
    requires { are_new T.called [] items.now ≡ true }
    ensures { IfOk result (λ names. map (λ name. name.text) names ≡ map T.called items.now) }
{
    let mut names = Table::new(alloc);
    for item in items {
        let text = Text::from(alloc, item.name())?;
        names.put(Name { text })?;
    }
    Ok(names)
}

impl<T: Named> Firsts<T> {
    /// The things, in order.
    pub fn items(&self) -> &[T]
        ensures { result.now ≡ self.now }
    {
        self.items.items()
    }

    /// Where the first thing of this name stands. None comes exactly where there is none.
    pub fn place(&self, name: &[u8]) -> Option<usize>
        ensures place { result ≡ position (λ item. bytes_eq name.now (T.called item)) self.now }
        ensures within { IfSome result (λ place. place < length self.now) }
    {
        if let Some(place) = self.own.place(name) {
            return Some(place);
        }
        match self.others.place(name) {
            Some(place) => Some(self.items.len() - (self.others.len() - place)),
            None => None,
        }
    }
}

impl<T: Named + Drop> Firsts<T> {
    /// The things of two lists.
    ///
    /// # Errors
    ///
    /// `NoMemory` for want of memory.
    pub fn new(alloc: Global, own: List<T>, others: List<T>) -> Result<Firsts<T>, NoMemory>
        requires own { are_new T.called [] own ≡ true }
        requires others { are_new T.called [] others ≡ true }
        ensures { IfOk result (λ firsts. firsts ≡ own ++ others) }
    {
        let own_names = names_of(alloc, own.items())?;
        let other_names = names_of(alloc, others.items())?;
        let mut items = own;
        let mut others = others;
        items.append(&mut others)?;
        Ok(Firsts {
            items,
            own: own_names,
            others: other_names,
        })
    }
}
