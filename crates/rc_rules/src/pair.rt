//! The layers that tables are for.

ghost use Rattle.std.specs.Prelude.{◌≡◌, ◌<◌, ◌≤◌, ◌++◌, ◌∷◌, [], length, position, IfOk, IfSome, OnOk, OnErr};
ghost use Rattle.rc_rules.specs.LookUp.{is_layer, is_for as is_pair_for, table_for as table_of};
ghost use Rattle.rc_rules.specs.Places.{layer_numbered, ArePlaces};

use rc_fixed::{List, NoMemory};
use std::alloc::Global;
use std::marker::Model;

/// The layers that a table is for: those with metal under the face and over it, by their numbers.
#[derive(Clone, Copy, Debug, PartialEq, Eq)]
pub struct Pair {
    pub under: Option<u8>,
    pub over: Option<u8>,
}

/// Whether both are the same layer, or both are none.
fn same(a: Option<u8>, b: Option<u8>) -> bool
    ensures { result ≡ is_layer a b }
{
    match (a, b) {
        (None, None) => true,
        (Some(a), Some(b)) => a == b,
        _ => false,
    }
}

impl Pair {
    /// Whether it is these layers.
    pub fn is_for(&self, under: Option<u8>, over: Option<u8>) -> bool
        ensures { result ≡ is_pair_for under over self.now }
    {
        same(self.under, under) && same(self.over, over)
    }
}

/// At most 256 pairs of layers, in the order of their tables. Contracts see the list of them.
#[derive(Debug, Drop)]
pub struct Pairs {
    items: List<Pair>,
}

impl Model for Pairs {
    ghost use Rattle.std.specs.Prelude.{◌≤◌, List as Elements, length};
    ghost use Rattle.rc_rules.specs.declared.pair.Pair.{Pair};

    ghost Value = { Elements Pair };

    ghost view = { λ pairs. pairs.items };

    ghost invariant = { λ pairs. length pairs.items ≤ 256 };
}

/// How many values the number of a layer under or over has: none, or one of 32.
const CHOICES: usize = 33;

/// None for 0, and the layer before this number for another.
fn layer_before(number: usize) -> Option<u8>
    requires { number < 33 }
    ensures { result ≡ layer_numbered number }
{
    if number == 0 {
        None
    } else {
        Some((number - 1) as u8)
    }
}

impl Pairs {
    /// No pairs.
    pub fn new(alloc: Global) -> Pairs
        ensures { result ≡ [] }
    {
        Pairs {
            items: List::new(alloc),
        }
    }

    /// How many there are.
    pub fn len(&self) -> usize
        ensures length { result ≡ length self.now }
        ensures few { result ≤ 256 }
    {
        self.items.len()
    }

    /// Appends a pair.
    ///
    /// # Errors
    ///
    /// `NoMemory` for want of memory. The pairs are then as before.
    pub fn push(&mut self, pair: Pair) -> Result<(), NoMemory>
        requires { length self.old < 256 }
        ensures ok { OnOk result (self.new ≡ self.old ++ pair ∷ []) }
        ensures err { OnErr result (self.new ≡ self.old) }
    {
        self.items.push(pair)
    }

    /// Where these layers stand, looked for at each place.
    pub fn find(&self, under: Option<u8>, over: Option<u8>) -> Option<usize>
        ensures place { result ≡ position (is_pair_for under over) self.now }
        ensures within { IfSome result (λ place. place < 256) }
    {
        self.items
            .items()
            .iter()
            .position(|pair| pair.is_for(under, over))
    }

    /// The table for these layers, or else for the one under alone, or else for none, looked for at each place.
    pub fn table_for(&self, under: Option<u8>, over: Option<u8>) -> Option<usize>
        ensures table { result ≡ table_of self.now under over }
        ensures within { IfSome result (λ place. place < 256) }
    {
        if let Some(place) = self.find(under, over) {
            return Some(place);
        }
        if let Some(place) = self.find(under, None) {
            return Some(place);
        }
        self.find(None, None)
    }

    /// The table for each two layers, or none, under and over.
    ///
    /// # Errors
    ///
    /// `NoMemory` for want of memory.
    pub fn places(&self, alloc: Global) -> Result<List<Option<u16>>, NoMemory>
        ensures { IfOk result (λ places. ArePlaces self.now places) }
    {
        let mut places = List::new(alloc);
        for cell in 0..CHOICES * CHOICES {
            let under = layer_before(cell / CHOICES);
            let over = layer_before(cell % CHOICES);
            places.push(self.place(under, over))?;
        }
        Ok(places)
    }

    /// The table for these layers, as a small number.
    fn place(&self, under: Option<u8>, over: Option<u8>) -> Option<u16>
        ensures { result ≡ table_of self.now under over }
    {
        match self.table_for(under, over) {
            Some(place) => Some(place as u16),
            None => None,
        }
    }
}
