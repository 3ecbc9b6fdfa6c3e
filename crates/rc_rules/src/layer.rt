//! What stands in a layer's block.

ghost use Rattle.std.specs.Prelude.{◌≡◌, ◌<◌, ◌≤◌, ◌+◌, ◌^◌, [], true, option_map, unwrap_or, slice_index, IfOk, IfSome};
ghost use Rattle.rc_rules.specs.LookUp.{face_rate, row_of, table_for, width_row, distance_column, unit_resistance, farthest as farthest_of};
ghost use Rattle.rc_rules.specs.RuleFile.{IsLayer};
ghost use Rattle.rc_rules.specs.Blocks.{no_values, is_complete as is_complete_block, is_full as is_full_block};
ghost use Rattle.rc_rules.specs.Places.{layer_numbered};
ghost use Rattle.rc_rules.specs.Scales.{last_step};

use crate::numbers::{Numbers, Rows};
use crate::pair::Pairs;
use crate::rater::Rate;
use crate::scale::Scale;
use rc_fixed::{List, NoMemory};
use std::alloc::Global;
use std::marker::Model;

/// The values of a block: widths and distances in units of 1/M micron; a resistance for each width, of one unit of a wire
/// of that width; the layers that its tables are for; and their rows, table by table, one a width, each with two numbers a
/// distance and one for an open face.
#[derive(Debug, Drop)]
pub struct LayerValues {
    pub widths: Scale,
    pub distances: Scale,
    pub resistances: Numbers,
    pub pairs: Pairs,
    pub rows: Rows,
}

impl LayerValues {
    /// Nothing is read of a block.
    pub fn new(alloc: Global) -> LayerValues
        ensures { result ≡ no_values }
    {
        LayerValues {
            widths: Scale::new(alloc),
            distances: Scale::new(alloc),
            resistances: Numbers::new(alloc),
            pairs: Pairs::new(alloc),
            rows: Rows::new(alloc),
        }
    }

    /// Whether each table has its rows, one a width.
    pub fn is_full(&self) -> bool
        ensures { result ≡ is_full_block self.now }
    {
        self.rows.len() == self.pairs.len() * self.widths.len()
    }

    /// Whether the block may end: it has widths and distances, and the table that is for no layers.
    pub fn is_complete(&self) -> bool
        ensures { result ≡ is_complete_block self.now }
    {
        !self.widths.is_empty()
            && !self.distances.is_empty()
            && self.pairs.find(None, None).is_some()
    }
}

/// The values of a complete block, with what finds a table at once. Contracts see the values.
#[derive(Debug, Drop)]
pub struct LayerRules {
    values: LayerValues,
    places: List<Option<u16>>,
}

impl Model for LayerRules {
    ghost use Rattle.rc_rules.specs.declared.layer.LayerValues.{LayerValues};
    ghost use Rattle.rc_rules.specs.RuleFile.{IsLayer};
    ghost use Rattle.rc_rules.specs.Places.{ArePlaces};

    ghost Value = { LayerValues };

    ghost view = { λ rules. rules.values };

    ghost invariant = { λ rules. IsLayer rules.values × ArePlaces rules.values.pairs rules.places };
}

/// The number of a layer among those that `Pairs::places` knows, 0 for none. None comes for a number that it doesn't know.
fn choice(layer: Option<u8>) -> Option<usize>
    ensures { IfSome result (λ number. (number < 33) × (layer_numbered number ≡ layer)) }
{
    match layer {
        None => Some(0),
        Some(number) => {
            if number < 32 {
                Some(number as usize + 1)
            } else {
                None
            }
        }
    }
}

/// A number of a row, 0 where there is none.
fn number(row: Option<&Numbers>, place: usize) -> u128
    ensures { result ≡ slice_index (unwrap_or (option_map (λ numbers. numbers.now) row.entry) []) place }
{
    match row {
        Some(numbers) => u128::from(numbers.at(place)),
        None => 0,
    }
}

/// How far one can look with this block besides.
pub fn farthest(most: u32, layer: &Option<LayerRules>) -> u32
    ensures value { result ≡ farthest_of most layer.now }
    ensures bound { most ≤ 2 ^ 29 + 1 → result ≤ 2 ^ 29 + 1 }
{
    match layer {
        Some(rules) => most.max((rules.reach() + 1).max(rules.cap())),
        None => most,
    }
}

impl LayerRules {
    /// The rules that a complete block gives.
    ///
    /// # Errors
    ///
    /// `NoMemory` for want of memory.
    pub fn new(alloc: Global, values: LayerValues) -> Result<LayerRules, NoMemory>
        requires { is_complete_block values ≡ true }
        ensures { IfOk result (λ rules. rules ≡ values) }
    {
        values.widths.facts();
        values.distances.facts();
        values.resistances.facts();
        values.rows.facts();
        let places = values.pairs.places(alloc)?;
        Ok(LayerRules { values, places })
    }

    /// What holds of every block. Nothing is computed here.
    pub fn facts(&self)
        ensures { IsLayer self.now }
    {
        let _ = self.places.len();
    }

    /// The greatest width.
    pub fn cap(&self) -> u32
        ensures width { result ≡ last_step self.now.widths }
        ensures small { result ≤ 2 ^ 29 }
    {
        self.values.widths.last()
    }

    /// The greatest distance.
    pub fn reach(&self) -> u32
        ensures distance { result ≡ last_step self.now.distances }
        ensures small { result ≤ 2 ^ 29 }
    {
        self.values.distances.last()
    }

    /// The place of the table for these choices of layers.
    fn chosen(&self, under: usize, over: usize) -> Option<usize>
        requires under { under < 33 }
        requires over { over < 33 }
        ensures table { result ≡ table_for self.now.pairs (layer_numbered under) (layer_numbered over) }
        ensures small { IfSome result (λ place. place < 2 ^ 16) }
    {
        match self.places.items()[under * 33 + over] {
            Some(place) => Some(place as usize),
            None => None,
        }
    }

    /// The place of the table for these layers.
    fn table(&self, under: Option<u8>, over: Option<u8>) -> Option<usize>
        ensures table { result ≡ table_for self.now.pairs under over }
        ensures small { IfSome result (λ place. place < 2 ^ 16) }
    {
        let (Some(under_choice), Some(over_choice)) = (choice(under), choice(over)) else {
            return self.values.pairs.table_for(under, over);
        };
        self.chosen(under_choice, over_choice)
    }

    /// The place of the first width that is at least this one, or else of the last.
    fn width_place(&self, width: u32) -> usize
        ensures row { result ≡ width_row self.now.widths width }
        ensures few { result ≤ 32 }
    {
        let place = self.values.widths.place(width);
        place.min(self.values.widths.len() - 1)
    }

    /// The row for metal so thick between these layers.
    fn row(&self, under: Option<u8>, over: Option<u8>, thick: u32) -> Option<&Numbers>
        ensures { unwrap_or (option_map (λ row. row.now) result) [] ≡ row_of self.now under over thick }
    {
        let table = self.table(under, over)?;
        let place = table * self.values.widths.len() + self.width_place(thick);
        self.values.rows.get(place)
    }

    /// The place of the first distance that is at least the gap. None comes where there is no gap, or it is past the last
    /// distance.
    fn column(&self, gap: Option<u32>) -> Option<usize>
        ensures column { result ≡ distance_column self.now.distances gap }
        ensures few { IfSome result (λ place. place < 32) }
    {
        let place = self.values.distances.place(gap?);
        if place < self.values.distances.len() {
            Some(place)
        } else {
            None
        }
    }

    /// What a face is rated at.
    pub fn rate(
        &self,
        under: Option<u8>,
        over: Option<u8>,
        thick: u32,
        gap: Option<u32>,
    ) -> Rate<u128>
        ensures { (result.ground, result.share) ≡ face_rate self.now under over thick gap }
    {
        let row = self.row(under, over, thick);
        match self.column(gap) {
            Some(place) => Rate {
                ground: number(row, 2 * place),
                share: number(row, 2 * place + 1),
            },
            None => Rate {
                ground: number(row, 2 * self.values.distances.len()),
                share: 0,
            },
        }
    }

    /// The resistance of one unit of a wire of that width, in 10^-15 ohm.
    pub fn ohm(&self, width: u32) -> u128
        ensures { result ≡ unit_resistance self.now width }
    {
        u128::from(self.values.resistances.at(self.width_place(width)))
    }
}
