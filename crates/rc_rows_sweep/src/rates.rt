//! What the rows rate faces by.

ghost use Rattle.std.specs.Prelude.{◌≡◌, ℕ, Option};
ghost use Rattle.rc_rows_sweep.specs.RowRates.{digit_rates, table_rates, row_rates, by_distance, place_digit, gap_digit, HasRules, rates_keep};

use rc_rules::{Rate, Rater};

/// Rates of all 32 layers. By digits, each amount tells what it was asked for: thickness up to 3, gap up to 4, the layers
/// under and over, and the layer. Else by a table of two widths, 100 and 200, and two distances, 100 and 300, in 10^-5 fF
/// for a face of one unit of 1/1000 micron, with numbers of their own for the second layer over the first.
#[derive(Clone, Copy)]
pub struct RowRates {
    pub by_digits: bool,
}

/// A layer as a digit, 0 for none.
fn place_of(layer: Option<u8>) -> u128
    ensures { result ≡ place_digit layer }
{
    match layer {
        Some(k) => (u128::from(k) + 1).min(63),
        None => 0,
    }
}

/// A gap as a digit, 0 for none and for one of more than 4.
fn gap_of(gap: Option<u32>) -> u128
    ensures { result ≡ gap_digit gap }
{
    match gap {
        Some(d) if d <= 4 => u128::from(d),
        _ => 0,
    }
}

/// The amounts by digits.
fn by_digits(
    layer: u8,
    under: Option<u8>,
    over: Option<u8>,
    thick: u32,
    gap: Option<u32>,
) -> Rate<u128>
    ensures { (result.ground, result.share) ≡ digit_rates.rate layer under over thick gap }
{
    let distance = gap_of(gap);
    let ground = u128::from(thick.min(3))
        + 4 * distance
        + 32 * place_of(under)
        + 2048 * place_of(over)
        + 131_072 * u128::from(layer.min(63));
    let share = if distance == 0 {
        0
    } else {
        16_777_216 + ground
    };
    Rate { ground, share }
}

/// The numbers of a row: those of its two distances, and the one for open sight.
fn in_row(gap: Option<u32>, near: (u128, u128), far: (u128, u128), far_off: u128) -> Rate<u128>
    ensures { (result.ground, result.share) ≡ by_distance gap near far far_off }
{
    let (ground, share) = match gap {
        Some(d) if d <= 100 => near,
        Some(d) if d <= 300 => far,
        _ => (far_off, 0),
    };
    Rate { ground, share }
}

/// The amounts by the table.
fn by_table(layer: u8, under: Option<u8>, thick: u32, gap: Option<u32>) -> Rate<u128>
    ensures { (over : Option ℕ) → (result.ground, result.share) ≡ table_rates.rate layer under over thick gap }
{
    let over_first = layer == 1 && under == Some(0);
    match (over_first, thick <= 100) {
        (true, true) => in_row(gap, (30, 10), (35, 5), 50),
        (true, false) => in_row(gap, (40, 20), (45, 10), 60),
        (false, true) => in_row(gap, (10, 20), (15, 10), 30),
        (false, false) => in_row(gap, (20, 30), (25, 20), 40),
    }
}

impl Rater for RowRates {
    type Value = u128;

    ghost has_rules = { λ _. HasRules };

    ghost rates_of = { λ rates. row_rates rates.by_digits };

    ghost laws = { λ rates. rates_keep rates.by_digits };

    fn cap(&self, _layer: u8) -> u32 {
        if self.by_digits { 3 } else { 200 }
    }

    fn reach(&self, _layer: u8) -> u32 {
        if self.by_digits { 4 } else { 300 }
    }

    fn rate(
        &self,
        layer: u8,
        under: Option<u8>,
        over: Option<u8>,
        thick: u32,
        gap: Option<u32>,
    ) -> Rate<u128> {
        if self.by_digits {
            by_digits(layer, under, over, thick, gap)
        } else {
            by_table(layer, under, thick, gap)
        }
    }
}
