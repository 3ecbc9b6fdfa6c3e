//! What the statements before the sections say.

ghost use Rattle.std.specs.Prelude.{◌≡◌};
ghost use Rattle.rc_def.specs.Means as means;
ghost use Rattle.rc_def.specs.Parts.{first};

use crate::draft::{Header, Units};
use rc_fixed::Text;

/// The byte of a divider.
fn divider_of(text: &[u8]) -> Option<u8>
    ensures { result ≡ means.divider_of text.now }
{
    match text {
        [divider] => Some(*divider),
        _ => None,
    }
}

/// The two bytes that a bit's number stands in.
fn bus_of(text: &[u8]) -> Option<(u8, u8)>
    ensures { result ≡ means.bus_of text.now }
{
    match text {
        [left, right] => Some((*left, *right)),
        _ => None,
    }
}

/// So many units make a micron.
fn units_of(number: Option<i32>, line: u32) -> Option<Units>
    ensures { result ≡ means.units_of number line }
{
    match number {
        Some(in_a_micron) => Some(Units { in_a_micron, line }),
        None => None,
    }
}

impl Header {
    /// DESIGN n ;
    pub fn with_design(&mut self, design: Text)
        ensures { self.new ≡ record self.old { design = Some design } }
    {
        self.design = Some(design);
    }

    /// UNITS DISTANCE MICRONS d ;
    pub fn with_units(&mut self, number: Option<i32>, line: u32)
        ensures { self.new ≡ record self.old { units = means.units_of number line } }
    {
        self.units = units_of(number, line);
    }

    /// DIVIDERCHAR "c" ;
    pub fn with_divider(&mut self, text: &[u8])
        ensures { self.new ≡ record self.old { divider = first self.old.divider (means.divider_of text.now) } }
    {
        if self.divider.is_none() {
            self.divider = divider_of(text);
        }
    }

    /// BUSBITCHARS "lr" ;
    pub fn with_bus(&mut self, text: &[u8])
        ensures { self.new ≡ record self.old { bus = first self.old.bus (means.bus_of text.now) } }
    {
        if self.bus.is_none() {
            self.bus = bus_of(text);
        }
    }
}
