//! Cells, which components are made of.

use rc_fixed::{List, Text};
use rc_geom::{Pt, Rect};
use rc_keys::Named;

/// In which direction a pin drives.
#[derive(Clone, Copy, Debug, PartialEq, Eq)]
pub enum Dir {
    I,
    O,
    B,
}

/// A pin of a cell, with its rectangles on routing layers, by the layers' numbers.
#[derive(Debug, Drop)]
pub struct MacroPin {
    pub name: Text,
    pub dir: Dir,
    pub rects: List<(u8, Rect)>,
}

/// A cell `w` wide and `h` high. The origin is what is added to a point of a pin before the cell is placed.
#[derive(Debug, Drop)]
pub struct Macro {
    pub name: Text,
    pub origin: Pt,
    pub w: i32,
    pub h: i32,
    pub pins: List<MacroPin>,
}

impl Named for Macro {
    ghost use Rattle.rc_lef.specs.Technology.{name_of_macro};

    ghost called = { name_of_macro };

    fn name(&self) -> &[u8] {
        self.name.bytes()
    }
}

impl Named for MacroPin {
    ghost use Rattle.rc_lef.specs.Technology.{name_of_pin};

    ghost called = { name_of_pin };

    fn name(&self) -> &[u8] {
        self.name.bytes()
    }
}
