//! Components, die pins and nondefault rules.

use rc_fixed::{List, Text};
use rc_geom::{Orient, Pt, Rect};
use rc_keys::Named;
use rc_lef::Dir;

/// A component: its cell by its number among those of the technology, and where it is placed.
#[derive(Debug, Drop)]
pub struct Comp {
    pub name: Text,
    pub cell: u32,
    pub at: Option<(Pt, Orient)>,
}

/// A die pin with its rectangles on routing layers, where they lie in the layout.
#[derive(Debug, Drop)]
pub struct Port {
    pub name: Text,
    pub dir: Dir,
    pub rects: List<(u8, Rect)>,
}

/// A nondefault rule of the design or of the technology, with the width of wires on each routing layer that it names.
#[derive(Debug, Drop)]
pub struct Rule {
    pub name: Text,
    pub widths: List<(u8, i64)>,
}

impl Named for Comp {
    ghost called = { λ comp. comp.name };

    fn name(&self) -> &[u8] {
        self.name.bytes()
    }
}

impl Named for Port {
    ghost called = { λ port. port.name };

    fn name(&self) -> &[u8] {
        self.name.bytes()
    }
}

impl Named for Rule {
    ghost called = { λ rule. rule.name };

    fn name(&self) -> &[u8] {
        self.name.bytes()
    }
}
