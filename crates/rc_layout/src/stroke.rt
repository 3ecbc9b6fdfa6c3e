//! How pieces are drawn.

use rc_geom::Pt;

/// A point of a path, with the extension that is written there.
#[derive(Clone, Copy, Debug, PartialEq, Eq)]
pub struct Stop {
    pub at: Pt,
    pub ext: Option<i64>,
}

/// How a piece is drawn: on which routing layer, how wide, and whether its ends are bare. Where no extension is written a
/// bare end ends at its point, and another goes on behind it by its part of the width.
#[derive(Clone, Copy, Debug, PartialEq, Eq)]
pub struct Stroke {
    pub layer: u8,
    pub width: i64,
    pub bare: bool,
}

/// Where the width of a path comes from: it has its own, which then holds on each layer, or a nondefault rule by its number.
#[derive(Clone, Copy, Debug, PartialEq, Eq)]
pub struct Style {
    pub own: Option<i64>,
    pub rule: Option<usize>,
}
