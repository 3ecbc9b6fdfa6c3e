//! Sides and tiles.

use crate::Rect;

/// The side of a unit square that a face looks to.
#[derive(Clone, Copy, Debug, PartialEq, Eq)]
pub enum Side {
    Left,
    Right,
    Down,
    Up,
}

/// A rectangle of metal on one layer, all of one node of a net.
///
/// Node 0 marks grounded metal; other nodes count from 1. Where tiles overlap, the one of least rank owns the square.
#[derive(Clone, Copy, Debug, PartialEq, Eq)]
pub struct Tile {
    pub net: u32,
    pub node: u32,
    pub layer: u8,
    pub rect: Rect,
    pub rank: u32,
}
