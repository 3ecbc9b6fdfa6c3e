//! Bars.

/// Columns side by side that have on one layer the same run of one net.
///
/// In each of them the run is a whole one: the squares before and behind it aren't of the net. A column is a line of the axis
/// that is swept along, and rows are the places on it, both in database units.
#[derive(Clone, Copy, Debug, PartialEq, Eq)]
pub struct Bar {
    /// The layer's place among the routing layers, below 32.
    pub layer: u8,
    /// The first column.
    pub from: i32,
    /// The column past the last.
    pub to: i32,
    /// The row of the run's lowest square.
    pub lo: i32,
    /// The row past its highest one.
    pub hi: i32,
    pub net: u32,
    /// The node of the lowest square, 0 for ground.
    pub first: u32,
    /// The node of the highest square, 0 for ground.
    pub last: u32,
}
