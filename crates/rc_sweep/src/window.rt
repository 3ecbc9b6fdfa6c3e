//! Windows.

use rc_geom::Rect;

/// A rectangle whose faces are summed, and how far around it its tiles are gathered.
#[derive(Clone, Copy, Debug, PartialEq, Eq)]
pub struct Window {
    pub rect: Rect,
    pub halo: i32,
}
