//! The events of all bars, in the order in which they are swept.

/// What happens: a bar ends, and what lies over its upper end is noted; its metal ends; its metal begins; it is looked at.
/// In one row they happen in this order.
#[derive(Clone, Copy, Debug, PartialEq, Eq)]
pub enum Kind {
    Under,
    Off,
    On,
    Look,
}

/// What happens to which bar, by its place in the list of bars.
#[derive(Clone, Copy, Debug, PartialEq, Eq)]
pub struct Moment {
    pub kind: Kind,
    pub bar: u32,
}
