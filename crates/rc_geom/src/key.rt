//! What sums are kept by.

/// What a sum over faces is kept for: one node, or two nodes of different nets.
///
/// Keys of single nodes come first, then keys of pairs, each by its fields in order.
#[derive(Clone, Copy, Debug, PartialEq, Eq, PartialOrd, Ord)]
pub enum Key {
    /// A node that isn't grounded.
    Ground {
        net: u32,
        node: u32,
    },
    /// Two nodes, neither grounded; `net` is below `other`.
    Pair {
        net: u32,
        node: u32,
        other: u32,
        onode: u32,
    },
}
