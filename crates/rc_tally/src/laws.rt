//! What is proved of tallies, each law on a function that does nothing.

ghost use Rattle.rc_tally.specs.Laws.{MergesAdd, SumsAreKept};

use crate::amount::Amount;

/// Tallies that have the same entry for each key are one; a merge has the sum of both for each key, and no entry for a key
/// of neither; and neither the order nor the grouping of merges matters.
pub fn merges_add<V: Amount>()
    ensures { MergesAdd V.adding V.sound }
{}

/// Tallies with the same sums are one; an addition adds to the sum of its key alone, a merge to each key's, and a list that
/// is gathered gives each key the sum over its entries, as one addition after the other does.
pub fn sums_are_kept<V: Amount>()
    ensures { SumsAreKept V.adding V.sound }
{}
