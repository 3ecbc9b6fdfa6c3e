//! What is proved of the definitions, each law on a function that does nothing.

ghost use Rattle.rc_gen.specs.Laws.{SmallTotalsSuffice};

/// Parasitics of up to 2^49 nets can be summed up, where the capacitances of each net add up to a number of 128 bits.
pub fn small_totals_suffice()
    ensures { SmallTotalsSuffice }
{}
