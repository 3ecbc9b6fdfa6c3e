//! No sum of a net overflows: laws, each on a function that does nothing.

ghost use Rattle.rc_engine.specs.Fits.{TotalsFit, EntriesFit};

/// What the capacitances of a net add up to stays below 2^128, whatever the layout, where each layer with metal has rules.
pub fn totals_fit()
    ensures { TotalsFit }
{}

/// The entries of each key that a net has of the layout's sums fit together, and the nets of each key can be named, where the
/// layout has at most 2^23 tiles, which can be swept.
pub fn entries_fit()
    ensures { EntriesFit }
{}
