//! What is proved of the definitions, each law on a function that does nothing.

ghost use Rattle.rc_engine.specs.WindowLaws.{TilesMakeTheLayout, TilesAreSweepable, WindowsCanBeSwept, TalliesAreTotals};

/// The tiles of all nets make the plane of a layout that can be extracted.
pub fn tiles_make_the_layout()
    ensures { TilesMakeTheLayout }
{}

/// The tiles of a layout that can be extracted can be swept: those of two nets share no square, those of one net that overlap
/// differ in rank, and each lies near 0 on a layer with rules.
pub fn tiles_are_sweepable()
    ensures { TilesAreSweepable }
{}

/// Each window of a grid can be swept with those tiles of a layout that matter to it, and no sum grows too large.
pub fn windows_can_be_swept()
    ensures { WindowsCanBeSwept }
{}

/// Where the halo of a grid reaches as far as the rules look, what its windows add up to is together what all faces of the
/// layout add up to, key by key, and each key is of nodes of nets.
pub fn tallies_are_totals()
    ensures { TalliesAreTotals }
{}
