//! What is proved of the definitions, each law on a function that does nothing.

ghost use Rattle.rc_windows.specs.Laws.{WindowsPartSquares, WindowsAdd, NearSumsAdd, FarEditsKeepLists, FarEditsKeepSums, FarEditsKeepFaces, ChangesKeepIndexes, NearTilesAreSweepable, LimitsSuffice};
ghost use Rattle.rc_rules.specs.LookUp.{rates};
ghost use Rattle.rc_rules.specs.RuleFile.{HasRules};

use crate::grid::Grid;
use rc_rules::{Rater, Rules};

/// Every square lies in exactly one window of a grid.
pub fn windows_part_squares(grid: &Grid)
    ensures { WindowsPartSquares grid.now }
{
    let _ = grid.frame();
}

/// The sums over all windows of a grid add up to the sum over all squares.
pub fn windows_add<V>(grid: &Grid)
    ensures { WindowsAdd V grid.now }
{
    let _ = grid.frame();
}

/// The sums over all windows, each in the plane of the tiles that matter to it, add up to the sum over all squares in the
/// plane of all tiles: amounts of `V`, each by its worth in `W`.
pub fn near_sums_add<V, W>(grid: &Grid)
    ensures { NearSumsAdd V W grid.now }
{
    let _ = grid.frame();
}

/// A window that an edit doesn't touch has the same list of tiles before and after it.
pub fn far_edits_keep_lists(grid: &Grid)
    ensures { FarEditsKeepLists grid.now }
{
    let _ = grid.frame();
}

/// A window that an edit doesn't touch has the same sums before and after it.
pub fn far_edits_keep_sums<V, W>(grid: &Grid)
    ensures { FarEditsKeepSums V W grid.now }
{
    let _ = grid.frame();
}

/// A window that an edit doesn't touch has the same faces before and after it, with the same thickness and sight, in the same
/// context and with the same parts, of which none has a key of the edited net.
pub fn far_edits_keep_faces<V>(grid: &Grid)
    ensures { FarEditsKeepFaces V grid.now }
{
    let _ = grid.frame();
}

/// A window's changed list has each tile that matters to the window once, and no other, where its list before had.
pub fn changes_keep_indexes(grid: &Grid)
    ensures { ChangesKeepIndexes grid.now }
{
    let _ = grid.frame();
}

/// Of tiles that can be swept, those that matter to a window can.
pub fn near_tiles_are_sweepable<R: Rater>(grid: &Grid, rater: &R)
    ensures { NearTilesAreSweepable (R.has_rules rater.now) grid.now }
{
    let _ = grid.frame();
    let _ = rater;
}

/// Within the limits all sums fit, whatever the rule file: of at most 2^27 tiles that can be swept, the faces of a window near
/// 0 have fewer than 2^64 parts for a key, and these add up to less than 2^128. So both axes of the window can be swept.
pub fn limits_suffice(rules: &Rules)
    ensures { LimitsSuffice (HasRules rules.now) (rates rules.now) }
{
    let _ = rules;
}
