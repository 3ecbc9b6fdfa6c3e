//! The sweep of one window.

ghost use Rattle.std.specs.Prelude.{◌≡◌, ◌≤◌, ◌<◌, ◌+◌, ◌*◌, ◌^◌, true, All, IfOk, length};
ghost use Rattle.rc_geom.specs.declared.key.Key.{Key};
ghost use Rattle.rc_geom.specs.Rects.{IsNearRect};
ghost use Rattle.rc_geom.specs.Plane.{plane_of, RanksDiffer, NetsApart};
ghost use Rattle.rc_geom.specs.Context.{layer_count};
ghost use Rattle.rc_geom.specs.Extraction.{value_in, count_in};
ghost use Rattle.rc_sums.specs.WindowSums.{IsWindowSum};

use crate::meter::Meter;
use crate::window::Window;
use rc_bars::sweep_tiles;
use rc_column::Edits;
use rc_fixed::NoMemory;
use rc_geom::Tile;
use rc_rules::Rater;
use rc_tally::Tally;
use std::alloc::Global;

/// For each key, how many parts the faces of axis `A` add whose squares lie in the window, and the sum of their amounts.
/// Axis 0 has the left and right faces, axis 1 those down and up. The sum is of the plane of the tiles handed in; the halo
/// isn't read. Where it is at least the reach and one more, and at least the cap, of each layer with metal, tiles that don't
/// meet the window grown by it change nothing. The pass is spent. The count of edits doesn't fall, and rises by at most
/// twice the number of tiles.
///
/// # Errors
///
/// `NoMemory` for want of memory, and where there are more than 2^30 tiles or bars.
pub fn sweep_window<const A: usize, R: Rater, M: Meter>(
    alloc: Global,
    tiles: &[Tile],
    window: &Window,
    rater: &R,
    pass: M::Pass,
    edits: &mut Edits,
) -> Result<Tally<R::Value>, NoMemory>
    requires near { All (λ t. IsNearRect t.rect) tiles.now }
    requires layers { All (λ t. t.layer < layer_count) tiles.now }
    requires ranks { RanksDiffer tiles.now }
    requires apart { NetsApart tiles.now }
    requires rules { All (λ tile. R.has_rules rater.now tile.layer) tiles.now }
    requires window { IsNearRect window.now.rect }
    requires counts { (key : Key) → count_in (plane_of tiles.now) (R.rates_of rater.now) A window.now.rect key < 2 ^ 64 }
    requires values { (key : Key) → R.Value.fits (value_in R.Value.adding (plane_of tiles.now) (R.rates_of rater.now) A window.now.rect key) ≡ true }
    ensures sums { IfOk result (λ tally. IsWindowSum R.Value.adding (plane_of tiles.now) (R.rates_of rater.now) A window.now.rect tally) }
    ensures edits { edits.new ≤ edits.old + 2 * length tiles.now }
    ensures kept { edits.old ≤ edits.new }
{
    let _spent = pass;
    sweep_tiles::<A, R>(alloc, tiles, &window.rect, rater)
}
