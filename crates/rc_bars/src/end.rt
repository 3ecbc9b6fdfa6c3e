//! The faces at the ends of bars, and what they add.

ghost use Rattle.std.specs.Prelude.{◌≡◌, ◌<◌, ◌≤◌, min, IfSome, OnOk};
ghost use Rattle.std.specs.Option.{ForSome};
ghost use Rattle.rc_geom.specs.Sums.{extent};
ghost use Rattle.rc_geom.specs.Parts.{worth_at};
ghost use Rattle.rc_tally.specs.Tallies.{sums};
ghost use Rattle.rc_column.specs.Found.{face_value};
ghost use Rattle.rc_sums.specs.Entering.{many, IsTally, HasRoom, Enters};
ghost use Rattle.rc_bars.specs.Columns.{low_face as low_face_of, high_face as high_face_of, rated};
ghost use Rattle.rc_bars.specs.Ends.{IsNearBar, gap_between};
ghost use Rattle.rc_bars.specs.Masks.{layers_of};

use crate::bar::Bar;
use crate::mask::context;
use rc_column::Face;
use rc_fixed::NoMemory;
use rc_rules::Rater;
use rc_sums::{RunningTally, enter_part, own_key, seen_key};

/// How thick a bar's run is, at most the cap.
fn thickness(bar: &Bar, cap: u32) -> u32
    requires { IsNearBar bar.now }
    ensures { result ≡ min cap (extent bar.now.lo bar.now.hi) }
{
    cap.min((bar.hi - bar.lo) as u32)
}

/// How many squares lie between two bars, where there are from 1 to `reach`.
fn gap(below: &Bar, above: &Bar, reach: u32) -> Option<u32>
    requires below { IsNearBar below.now }
    requires above { IsNearBar above.now }
    ensures { result ≡ gap_between reach below.now above.now }
{
    if above.lo <= below.hi {
        return None;
    }
    let squares = (above.lo - below.hi) as u32;
    if squares <= reach {
        Some(squares)
    } else {
        None
    }
}

/// The face at the lower end of a bar, over the bar below it.
pub fn low_face(bar: &Bar, below: Option<Bar>, cap: u32, reach: u32) -> Face
    requires bar { IsNearBar bar.now }
    requires below { IfSome below IsNearBar }
    ensures is { face_value result ≡ low_face_of cap reach below bar.now }
    ensures thick { 1 ≤ cap → 1 ≤ result.thick }
    ensures gap { ForSome result.gap (λ d. 1 ≤ d) }
{
    let thick = thickness(bar, cap);
    let (gap, onet, onode) = match below {
        Some(below) => (gap(&below, bar, reach), below.net, below.last),
        None => (None, 0, 0),
    };
    Face {
        lo: bar.lo,
        hi: bar.hi,
        net: bar.net,
        node: bar.first,
        up: false,
        thick,
        gap,
        onet,
        onode,
    }
}

/// The face at the upper end of a bar, under the bar above it.
pub fn high_face(bar: &Bar, above: Option<Bar>, cap: u32, reach: u32) -> Face
    requires bar { IsNearBar bar.now }
    requires above { IfSome above IsNearBar }
    ensures is { face_value result ≡ high_face_of cap reach bar.now above }
    ensures thick { 1 ≤ cap → 1 ≤ result.thick }
    ensures gap { ForSome result.gap (λ d. 1 ≤ d) }
{
    let thick = thickness(bar, cap);
    let (gap, onet, onode) = match above {
        Some(above) => (gap(bar, &above, reach), above.net, above.first),
        None => (None, 0, 0),
    };
    Face {
        lo: bar.lo,
        hi: bar.hi,
        net: bar.net,
        node: bar.last,
        up: true,
        thick,
        gap,
        onet,
        onode,
    }
}

/// Enters what a face of a layer adds among layers with metal, so many times.
pub fn enter_face<R: Rater>(
    tally: &mut RunningTally<R::Value>,
    rater: &R,
    layer: u8,
    metal: u32,
    face: &Face,
    n: u32,
) -> Result<(), NoMemory>
    requires layer { layer < 32 }
    requires rules { R.has_rules rater.now layer }
    requires thick { 1 ≤ face.now.thick }
    requires gap { ForSome face.now.gap (λ d. 1 ≤ d) }
    requires some { 1 ≤ n }
    requires tally { IsTally R.Value.adding R.Value.sound tally.old }
    requires room { HasRoom R.Value.adding R.Value.fits R.Value.sound tally.old (λ q. worth_at (sums R.Value.adding) (many R.Value.adding n) q (rated (R.rates_of rater.now) layer (layers_of metal) (face_value face.now))) }
    ensures { OnOk result (Enters R.Value.adding R.Value.sound tally.old tally.new (λ q. worth_at (sums R.Value.adding) (many R.Value.adding n) q (rated (R.rates_of rater.now) layer (layers_of metal) (face_value face.now)))) }
{
    let (under, over) = context(metal, layer);
    let rate = rater.rate(layer, under, over, face.thick, face.gap);
    enter_part(tally, own_key(face), rate.ground, n)?;
    enter_part(tally, seen_key(face), rate.share, n)
}
