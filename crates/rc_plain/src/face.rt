//! Enters what the face of a square adds into a tally.

ghost use Rattle.std.specs.Prelude.{◌≡◌, ◌≤◌, ◌<◌, true, OnOk, option_map};
ghost use Rattle.std.specs.Option.{ForSome};
ghost use Rattle.rc_geom.specs.Rects.{IsNear};
ghost use Rattle.rc_geom.specs.Plane.{plane_of};
ghost use Rattle.rc_geom.specs.Rates.{rate_of as rate_at};
ghost use Rattle.rc_squares.specs.Found.{face_value};
ghost use Rattle.rc_sums.specs.Entering.{IsTally, HasRoom, Enters};
ghost use Rattle.rc_plain.specs.Squares.{face_added, side_added};

use crate::keys::{node_key, seen_key};
use rc_fixed::NoMemory;
use rc_geom::{Pt, Side, Tile};
use rc_rules::{Rate, Rater};
use rc_squares::{Face, context, face_at};
use rc_sums::enter_part;
use rc_tally::Tally;

/// The gap before the metal that a face sees.
fn gap_of(face: Face) -> Option<u32>
    ensures { result ≡ option_map (λ seen. seen.0) face.sight }
{
    match face.sight {
        Some((gap, _)) => Some(gap),
        None => None,
    }
}

/// The amounts of a face over a square.
fn rate_of<R: Rater>(tiles: &[Tile], rater: &R, layer: u8, at: Pt, face: Face) -> Rate<R::Value>
    requires layer { layer < 32 }
    requires rules { R.has_rules rater.now layer }
    requires thick { 1 ≤ face.thick }
    requires gap { ForSome (option_map (λ seen. seen.0) face.sight) (λ d. 1 ≤ d) }
    ensures { (result.ground, result.share) ≡ rate_at (R.rates_of rater.now) (plane_of tiles.now) layer at (face_value face) }
{
    let (under, over) = context(tiles, layer, at);
    rater.rate(layer, under, over, face.thick, gap_of(face))
}

/// Enters what a face over a square adds.
fn enter_face<R: Rater>(
    tally: &mut Tally<R::Value>,
    tiles: &[Tile],
    rater: &R,
    layer: u8,
    at: Pt,
    face: Face,
) -> Result<(), NoMemory>
    requires layer { layer < 32 }
    requires rules { R.has_rules rater.now layer }
    requires thick { 1 ≤ face.thick }
    requires gap { ForSome (option_map (λ seen. seen.0) face.sight) (λ d. 1 ≤ d) }
    requires tally { IsTally R.Value.adding R.Value.sound tally.old }
    requires room { HasRoom R.Value.adding R.Value.fits R.Value.sound tally.old (face_added R.Value.adding (plane_of tiles.now) (R.rates_of rater.now) layer at (face_value face)) }
    ensures { OnOk result (Enters R.Value.adding R.Value.sound tally.old tally.new (face_added R.Value.adding (plane_of tiles.now) (R.rates_of rater.now) layer at (face_value face))) }
{
    let rate = rate_of(tiles, rater, layer, at, face);
    enter_part(tally, node_key(face.own), rate.ground, 1)?;
    enter_part(tally, seen_key(face.own, face.sight), rate.share, 1)
}

/// Enters what the face on a side of a square adds, which is nothing where there is no face.
pub fn enter_side<R: Rater>(
    tally: &mut Tally<R::Value>,
    tiles: &[Tile],
    rater: &R,
    layer: u8,
    side: Side,
    at: Pt,
) -> Result<(), NoMemory>
    requires layer { layer < 32 }
    requires rules { R.has_rules rater.now layer }
    requires near { IsNear at }
    requires tally { IsTally R.Value.adding R.Value.sound tally.old }
    requires room { HasRoom R.Value.adding R.Value.fits R.Value.sound tally.old (side_added R.Value.adding (plane_of tiles.now) (R.rates_of rater.now) layer side at) }
    ensures { OnOk result (Enters R.Value.adding R.Value.sound tally.old tally.new (side_added R.Value.adding (plane_of tiles.now) (R.rates_of rater.now) layer side at)) }
{
    match face_at(tiles, layer, side, at, rater.cap(layer), rater.reach(layer)) {
        Some(face) => enter_face(tally, tiles, rater, layer, at, face),
        None => Ok(()),
    }
}
