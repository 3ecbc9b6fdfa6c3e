//! The tiles of one item.
ghost use Rattle.std.specs.Prelude.{◌≡◌, ◌<◌, ◌+◌, ◌++◌, All, length, map, drop, slice_index_or, OnOk};
ghost use Rattle.rc_geom.specs.Split.{IsCoordinate};
ghost use Rattle.rc_nodes.specs.declared.line.Tap.{Tap};
ghost use Rattle.rc_nodes.specs.Shares.{first_end as first_end_of, last_end as last_end_of, share_rect as share_rect_of, share_tile, share, share_end as share_end_of, shares_from, tap_tiles};

use crate::line::{Tap, is_level};
use rc_fixed::{List, NoMemory};
use rc_geom::{Rect, Tile, split};
use rc_layout::Item;

/// Where the metal of an item begins along its axis.
fn first_end(item: &Item) -> i32
    ensures { result ≡ first_end_of item.now }
{
    if is_level(item) {
        item.rect.x0
    } else {
        item.rect.y0
    }
}

/// Where the metal of an item ends along its axis.
fn last_end(item: &Item) -> i32
    ensures { result ≡ last_end_of item.now }
{
    if is_level(item) {
        item.rect.x1
    } else {
        item.rect.y1
    }
}

/// The part of an item between two places along its axis.
fn share_rect(item: &Item, from: i32, to: i32) -> Rect
    ensures { result ≡ share_rect_of item.now from to }
{
    let Rect { x0, y0, x1, y1 } = item.rect;
    if is_level(item) {
        return Rect {
            x0: from,
            y0,
            x1: to,
            y1,
        };
    }
    Rect {
        x0,
        y0: from,
        x1,
        y1: to,
    }
}

/// Adds a node's share of an item as a tile, where it has squares.
fn add_share(
    tiles: &mut List<Tile>,
    net: u32,
    rank: u32,
    item: &Item,
    node: u32,
    from: i32,
    to: i32,
) -> Result<(), NoMemory>
    ensures { OnOk result (tiles.new ≡ tiles.old ++ map (share_tile net rank item.now) (share node from to)) }
{
    if from < to {
        tiles.push(Tile {
            net,
            node,
            layer: item.layer,
            rect: share_rect(item, from, to),
            rank,
        })?;
    }
    Ok(())
}

/// Where the share of the tap at `k` ends: in the middle of it and the next one, or where the metal ends.
fn share_end(end: i32, taps: &[Tap], k: usize) -> i32
    requires within { k < length taps.now }
    requires coordinates { All (λ tap. IsCoordinate tap.along) taps.now }
    ensures { (d : Tap) → result ≡ share_end_of end (slice_index_or taps.now k d) (drop (k + 1) taps.now) }
{
    if k + 1 < taps.len() {
        split(taps[k].along, taps[k + 1].along)
    } else {
        end
    }
}

/// Adds the tiles of an item with these taps on its centreline.
pub fn add_tiles(
    tiles: &mut List<Tile>,
    net: u32,
    rank: u32,
    item: &Item,
    taps: &[Tap],
) -> Result<(), NoMemory>
    requires { All (λ tap. IsCoordinate tap.along) taps.now }
    ensures { OnOk result (tiles.new ≡ tiles.old ++ tap_tiles net rank item.now taps.now) }
{
    let end = last_end(item);
    let mut from = first_end(item);
    if taps.is_empty() {
        return add_share(tiles, net, rank, item, 0, from, end);
    }
    for k in 0..taps.len() {
        let to = share_end(end, taps, k);
        add_share(tiles, net, rank, item, taps[k].node, from, to)?;
        from = to;
    }
    Ok(())
}
