//! The places that tiles have in the lists of windows: a tile has one in the list of each window that it meets.

ghost use Rattle.std.specs.Prelude.{◌≡◌, ◌<◌, ◌≤◌, ◌+◌, ◌^◌, ◌++◌, ◌↔◌, IsTrue, length, MatchOption, OnOk};
ghost use Rattle.std.specs.List.{flat_map};
ghost use Rattle.std.specs.List.Sorted.{IsStrictlyIncreasing};
ghost use Rattle.rc_windows.specs.Frames.{met, IsFrame};
ghost use Rattle.rc_windows.specs.Indexes.{rect_places, tile_places, most_places, places_of};

use crate::frame::Frame;
use rc_fixed::NoMemory;
use rc_geom::{Rect, Tile};

/// How many places the tiles or rectangles of one call have at most: lists of so many tiles take 4 GiB. Few bytes of input
/// can ask for far more, as some thousand tiles as large as the chip among a million windows do.
pub const MOST_PLACES: u64 = 1 << 27;

/// What is left of so many places after those of the rectangle; None where it has more.
fn left_after(frame: &Frame, left: u64, rect: &Rect) -> Option<u64>
    requires { IsFrame frame.now }
    ensures { MatchOption result (left < length (met frame.now rect.now)) (λ rest. left ≡ length (met frame.now rect.now) + rest) }
{
    left.checked_sub(u64::from(frame.places(rect)))
}

/// Whether the rectangles meet few enough windows that the numbers of all can be kept. It stops where they are too many.
pub fn rects_are_few(frame: &Frame, rects: &[Rect]) -> bool
    requires { IsFrame frame.now }
    ensures { IsTrue result ↔ (rect_places frame.now rects.now ≤ most_places) }
{
    let mut left = MOST_PLACES;
    for rect in rects {
        match left_after(frame, left, rect) {
            Some(rest) => left = rest,
            None => return false,
        }
    }
    true
}

/// Whether the tiles have few enough places that all can be kept. It stops where they are too many.
pub fn tiles_are_few(frame: &Frame, tiles: &[Tile]) -> bool
    requires { IsFrame frame.now }
    ensures { IsTrue result ↔ (tile_places frame.now tiles.now ≤ most_places) }
{
    let mut left = MOST_PLACES;
    for tile in tiles {
        match left_after(frame, left, &tile.rect) {
            Some(rest) => left = rest,
            None => return false,
        }
    }
    true
}

/// Appends the place of a number in a rising list, where it stands there.
fn push_place(list: &[u32], number: u32, places: &mut Vec<u32>) -> Result<(), NoMemory>
    requires rising { IsStrictlyIncreasing list.now }
    requires few { length list.now ≤ 2 ^ 32 }
    ensures { OnOk result (places.new.items ≡ places.old.items ++ places_of list.now number) }
{
    match list.binary_search(&number) {
        Ok(place) => {
            places.push(place as u32)?;
            Ok(())
        }
        Err(_) => Ok(()),
    }
}

/// Appends the places of numbers in a rising list; those that don't stand there are passed over.
fn push_places(list: &[u32], numbers: &[u32], places: &mut Vec<u32>) -> Result<(), NoMemory>
    requires rising { IsStrictlyIncreasing list.now }
    requires few { length list.now ≤ 2 ^ 32 }
    ensures { OnOk result (places.new.items ≡ places.old.items ++ flat_map (places_of list.now) numbers.now) }
{
    for number in numbers {
        push_place(list, *number, places)?;
    }
    Ok(())
}

/// Finds which windows of a rising list a rectangle meets: their numbers, and their places in the list.
pub fn find(
    frame: &Frame,
    list: &[u32],
    rect: &Rect,
    numbers: &mut Vec<u32>,
    places: &mut Vec<u32>,
) -> Result<(), NoMemory>
    requires frame { IsFrame frame.now }
    requires rising { IsStrictlyIncreasing list.now }
    requires few { length list.now ≤ 2 ^ 32 }
    ensures { OnOk result (places.new.items ≡ flat_map (places_of list.now) (met frame.now rect.now)) }
{
    numbers.clear();
    places.clear();
    frame.met(rect, numbers)?;
    push_places(list, numbers, places)
}
