//! The shapes that windows have near an edit.

ghost use Rattle.std.specs.Prelude.{◌≡◌, ◌<◌, ◌≤◌, ◌^◌, ◌++◌, [], All, IfOk, OnOk, length, slice_index_or};
ghost use Rattle.std.specs.List.{flat_map};
ghost use Rattle.rc_layout.specs.Metal.{all_nets};
ghost use Rattle.rc_shorts.specs.OfLayouts.{net_metal};
ghost use Rattle.rc_shorts.specs.Places.{net_shapes as net_shapes_of};
ghost use Rattle.rc_engine.specs.Nearby.{item_in, shape_beside as shape_beside_of, shapes_beside, tile_shape as tile_shape_of};

use crate::any::push_any;
use rc_fixed::{List, NoMemory};
use rc_geom::Tile;
use rc_layout::{Item, Layout, Net};
use rc_shorts::Shape;
use std::alloc::Global;

/// The item of that place in the net at a place.
fn item_at(nets: &[Net], place: usize, rank: u32) -> Option<Item>
    ensures { result ≡ item_in nets.now place rank }
{
    match nets.get(place) {
        Some(net) => match net.items.items().get(rank as usize) {
            Some(item) => Some(*item),
            None => None,
        },
        None => None,
    }
}

/// The item of that place in the net of that number; grounded nets come last.
fn drawn_item(layout: &Layout, number: u32, rank: u32) -> Option<Item>
    ensures { result ≡ item_in (all_nets layout.now) number rank }
{
    let place = number as usize;
    let nets = layout.nets();
    if place < nets.len() {
        item_at(nets, place, rank)
    } else {
        item_at(layout.grounded(), place - nets.len(), rank)
    }
}

/// The shape of the item that a tile is part of.
fn tile_shape(layout: &Layout, tile: &Tile) -> Option<Shape>
    ensures { result ≡ tile_shape_of layout.now tile.now }
{
    match drawn_item(layout, tile.net, tile.rank) {
        Some(item) => Some(Shape {
            net: tile.net,
            item: tile.rank,
            layer: item.layer,
            rect: item.rect,
        }),
        None => None,
    }
}

/// The same of a tile of another net.
fn shape_beside(layout: &Layout, number: u32, tile: &Tile) -> Option<Shape>
    ensures { result ≡ shape_beside_of layout.now number tile.now }
{
    if tile.net == number {
        None
    } else {
        tile_shape(layout, tile)
    }
}

/// Appends the shapes of those tiles that are of other nets.
fn add_shapes(
    shapes: &mut List<Shape>,
    layout: &Layout,
    number: u32,
    tiles: &[Tile],
) -> Result<(), NoMemory>
    ensures { OnOk result (shapes.new ≡ shapes.old ++ shapes_beside layout.now number tiles.now) }
{
    for tile in tiles {
        push_any(shapes, shape_beside(layout, number, tile))?;
    }
    Ok(())
}

/// The shapes of other nets of which some tile matters to one of these windows, with repeats.
pub fn shapes_near(
    alloc: Global,
    layout: &Layout,
    lists: &[List<Tile>],
    number: u32,
    windows: &[u32],
) -> Result<List<Shape>, NoMemory>
    requires { All (λ k. k < length lists.now) windows.now }
    ensures { IfOk result (λ shapes. shapes ≡ flat_map (λ k. shapes_beside layout.now number (slice_index_or lists.now k [])) windows.now) }
{
    let mut shapes = List::new(alloc);
    for k in windows {
        add_shapes(&mut shapes, layout, number, lists[*k as usize].items())?;
    }
    Ok(shapes)
}

/// The shapes of a net.
pub fn net_shapes(alloc: Global, number: u32, net: &Net) -> Result<Vec<Shape>, NoMemory>
    requires { length net.now.items ≤ 2 ^ 22 }
    ensures { IfOk result (λ shapes. shapes.items ≡ net_shapes_of number (net_metal net.now)) }
{
    let items = net.items.items();
    let mut shapes = Vec::with_capacity(alloc, items.len())?;
    for place in 0..items.len() {
        let item = items[place];
        shapes.push(Shape {
            net: number,
            item: place as u32,
            layer: item.layer,
            rect: item.rect,
        })?;
    }
    Ok(shapes)
}
