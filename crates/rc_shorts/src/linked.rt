//! The shapes of a linked layout, and their first short.

ghost use Rattle.std.specs.Prelude.{◌≡◌, ◌++◌, ◌+◌, ◌<◌, ◌≤◌, ◌^◌, All, IfOk, IfSome, OnOk, None, length, map};
ghost use Rattle.rc_layout.specs.Layouts.{with_put};
ghost use Rattle.rc_shorts.specs.OfLayouts.{layout_shapes, net_metal, shapes_from, HasFewItems, NamesNets, metal_of};
ghost use Rattle.rc_shorts.specs.Places.{net_shapes, shape_of};
ghost use Rattle.rc_shorts.specs.Shorts.{first_short as first_short_of};

use crate::first::{first_among, short_among_with};
use crate::shape::{Shape, Short};
use rc_fixed::NoMemory;
use rc_layout::{Item, Layout, Net};
use std::alloc::Global;

/// The shape of an item.
fn shape_at(net: u32, place: u32, item: &Item) -> Shape
    ensures { result ≡ shape_of net (place, metal_of item.now) }
{
    Shape {
        net,
        item: place,
        layer: item.layer,
        rect: item.rect,
    }
}

/// Appends the shapes of items of a net.
fn put_items(list: &mut Vec<Shape>, net: u32, items: &[Item]) -> Result<(), NoMemory>
    requires { length items.now ≤ 2 ^ 22 }
    ensures { OnOk result (list.new.items ≡ list.old.items ++ net_shapes net (map metal_of items.now)) }
{
    for place in 0..items.len() {
        list.push(shape_at(net, place as u32, &items[place]))?;
    }
    Ok(())
}

/// Appends the shapes of a net.
fn put_net(list: &mut Vec<Shape>, number: u32, net: &Net) -> Result<(), NoMemory>
    requires { HasFewItems net.now }
    ensures { OnOk result (list.new.items ≡ list.old.items ++ net_shapes number (net_metal net.now)) }
{
    put_items(list, number, net.items.items())
}

/// Appends the shapes of nets that are numbered from there on.
fn put_nets(list: &mut Vec<Shape>, first: u32, nets: &[Net]) -> Result<(), NoMemory>
    requires few { first + length nets.now ≤ 2 ^ 21 }
    requires items { All HasFewItems nets.now }
    ensures { OnOk result (list.new.items ≡ list.old.items ++ shapes_from first nets.now) }
{
    for place in 0..nets.len() {
        put_net(list, first + place as u32, &nets[place])?;
    }
    Ok(())
}

/// The shapes of a layout, in their order.
fn shapes(alloc: Global, layout: &Layout) -> Result<Vec<Shape>, NoMemory>
    ensures { IfOk result (λ shapes. shapes.items ≡ layout_shapes layout.now) }
{
    layout.facts();
    let mut list = Vec::with_capacity(alloc, layout.shapes() as usize)?;
    let nets = layout.nets();
    put_nets(&mut list, 0, nets)?;
    put_nets(&mut list, nets.len() as u32, layout.grounded())?;
    Ok(list)
}

/// The first of all shorts of a layout: of the pairs of shapes of different nets, grounded ones included, that meet on a layer,
/// the one with the least later shape, and then with the least earlier one. Shapes stand in the order of nets, grounded nets
/// last, and of each net's items. None exactly where no shapes of different nets meet. Its nets are numbers of
/// `Layout::name`, its point is in units of the layout.
///
/// # Errors
///
/// `NoMemory` for want of memory.
pub fn first_short(alloc: Global, layout: &Layout) -> Result<Option<Short>, NoMemory>
    ensures first { IfOk result (λ short. short ≡ first_short_of (layout_shapes layout.now)) }
    ensures names { IfOk result (λ short. IfSome short (NamesNets layout.now)) }
{
    first_among(alloc, &shapes(alloc, layout)?)
}

/// The first of all shorts of a layout without shorts in which a net is exchanged for a new one. It goes over all shapes of the
/// layout once, and then takes the time of `short_near`.
///
/// # Errors
///
/// `NoMemory` for want of memory.
pub fn short_with(
    alloc: Global,
    layout: &Layout,
    net: u32,
    new: &Net,
) -> Result<Option<Short>, NoMemory>
    requires net { net < length layout.now.nets }
    requires clear { first_short_of (layout_shapes layout.now) ≡ None }
    requires new { HasFewItems new.now }
    ensures first { IfOk result (λ short. short ≡ first_short_of (layout_shapes (with_put layout.now net new.now))) }
    ensures names { IfOk result (λ short. IfSome short (NamesNets layout.now)) }
{
    let mut fresh = Vec::with_capacity(alloc, new.items.items().len())?;
    put_net(&mut fresh, net, new)?;
    short_among_with(alloc, &shapes(alloc, layout)?, net, &fresh)
}
