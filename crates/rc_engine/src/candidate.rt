//! What an edit puts in the place of a net, and what refuses it.

ghost use Rattle.std.specs.Prelude.{◌≡◌, ◌+◌, ◌-◌, ◌<◌, ◌≤◌, ◌^◌, None, Some, IfOk, IfErr, length, slice_get};
ghost use Rattle.rc_layout.specs.declared.net.Net.{Net as NetOf};
ghost use Rattle.rc_layout.specs.Facts.{IsCandidate};
ghost use Rattle.rc_layout.specs.Layouts.{with_put};
ghost use Rattle.rc_layout.specs.Nets.{IsTied, IsWellFormed};
ghost use Rattle.rc_nodes.specs.Nodes.{nodes_of, AreInOrder};
ghost use Rattle.rc_nodes.specs.Counts.{tile_count as tile_count_of};
ghost use Rattle.rc_nodes.specs.Shares.{net_tiles};
ghost use Rattle.rc_nodes.specs.LayoutPlane.{drawn_nets};
ghost use Rattle.rc_shorts.specs.Shorts.{first_short};
ghost use Rattle.rc_shorts.specs.Exchange.{AreNear};
ghost use Rattle.rc_shorts.specs.OfLayouts.{layout_shapes, net_metal, HasFewItems};
ghost use Rattle.rc_shorts.specs.Places.{net_shapes as net_shapes_of};
ghost use Rattle.rc_engine.specs.Measured.{HasTooManyNodes, nodes_with, tiles_with, limit_with};
ghost use Rattle.rc_engine.specs.Windows.{IsExtractable};
ghost use Rattle.rc_engine.specs.Start.{node_count as node_count_of, tile_total as tile_total_of, first_short_refusal, start_refusal, IsStartFault, IsRefusal};

use crate::accept::short_refusal;
use crate::measured::{MOST_NODES, add_tiles};
use crate::missing::net_missing;
use crate::nearby::net_shapes;
use rc_fixed::List;
use rc_geom::Tile;
use rc_keys::Fault;
use rc_layout::{Layout, Net};
use rc_nodes::{Node, nodes, tile_count};
use rc_rules::Rules;
use rc_shorts::{Shape, short_near};
use std::alloc::Global;

/// How many nodes all nets have that aren't grounded, and how many tiles all nets count against their limit.
#[derive(Clone, Copy)]
pub struct Totals {
    pub nodes: u32,
    pub tiles: u64,
}

/// A net's nodes and its tiles, and the totals of the layout with it.
#[derive(Drop)]
pub struct Metal {
    pub nodes: List<Node>,
    pub tiles: List<Tile>,
    pub totals: Totals,
}

/// The nodes of a net beside so many of other nets.
fn nodes_beside(alloc: Global, net: &Net, others: u32) -> Result<List<Node>, Fault>
    requires net { IsWellFormed net.now }
    requires others { others ≤ 2 ^ 22 }
    ensures nodes { IfOk result (λ nodes. nodes ≡ nodes_of net.now) }
    ensures within { IfOk result (λ nodes. others + length nodes ≤ 2 ^ 22) }
    ensures order { IfOk result AreInOrder }
    ensures fault { IfErr result (HasTooManyNodes others (length (nodes_of net.now))) }
{
    nodes(alloc, net, MOST_NODES - others)
}

/// The nodes and the tiles of a net that takes the place of another one in a layout, within their limits.
fn measured_with(
    alloc: Global,
    totals: &Totals,
    number: u32,
    old: &Net,
    old_nodes: &[Node],
    new: &Net,
) -> Result<Metal, Fault>
    requires old { IsTied old.now }
    requires old_nodes { old_nodes.now ≡ nodes_of old.now }
    requires new { IsTied new.now }
    requires nodes { length (nodes_of old.now) ≤ totals.now.nodes }
    requires few_nodes { totals.now.nodes ≤ 2 ^ 22 }
    requires tiles { tile_count_of (nodes_of old.now) old.now.items ≤ totals.now.tiles }
    requires few_tiles { totals.now.tiles ≤ 2 ^ 23 }
    ensures nodes { IfOk result (λ metal. metal.nodes ≡ nodes_of new.now) }
    ensures tiles { IfOk result (λ metal. metal.tiles ≡ net_tiles number (nodes_of new.now) new.now.items) }
    ensures node_count { IfOk result (λ metal. metal.totals.nodes ≡ nodes_with totals.now.nodes old.now new.now) }
    ensures few_nodes { IfOk result (λ metal. metal.totals.nodes ≤ 2 ^ 22) }
    ensures tile_count { IfOk result (λ metal. metal.totals.tiles ≡ tiles_with totals.now.tiles old.now new.now) }
    ensures few_tiles { IfOk result (λ metal. metal.totals.tiles ≤ 2 ^ 23) }
    ensures fault { IfErr result (IsRefusal (limit_with totals.now.nodes totals.now.tiles old.now new.now)) }
{
    let others = totals.nodes - old_nodes.len() as u32;
    let nodes = match nodes_beside(alloc, new, others) {
        Ok(nodes) => nodes,
        Err(fault) => return Err(fault),
    };
    let fewer = tile_count(alloc, old, old_nodes)?;
    let mut tiles = List::new(alloc);
    let count = match add_tiles(
        alloc,
        &mut tiles,
        totals.tiles - fewer,
        number,
        new,
        nodes.items(),
    ) {
        Ok(count) => count,
        Err(fault) => return Err(fault),
    };
    let totals = Totals {
        nodes: others + nodes.len() as u32,
        tiles: count,
    };
    Ok(Metal {
        nodes,
        tiles,
        totals,
    })
}

/// Refuses a layout with a net in the place of another one where it has a short. `near` are shapes of other nets, and all of
/// those that meet a new shape are among them.
fn refuse_short_with(
    alloc: Global,
    layout: &Layout,
    number: u32,
    new: &Net,
    near: &[Shape],
) -> Result<(), Fault>
    requires number { number < length layout.now.nets }
    requires clear { first_short (layout_shapes layout.now) ≡ None }
    requires new { HasFewItems new.now }
    requires near { AreNear (layout_shapes layout.now) number (net_shapes_of number (net_metal new.now)) near.now }
    ensures clear { IfOk result (λ _. first_short_refusal (with_put layout.now number new.now) ≡ None) }
    ensures fault { IfErr result (IsRefusal (first_short_refusal (with_put layout.now number new.now))) }
{
    let _ = layout;
    let fresh = net_shapes(alloc, number, new)?;
    match short_near(alloc, &fresh, near)? {
        Some(short) => Err(Fault::Refused(short_refusal(&short))),
        None => Ok(()),
    }
}

/// The nodes and the tiles of a net that takes the place of another one, where nothing refuses the layout with it. Nothing
/// refuses the layout as it stands, and it has those totals. `near` are shapes of other nets, and all of those that meet a new
/// shape are among them.
///
/// # Errors
///
/// The first of: a layer in use without rules; the limits of nodes and of tiles; a short. `NoMemory` for want of memory.
pub fn accepted_with(
    alloc: Global,
    layout: &Layout,
    rules: &Rules,
    totals: &Totals,
    number: u32,
    old_nodes: &[Node],
    new: &Net,
    near: &[Shape],
) -> Result<Metal, Fault>
    requires number { number < length layout.now.nets }
    requires candidate { (old : NetOf) → slice_get layout.now.nets number ≡ Some old → IsCandidate layout.now old new.now }
    requires old_nodes { (old : NetOf) → slice_get layout.now.nets number ≡ Some old → old_nodes.now ≡ nodes_of old }
    requires extractable { IsExtractable layout.now rules.now }
    requires accepted { start_refusal layout.now rules.now ≡ None }
    requires nodes { totals.now.nodes ≡ node_count_of layout.now.nets }
    requires tiles { totals.now.tiles ≡ tile_total_of (drawn_nets layout.now) }
    requires near { AreNear (layout_shapes layout.now) number (net_shapes_of number (net_metal new.now)) near.now }
    ensures nodes { IfOk result (λ metal. metal.nodes ≡ nodes_of new.now) }
    ensures tiles { IfOk result (λ metal. metal.tiles ≡ net_tiles number (nodes_of new.now) new.now.items) }
    ensures node_count { IfOk result (λ metal. metal.totals.nodes ≡ node_count_of (with_put layout.now number new.now).nets) }
    ensures tile_count { IfOk result (λ metal. metal.totals.tiles ≡ tile_total_of (drawn_nets (with_put layout.now number new.now))) }
    ensures extractable { IfOk result (λ _. IsExtractable (with_put layout.now number new.now) rules.now) }
    ensures clear { IfOk result (λ _. start_refusal (with_put layout.now number new.now) rules.now ≡ None) }
    ensures few { IfOk result (λ metal. metal.totals.nodes ≤ 2 ^ 22) }
    ensures fault { IfErr result (IsStartFault (with_put layout.now number new.now) rules.now) }
{
    layout.facts();
    let old = &layout.nets()[number as usize];
    if let Some(refusal) = net_missing(rules, layout.vias(), new) {
        return Err(Fault::Refused(refusal));
    }
    let metal = match measured_with(alloc, totals, number, old, old_nodes, new) {
        Ok(metal) => metal,
        Err(fault) => return Err(fault),
    };
    match refuse_short_with(alloc, layout, number, new, near) {
        Ok(()) => Ok(metal),
        Err(fault) => Err(fault),
    }
}
