//! What refuses a layout, and what it is measured by.

ghost use Rattle.std.specs.Prelude.{◌≡◌, ◌≤◌, ◌^◌, None, IfOk, IfErr, length, map};
ghost use Rattle.rc_nodes.specs.Nodes.{nodes_of};
ghost use Rattle.rc_nodes.specs.LayoutPlane.{drawn_nets};
ghost use Rattle.rc_engine.specs.Windows.{layout_tiles, IsExtractable};
ghost use Rattle.rc_engine.specs.Start.{node_count, tile_total, limit_refusal, first_short_refusal, start_refusal, short_refusal as short_refusal_of, IsStartFault, IsRefusal};

use crate::measured::{all_tiles, node_lists};
use crate::missing::missing_rules;
use rc_fixed::List;
use rc_geom::Tile;
use rc_keys::{Fault, Refusal};
use rc_layout::Layout;
use rc_nodes::Node;
use rc_rules::Rules;
use rc_shorts::{Short, first_short};
use std::alloc::Global;

/// The nodes of all nets that aren't grounded, and the tiles of all nets; and how many both count against their limits.
#[derive(Drop)]
pub struct Measure {
    pub nodes: List<List<Node>>,
    pub node_count: u32,
    pub tiles: List<Tile>,
    pub tile_count: u64,
}

/// The nodes and the tiles of a layout, within their limits.
fn measured(alloc: Global, layout: &Layout) -> Result<Measure, Fault>
    ensures nodes { IfOk result (λ measure. measure.nodes ≡ map nodes_of layout.now.nets) }
    ensures tiles { IfOk result (λ measure. measure.tiles ≡ layout_tiles layout.now) }
    ensures node_count { IfOk result (λ measure. measure.node_count ≡ node_count layout.now.nets) }
    ensures tile_count { IfOk result (λ measure. measure.tile_count ≡ tile_total (drawn_nets layout.now)) }
    ensures few { IfOk result (λ measure. length measure.tiles ≤ 2 ^ 23) }
    ensures few_nodes { IfOk result (λ _. node_count layout.now.nets ≤ 2 ^ 22) }
    ensures within { IfOk result (λ _. limit_refusal layout.now ≡ None) }
    ensures fault { IfErr result (IsRefusal (limit_refusal layout.now)) }
{
    layout.facts();
    let nodes = match node_lists(alloc, layout.nets()) {
        Ok(nodes) => nodes,
        Err(fault) => return Err(fault),
    };
    match all_tiles(alloc, layout, nodes.lists.items()) {
        Ok(counted) => Ok(Measure {
            nodes: nodes.lists,
            node_count: nodes.count,
            tiles: counted.tiles,
            tile_count: counted.count,
        }),
        Err(fault) => Err(fault),
    }
}

/// The refusal of a short.
pub fn short_refusal(short: &Short) -> Refusal
    ensures { result ≡ short_refusal_of short.now }
{
    Refusal::Short {
        first: short.first,
        second: short.second,
        layer: short.layer,
        x: short.at.x,
        y: short.at.y,
    }
}

/// Refuses a layout with a short.
fn refuse_short(alloc: Global, layout: &Layout) -> Result<(), Fault>
    ensures clear { IfOk result (λ _. first_short_refusal layout.now ≡ None) }
    ensures fault { IfErr result (IsRefusal (first_short_refusal layout.now)) }
{
    match first_short(alloc, layout)? {
        Some(short) => Err(Fault::Refused(short_refusal(&short))),
        None => Ok(()),
    }
}

/// The nodes and the tiles of a layout that nothing refuses.
///
/// # Errors
///
/// The first of: a layer in use without rules; the limits of nodes and of tiles; a short. `NoMemory` for want of memory.
pub fn accepted(alloc: Global, layout: &Layout, rules: &Rules) -> Result<Measure, Fault>
    ensures nodes { IfOk result (λ measure. measure.nodes ≡ map nodes_of layout.now.nets) }
    ensures tiles { IfOk result (λ measure. measure.tiles ≡ layout_tiles layout.now) }
    ensures node_count { IfOk result (λ measure. measure.node_count ≡ node_count layout.now.nets) }
    ensures tile_count { IfOk result (λ measure. measure.tile_count ≡ tile_total (drawn_nets layout.now)) }
    ensures extractable { IfOk result (λ _. IsExtractable layout.now rules.now) }
    ensures clear { IfOk result (λ _. start_refusal layout.now rules.now ≡ None) }
    ensures few { IfOk result (λ _. node_count layout.now.nets ≤ 2 ^ 22) }
    ensures fault { IfErr result (IsStartFault layout.now rules.now) }
{
    layout.facts();
    if let Some(refusal) = missing_rules(layout, rules) {
        return Err(Fault::Refused(refusal));
    }
    let measure = match measured(alloc, layout) {
        Ok(measure) => measure,
        Err(fault) => return Err(fault),
    };
    match refuse_short(alloc, layout) {
        Ok(()) => Ok(measure),
        Err(fault) => Err(fault),
    }
}
