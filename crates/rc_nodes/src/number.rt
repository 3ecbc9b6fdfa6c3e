//! The nodes of a net in the order of their numbers.
ghost use Rattle.std.specs.Prelude.{◌≡◌, ◌≤◌, ◌<◌, IfErr, IfOk, MatchResult, length};
ghost use Rattle.rc_layout.specs.Nets.{IsWellFormed};
ghost use Rattle.rc_nodes.specs.Nodes.{nodes_of, point_nodes, AreInOrder, AreNodes, IsNodesFault};

use crate::Node;
use crate::crossing::add_crossings;
use rc_fixed::{List, NoMemory};
use rc_keys::{Fault, Quantity, Refusal};
use rc_layout::Net;
use std::alloc::Global;

/// The points of a net as nodes, with repeats.
fn point_places(alloc: Global, net: &Net) -> Result<Vec<Node>, NoMemory>
    ensures { IfOk result (λ nodes. nodes.items ≡ point_nodes net.now) }
{
    let points = net.points.items();
    let mut nodes = Vec::with_capacity(alloc, points.len())?;
    for (layer, at) in points {
        nodes.push(Node {
            layer: *layer,
            at: *at,
        })?;
    }
    Ok(nodes)
}

/// The nodes of a net; no longer looked for once there are more than `room`.
fn all_nodes(alloc: Global, net: &Net, room: u32) -> Result<Vec<Node>, Fault>
    requires { IsWellFormed net.now }
    ensures is { IfOk result (λ nodes. nodes.items ≡ nodes_of net.now) }
    ensures order { IfOk result (λ nodes. AreInOrder nodes.items) }
    ensures fault { IfErr result (IsNodesFault room net.now) }
{
    let mut nodes = point_places(alloc, net)?;
    add_crossings(alloc, &mut nodes, net.items.items(), room)?;
    nodes.sort_unstable();
    nodes.dedup();
    Ok(nodes)
}

/// The nodes of a net in the order of their numbers, as one that isn't grounded: the points of its paths, both ends of its
/// vias, and each point that a horizontal and a vertical centreline share on a layer.
///
/// # Errors
///
/// `Limit { Nodes }` exactly where there are more nodes than `room`; `NoMemory` for want of memory.
pub fn nodes(alloc: Global, net: &Net, room: u32) -> Result<List<Node>, Fault>
    requires { IsWellFormed net.now }
    ensures nodes { MatchResult result (λ nodes. (nodes ≡ nodes_of net.now) × (length nodes ≤ room)) (IsNodesFault room net.now) }
    ensures order { IfOk result AreInOrder }
    ensures words { IfOk result (AreNodes net.now) }
{
    let nodes = all_nodes(alloc, net, room)?;
    if nodes.len() > room as usize {
        return Err(Fault::Refused(Refusal::Limit {
            what: Quantity::Nodes,
        }));
    }
    Ok(List::from_vec(nodes))
}
