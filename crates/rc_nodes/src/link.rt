//! The vias of a net between the nodes of their ends.
ghost use Rattle.std.specs.Prelude.{◌≡◌, ◌≤◌, ◌^◌, ◌↔◌, length, Contains, MatchOption, IfOk};
ghost use Rattle.rc_nodes.specs.declared.link.ViaLink.{ViaLink};
ghost use Rattle.rc_nodes.specs.Nodes.{AreInOrder};
ghost use Rattle.rc_nodes.specs.Vias.{IsLinkAt, IsLink, links_of};

use crate::Node;
use crate::find::number_of;
use rc_fixed::NoMemory;
use rc_geom::Pt;
use rc_lef::Via;
use std::alloc::Global;

/// A via between two nodes, by their numbers, the node of its lower layer first.
#[derive(Clone, Copy, Debug, PartialEq, Eq, PartialOrd, Ord)]
pub struct ViaLink {
    pub lower: u32,
    pub upper: u32,
    pub via: u32,
}

/// A via at a point between the nodes of its two ends, if they are nodes.
fn link_at(nodes: &[Node], vias: &[Via], number: u32, at: Pt) -> Option<ViaLink>
    requires order { AreInOrder nodes.now }
    requires few { length nodes.now ≤ 2 ^ 22 }
    ensures { MatchOption result ((link : ViaLink) → ¬ IsLinkAt nodes.now vias.now (number, at) link) (λ found. (link : ViaLink) → IsLinkAt nodes.now vias.now (number, at) link ↔ (found ≡ link)) }
{
    if number as usize >= vias.len() {
        return None;
    }
    let via = &vias[number as usize];
    let (lower, upper) = (via.lower, via.upper);
    let Some(lower) = number_of(nodes, Node { layer: lower, at }) else {
        return None;
    };
    let Some(upper) = number_of(nodes, Node { layer: upper, at }) else {
        return None;
    };
    Some(ViaLink {
        lower,
        upper,
        via: number,
    })
}

/// The placed vias of a net, one after another.
fn all_links(
    alloc: Global,
    nodes: &[Node],
    vias: &[Via],
    placed: &[(u32, Pt)],
) -> Result<Vec<ViaLink>, NoMemory>
    requires order { AreInOrder nodes.now }
    requires few { length nodes.now ≤ 2 ^ 22 }
    ensures { IfOk result (λ links. (link : ViaLink) → Contains links.items link ↔ IsLink nodes.now vias.now placed.now link) }
{
    let mut links = Vec::new(alloc);
    for k in 0..placed.len() {
        let (number, at) = placed[k];
        if let Some(link) = link_at(nodes, vias, number, at) {
            links.push(link)?;
        }
    }
    Ok(links)
}

/// The placed vias of a net between the nodes of their ends, each once at each point, by the lower node, the upper node and
/// the via.
pub fn via_links(
    alloc: Global,
    nodes: &[Node],
    vias: &[Via],
    placed: &[(u32, Pt)],
) -> Result<Vec<ViaLink>, NoMemory>
    requires order { AreInOrder nodes.now }
    requires few { length nodes.now ≤ 2 ^ 22 }
    ensures { IfOk result (λ links. links.items ≡ links_of vias.now placed.now nodes.now) }
{
    let mut links = all_links(alloc, nodes, vias, placed)?;
    links.sort_unstable();
    links.dedup();
    Ok(links)
}
